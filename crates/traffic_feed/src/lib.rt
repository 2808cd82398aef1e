//! Traffic for the ring: listings of records, traffic that is made, whose turn it is, and the counting of what is put.
//!
//! The bytes of a listing go in, lines as `varnishlog -g raw` prints them; its units come out, and how often a batch was cut, or the
//! first line that is bad. `generate` makes the units of requests from a seed, as if a listing of them were read. `Turns` draws whose
//! turn it is. A listing is never read in part, and no line takes memory but for its payload. `count_unit` adds to the counters what
//! a unit raises them by, and takes no memory.
//!
//! Lines are read by `raw_records`. Start with `specs/Batches.antt` and `specs/Listing.antt`; for traffic that is made with `specs/Made.antt`,
//! for the counters with `specs/Counted.antt`, for workers with `specs/Feeding.antt` and `specs/Workers.antt`.
//! Source: varnishlog(1), `-g raw`, and varnish-counters(7), `MAIN.`; where a unit ends, the draws, the traffic that is made,
//! and what raises which counter are this project's choice.
#![tactic(auto)]

mod begun_unit;
mod counting;
mod fault;
mod feeding;
mod gate;
mod gathering;
mod laws;
mod listing;
mod maker;
mod raises;
mod requests;
mod shares;
mod traffic;
mod turns;
mod units;
mod waiting;
mod worker;

pub use counting::{count_cuts, count_unit, count_waits, count_wraps};
pub use fault::ListFault;
pub use feeding::{Fed, feed};
pub use gate::{Gate, OpenGate};
pub use laws::{
    each_record_once, every_listing, made_traffic_is_within, one_listing, raw_lines_read_back,
    units_are_longest,
};
pub use listing::{Listing, read_listing};
pub use traffic::generate;
pub use turns::Turns;
pub use units::Units;
pub use worker::{Worker, run_workers};
