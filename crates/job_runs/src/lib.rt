//! The run of a job, by what it takes its units from: a log, or feeds, in turns or on threads; or the counters of feeds.
//!
//! What the steps of a job found goes in. The items of a source go to the output of the job, by the one loop of `one_run`;
//! what comes out is what was taken, and the fault at which it ended. A run is a row: a source, what is due, and how its
//! end is answered. The message of a fault isn't written here.
//!
//! Start with `specs/Rows.antt` and `specs/Sources.antt`. Source: varnishlog(1), varnishstat(1); the rest is this
//! project's choice.
#![tactic(auto)]

mod convert;
mod counters;
mod feeds;
mod laws;
mod live;
mod log;
mod output;
mod record;

pub use convert::convert_log;
pub use counters::{print_counters, print_live_counters};
pub use feeds::print_feeds;
pub use laws::{
    a_list_of_one_is_alone, converted_logs_are_written, faults_have_failed_calls,
    feeds_are_written, short_runs_are_part, told_logs_are_written,
};
pub use live::print_live;
pub use log::print_log;
pub use record::{Ran, RunRecord};
