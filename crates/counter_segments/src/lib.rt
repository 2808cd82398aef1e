//! Counters that several passes add to, on any threads, and what they come to at the end.
//!
//! There are 21 counters, in words that all passes share, and 1 to 17 passes. A pass adds to a counter in one step and
//! keeps what it added; it may ask what a counter has come to. At the end all passes are given back, and each counter
//! is the sum of what they added. Nothing but opening and closing takes memory, and nothing waits.
//!
//! Start with `specs/Sums.antt`. All of it is this project's choice.
#![tactic(auto)]

mod counters;
mod pass;
mod rule;
mod values;

pub use counters::{Counters, OpenCounters, close, load};
pub use pass::{AddFault, CounterPass};
pub use values::Values;

/// How many counters there are.
pub const COUNTERS: u32 = 21;
