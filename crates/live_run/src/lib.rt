//! A run over a ring that threads share: workers put listings into it while a reader's run takes them out.
//!
//! Listings come in, with what a run needs, and out comes how the run ended, and the closed ring, in which all passes
//! are joined: the run met a history of its log. Or nobody reads, and out come the counters. All memory of the ring,
//! the passes and what workers leave is taken before the first thread begins; workers run to their end however the run
//! ends, and are joined before a call returns. The reader's run is on the caller's thread.
//!
//! Start with `specs/Runs.antt`. All of it is this project's choice.
#![tactic(auto)]

mod beside;
mod closing;
mod laws;
mod opening;
mod running;

pub use laws::counts_are_of_the_log;
pub use running::{CountEnded, LiveEnded, count_live, run_live};
