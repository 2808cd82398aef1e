//! varnishtop: how often each record stands in a log.
//!
//! Groups go in; once they have ended, a report comes out: one line for each different tag and text among the shown records,
//! with its count, the highest first. What is kept is the counts: a key that was counted before takes no memory.
//!
//! Start with `specs/Report.antt`. Source: varnishtop(1).
#![tactic(auto)]

mod alone;
mod consumer;
mod counts;
mod hashing;
mod key;
mod laws;
mod line;

pub use consumer::TopConsumer;
pub use laws::reports_add_up;
