//! A ring that threads share: a log in a fixed number of words, writers that put units, and readers that take them.
//!
//! One writer at a time has the write token, a word of the ring; readers only load. A reader copies a unit and then looks
//! at the counter: where the writers came six segments ahead it was overrun, and goes on four segments behind them. No
//! call but `Ring::new` takes memory, and `put` alone waits. `close` takes all passes back: contracts say that the log,
//! which no program holds, is an interleaving of what the writers put, and what each reader took of it.
//!
//! Start with `README.md`, then `specs/Writers.antt`, `Readers.antt` and `Closed.antt`. All of it is this project's choice.
#![tactic(auto)]

mod closing;
mod copying;
mod loading;
mod opening;
mod pause;
mod reader;
mod reading_rule;
mod ring;
mod rule;
mod storing;
mod writer;

pub use closing::{ClosedRing, close};
pub use opening::Opened;
pub use pause::{NoPause, Pause};
pub use reader::ReaderPass;
pub use ring::Ring;
pub use writer::{LeftWriter, WriterPass};
