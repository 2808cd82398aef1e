//! Feeds that are put into a ring and read from it, in a stated order.
//!
//! Writers and a reader have their turns on one thread: feed after feed and then the reader, or in turns that a seed
//! chooses. What the log and the reader's history come to is defined over the line of places alone. `Replay` has these
//! turns, and answers what the reader meets: units, and overruns with what they cost, one after the other. It takes
//! memory when it is made, and none after, and it copies no unit but into the ring and out of it. `count_feeds` has the
//! writers' turns where nobody reads, and answers what the counters come to.
//!
//! Start with `specs/Schedule.antt` and `specs/Replaying.antt`, and with `specs/Unread.antt` for turns that nobody reads.
//! All of it is this project's choice.
#![tactic(auto)]

mod counting;
mod laws;
mod replay;

pub use counting::count_feeds;
pub use laws::{every_schedule_ends, every_writing_ends, schedules_are_read_whole};
pub use replay::{Advanced, Replay};
