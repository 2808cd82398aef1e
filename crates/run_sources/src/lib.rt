//! The sources of a run: a log file that is read in pieces, feeds that are replayed over a ring, a ring that threads share,
//! and units that are at hand.
//!
//! Each meets `one_run::Source` with the bytes, the turns, the reader or the units that its items came of. What reads a
//! shared ring may wait, and asks a gate before each call, so that a test can hold it. Start with `specs/Sources.antt`, then
//! `specs/Live.antt`.
#![tactic(auto)]

mod feed_items;
mod file_items;
mod laws;
mod live_items;
mod unit_items;

pub use feed_items::FeedItems;
pub use file_items::{FileItems, FileStop};
pub use laws::items_are_the_history;
pub use live_items::LiveItems;
pub use unit_items::UnitItems;
