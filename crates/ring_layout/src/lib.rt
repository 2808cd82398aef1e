//! Places of a ring: where units of a log lie, which words stand there, and what a reader takes of them.
//!
//! A ring has eight segments of as many words each, and its units lie on a line of places without an end, a word in
//! the place's remainder. These definitions serve the ring on one thread and the ring that threads share: what a ring
//! has for a log, what a put in progress has stored, and what a reader may have taken.
//!
//! Start with `specs/Places.antt`, then `specs/Content.antt` and `specs/History.antt`. All of it is this project's choice.
#![tactic(auto)]

mod history;
mod item;
mod laws;
mod shape;
mod steps;
mod words;

pub use history::{HistoryItem, Run};
pub use item::Item;
pub use laws::constants_are_defined;
pub use shape::{Placed, Shape, place_after, segment_of};
pub use steps::{PutFault, Sought, Step};
pub use words::{WORD, copy_words, read_word, write_unit, write_word};

/// How many segments a ring has.
pub const SEGMENTS: usize = 8;

/// The fewest words of a unit: those of one record without a payload.
pub const FEWEST_WORDS: u32 = 4;

/// A cursor is overrun where the writers came so many segments ahead of its own.
pub const OVERRUN_DISTANCE: u64 = 6;

/// A cursor that was overrun goes on so many segments behind the writers'.
pub const SEEK_DISTANCE: u64 = 4;

/// The word behind the last unit.
pub const END_MARK: u32 = 0x454E_444D;

/// The word at a tail from which a unit wrapped.
pub const WRAP_MARK: u32 = 0x5752_4150;
