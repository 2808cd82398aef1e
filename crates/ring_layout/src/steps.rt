//! What the calls of a ring answer.

use thiserror::Error;

/// What a cursor found.
#[derive(Clone, Copy, Debug, PartialEq, Eq)]
pub enum Step {
    /// A unit, which it took.
    Took,
    /// The tail: a unit may come.
    NotYet {
        /// Where the cursor stands.
        place: u64,
    },
    /// The tail, and no unit will come.
    Ended,
    /// The writers came too near, and the cursor takes nothing until it seeks.
    Lost {
        /// The segment where the cursor stands.
        at: u64,
        /// The segment that the writers had come to.
        seen: u64,
    },
}

/// Where a cursor that was overrun stands after it sought.
#[derive(Clone, Copy, Debug, PartialEq, Eq)]
pub enum Sought {
    At {
        segment: u64,
        place: u64,
        /// How many units of the log start before it.
        number: u64,
    },
    /// The writers came too near again.
    Lost {
        /// The segment that was sought.
        at: u64,
        /// The segment that the writers had come to.
        seen: u64,
    },
}

/// Why a unit isn't put.
#[derive(Clone, Copy, Debug, PartialEq, Eq, Error)]
pub enum PutFault {
    /// It has more words than a segment.
    #[error("unit of {words} words is longer than a segment")]
    TooLong {
        /// How many words it has.
        words: u64,
    },
    /// Another writer is putting a unit.
    #[error("another writer is putting a unit")]
    Busy,
    /// The ring has no place behind its tail.
    #[error("ring ends at place {tail}")]
    Exhausted {
        /// The tail.
        tail: u64,
    },
}
