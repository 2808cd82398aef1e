//! Why a record, a unit or words are refused.

ghost use Rattle.std.specs.Prelude.{◌≡◌};
ghost use Rattle.vsl_record.specs.declared.fault.RecordFault.TheVariants as record_faults;
ghost use Rattle.vsl_record.specs.declared.fault.WordFault.TheVariants as word_faults;

use std::alloc::{AllocError, AllocFailed};
use thiserror::Error;

/// Why a record is refused.
#[derive(Clone, Copy, Debug, PartialEq, Eq, Error)]
pub enum RecordFault {
    /// The payload has so many bytes, more than 4,000.
    #[error("payload of {bytes} bytes")]
    TooLong {
        /// How many bytes the payload has.
        bytes: u64,
    },
    /// There was no memory for the payload.
    #[error("out of memory")]
    NoMemory,
}

/// Why a unit is refused.
#[derive(Clone, Copy, Debug, PartialEq, Eq, Error)]
pub enum UnitFault {
    /// The unit has no record.
    #[error("unit without a record")]
    Empty,
    /// The unit has so many words, more than 2,097,152.
    #[error("unit of {words} words")]
    TooLong {
        /// How many words the unit has, or 2^64 - 1 where it has more than that.
        words: u64,
    },
}

/// Why words begin with no unit: the first fault that reading them meets. `at` is the place of the word
/// where it shows: how many words stand before it, counted from the unit's header word.
#[derive(Clone, Copy, Debug, PartialEq, Eq, Error)]
pub enum WordFault {
    /// There is no word, or there are fewer words than the unit's header counts.
    #[error("too few words")]
    Short,
    /// The unit's header has another top byte than 0xFE, or a record's number is no tag's.
    #[error("word {at}: bad tag")]
    BadTag {
        /// The unit's header, 0, or the record's first word.
        at: u64,
    },
    /// The unit's header counts fewer words than the shortest unit has, 4, or more than 2,097,152 (in
    /// version 1: 3 and 1,048,576), a record's length is past 4,000 bytes, or the record passes the
    /// unit's end.
    #[error("word {at}: bad length")]
    BadLength {
        /// The unit's header, 0, or the record's first word.
        at: u64,
    },
    /// The first record has both marks.
    #[error("word {at}: bad mark")]
    BadMark {
        /// The last word of its id, the record's third word (in version 1: its second).
        at: u64,
    },
    /// A later record has another VXID or another mark than the first.
    #[error("word {at}: another transaction or mark than the first record's")]
    Mixed {
        /// The first word of its id that differs, the record's second or third word.
        at: u64,
    },
    /// A byte that fills the last word of a payload is not zero.
    #[error("word {at}: bad padding")]
    BadPadding {
        /// The last word of the payload.
        at: u64,
    },
    /// There was no memory for the unit.
    #[error("out of memory")]
    NoMemory,
}

impl From<AllocError> for RecordFault {
    ghost from_gives = { λ _ fault. fault ≡ record_faults.NoMemory };

    fn from(_error: AllocError) -> RecordFault {
        RecordFault::NoMemory
    }
}

impl From<AllocError> for WordFault {
    ghost from_gives = { λ _ fault. fault ≡ word_faults.NoMemory };

    fn from(_error: AllocError) -> WordFault {
        WordFault::NoMemory
    }
}

impl<T: Drop> From<AllocFailed<T>> for WordFault {
    ghost from_gives = { λ _ fault. fault ≡ word_faults.NoMemory };

    fn from(_failed: AllocFailed<T>) -> WordFault {
        WordFault::NoMemory
    }
}
