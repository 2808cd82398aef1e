//! Why a query is refused.

ghost use Rattle.std.specs.Prelude.{◌≡◌};

use std::alloc::{AllocError, AllocFailed};
use thiserror::Error;

/// Why a query's text is refused. A place is a byte of the text, from 0.
#[derive(Clone, Copy, Debug, PartialEq, Eq, Error)]
pub enum QueryFault {
    /// No query goes on at this byte, or the text or a line ends too early there, or it is no UTF-8.
    #[error("query syntax at byte {at}")]
    Syntax {
        /// The byte, or the end of the line or the text.
        at: u64,
    },
    /// A name is that of no tag and matches none.
    #[error("unknown tag at byte {at}")]
    UnknownTag {
        /// The byte where the name begins.
        at: u64,
    },
    /// A level, a field or the operand of a comparison of numbers is out of range or no number.
    #[error("bad number at byte {at}")]
    Number {
        /// The byte where the digits or the operand begin.
        at: u64,
    },
    /// An operand is no good pattern.
    #[error("bad pattern at byte {at}")]
    Pattern {
        /// The byte where the operand begins.
        at: u64,
    },
    /// More than 64 parentheses and `not`s are open at once.
    #[error("query too deep at byte {at}")]
    Deep {
        /// The byte of the parenthesis or `not` that is one too many.
        at: u64,
    },
    /// There was no memory for the query, or a pattern's tables would be larger than the crate `regex` makes them.
    #[error("out of memory")]
    NoMemory,
}

impl From<AllocError> for QueryFault {
    ghost use Rattle.query_parser.specs.declared.fault.QueryFault.TheVariants.{NoMemory};

    ghost from_gives = { λ _ fault. fault ≡ NoMemory };

    fn from(_error: AllocError) -> QueryFault {
        QueryFault::NoMemory
    }
}

impl<T: Drop> From<AllocFailed<T>> for QueryFault {
    ghost use Rattle.query_parser.specs.declared.fault.QueryFault.TheVariants.{NoMemory};

    ghost from_gives = { λ _ fault. fault ≡ NoMemory };

    fn from(_failed: AllocFailed<T>) -> QueryFault {
        QueryFault::NoMemory
    }
}
