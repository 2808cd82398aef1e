//! Why a listing is refused.

ghost use Rattle.std.specs.Prelude.{◌≡◌};
ghost use Rattle.traffic_feed.specs.declared.fault.ListFault.TheVariants as list_faults;

use log_model::NoMemory;
use thiserror::Error;

/// Why a listing is refused.
#[derive(Clone, Copy, Debug, PartialEq, Eq, Error)]
pub enum ListFault {
    /// A line is bad: it is neither blank, nor a comment, nor a record's.
    #[error("bad line {line}")]
    BadLine {
        /// The first line that is bad, counted from 1.
        line: u64,
    },
    /// There was no memory for the listing.
    #[error("out of memory")]
    NoMemory,
}

impl From<NoMemory> for ListFault {
    ghost from_gives = { λ _ fault. fault ≡ list_faults.NoMemory };

    fn from(_e: NoMemory) -> ListFault {
        ListFault::NoMemory
    }
}
