//! Why the text of a format is refused.

use log_model::NoMemory;
use thiserror::Error;

/// Why the text of a format is refused.
#[derive(Clone, Copy, Debug, PartialEq, Eq, Error)]
pub enum FormatFault {
    /// A percent sign begins no formatter.
    #[error("no formatter at byte {at}")]
    BadFormat {
        /// The byte of the first such percent sign, from 0.
        at: u64,
    },
    /// There was no memory for the format.
    #[error("out of memory")]
    NoMemory,
}

impl From<NoMemory> for FormatFault {
    ghost use Rattle.std.specs.Prelude.{◌≡◌};
    ghost use Rattle.ncsa_format.specs.declared.fault.FormatFault.TheVariants as faults;

    ghost from_gives = { λ _ fault. fault ≡ faults.NoMemory };

    fn from(_error: NoMemory) -> FormatFault {
        FormatFault::NoMemory
    }
}
