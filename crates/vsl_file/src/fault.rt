//! Why the next unit of a file can't be given.

ghost use Rattle.std.specs.Prelude.{◌≡◌};
ghost use Rattle.vsl_file.specs.declared.fault.StepFault.TheVariants as step_faults;

use std::alloc::AllocError;
use vio::{Failed, NoMemory};

/// Why the next unit of a file can't be given.
#[derive(Clone, Copy, Debug, PartialEq, Eq)]
pub enum FileFault {
    /// The file is no log.
    NotALog {
        /// The first byte at which the file begins as no version's header, or its length where it ends inside one.
        at: u64,
    },
    /// A unit isn't whole and correct.
    Damaged {
        /// The byte where the unit begins.
        at: u64,
    },
    /// The file has more than 2^40 bytes, and the first 2^40 of them end with a whole unit or may be cut inside one.
    TooLarge,
    /// A read failed, and the world counted it.
    ReadFault,
    /// There was no memory.
    NoMemory,
    /// An earlier call answered a fault.
    FailedBefore,
}

/// Why a step of the reader is refused.
#[derive(Clone, Copy, Debug, PartialEq, Eq)]
pub(crate) enum StepFault {
    /// A read failed, and the world counted it.
    Failed,
    /// There was no memory.
    NoMemory,
}

impl From<Failed> for StepFault {
    ghost from_gives = { λ _ e. e ≡ step_faults.Failed };

    fn from(_e: Failed) -> StepFault {
        StepFault::Failed
    }
}

impl From<AllocError> for StepFault {
    ghost from_gives = { λ _ e. e ≡ step_faults.NoMemory };

    fn from(_e: AllocError) -> StepFault {
        StepFault::NoMemory
    }
}

impl From<NoMemory> for StepFault {
    ghost from_gives = { λ _ e. e ≡ step_faults.NoMemory };

    fn from(_e: NoMemory) -> StepFault {
        StepFault::NoMemory
    }
}
