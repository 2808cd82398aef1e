//! Want of memory: the one error that all crates share, by itself and beside the faults of a call.

ghost use Rattle.std.specs.Prelude.{◌≡◌};

use std::alloc::{AllocError, AllocFailed};
use thiserror::Error;

/// There was no memory for a value.
#[derive(Clone, Copy, Debug, PartialEq, Eq, Error)]
#[error("out of memory")]
pub struct NoMemory;

impl From<AllocError> for NoMemory {
    fn from(_e: AllocError) -> NoMemory {
        NoMemory
    }
}

impl<T: Drop> From<AllocFailed<T>> for NoMemory {
    fn from(_e: AllocFailed<T>) -> NoMemory {
        NoMemory
    }
}

/// Why a call stopped: by a fault, of which it has its own kinds, or for want of memory.
#[derive(Debug, Drop)]
pub enum Halt<F> {
    /// A fault.
    Fault(F),
    /// There was no memory.
    NoMemory,
}

impl<F> From<NoMemory> for Halt<F> {
    ghost use Rattle.log_model.specs.declared.fault.Halt.TheVariants as halts;

    ghost from_gives = { λ _ halt. halt ≡ halts.NoMemory };

    fn from(_e: NoMemory) -> Halt<F> {
        Halt::NoMemory
    }
}

impl<F> From<AllocError> for Halt<F> {
    ghost use Rattle.log_model.specs.declared.fault.Halt.TheVariants as halts;

    ghost from_gives = { λ _ halt. halt ≡ halts.NoMemory };

    fn from(_e: AllocError) -> Halt<F> {
        Halt::NoMemory
    }
}

impl<T: Drop, F> From<AllocFailed<T>> for Halt<F> {
    ghost use Rattle.log_model.specs.declared.fault.Halt.TheVariants as halts;

    ghost from_gives = { λ _ halt. halt ≡ halts.NoMemory };

    fn from(_e: AllocFailed<T>) -> Halt<F> {
        Halt::NoMemory
    }
}
