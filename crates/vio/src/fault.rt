//! Why a call of a world, or a whole read or write, is refused.

ghost use Rattle.std.specs.Prelude.{◌≡◌};
ghost use Rattle.vio.specs.declared.fault.WorldFault.TheVariants as world_faults;
ghost use Rattle.vio.specs.declared.fault.WholeFault.TheVariants as whole_faults;

use log_model::NoMemory;
use std::alloc::{AllocError, AllocFailed};
use thiserror::Error;

/// A read failed, and the world counted it.
#[derive(Clone, Copy, Debug, PartialEq, Eq, Error)]
#[error("the call failed")]
pub struct Failed;

/// Why a call of a world is refused.
#[derive(Clone, Copy, Debug, PartialEq, Eq, Error)]
pub enum WorldFault {
    /// The call failed, and the world counted it.
    #[error("the call failed")]
    Failed,
    /// The world had no memory for the call; this is never counted.
    #[error("out of memory")]
    NoMemory,
}

/// Why a whole read is refused.
#[derive(Clone, Copy, Debug, PartialEq, Eq, Error)]
pub enum WholeFault {
    /// A read failed, and the world counted it.
    #[error("a read failed")]
    Failed,
    /// More bytes than the limit were left.
    #[error("more bytes than the limit")]
    TooLarge,
    /// There was no memory for the bytes.
    #[error("out of memory")]
    NoMemory,
}

/// Why a file isn't read whole by its name.
#[derive(Clone, Copy, Debug, PartialEq, Eq, Error)]
pub enum NamedFault {
    /// The file can't be opened, and the world counted it.
    #[error("the file can't be opened")]
    NoOpen,
    /// A read failed, and the world counted it.
    #[error("a read failed")]
    Failed,
    /// The file has more bytes than the limit.
    #[error("more bytes than the limit")]
    TooLarge,
}

impl From<AllocError> for WorldFault {
    ghost from_gives = { λ _ e. e ≡ world_faults.NoMemory };

    fn from(_e: AllocError) -> WorldFault {
        WorldFault::NoMemory
    }
}

impl<T: Drop> From<AllocFailed<T>> for WorldFault {
    ghost from_gives = { λ _ e. e ≡ world_faults.NoMemory };

    fn from(_e: AllocFailed<T>) -> WorldFault {
        WorldFault::NoMemory
    }
}

impl From<NoMemory> for WorldFault {
    ghost from_gives = { λ _ e. e ≡ world_faults.NoMemory };

    fn from(_e: NoMemory) -> WorldFault {
        WorldFault::NoMemory
    }
}

impl From<AllocError> for WholeFault {
    ghost from_gives = { λ _ e. e ≡ whole_faults.NoMemory };

    fn from(_e: AllocError) -> WholeFault {
        WholeFault::NoMemory
    }
}

impl From<Failed> for WholeFault {
    ghost from_gives = { λ _ e. e ≡ whole_faults.Failed };

    fn from(_e: Failed) -> WholeFault {
        WholeFault::Failed
    }
}
