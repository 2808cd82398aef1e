//! How a run ended.

ghost use Rattle.std.specs.Prelude.{◌≡◌};
ghost use Rattle.vslog.specs.Theorem.{settled, status_of};

use crate::words::UsageFault;
use varnish_log::{Copied, LogFault};

/// Why a log wasn't copied, or not to its end.
#[derive(Clone, Copy, Debug, PartialEq, Eq)]
pub enum RunFault {
    /// The log can't be opened.
    NoInput,
    /// The file that is to be written can't be opened.
    NoOutput,
    /// The header of what is written couldn't be written.
    NoHeader,
    /// Copying stopped.
    Log(LogFault),
    /// Copying is strict, and the end of the log cuts a part, of which so many bytes came.
    CutShort { left: usize },
}

/// How a run ended.
#[derive(Clone, Copy, Debug, PartialEq, Eq)]
pub enum Ended {
    /// The words state no job.
    Refused(UsageFault),
    /// It stopped.
    Stopped(RunFault),
    /// The log was copied to its end.
    Done(Copied),
}

/// The exit status: 0 done, 1 the input or the outside failed, 2 the words were refused.
pub fn status_of(ended: Ended) -> u8
    ensures { result ≡ status_of ended }
{
    match ended {
        Ended::Done(_) => 0,
        Ended::Stopped(_) => 1,
        Ended::Refused(_) => 2,
    }
}

/// How a run ended that copied a log: where copying is strict, an end that cuts a part stops it.
pub fn settled(strict: bool, copied: Copied) -> Ended
    ensures { result ≡ settled strict copied }
{
    if strict {
        if copied.left > 0 {
            return Ended::Stopped(RunFault::CutShort { left: copied.left });
        }
    }
    Ended::Done(copied)
}
