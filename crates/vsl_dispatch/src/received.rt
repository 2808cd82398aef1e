//! How many groups a consumer received.

ghost use Rattle.std.specs.Prelude.{◌≡◌, ◌≢◌, ℕ, ◌+◌, Ok, Some, OnOk};
ghost use Rattle.vsl_dispatch.specs.Received.{HasReceived};

use crate::consumer::Go;
use log_model::NoMemory;

/// How many groups a consumer keeps, where there is a limit, and how many it received. Where there is none they aren't counted.
#[derive(Clone, Copy, Debug, PartialEq, Eq)]
pub struct Received {
    pub keep: Option<u32>,
    pub count: u64,
}

impl Received {
    /// None yet.
    pub fn new(keep: Option<u32>) -> Received
        ensures keep { result.keep ≡ keep }
        ensures none { HasReceived result 0 }
    {
        Received { keep, count: 0 }
    }

    /// One group more: done with the last that is kept. A count above 2^64 - 1 is answered as want of memory.
    pub fn add_one(&mut self) -> Result<Go, NoMemory>
        ensures keep { self.new.keep ≡ self.old.keep }
        ensures counts { OnOk result ((n : ℕ) → HasReceived self.old n →
            HasReceived self.new (n + 1)) }
        ensures last { result ≡ Ok Go.Done → (n : ℕ) → HasReceived self.old n →
            self.old.keep ≡ Some (n + 1) }
        ensures more { result ≡ Ok Go.More → (n : ℕ) → HasReceived self.old n →
            self.old.keep ≢ Some (n + 1) }
    {
        let Some(keep) = self.keep else {
            return Ok(Go::More);
        };
        self.count = self.count.checked_add(1).ok_or(NoMemory)?;
        if u64::from(keep) == self.count {
            Ok(Go::Done)
        } else {
            Ok(Go::More)
        }
    }
}
