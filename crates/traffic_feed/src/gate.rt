//! Gates, which a test closes to hold threads that share a ring.

ghost use Rattle.std.specs.Prelude.{ℕ};

use std::sync::Wait;

/// It is asked before each put and each call of the reader of threads that share a ring, and may wait.
pub trait Gate: Sync {
    /// It was asked before this worker's put of the unit of this number.
    ghost was_asked: { Self → ℕ → ℕ → Type 0 } = { λ _ _ _. Unit {0} };

    /// Before a worker puts a unit of its listing. Both are counted from 0.
    fn before_put<R: Wait>(&self, rt: &R, worker: u32, unit: u64)
        ensures { was_asked self.now worker unit };

    /// Before a call of the reader, counted from 0.
    fn before_read<R: Wait>(&self, rt: &R, call: u64);
}

/// A gate that holds nobody.
#[derive(Clone, Copy, Debug, PartialEq, Eq)]
pub struct OpenGate;

impl Gate for OpenGate {
    fn before_put<R: Wait>(&self, _rt: &R, _worker: u32, _unit: u64) {}

    fn before_read<R: Wait>(&self, _rt: &R, _call: u64) {}
}
