//! A call that is stopped between two of its steps.

/// What is done between the steps of a call. It may do anything that doesn't use the pass of that call.
pub trait Pause {
    /// Is called before each step, whose number is counted from 0 in the call.
    fn at(&mut self, step: u64);
}

/// Nothing is done between the steps.
#[derive(Clone, Copy)]
pub struct NoPause;

impl Pause for NoPause {
    fn at(&mut self, _step: u64) {}
}

/// Stops before the next step.
pub(crate) fn stop<P: Pause>(pause: &mut P, step: &mut u64) {
    pause.at(*step);
    *step = step.wrapping_add(1);
}
