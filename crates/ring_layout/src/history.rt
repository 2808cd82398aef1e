//! What a reader took of a ring. Contracts alone speak of these.

use std::collections::LinkedList;

/// Units that followed one another.
#[derive(Drop)]
pub struct Run<U> {
    pub segment: u64,
    /// The number of the first unit, from 0.
    pub first: u64,
    /// How many units of the log were missed before it.
    pub missed: u64,
    pub units: LinkedList<U>,
}

/// What a reader took, or that it was overrun.
#[derive(Drop)]
pub enum HistoryItem<U> {
    UnitRun(Run<U>),
    /// The segment where the reader stood, and the counter that it saw.
    Overrun(u64, u64),
}
