//! The steps of a query.

/// A step of a query over tests of this kind: a test, or an operator behind its operands.
#[derive(Debug, Drop)]
pub enum StepOver<A> {
    /// A test.
    Test(A),
    /// `not`.
    Not,
    /// `and`.
    And,
    /// `or`.
    Or,
}
