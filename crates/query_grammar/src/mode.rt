//! Where in a line the reading is.

/// What may stand next.
#[derive(Clone, Copy, Debug, PartialEq, Eq)]
pub enum Mode {
    /// A unary.
    BeforeUnary,
    /// An operator, or what may stand behind a unary.
    AfterCriterion,
    /// What a subject is compared with.
    BeforeOperand,
    /// `and`, `or`, a closing parenthesis or the line's end.
    AfterUnary,
}

/// What waits for the unary behind it.
#[derive(Clone, Copy, Debug, PartialEq, Eq)]
pub enum Waiting {
    /// A parenthesis that is open.
    Open,
    /// A `not`.
    Not,
    /// The query before an `and`.
    And,
    /// The query before an `or`.
    Or,
}
