//! Tests: which records are selected, and what is asked of each.

use crate::literal::Literal;
use crate::operator::Comparison;
use vsl_decimal::Decimal;
use vsl_pattern::Pattern;
use vsl_tags::TagSet;

/// How a member's level is compared.
#[derive(Clone, Copy, Debug, PartialEq, Eq)]
pub enum Bound {
    /// `{n}`: that level.
    Exactly,
    /// `{n+}`: that level or a greater one.
    AtLeast,
    /// `{n-}`: that level or a smaller one.
    AtMost,
}

/// A level of a criterion.
#[derive(Clone, Copy, Debug, PartialEq, Eq)]
pub struct Level {
    /// 0 to 9,999.
    pub number: u32,
    pub bound: Bound,
}

/// Which records a test selects (vsl-query(7), "Record selection criteria").
#[derive(Debug, Drop)]
pub struct Criterion {
    pub level: Option<Level>,
    pub tags: TagSet,
    /// What stands before a colon in the payload.
    pub prefix: Option<Literal>,
    /// Which field of the payload is asked, from 1 to 9,999.
    pub field: Option<u32>,
}

/// What is asked of a selected record (vsl-query(7), "Operator" and "Operand").
#[derive(Debug, Drop)]
pub enum Check {
    /// Nothing more.
    Selected,
    /// A comparison with a number.
    Number {
        comparison: Comparison,
        operand: Decimal,
        /// Whether integral parts are compared, since the operand has no period.
        whole: bool,
    },
    /// Whether the bytes are those of a text.
    Text {
        /// `eq`, or else `ne`.
        equal: bool,
        /// Whether the case of ASCII letters doesn't count.
        caseless: bool,
        operand: Literal,
    },
    /// Whether a pattern matches somewhere.
    Pattern {
        /// `~`, or else `!~`.
        matches: bool,
        pattern: Pattern,
    },
}

/// A test of a query.
#[derive(Debug, Drop)]
pub struct Test {
    pub criterion: Criterion,
    pub check: Check,
}
