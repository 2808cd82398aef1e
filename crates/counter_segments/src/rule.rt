//! What the shared words are, as the proofs see it. No value of these types is made.

use atomic_table::{Join, Play, Split, TableRule};
use std::collections::LinkedList;

/// What a seat says of itself.
pub struct View {
    /// How many passes the counters have.
    pub all: u64,
    /// For how many of them the seat stands.
    pub passes: u64,
    /// What these added to each counter.
    pub sums: LinkedList<u64>,
}

/// Each word is the sum of what all seats say that they added there.
pub struct CounterRule;

impl TableRule<u64, View, u64> for CounterRule {
    ghost use Rattle.counter_segments.specs.inside.Rule.{IsSummed, first_view};

    ghost holds = { IsSummed };

    ghost first = { first_view };
}

/// A step that adds to a counter.
pub struct Adding;

impl Play<u64, View> for Adding {
    ghost use Rattle.counter_segments.specs.inside.Rule.{Adds};

    ghost then = { Adds };
}

/// A step that looks at a counter.
pub struct Looking;

impl Play<u64, View> for Looking {
    ghost use Rattle.counter_segments.specs.inside.Rule.{Looks};

    ghost then = { Looks };
}

/// A seat gives one of its passes to a new seat.
pub struct OnePass;

impl Split<View> for OnePass {
    ghost use Rattle.counter_segments.specs.inside.Rule.{without_one, one_of};

    ghost left = { without_one };

    ghost right = { one_of };
}

/// A seat takes in what another stands for.
pub struct Together;

impl Join<View> for Together {
    ghost use Rattle.counter_segments.specs.inside.Rule.{both_views, no_view};

    ghost both = { both_views };

    ghost spent = { no_view };
}
