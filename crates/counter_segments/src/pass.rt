//! A pass: the right to add, and what was added by it.

ghost use Rattle.std.specs.Prelude.{◌≡◌, ◌+◌, ◌<◌, ◌≤◌, length, OnOk, OnErr};
ghost use Rattle.counter_segments.specs.Sums.{counter_count, ceiling, own_sum, with_added};

use crate::COUNTERS;
use crate::counters::Counters;
use crate::rule::{Adding, View};
use atomic_table::Seat;
use std::marker::Model;
use thiserror::Error;

/// The most that a pass may add to a counter, in all.
const CEILING: u64 = 1 << 56;

/// Why nothing is added.
#[derive(Clone, Copy, Debug, PartialEq, Eq, Error)]
pub enum AddFault {
    /// The pass would have added more than 2^56 to the counter, in all.
    #[error("counter would pass its ceiling")]
    Ceiling,
}

/// A pass to some counters. Contracts see which counters they are, and what the pass added to each.
#[derive(Drop)]
pub struct CounterPass {
    pub(crate) seat: Seat<u64, View>,
    pub(crate) sums: [u64; COUNTERS as usize],
}

impl Model for CounterPass {
    ghost use Rattle.counter_segments.specs.Sums.{PassSums};
    ghost use Rattle.counter_segments.specs.inside.Rule.{IsOnePass};

    ghost Value = { PassSums };

    ghost view = { λ p. record { counters = record { table = p.seat.table_id; passes = p.seat.me.0.all }; sums = p.sums } };

    ghost invariant = { λ p. IsOnePass p.seat.me p.sums };
}

impl CounterPass {
    /// Adds to a counter, in one step. Counters are numbered from 0.
    pub fn add(&mut self, counters: &Counters, which: u32, n: u64) -> Result<(), AddFault>
        requires counter { which < counter_count }
        requires ours { self.old.counters ≡ counters.now }
        ensures added { OnOk result (self.new ≡ with_added which n self.old) }
        ensures accepted { OnOk result (own_sum which self.old + n ≤ ceiling) }
        ensures refused { OnErr result (ceiling < own_sum which self.old + n) }
        ensures kept { OnErr result (self.new ≡ self.old) }
        ensures whole { length self.old.sums ≡ counter_count }
    {
        let own = self.sums[which as usize];
        if n > CEILING - own {
            return Err(AddFault::Ceiling);
        }
        counters
            .table
            .shared
            .fetch_add::<Adding>(&mut self.seat, which as usize, n);
        self.sums[which as usize] = own + n;
        Ok(())
    }
}
