//! The counters: opened for so many passes, asked, and closed when all passes are given back.

ghost use Rattle.std.specs.Prelude.{◌≡◌, ℕ, ◌+◌, ◌-◌, ◌*◌, ◌<◌, ◌≤◌, [], replicate, vec_len, IfOk};
ghost use Rattle.counter_segments.specs.Sums.{counter_count, ceiling, most_passes, own_sum, new_pass, total, totals, AreOf};
ghost use Rattle.counter_segments.specs.inside.Rule.{IsFresh, without_one, sum_of};
ghost use Rattle.counter_segments.specs.inside.Steps.{IsWhole};

use crate::COUNTERS;
use crate::pass::CounterPass;
use crate::rule::{CounterRule, Looking, OnePass, Together, View};
use crate::values::Values;
use atomic_table::{Seat, Table};
use log_model::NoMemory;
use std::alloc::Global;
use std::marker::Model;

/// Counters that passes add to, and that threads may share. Contracts see which they are, and how many passes they have.
#[derive(Drop)]
pub struct Counters {
    pub(crate) table: Table<u64, View, u64, CounterRule, Global>,
}

impl Model for Counters {
    ghost use Rattle.std.specs.Prelude.{◌≡◌, ◌<◌};
    ghost use Rattle.counter_segments.specs.Sums.{CounterSet, counter_count};

    ghost Value = { CounterSet };

    ghost view = { λ c. record { table = c.table.shared.table_id; passes = c.table.shared.key } };

    ghost invariant = { λ c. (c.table.shared.table_id.words ≡ counter_count) × (0 < c.table.shared.key) };
}

/// Counters, and all their passes.
#[derive(Drop)]
pub struct OpenCounters {
    pub counters: Counters,
    pub passes: Vec<CounterPass>,
}

impl Counters {
    /// Counters at 0, with 1 to 17 passes.
    pub fn new(alloc: Global, passes: u32) -> Result<OpenCounters, NoMemory>
        requires some { 0 < passes }
        requires few { passes ≤ most_passes }
        ensures count { IfOk result (λ made. made.counters.passes ≡ passes) }
        ensures passes { IfOk result (λ made. made.passes.items ≡ replicate passes (new_pass made.counters)) }
    {
        let mut all = Vec::with_capacity(alloc, passes as usize)?;
        let (table, mut seat) = Table::of_words(
            alloc,
            &[0; COUNTERS as usize],
            &u64::from(passes),
        )?;
        let counters = Counters { table };
        for _ in 1..passes {
            all.push_reserved(counters.split(&mut seat));
        }
        all.push_reserved(CounterPass {
            seat,
            sums: [0; COUNTERS as usize],
        });
        Ok(OpenCounters {
            counters,
            passes: all,
        })
    }

    /// A new pass, out of a seat that stands for more than one.
    fn split(&self, seat: &mut Seat<u64, View>) -> CounterPass
        requires ours { seat.old.table_id ≡ self.now.table }
        requires all { seat.old.me.0.all ≡ self.now.passes }
        requires fresh { IsFresh seat.old.me }
        requires many { 1 < seat.old.me.0.passes }
        ensures pass { result ≡ new_pass self.now }
        ensures same { seat.new.table_id ≡ seat.old.table_id }
        ensures seat { seat.new.me ≡ (without_one seat.old.me.0, []) }
    {
        let one = self.table.shared.split_seat::<OnePass>(seat);
        CounterPass {
            seat: one,
            sums: [0; COUNTERS as usize],
        }
    }

    /// What a counter came to, by a seat that stands for all passes.
    fn settled(&self, seat: &mut Seat<u64, View>, which: u32) -> u64
        requires counter { which < counter_count }
        requires whole { IsWhole self.now seat.old.table_id seat.old.me.0 }
        ensures sum { result ≡ sum_of which seat.old.me.0 }
        ensures kept { (seat.new.table_id ≡ seat.old.table_id) × (seat.new.me ≡ seat.old.me) }
    {
        self.table.shared.load::<Looking>(seat, which as usize)
    }
}

/// What a counter has come to: all that this pass added, and at most 2^56 from each of the others.
pub fn load(counters: &Counters, pass: &mut CounterPass, which: u32) -> u64
    requires counter { which < counter_count }
    requires ours { pass.old.counters ≡ counters.now }
    ensures least { own_sum which pass.old ≤ result }
    ensures most { result ≤ own_sum which pass.old + ceiling * (counters.now.passes - 1) }
    ensures kept { pass.new ≡ pass.old }
{
    counters
        .table
        .shared
        .load::<Looking>(&mut pass.seat, which as usize)
}

/// One seat that stands for all passes.
fn join_all(counters: &Counters, mut passes: Vec<CounterPass>) -> Seat<u64, View>
    requires ours { AreOf counters.now passes.items }
    requires all { vec_len passes ≡ counters.now.passes }
    ensures whole { IsWhole counters.now result.table_id result.me.0 }
    ensures sums { (which : ℕ) → sum_of which result.me.0 ≡ total which passes.items }
{
    let words = &counters.table.shared;
    let Some(first) = passes.pop() else {
        unreachable!();
    };
    let mut seat = first.seat;
    while let Some(pass) = passes.pop() {
        words.join_seat::<Together>(&mut seat, pass.seat);
    }
    seat
}

/// What the counters came to: of each, the sum of what all passes added to it.
pub fn close(
    alloc: Global,
    counters: Counters,
    passes: Vec<CounterPass>,
) -> Result<Values, NoMemory>
    requires ours { AreOf counters passes.items }
    requires all { vec_len passes ≡ counters.passes }
    ensures { IfOk result (λ values. values ≡ totals passes.items) }
{
    let mut values = Vec::with_capacity(alloc, COUNTERS as usize)?;
    let mut seat = join_all(&counters, passes);
    for which in 0..COUNTERS {
        values.push_reserved(counters.settled(&mut seat, which));
    }
    Ok(Values { values })
}
