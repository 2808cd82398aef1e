//! Counting what is put into a ring.

ghost use Rattle.std.specs.Prelude.{◌≡◌, ◌≢◌, ◌+◌, ◌^◌, ◌<◌, ◌≤◌, ℕ, length, slice_get};
ghost use Rattle.counter_segments.specs.Sums.{counter_count, ceiling, own_sum};
ghost use Rattle.traffic_feed.specs.Counted.{causes, cut_raise, unit_share, wait_raise, wrap_raise};

use crate::shares::shares;
use counter_segments::{CounterPass, Counters};
use vsl_record::Unit;

/// The number of the counter that cuts raise; units and their records raise those before it.
const CUTS: u32 = 18;

/// The number of the counter that waits raise.
const WAITS: u32 = 19;

/// The number of the counter that wraps raise.
const WRAPS: u32 = 20;

/// Adds to a counter that stays within its ceiling.
fn add(counts: &mut CounterPass, counters: &Counters, which: u32, n: u64)
    requires counter { which < counter_count }
    requires ours { counts.old.counters ≡ counters.now }
    requires low { own_sum which counts.old + n ≤ ceiling }
    ensures same { counts.new.counters ≡ counts.old.counters }
    ensures whole { length counts.new.sums ≡ length counts.old.sums }
    ensures added { own_sum which counts.new ≡ own_sum which counts.old + n }
    ensures others { (other : ℕ) → other ≢ which →
        own_sum other counts.new ≡ own_sum other counts.old }
{
    if n == 0 {
        return;
    }
    let Ok(()) = counts.add(counters, which, n) else {
        unreachable!()
    };
}

/// Counts a unit that was put: adds to each counter what the unit raises it by, but cuts, waits and wraps.
///
/// Source: varnish-counters(7), `MAIN.`; what raises which counter is this project's choice.
pub fn count_unit(counts: &mut CounterPass, counters: &Counters, unit: &Unit)
    requires ours { counts.old.counters ≡ counters.now }
    requires low { (which : ℕ) → which < counter_count → own_sum which counts.old < 2 ^ 55 }
    ensures same { counts.new.counters ≡ counts.old.counters }
    ensures whole { length counts.new.sums ≡ length counts.old.sums }
    ensures counted { (which : ℕ) → which < counter_count →
        own_sum which counts.new ≡ own_sum which counts.old + unit_share which unit.now }
{
    let shares = shares(unit);
    for which in 0..CUTS {
        add(counts, counters, which, shares[which as usize]);
    }
}

/// Counts the cuts of a listing.
///
/// Source: this project's choice.
pub fn count_cuts(counts: &mut CounterPass, counters: &Counters, cuts: u64)
    requires ours { counts.old.counters ≡ counters.now }
    requires low { own_sum 18 counts.old + cuts ≤ ceiling }
    ensures same { counts.new.counters ≡ counts.old.counters }
    ensures whole { length counts.new.sums ≡ length counts.old.sums }
    ensures counted { (which : ℕ) → which < counter_count → own_sum which counts.new
        ≡ own_sum which counts.old + cut_raise (slice_get causes which) cuts }
{
    add(counts, counters, CUTS, cuts);
}

/// Counts how often a writer waited for another.
///
/// Source: this project's choice.
pub fn count_waits(counts: &mut CounterPass, counters: &Counters, waits: u64)
    requires ours { counts.old.counters ≡ counters.now }
    requires low { own_sum 19 counts.old + waits ≤ ceiling }
    ensures same { counts.new.counters ≡ counts.old.counters }
    ensures whole { length counts.new.sums ≡ length counts.old.sums }
    ensures counted { (which : ℕ) → which < counter_count → own_sum which counts.new
        ≡ own_sum which counts.old + wait_raise (slice_get causes which) waits }
{
    add(counts, counters, WAITS, waits);
}

/// Counts the units that wrapped in a ring.
///
/// Source: this project's choice.
pub fn count_wraps(counts: &mut CounterPass, counters: &Counters, wraps: u64)
    requires ours { counts.old.counters ≡ counters.now }
    requires low { own_sum 20 counts.old + wraps ≤ ceiling }
    ensures same { counts.new.counters ≡ counts.old.counters }
    ensures whole { length counts.new.sums ≡ length counts.old.sums }
    ensures counted { (which : ℕ) → which < counter_count → own_sum which counts.new
        ≡ own_sum which counts.old + wrap_raise (slice_get causes which) wraps }
{
    add(counts, counters, WRAPS, wraps);
}
