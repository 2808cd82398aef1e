//! By how much a unit raises each counter.

ghost use Rattle.std.specs.Prelude.{◌≡◌, ◌≢◌, ◌+◌, ◌*◌, ◌^◌, ◌<◌, ◌≤◌, ℕ, length, slice_get, slice_index, slice_set};
ghost use Rattle.std.specs.List.{sum_by};
ghost use Rattle.counter_segments.specs.Sums.{counter_count};
ghost use Rattle.traffic_feed.specs.Counted.{causes, unit_share};
ghost use Rattle.traffic_feed.specs.inside.Raises.{raise_at};

use crate::raises::raised;
use counter_segments::COUNTERS;
use vsl_record::{RecordView, RecordsView, Unit};
use vsl_tags::named::{
    BACKEND_OPEN, BEGIN, FETCH_ERROR, HIT, HIT_MISS, HIT_PASS, REQ_ACCT, SESS_OPEN, VCL_CALL,
};

/// A number for each counter.
type Sums = [u64; COUNTERS as usize];

/// The number of the counter that each record raises by one.
const RECORDS: u32 = 16;

/// The number of the counter that each unit raises by one.
const UNITS: u32 = 17;

/// Adds to a counter's sum what a record raises the counter by.
fn add_raise(sums: &mut Sums, which: u32, rec: &RecordView<'_>)
    requires counter { which < counter_count }
    requires low { slice_index sums.old which < 2 ^ 63 }
    ensures { sums.new ≡ slice_set sums.old which
        (slice_index sums.old which + raise_at (slice_get causes which) rec.now) }
{
    sums[which as usize] += raised(which, rec);
}

/// Adds to each counter's sum what a record raises the counter by. Only the counters that its tag may raise are asked.
fn add_raises(sums: &mut Sums, rec: &RecordView<'_>)
    requires low { (which : ℕ) → which < counter_count → slice_index sums.old which < 2 ^ 63 }
    ensures { (which : ℕ) → which < counter_count → slice_index sums.new which
        ≡ slice_index sums.old which + raise_at (slice_get causes which) rec.now }
{
    add_raise(sums, RECORDS, rec);
    match rec.tag().number() {
        SESS_OPEN => add_raise(sums, 0, rec),
        BACKEND_OPEN => add_raise(sums, 6, rec),
        FETCH_ERROR => add_raise(sums, 8, rec),
        HIT => add_raise(sums, 2, rec),
        HIT_PASS => add_raise(sums, 3, rec),
        HIT_MISS => add_raise(sums, 4, rec),
        BEGIN => {
            add_raise(sums, 1, rec);
            add_raise(sums, 7, rec);
        }
        VCL_CALL => {
            add_raise(sums, 5, rec);
            add_raise(sums, 9, rec);
            add_raise(sums, 10, rec);
            add_raise(sums, 11, rec);
        }
        REQ_ACCT => {
            add_raise(sums, 12, rec);
            add_raise(sums, 13, rec);
            add_raise(sums, 14, rec);
            add_raise(sums, 15, rec);
        }
        _ => {}
    }
}

/// By how much records raise each counter, in all.
fn raised_by_all(records: &RecordsView<'_>) -> Sums
    requires few { length records.now < 2 ^ 20 }
    ensures { (which : ℕ) → which < counter_count →
        slice_index result which ≡ sum_by (raise_at (slice_get causes which)) records.now }
{
    let mut sums = [0; COUNTERS as usize];
    for i in 0..records.len() {
        add_raises(&mut sums, &records.get(i));
    }
    sums
}

/// By how much a unit raises each counter.
#[tactic(auto, using(crate::proofs::CountedLemmas::records_few))]
pub(crate) fn shares(unit: &Unit) -> Sums
    ensures shares { (which : ℕ) → which < counter_count →
        slice_index result which ≡ unit_share which unit.now }
    ensures small { (which : ℕ) → which < counter_count → slice_index result which ≤ 2 ^ 52 }
{
    let mut sums = raised_by_all(&unit.records());
    sums[UNITS as usize] += 1;
    sums
}
