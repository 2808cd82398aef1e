//! Transactions that lie whole in a unit: each becomes a group at once.

ghost use Rattle.std.specs.Prelude.{◌≡◌, ◌≤◌, true, length, IfSome, OnOk, OnErr};
ghost use Rattle.txn_rows.specs.Grouping.{steps};
ghost use Rattle.txn_rows.specs.Store.{Went, WentBy, IsOrdered};
ghost use Rattle.txn_rows.specs.inside.Quiet.{AreQuiet};
ghost use Rattle.txn_rows.specs.inside.Whole.{HasEnds, IsWhole, inside_of};

use crate::group::{GroupOptions, Grouping};
use crate::run::time_behind;
use crate::store::Store;
use log_model::NoMemory;
use vsl_record::{RecordsView, Unit};
use vsl_tags::Tag;

/// Fewer records are taken one by one: to look whether they are a whole transaction would cost more than it saves.
const FEWEST: usize = 4;

/// Whether there are enough records, the first is a Begin and the last an End.
#[inline(always)]
fn has_ends(records: &RecordsView<'_>) -> bool
    ensures { result ≡ true → HasEnds records.now }
{
    let count = records.len();
    if count < FEWEST {
        return false;
    }
    if records.tag(0) != Tag::BEGIN {
        return false;
    }
    records.tag(count - 1) == Tag::END
}

/// The log time behind the records between the first and the last, where these disturb nothing and none is late up to a
/// log time. It is told that before.
fn time_inside(
    grouping: Grouping,
    records: &RecordsView<'_>,
    last: Option<u128>,
    before: Option<u128>,
) -> Option<Option<u128>>
    requires { 2 ≤ length records.now }
    ensures { IfSome result (λ time.
        AreQuiet grouping last before time (inside_of records.now)) }
{
    let mut time = before;
    for i in 1..records.len() - 1 {
        let Some(now) = time_behind(grouping, records, i, last, time) else {
            return None;
        };
        time = now;
    }
    Some(time)
}

/// Where a unit begins and ends a transaction and each is a group by itself: whether it can leave at once, and then the log
/// time behind it.
#[inline(never)]
fn time_of_whole<S: Store>(
    options: GroupOptions,
    store: &mut S,
    unit: &Unit,
) -> Option<Option<u128>>
    requires grouping { options.grouping ≡ Grouping.Vxid }
    requires has_ends { HasEnds unit.now.records }
    ensures whole { (key : S.Key) → IsOrdered (S.holds key) S.state store.old →
        IfSome result (λ time. IsWhole options (S.state store.old) time unit.now) }
    ensures went { (key : S.Key) → S.holds key store.old →
        Went (S.holds key) S.state (S.state store.old) store.new }
{
    if store.rows() >= options.limit as usize || store.newest(unit.vxid()).is_some() {
        return None;
    }
    let before = store.time();
    let last = store.last_in_time(options.timeout);
    time_inside(options.grouping, &unit.records(), last, before)
}

/// Whether a unit is a whole transaction that can leave at once, where each is a group by itself; then the log time behind
/// it.
#[inline(always)]
pub(crate) fn whole_time<S: Store>(
    options: GroupOptions,
    store: &mut S,
    unit: &Unit,
) -> Option<Option<u128>>
    ensures whole { (key : S.Key) → IsOrdered (S.holds key) S.state store.old →
        IfSome result (λ time. IsWhole options (S.state store.old) time unit.now) }
    ensures went { (key : S.Key) → S.holds key store.old →
        Went (S.holds key) S.state (S.state store.old) store.new }
{
    if options.grouping != Grouping::Vxid || !has_ends(&unit.records()) {
        return None;
    }
    time_of_whole(options, store, unit)
}

/// Takes a unit that is a whole transaction, and adds its group. It is told the log time behind it.
#[inline(never)]
pub(crate) fn take_whole<S: Store>(
    store: &mut S,
    unit: &Unit,
    time: Option<u128>,
    out: &mut Vec<S::Left>,
) -> Result<(), NoMemory>
    ensures ok { (key : S.Key) (options : GroupOptions) →
        IsOrdered (S.holds key) S.state store.old →
        IsWhole options (S.state store.old) time unit.now →
        OnOk result (WentBy (S.holds key) S.state (S.hand key) options.grouping
        (steps options unit.now.vxid unit.now.records
        (S.state store.old)) store.new out.old.items out.new.items) }
    ensures err { OnErr result (out.new.items ≡ out.old.items) }
{
    store.hand_whole(unit.vxid(), &unit.records(), out)?;
    store.raise(time);
    Ok(())
}
