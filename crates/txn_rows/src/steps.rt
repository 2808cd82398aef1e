//! Records one after another.

ghost use Rattle.std.specs.Prelude.{◌≡◌, OnOk, OnErr};
ghost use Rattle.txn_rows.specs.Grouping.{passes_over, steps, unit_step};
ghost use Rattle.txn_rows.specs.Store.{WentBy, AddsPart, IsOrdered};

use crate::group::{GroupOptions, Grouping};
use crate::store::Store;
use crate::take::take_some;
use crate::whole::{take_whole, whole_time};
use log_model::NoMemory;
use vsl_record::{RecordsView, Unit, Vxid};

/// Takes records of one VXID in order, and adds the groups that they complete.
pub(crate) fn take_records<S: Store>(
    options: GroupOptions,
    store: &mut S,
    vxid: Vxid,
    records: &RecordsView<'_>,
    out: &mut Vec<S::Left>,
) -> Result<(), NoMemory>
    ensures ok { (key : S.Key) → IsOrdered (S.holds key) S.state store.old →
        OnOk result (WentBy (S.holds key) S.state (S.hand key) options.grouping
        (steps options vxid records.now (S.state store.old)) store.new out.old.items out.new.items) }
    ensures err { (key : S.Key) → IsOrdered (S.holds key) S.state store.old →
        OnErr result (AddsPart (S.hand key) options.grouping
        (steps options vxid records.now (S.state store.old)) out.old.items out.new.items) }
{
    let mut known = None;
    let mut begin = true;
    let (_, mut rest) = records.split_at(0);
    while !rest.is_empty() {
        let (count, place) = take_some(options, store, vxid, known, begin, &rest, out)?;
        let (_, behind) = rest.split_at(count);
        rest = behind;
        known = place;
        begin = false;
    }
    Ok(())
}

/// Whether a grouping passes over a unit's records: all but raw pass over those of no transaction.
fn passes_over(grouping: Grouping, vxid: Vxid) -> bool
    ensures { result ≡ passes_over grouping vxid }
{
    grouping != Grouping::Raw && vxid == 0
}

/// Takes the records of a unit in order, and adds the groups that they complete. One that is a whole transaction is taken
/// at once, where its group can leave so.
pub fn take_unit<S: Store>(
    options: GroupOptions,
    store: &mut S,
    unit: &Unit,
    out: &mut Vec<S::Left>,
) -> Result<(), NoMemory>
    ensures ok { (key : S.Key) → IsOrdered (S.holds key) S.state store.old →
        OnOk result (WentBy (S.holds key) S.state (S.hand key) options.grouping
        (unit_step options unit.now (S.state store.old)) store.new out.old.items out.new.items) }
    ensures err { (key : S.Key) → IsOrdered (S.holds key) S.state store.old →
        OnErr result (AddsPart (S.hand key) options.grouping
        (unit_step options unit.now (S.state store.old)) out.old.items out.new.items) }
{
    if passes_over(options.grouping, unit.vxid()) {
        return Ok(());
    }
    if let Some(time) = whole_time(options, store, unit) {
        return take_whole(store, unit, time, out);
    }
    take_records(options, store, unit.vxid(), &unit.records(), out)
}
