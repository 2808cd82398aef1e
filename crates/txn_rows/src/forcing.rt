//! Force-completing transactions one after another.

ghost use Rattle.std.specs.Prelude.{◌≡◌, OnOk, OnErr};
ghost use Rattle.txn_rows.specs.Grouping.{forced_all, after_overflow, force, flush};
ghost use Rattle.txn_rows.specs.Store.{WentBy, AddsPart, IsOrdered, test_of};

use crate::group::{Cause, Grouping};
use crate::store::Store;
use crate::which::Which;
use log_model::NoMemory;

/// Force-completes those transactions, the oldest first, and adds the groups that they complete.
pub(crate) fn force_all<S: Store>(
    store: &mut S,
    grouping: Grouping,
    which: Which,
    cause: Cause,
    out: &mut Vec<S::Left>,
) -> Result<(), NoMemory>
    ensures ok { (key : S.Key) → IsOrdered (S.holds key) S.state store.old →
        OnOk result (WentBy (S.holds key) S.state (S.hand key) grouping
        (forced_all (test_of which) cause
        (S.state store.old)) store.new out.old.items out.new.items) }
    ensures err { (key : S.Key) → IsOrdered (S.holds key) S.state store.old →
        OnErr result (AddsPart (S.hand key) grouping
        (forced_all (test_of which) cause (S.state store.old)) out.old.items out.new.items) }
{
    let most = store.rows();
    for i in 0..most {
        if !store.force_one(grouping, which, cause, out)? {
            return Ok(());
        }
    }
    Ok(())
}

/// While more transactions than the limit are pending, force-completes the oldest that has not ended.
pub(crate) fn keep_within<S: Store>(
    store: &mut S,
    grouping: Grouping,
    limit: u32,
    out: &mut Vec<S::Left>,
) -> Result<(), NoMemory>
    ensures ok { (key : S.Key) → IsOrdered (S.holds key) S.state store.old →
        OnOk result (WentBy (S.holds key) S.state (S.hand key) grouping
        (after_overflow limit (S.state store.old)) store.new out.old.items out.new.items) }
    ensures err { (key : S.Key) → IsOrdered (S.holds key) S.state store.old →
        OnErr result (AddsPart (S.hand key) grouping
        (after_overflow limit (S.state store.old)) out.old.items out.new.items) }
{
    let most = store.rows();
    for i in 0..most {
        if store.rows() <= limit as usize {
            return Ok(());
        }
        if !store.force_one(grouping, Which::Unfinished, Cause::Overflow, out)? {
            return Ok(());
        }
    }
    Ok(())
}

/// Force-completes the oldest transaction that has not ended, and adds the group that it completes.
pub fn force_oldest<S: Store>(
    store: &mut S,
    grouping: Grouping,
    cause: Cause,
    out: &mut Vec<S::Left>,
) -> Result<(), NoMemory>
    ensures ok { (key : S.Key) → IsOrdered (S.holds key) S.state store.old →
        OnOk result (WentBy (S.holds key) S.state (S.hand key) grouping
        (force cause (S.state store.old)) store.new out.old.items out.new.items) }
    ensures err { OnErr result (out.new.items ≡ out.old.items) }
{
    store.force_one(grouping, Which::Unfinished, cause, out)?;
    Ok(())
}

/// Force-completes every transaction that has not ended, the oldest first, and adds the groups that they complete.
pub fn flush_all<S: Store>(
    store: &mut S,
    grouping: Grouping,
    out: &mut Vec<S::Left>,
) -> Result<(), NoMemory>
    ensures ok { (key : S.Key) → IsOrdered (S.holds key) S.state store.old →
        OnOk result (WentBy (S.holds key) S.state (S.hand key) grouping
        (flush (S.state store.old)) store.new out.old.items out.new.items) }
    ensures err { (key : S.Key) → IsOrdered (S.holds key) S.state store.old →
        OnErr result (AddsPart (S.hand key) grouping
        (flush (S.state store.old)) out.old.items out.new.items) }
{
    force_all(store, grouping, Which::Unfinished, Cause::Flush, out)
}
