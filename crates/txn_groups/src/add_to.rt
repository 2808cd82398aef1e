//! Records go to a pending transaction.

ghost use Rattle.std.specs.Prelude.{◌≡◌, ℕ, Some, OnOk};
ghost use Rattle.txn_rows.specs.Transaction.{with_newest, with_record, with_kind, longer_by};
ghost use Rattle.txn_rows.specs.Claim.{own_claim};
ghost use Rattle.txn_rows.specs.inside.Rows.{with_one};
ghost use Rattle.txn_groups.specs.inside.Told.{told_at};
ghost use Rattle.txn_groups.specs.inside.Retold.{AreChanged};
ghost use Rattle.txn_groups.specs.inside.Indexed.{newest_in};
ghost use Rattle.txn_groups.specs.inside.Held.{state_of, IsHeld, Went};

use crate::add::{add_at, add_run_at};
use crate::pending::Pending;
use log_model::NoMemory;
use txn_rows::Claim;
use vsl_record::{RecordView, RecordsView};

/// Adds a record to the newest node of its VXID; a Begin may tell its kind. Where the node has no
/// records, room is made for those at hand.
pub fn add_to(
    pending: &mut Pending,
    at: usize,
    rec: &RecordView<'_>,
    claim: Option<Claim>,
    at_hand: &RecordsView<'_>,
) -> Result<(), NoMemory>
    requires claim { claim ≡ own_claim rec.now }
    ensures went { (vxid : ℕ) → IsHeld pending.old → newest_in pending.old.index vxid ≡ Some at →
        OnOk result (Went (record
        (state_of pending.old) {
          pending =
              with_kind vxid rec.now (with_record vxid rec.now (state_of pending.old).pending);
        })
        pending.new) }
    ensures index { pending.new.index ≡ pending.old.index }
    ensures changed { OnOk result
        (AreChanged (told_at (with_one rec.now) at) pending.old.nodes.items pending.new.nodes.items) }
{
    add_at(&mut pending.nodes, at, rec, claim, at_hand)
}

/// Adds records that tell nothing but themselves to the newest node of their VXID.
pub fn add_run(pending: &mut Pending, at: usize, run: &RecordsView<'_>) -> Result<(), NoMemory>
    ensures went { (vxid : ℕ) → IsHeld pending.old → newest_in pending.old.index vxid ≡ Some at →
        OnOk result (Went (record
        (state_of pending.old) {
          pending =
              with_newest vxid (longer_by run.now) (state_of pending.old).pending;
        }) pending.new) }
    ensures index { pending.new.index ≡ pending.old.index }
    ensures changed { OnOk result
        (AreChanged (told_at (longer_by run.now) at) pending.old.nodes.items
        pending.new.nodes.items) }
{
    add_run_at(&mut pending.nodes, at, run)
}
