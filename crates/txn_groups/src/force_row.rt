//! Force-completions of transactions.

ghost use Rattle.std.specs.Prelude.{◌≡◌, ℕ, Bool, List, false, Some, OnOk, OnErr};
ghost use Rattle.txn_rows.specs.Transaction.{Transaction, oldest};
ghost use Rattle.txn_rows.specs.Grouping.{forced_one};
ghost use Rattle.query_parser.specs.declared.query.Query.{Query as AsQuery};
ghost use Rattle.txn_groups.specs.declared.node.Node.{Node as AsNode};
ghost use Rattle.txn_groups.specs.Groups.{chosen};
ghost use Rattle.txn_groups.specs.inside.Nodes.{StandsAt, transaction_of_node};
ghost use Rattle.txn_groups.specs.inside.Held.{state_of, IsHeld};
ghost use Rattle.txn_groups.specs.inside.Marked.{queries_of, AreMarked, IsAhead};
ghost use Rattle.txn_groups.specs.inside.Leaves.{WentBy};

use crate::askers::Askers;
use crate::end::force_node;
use crate::forest::last_of;
use crate::leave::leave;
use crate::pending::Pending;
use log_model::NoMemory;
use query_eval::Chosen;
use std::alloc::Global;
use txn_rows::{Cause, Grouping};

/// The transaction of the node at a place, the oldest that passes a test, is force-completed, and may complete a group.
/// The marks of the node are those of the records that it gets by that.
pub fn force_at(
    alloc: Global,
    grouping: Grouping,
    pending: &mut Pending,
    at: usize,
    cause: Cause,
    askers: &Askers<'_>,
    out: &mut Vec<Chosen>,
) -> Result<(), NoMemory>
    ensures ok { (queries : List AsQuery) (test : Transaction → Bool) (x : AsNode) →
        IsHeld pending.old → StandsAt pending.old.nodes.items at x → x.ended ≡ false →
        oldest test (state_of pending.old).pending ≡ Some (transaction_of_node x) →
        queries_of askers.now ≡ queries → IsAhead queries cause at pending.old.nodes.items →
        OnOk result (WentBy (chosen queries) grouping
        (forced_one test cause (state_of pending.old)) pending.new out.old.items out.new.items) }
    ensures marks { (queries : List AsQuery) (x : AsNode) → IsHeld pending.old →
        StandsAt pending.old.nodes.items at x → x.ended ≡ false → queries_of askers.now ≡ queries →
        IsAhead queries cause at pending.old.nodes.items →
        OnOk result (AreMarked queries pending.new.nodes.items) }
    ensures err { OnErr result (out.new.items ≡ out.old.items) }
{
    let last = last_of(&pending.nodes, pending.rows, at);
    force_node(alloc, &mut pending.nodes, at, last, cause)?;
    leave(alloc, grouping, pending, last, askers, out)
}
