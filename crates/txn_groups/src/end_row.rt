//! Ends of transactions.

ghost use Rattle.std.specs.Prelude.{◌≡◌, ℕ, List, Some, OnOk, OnErr};
ghost use Rattle.txn_rows.specs.Grouping.{ended_one};
ghost use Rattle.query_parser.specs.declared.query.Query.{Query as AsQuery};
ghost use Rattle.txn_groups.specs.Groups.{chosen};
ghost use Rattle.txn_groups.specs.inside.Indexed.{newest_in};
ghost use Rattle.txn_groups.specs.inside.Held.{state_of, IsHeld};
ghost use Rattle.txn_groups.specs.inside.Marked.{queries_of, AreMarked};
ghost use Rattle.txn_groups.specs.inside.Leaves.{WentBy};

use crate::askers::Askers;
use crate::end::end_node;
use crate::forest::last_of;
use crate::leave::leave;
use crate::node::is_ended;
use crate::pending::Pending;
use log_model::NoMemory;
use query_eval::Chosen;
use std::alloc::Global;
use txn_rows::Grouping;

/// The newest node of a VXID ends, where it hasn't yet, and may complete a group.
pub fn end_row(
    alloc: Global,
    grouping: Grouping,
    pending: &mut Pending,
    at: usize,
    askers: &Askers<'_>,
    out: &mut Vec<Chosen>,
) -> Result<(), NoMemory>
    ensures ok { (queries : List AsQuery) (vxid : ℕ) → IsHeld pending.old →
        newest_in pending.old.index vxid ≡ Some at → queries_of askers.now ≡ queries →
        AreMarked queries pending.old.nodes.items →
        OnOk result (WentBy (chosen queries) grouping
        (ended_one vxid (state_of pending.old)) pending.new out.old.items out.new.items) }
    ensures marks { (queries : List AsQuery) (vxid : ℕ) → IsHeld pending.old →
        newest_in pending.old.index vxid ≡ Some at → queries_of askers.now ≡ queries →
        AreMarked queries pending.old.nodes.items →
        OnOk result (AreMarked queries pending.new.nodes.items) }
    ensures err { OnErr result (out.new.items ≡ out.old.items) }
{
    let last = last_of(&pending.nodes, pending.rows, at);
    if is_ended(&pending.nodes, at) {
        return leave(alloc, grouping, pending, last, askers, out);
    }
    end_node(&mut pending.nodes, at, last);
    leave(alloc, grouping, pending, last, askers, out)
}
