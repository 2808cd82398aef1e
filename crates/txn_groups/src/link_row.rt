//! A claim on two pending transactions.

ghost use Rattle.std.specs.Prelude.{◌≡◌, ℕ, Some};
ghost use Rattle.txn_rows.specs.Links.{with_link};
ghost use Rattle.txn_groups.specs.inside.Indexed.{newest_in};
ghost use Rattle.txn_groups.specs.inside.Held.{state_of, IsHeld, Went};
ghost use Rattle.txn_groups.specs.inside.Marked.{KeepMarks};

use crate::claim::linking_of;
use crate::link::link_nodes;
use crate::pending::Pending;

/// The newest node of one VXID becomes a child of the newest of another, where it can.
pub fn link_row(pending: &mut Pending, below: usize, above: usize)
    ensures went { (child parent : ℕ) → IsHeld pending.old →
        newest_in pending.old.index child ≡ Some below →
        newest_in pending.old.index parent ≡ Some above →
        Went (record (state_of pending.old) {
          pending =
              with_link child parent (state_of pending.old).pending;
        }) pending.new }
    ensures index { pending.new.index ≡ pending.old.index }
    ensures marks { KeepMarks pending.old.nodes.items pending.new.nodes.items }
{
    match linking_of(&pending.nodes, pending.rows, below, above) {
        Some(l) => link_nodes(&mut pending.nodes, l),
        None => (),
    }
}
