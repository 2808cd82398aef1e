//! Places of nodes: those that are free, and what is written at them.

ghost use Rattle.std.specs.Prelude.{◌≡◌, ◌≤◌, length, OnOk};
ghost use Rattle.txn_groups.specs.inside.Kin.{relinked};
ghost use Rattle.txn_groups.specs.inside.Places.{AreFree, IsFreePlace, IsPut};
ghost use Rattle.txn_groups.specs.inside.Retold.{AreChanged};

use crate::node::Node;
use log_model::NoMemory;

/// A free place: one that nodes left, or the next behind all.
pub fn take_place(nodes: &[Node], free: &mut Vec<usize>) -> usize
    ensures { AreFree nodes.now free.old.items → IsFreePlace nodes.now free.new.items result }
{
    match free.pop() {
        Some(at) => at,
        None => nodes.len(),
    }
}

/// The node before a new one of its VXID leads to that.
pub fn set_newer(nodes: &mut Vec<Node>, older: Option<usize>, place: usize)
    ensures changed { AreChanged (relinked older place) nodes.old.items nodes.new.items }
    ensures len { length nodes.new.items ≡ length nodes.old.items }
{
    if let Some(older) = older {
        if older < nodes.len() {
            nodes[older].newer = Some(place);
        }
    }
}

/// Writes a node at a place, which may be the next behind all.
pub fn put_node(nodes: &mut Vec<Node>, at: usize, node: Node) -> Result<(), NoMemory>
    ensures { OnOk result (at ≤ length nodes.old.items →
        IsPut nodes.old.items nodes.new.items at node) }
{
    if at < nodes.len() {
        nodes[at] = node;
        return Ok(());
    }
    nodes.push(node)?;
    Ok(())
}
