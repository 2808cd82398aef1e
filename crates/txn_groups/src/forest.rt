//! The tree of a node.

ghost use Rattle.std.specs.Prelude.{◌≤◌, ℕ, List, length};
ghost use Rattle.txn_rows.specs.declared.rows.Row.{Row};
ghost use Rattle.txn_groups.specs.declared.node.Node.{Node as AsNode};
ghost use Rattle.txn_groups.specs.declared.order.Entry.{Entry};
ghost use Rattle.txn_groups.specs.inside.Nodes.{AreNodes, StandsAt};
ghost use Rattle.txn_groups.specs.inside.Found.{IsLastOf};

use crate::node::Node;

/// The last node above another, which tells of their tree, where at most so many nodes stand. It is few steps up, since
/// each has twice as many nodes below it as the one before.
pub fn last_of(nodes: &[Node], standing: usize, at: usize) -> usize
    ensures { (begun : ℕ) (order : List Entry) (rows : List Row) (x : AsNode) →
        AreNodes begun nodes.now order rows → length rows ≤ standing → StandsAt nodes.now at x →
        IsLastOf nodes.now rows at result }
{
    let mut last = at;
    for i in 0..standing {
        let Some(node) = nodes.get(last) else {
            return last;
        };
        if node.up == last {
            return last;
        }
        last = node.up;
    }
    last
}
