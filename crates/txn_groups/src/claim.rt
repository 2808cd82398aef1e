//! Which link a claim makes.

ghost use Rattle.std.specs.Prelude.{◌≤◌, ℕ, List, length};
ghost use Rattle.txn_rows.specs.declared.rows.Row.{Row};
ghost use Rattle.txn_groups.specs.declared.order.Entry.{Entry};
ghost use Rattle.txn_groups.specs.inside.Nodes.{AreNodes};
ghost use Rattle.txn_groups.specs.inside.Linked.{NodeAt};
ghost use Rattle.txn_groups.specs.inside.Claimed.{LinksAs};

use crate::forest::last_of;
use crate::link::Linking;
use crate::node::Node;
use txn_rows::ParentLink;

/// The link of the node at one place to the node at another, where it can have that as its parent: it has none, has not
/// ended, and is not at the top of the parent's tree. At most so many nodes stand.
pub fn linking_of(nodes: &[Node], standing: usize, below: usize, above: usize) -> Option<Linking>
    ensures { (begun : ℕ) (order : List Entry) (rows : List Row) (c : NodeAt nodes.now rows below)
        (p : NodeAt nodes.now rows above) → AreNodes begun nodes.now order rows →
        length rows ≤ standing → LinksAs nodes.now rows below above c p result }
{
    let Some(child) = nodes.get(below) else {
        return None;
    };
    let Some(parent) = nodes.get(above) else {
        return None;
    };
    if child.parent.is_some() {
        return None;
    }
    if child.ended {
        return None;
    }
    let tree = last_of(nodes, standing, above);
    let Some(tree_node) = nodes.get(tree) else {
        return None;
    };
    if tree_node.top == below {
        return None;
    }
    let other = last_of(nodes, standing, below);
    let Some(other_node) = nodes.get(other) else {
        return None;
    };
    let size = tree_node.size.saturating_add(other_node.size);
    let unended = tree_node.unended.saturating_add(other_node.unended);
    let children = parent.children.saturating_add(1);
    let link = ParentLink {
        serial: parent.serial,
        vxid: parent.vxid,
        number: parent.children,
    };
    if other_node.size <= tree_node.size {
        return Some(Linking {
            below,
            above,
            link,
            children,
            elder: parent.last,
            light: other,
            heavy: tree,
            size,
            unended,
            top: tree_node.top,
        });
    }
    Some(Linking {
        below,
        above,
        link,
        children,
        elder: parent.last,
        light: tree,
        heavy: other,
        size,
        unended,
        top: tree_node.top,
    })
}
