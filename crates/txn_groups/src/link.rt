//! Linking a child to its parent.

ghost use Rattle.std.specs.Prelude.{◌==◌, ◌&&◌, if◌then◌else◌, is_none, Some};
ghost use Rattle.txn_groups.specs.inside.Linked.{AreJoined, is_place};
ghost use Rattle.txn_groups.specs.inside.Retold.{AreChanged};

use crate::node::Node;
use txn_rows::ParentLink;

/// What joins the tree of a node to another: the child that has no parent yet, the parent, and the link.
#[derive(Clone, Copy, Drop)]
pub struct Linking {
    pub below: usize,
    pub above: usize,
    pub link: ParentLink,
    /// How many children the parent has from then on.
    pub children: u64,
    /// The last child that the parent had.
    pub elder: Option<usize>,
    /// The last nodes of the two trees: that of fewer nodes, and that of more, with what it tells from then on.
    pub light: usize,
    pub heavy: usize,
    pub size: usize,
    pub unended: usize,
    pub top: usize,
}

/// The child gets its link.
fn set_link(nodes: &mut Vec<Node>, l: Linking)
    ensures { AreChanged (λ at x.
        record x { parent = if at == l.below then Some l.link else x.parent }) nodes.old.items
        nodes.new.items }
{
    if l.below < nodes.len() {
        nodes[l.below].parent = Some(l.link);
    }
}

/// The parent has one child more, which is its last.
fn set_children(nodes: &mut Vec<Node>, l: Linking)
    ensures { AreChanged (λ at x.
        record x {
          children = if at == l.above then l.children else x.children;
          first = if (at == l.above) && is_none l.elder then Some l.below else x.first;
          last = if at == l.above then Some l.below else x.last;
        }) nodes.old.items nodes.new.items }
{
    if l.above < nodes.len() {
        let node = &mut nodes[l.above];
        node.children = l.children;
        node.last = Some(l.below);
        if l.elder.is_none() {
            node.first = Some(l.below);
        }
    }
}

/// The child that the parent got last leads to the new one.
fn set_next(nodes: &mut Vec<Node>, l: Linking)
    ensures { AreChanged (λ at x.
        record x { next = if is_place l.elder at then Some l.below else x.next }) nodes.old.items
        nodes.new.items }
{
    if let Some(elder) = l.elder {
        if elder < nodes.len() {
            nodes[elder].next = Some(l.below);
        }
    }
}

/// The last node of the smaller tree leads to that of the larger.
fn set_up(nodes: &mut Vec<Node>, l: Linking)
    ensures { AreChanged (λ at x.
        record x { up = if at == l.light then l.heavy else x.up }) nodes.old.items nodes.new.items }
{
    if l.light < nodes.len() {
        nodes[l.light].up = l.heavy;
    }
}

/// The last node of the larger tree tells of both.
fn set_last(nodes: &mut Vec<Node>, l: Linking)
    ensures { AreChanged (λ at x.
        record x {
          size = if at == l.heavy then l.size else x.size;
          unended = if at == l.heavy then l.unended else x.unended;
          top = if at == l.heavy then l.top else x.top;
        }) nodes.old.items nodes.new.items }
{
    if l.heavy < nodes.len() {
        let node = &mut nodes[l.heavy];
        node.size = l.size;
        node.unended = l.unended;
        node.top = l.top;
    }
}

/// Links the child to its parent, and joins their trees.
pub fn link_nodes(nodes: &mut Vec<Node>, l: Linking)
    ensures { AreJoined l nodes.old.items nodes.new.items }
{
    set_children(nodes, l);
    set_link(nodes, l);
    set_next(nodes, l);
    set_up(nodes, l);
    set_last(nodes, l);
}
