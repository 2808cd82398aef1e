//! Ending a node.

ghost use Rattle.std.specs.Prelude.{◌≡◌, ◌-◌, ◌==◌, if◌then◌else◌, OnOk};
ghost use Rattle.txn_rows.specs.Transaction.{ended, forced};
ghost use Rattle.txn_groups.specs.inside.Told.{node_told, told_at};
ghost use Rattle.txn_groups.specs.inside.Ended.{finished_node};
ghost use Rattle.txn_groups.specs.inside.Retold.{AreChanged};

use crate::node::Node;
use log_model::NoMemory;
use std::alloc::Global;
use txn_rows::{Cause, add_forced};

/// The transaction of a node has ended.
fn set_ended(nodes: &mut Vec<Node>, place: usize)
    ensures { AreChanged (told_at ended place) nodes.old.items nodes.new.items }
{
    if place < nodes.len() {
        nodes[place].ended = true;
    }
}

/// The last node of a tree counts one less that has not ended.
fn count_down(nodes: &mut Vec<Node>, last: usize)
    ensures { AreChanged (λ at x.
        record x { unended = if at == last then x.unended - 1 else x.unended }) nodes.old.items
        nodes.new.items }
{
    if last < nodes.len() {
        nodes[last].unended = nodes[last].unended.saturating_sub(1);
    }
}

/// A node that has not ended ends, and the last node of its tree counts one less.
pub fn end_node(nodes: &mut Vec<Node>, place: usize, last: usize)
    ensures { AreChanged (finished_node ended place last) nodes.old.items nodes.new.items }
{
    set_ended(nodes, place);
    count_down(nodes, last);
}

/// Force-completes the transaction of a node.
fn force_one(alloc: Global, node: &mut Node, cause: Cause) -> Result<(), NoMemory>
    ensures { OnOk result (node.new ≡ node_told (forced cause) node.old) }
{
    add_forced(alloc, &mut node.records, cause)?;
    node.ended = true;
    Ok(())
}

/// Force-completes the transaction of the node at a place.
fn force_place(
    alloc: Global,
    nodes: &mut Vec<Node>,
    place: usize,
    cause: Cause,
) -> Result<(), NoMemory>
    ensures { OnOk result (AreChanged
        (told_at (forced cause) place) nodes.old.items nodes.new.items) }
{
    if place < nodes.len() {
        force_one(alloc, &mut nodes[place], cause)?;
    }
    Ok(())
}

/// A node that has not ended is force-completed, and the last node of its tree counts one less.
pub fn force_node(
    alloc: Global,
    nodes: &mut Vec<Node>,
    place: usize,
    last: usize,
    cause: Cause,
) -> Result<(), NoMemory>
    ensures { OnOk result (AreChanged
        (finished_node (forced cause) place last) nodes.old.items nodes.new.items) }
{
    force_place(alloc, nodes, place, cause)?;
    count_down(nodes, last);
    Ok(())
}
