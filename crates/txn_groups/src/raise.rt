//! The log time, and the times at which pending transactions began.

ghost use Rattle.std.specs.Prelude.{◌≡◌};
ghost use Rattle.txn_rows.specs.Grouping.{timed, with_time};
ghost use Rattle.txn_rows.specs.Times.{IsTimed};
ghost use Rattle.txn_groups.specs.inside.Told.{node_told, told_at};
ghost use Rattle.txn_groups.specs.inside.Retold.{AreChanged};
ghost use Rattle.txn_groups.specs.inside.Held.{state_of, IsHeld, Went};
ghost use Rattle.txn_groups.specs.inside.Marked.{KeepMarks};

use crate::node::Node;
use crate::pending::Pending;
use txn_rows::raised;

/// Gives a node without a time one.
fn time_node(node: &mut Node, now: Option<u128>)
    ensures { node.new ≡ node_told (timed now) node.old }
{
    if node.time.is_none() {
        node.time = now;
    }
}

/// Gives the node at a place one, where it has none.
fn time_at(nodes: &mut Vec<Node>, place: usize, now: Option<u128>)
    ensures { AreChanged (told_at (timed now) place) nodes.old.items nodes.new.items }
{
    if place < nodes.len() {
        time_node(&mut nodes[place], now);
    }
}

/// Gives nodes without a time one.
fn time_nodes(nodes: &mut Vec<Node>, now: Option<u128>)
    ensures { AreChanged (λ at. node_told (timed now)) nodes.old.items nodes.new.items }
{
    for i in 0..nodes.len() {
        time_at(nodes, i, now);
    }
}

/// A time that was told may raise the log time. Where one was known, each pending transaction has
/// a time already.
pub fn raise(pending: &mut Pending, told: Option<u128>)
    ensures went { IsHeld pending.old → IsTimed (state_of pending.old) →
        Went (with_time told (state_of pending.old)) pending.new }
    ensures index { pending.new.index ≡ pending.old.index }
    ensures marks { KeepMarks pending.old.nodes.items pending.new.nodes.items }
{
    if told.is_none() {
        return;
    }
    let now = raised(told, pending.time);
    if pending.time.is_some() {
        pending.time = now;
        return;
    }
    time_nodes(&mut pending.nodes, now);
    pending.time = now;
}
