//! The order in which transactions began.

ghost use Rattle.std.specs.Prelude.{◌≡◌, length, count_by};
ghost use Rattle.txn_rows.specs.Grouping.{is_unfinished};
ghost use Rattle.txn_groups.specs.inside.Nodes.{listed};
ghost use Rattle.txn_groups.specs.inside.Order.{is_live, is_open_at, live};

use crate::node::Node;

/// That a transaction began, and its node, which may be free by now or stand for another.
#[derive(Clone, Copy, Drop)]
pub struct Entry {
    pub serial: u64,
    pub at: usize,
}

/// Whether the node of an entry still stands for it.
pub fn is_live(nodes: &[Node], entry: Entry) -> bool
    ensures { result ≡ is_live nodes.now entry }
{
    match nodes.get(entry.at) {
        Some(node) => node.stands && node.serial == entry.serial,
        None => false,
    }
}

/// Whether the node of an entry still stands for it, and has not ended.
pub fn is_open(nodes: &[Node], entry: Entry) -> bool
    ensures { result ≡ is_open_at nodes.now entry }
{
    match nodes.get(entry.at) {
        Some(node) => node.stands && node.serial == entry.serial && !node.ended,
        None => false,
    }
}

/// Keeps the entries whose nodes stand for them.
pub fn keep_live(nodes: &[Node], order: &mut Vec<Entry>)
    ensures { order.new.items ≡ live nodes.now order.old.items }
{
    order.retain(|entry| is_live(nodes, *entry));
}

/// How many entries have a node that still stands for them.
pub fn count_live(nodes: &[Node], order: &[Entry]) -> usize
    ensures { result ≡ length (listed nodes.now order.now) }
{
    order.iter().filter(|entry| is_live(nodes, **entry)).count()
}

/// How many of these have not ended.
pub fn count_open(nodes: &[Node], order: &[Entry]) -> usize
    ensures { result ≡ count_by is_unfinished (listed nodes.now order.now) }
{
    order.iter().filter(|entry| is_open(nodes, **entry)).count()
}
