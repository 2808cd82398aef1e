//! The oldest transaction that has not ended.

ghost use Rattle.std.specs.Prelude.{◌≡◌, ◌<◌, ◌≤◌, ℕ, false, length, take, Option, IfNone, IfSome};
ghost use Rattle.std.specs.List.{find, list_any};
ghost use Rattle.txn_rows.specs.Grouping.{is_unfinished};
ghost use Rattle.txn_groups.specs.inside.Nodes.{EntriesRise};
ghost use Rattle.txn_groups.specs.inside.Order.{is_open_at};
ghost use Rattle.txn_groups.specs.inside.Held.{state_of, IsHeld};
ghost use Rattle.txn_groups.specs.inside.Oldest.{NoneBelow, IsLow, OldestAt, EntriesBelow};

use crate::node::Node;
use crate::order::{Entry, is_open};
use crate::pending::Pending;

/// How many entries there are before a serial number.
fn count_below(order: &[Entry], low: u64) -> usize
    ensures within { result ≤ length order.now }
    ensures below { (begun : ℕ) → EntriesRise 0 begun order.now →
        EntriesBelow low (take result order.now) }
{
    order.partition_point(|entry| entry.serial < low)
}

/// The first entry whose node still stands for it and has not ended.
fn first_open(nodes: &[Node], order: &[Entry]) -> Option<Entry>
    ensures first { result ≡ find (is_open_at nodes.now) order.now }
    ensures within { IfSome result (λ entry. entry.at < length nodes.now) }
{
    for i in 0..order.len() {
        if is_open(nodes, order[i]) {
            return Some(order[i]);
        }
    }
    None
}

/// The place of the oldest transaction that has not ended, where none before a serial number is so.
pub fn oldest_unfinished(pending: &Pending, low: u64) -> Option<usize>
    ensures some { IsHeld pending.now → NoneBelow low (state_of pending.now) →
        IfSome result (λ at. OldestAt pending.now at) }
    ensures none { IsHeld pending.now → NoneBelow low (state_of pending.now) →
        IfNone result (list_any is_unfinished (state_of pending.now).pending ≡ false) }
    ensures within { IfSome result (λ at. at < length pending.now.nodes.items) }
{
    let below = count_below(&pending.order, low);
    let (_, order) = pending.order.split_at(below);
    match first_open(&pending.nodes, order) {
        Some(entry) => Some(entry.at),
        None => None,
    }
}

/// The same, and the serial number is raised: to that of the transaction, or of the next that begins where all have
/// ended. So no entry is looked at again that is not live or has ended.
pub fn seek_oldest(pending: &Pending, low: &mut u64) -> Option<usize>
    ensures some { IsHeld pending.now → IsLow low.old (state_of pending.now) →
        IfSome result (λ at. OldestAt pending.now at) }
    ensures none { IsHeld pending.now → IsLow low.old (state_of pending.now) →
        IfNone result (list_any is_unfinished (state_of pending.now).pending ≡ false) }
    ensures within { IfSome result (λ at. at < length pending.now.nodes.items) }
    ensures raised { IsHeld pending.now → IsLow low.old (state_of pending.now) →
        IsLow low.new (state_of pending.now) }
{
    let Some(at) = oldest_unfinished(pending, *low) else {
        *low = pending.begun;
        return None;
    };
    let node = &pending.nodes[at];
    *low = node.serial;
    Some(at)
}
