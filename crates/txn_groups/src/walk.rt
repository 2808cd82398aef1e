//! A walk over a tree, with a stack and no recursion.

ghost use Rattle.std.specs.Prelude.{◌≡◌, ◌+◌, ◌++◌, ℕ, List, IfOk, OnOk};
ghost use Rattle.txn_rows.specs.declared.rows.Row.{Row};
ghost use Rattle.txn_groups.specs.declared.order.Entry.{Entry};
ghost use Rattle.txn_groups.specs.inside.Nodes.{AreNodes};
ghost use Rattle.txn_groups.specs.inside.Walked.{IsTopAt, AreVisits, visit_of};

use crate::node::Node;
use log_model::NoMemory;
use smallvec::SmallVec;
use std::alloc::Global;

/// A node that a walk comes to, and its level, from 1 at the top, as a group tells it.
#[derive(Clone, Copy, Default, Drop)]
pub struct Visit {
    pub at: usize,
    pub level: u32,
}

/// Visits in order. Those of at most 8 nodes take no memory.
pub type Visits = SmallVec<Visit, 8>;

/// Puts a node on the stack, where there is one.
fn put_off(later: &mut Visits, at: Option<usize>, level: u32) -> Result<(), NoMemory>
    ensures { OnOk result (later.new.items ≡ later.old.items ++ visit_of at level) }
{
    if let Some(at) = at {
        later.push(Visit { at, level })?;
    }
    Ok(())
}

/// Puts the first child of a node at a level on the stack, where there is one. That it is at a level that no `u32` holds
/// counts as want of memory.
fn put_below(later: &mut Visits, first: Option<usize>, level: u32) -> Result<(), NoMemory>
    ensures { OnOk result (later.new.items ≡ later.old.items ++ visit_of first (level + 1)) }
{
    let Some(at) = first else {
        return Ok(());
    };
    let Some(below) = level.checked_add(1) else {
        return Err(NoMemory);
    };
    later.push(Visit { at, level: below })?;
    Ok(())
}

/// The nodes of a tree in preorder, from its top on: each node, then its first child, then the child that its parent
/// got next. A level that no `u32` holds counts as want of memory.
pub fn walk(alloc: Global, nodes: &[Node], top: usize, size: usize) -> Result<Visits, NoMemory>
    ensures { (begun root : ℕ) (order : List Entry) (rows : List Row) →
        AreNodes begun nodes.now order rows → IsTopAt nodes.now rows root size top →
        IfOk result (λ visits. AreVisits nodes.now rows root visits.items) }
{
    let mut visits = SmallVec::with_capacity(alloc, size)?;
    let mut later = SmallVec::new(alloc);
    later.push(Visit { at: top, level: 1 })?;
    for i in 0..size {
        let Some(visit) = later.pop() else {
            return Ok(visits);
        };
        let Some(node) = nodes.get(visit.at) else {
            return Ok(visits);
        };
        put_off(&mut later, node.next, visit.level)?;
        put_below(&mut later, node.first, visit.level)?;
        visits.push(visit)?;
    }
    Ok(visits)
}
