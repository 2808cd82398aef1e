//! Taking nodes out of the pending ones.

ghost use Rattle.std.specs.Prelude.{◌≡◌, ◌<◌, ◌≤◌, if◌then◌else◌, length, IfOk, OnOk, slice_get};
ghost use Rattle.txn_rows.specs.Links.{parent_vxid};
ghost use Rattle.txn_groups.specs.declared.node.Node.{Node as AsNode};
ghost use Rattle.txn_groups.specs.inside.Nodes.{StandsAt};
ghost use Rattle.txn_groups.specs.inside.Linked.{is_place};
ghost use Rattle.txn_groups.specs.inside.Retold.{AreChanged};
ghost use Rattle.txn_groups.specs.inside.Kin.{AreKin};
ghost use Rattle.txn_groups.specs.inside.Indexed.{IsIndex, IsOutOfIndex};
ghost use Rattle.txn_groups.specs.inside.Places.{AreFree};
ghost use Rattle.txn_groups.specs.inside.Taken.{records_at, Frees, TakesOut, AreStanding, AreTaken};

use crate::index::Index;
use crate::node::Node;
use crate::pending::Pending;
use crate::walk::Visit;
use log_model::NoMemory;
use std::alloc::Global;
use std::mem;
use txn_rows::{Member, Members, ParentLink};
use vsl_record::{Records, Vxid};

/// The node after one that is taken out leads to the one before it.
fn set_older_of(nodes: &mut Vec<Node>, newer: Option<usize>, older: Option<usize>)
    ensures { AreChanged (λ at x.
        record x { older = if is_place newer at then older else x.older }) nodes.old.items
        nodes.new.items }
{
    if let Some(newer) = newer {
        if newer < nodes.len() {
            nodes[newer].older = older;
        }
    }
}

/// The node before one that is taken out leads to the one after it.
fn set_newer_of(nodes: &mut Vec<Node>, older: Option<usize>, newer: Option<usize>)
    ensures { AreChanged (λ at x.
        record x { newer = if is_place older at then newer else x.newer }) nodes.old.items
        nodes.new.items }
{
    if let Some(older) = older {
        if older < nodes.len() {
            nodes[older].newer = newer;
        }
    }
}

/// Where the newest node of a VXID is taken out, the one before it is the newest.
fn leave_index(
    index: &mut Index,
    vxid: Vxid,
    older: Option<usize>,
    newer: Option<usize>,
) -> Result<(), NoMemory>
    ensures { OnOk result (IsOutOfIndex index.old index.new vxid older newer) }
{
    if newer.is_some() {
        return Ok(());
    }
    match older {
        Some(at) => index.put(vxid, at),
        None => {
            index.clear(vxid);
            Ok(())
        }
    }
}

/// The records of the node at a place, which is free from then on.
fn free_node(alloc: Global, nodes: &mut Vec<Node>, at: usize) -> Records
    ensures freed { Frees nodes.old.items nodes.new.items at }
    ensures records { result ≡ records_at (slice_get nodes.old.items at) }
{
    if at < nodes.len() {
        let node = &mut nodes[at];
        node.stands = false;
        return mem::replace(&mut node.records, Records::new(alloc));
    }
    Records::new(alloc)
}

/// The VXID of a parent, or 0.
fn parent_of(parent: Option<ParentLink>) -> Vxid
    ensures { result ≡ parent_vxid parent }
{
    match parent {
        Some(link) => link.vxid,
        None => 0,
    }
}

/// Takes the node of a visit out, as a member of its group, where one stands there.
pub fn take_node(
    alloc: Global,
    pending: &mut Pending,
    visit: Visit,
) -> Result<Option<Member>, NoMemory>
    ensures { (x : AsNode) → StandsAt pending.old.nodes.items visit.at x → 0 < pending.old.rows →
        AreKin pending.old.nodes.items → IsIndex pending.old.nodes.items pending.old.index →
        AreFree pending.old.nodes.items pending.old.free.items →
        IfOk result (TakesOut pending.old pending.new visit) }
{
    let Some(node) = pending.nodes.get(visit.at) else {
        return Ok(None);
    };
    if !node.stands {
        return Ok(None);
    }
    let vxid = node.vxid;
    let kind = node.kind;
    let reason = node.reason;
    let parent = parent_of(node.parent);
    let older = node.older;
    let newer = node.newer;
    leave_index(&mut pending.index, vxid, older, newer)?;
    set_older_of(&mut pending.nodes, newer, older);
    set_newer_of(&mut pending.nodes, older, newer);
    let records = free_node(alloc, &mut pending.nodes, visit.at);
    pending.free.push(visit.at)?;
    pending.rows = pending.rows.saturating_sub(1);
    Ok(Some(Member {
        vxid,
        kind,
        reason,
        level: visit.level,
        parent,
        records,
    }))
}

/// Takes the nodes of visits out, one after the other, as the members of a group.
pub fn take_visits(
    alloc: Global,
    pending: &mut Pending,
    visits: &[Visit],
) -> Result<Members, NoMemory>
    ensures { AreStanding pending.old.nodes.items visits.now →
        length visits.now ≤ pending.old.rows → AreKin pending.old.nodes.items →
        IsIndex pending.old.nodes.items pending.old.index →
        AreFree pending.old.nodes.items pending.old.free.items →
        IfOk result (AreTaken pending.old pending.new visits.now) }
{
    let mut members = Members::new(alloc);
    for i in 0..visits.len() {
        let taken = take_node(alloc, pending, visits[i])?;
        let Some(member) = taken else {
            return Ok(members);
        };
        members.push(member)?;
    }
    Ok(members)
}
