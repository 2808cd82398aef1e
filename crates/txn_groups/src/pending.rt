//! What stands between two records, and how transactions begin.

ghost use Rattle.std.specs.Prelude.{◌≡◌, [], ℕ, Some, IfOk, OnOk};
ghost use Rattle.txn_rows.specs.Grouping.{no_state, with_new, with_transaction, with_other};
ghost use Rattle.txn_groups.specs.inside.Indexed.{newest_in, IsUpdated};
ghost use Rattle.txn_groups.specs.inside.Held.{state_of, IsHeld, Went};
ghost use Rattle.txn_groups.specs.inside.Marked.{KeepMarks};

use crate::index::Index;
use crate::node::{Node, empty_node, is_ended};
use crate::order::{Entry, keep_live};
use crate::place::{put_node, set_newer, take_place};
use log_model::NoMemory;
use std::alloc::Global;
use vsl_record::Vxid;

/// The pending transactions, and the log time.
#[derive(Drop)]
pub struct Pending {
    pub nodes: Vec<Node>,
    /// An entry for each transaction that began, in order; where its node stands for it no more, it tells nothing.
    pub order: Vec<Entry>,
    pub index: Index,
    /// The places where no node stands.
    pub free: Vec<usize>,
    /// How many transactions began.
    pub begun: u64,
    /// The log time, in units of 10^-18 seconds.
    pub time: Option<u128>,
    /// How many transactions are pending.
    pub rows: usize,
}

/// Nothing is pending.
pub fn no_pending(alloc: Global) -> Pending
    ensures went { Went no_state result }
    ensures nodes { result.nodes.items ≡ [] }
{
    Pending {
        nodes: Vec::new(alloc),
        order: Vec::new(alloc),
        index: Index::new(alloc),
        free: Vec::new(alloc),
        begun: 0,
        time: None,
        rows: 0,
    }
}

/// Drops the entries whose nodes stand for them no more, where most are so.
fn keep_order(pending: &mut Pending)
    ensures went { IsHeld pending.old → Went (state_of pending.old) pending.new }
    ensures index { pending.new.index ≡ pending.old.index }
    ensures marks { KeepMarks pending.old.nodes.items pending.new.nodes.items }
{
    if pending.order.len() / 2 > pending.rows.saturating_add(32) {
        keep_live(&pending.nodes, &mut pending.order);
    }
}

/// A node begins behind all others; it tells its place. Where no number is left, that counts as want of memory.
fn begin_node(alloc: Global, pending: &mut Pending, vxid: Vxid) -> Result<usize, NoMemory>
    ensures went { IsHeld pending.old →
        OnOk result (Went (with_new vxid (state_of pending.old)) pending.new) }
    ensures newest { IfOk result
        (λ at. IsUpdated pending.old.index pending.new.index vxid (Some at)) }
    ensures marks { IsHeld pending.old →
        OnOk result (KeepMarks pending.old.nodes.items pending.new.nodes.items) }
{
    if pending.begun == u64::MAX {
        return Err(NoMemory);
    }
    let rows = pending.rows.saturating_add(1);
    let serial = pending.begun;
    let at = take_place(&pending.nodes, &mut pending.free);
    let older = pending.index.newest(vxid);
    let node = empty_node(alloc, at, serial, vxid, pending.time, older);
    set_newer(&mut pending.nodes, older, at);
    put_node(&mut pending.nodes, at, node)?;
    pending.order.push(Entry { serial, at })?;
    pending.index.put(vxid, at)?;
    pending.begun += 1;
    pending.rows = rows;
    Ok(at)
}

/// A transaction begins, the newest of all; it tells its place. Where no number is left, that counts as want of memory.
fn begin(alloc: Global, pending: &mut Pending, vxid: Vxid) -> Result<usize, NoMemory>
    ensures went { IsHeld pending.old →
        OnOk result (Went (with_new vxid (state_of pending.old)) pending.new) }
    ensures newest { IfOk result
        (λ at. IsUpdated pending.old.index pending.new.index vxid (Some at)) }
    ensures marks { IsHeld pending.old →
        OnOk result (KeepMarks pending.old.nodes.items pending.new.nodes.items) }
{
    keep_order(pending);
    begin_node(alloc, pending, vxid)
}

/// The place of the newest node of a VXID, which the index keeps at hand.
fn seek(pending: &mut Pending, vxid: Vxid) -> Option<usize>
    ensures newest { result ≡ newest_in pending.old.index vxid }
    ensures went { IsHeld pending.old → Went (state_of pending.old) pending.new }
    ensures index { (v : ℕ) → newest_in pending.new.index v ≡ newest_in pending.old.index v }
    ensures nodes { pending.new.nodes.items ≡ pending.old.nodes.items }
{
    pending.index.seek(vxid)
}

/// The place of the newest node of a VXID that has not ended; where there is none, one begins.
pub fn open_row(alloc: Global, pending: &mut Pending, vxid: Vxid) -> Result<usize, NoMemory>
    ensures went { IsHeld pending.old →
        OnOk result (Went (with_transaction vxid (state_of pending.old)) pending.new) }
    ensures newest { IfOk result (λ at. newest_in pending.new.index vxid ≡ Some at) }
    ensures marks { IsHeld pending.old →
        OnOk result (KeepMarks pending.old.nodes.items pending.new.nodes.items) }
{
    if let Some(at) = seek(pending, vxid) {
        if !is_ended(&pending.nodes, at) {
            return Ok(at);
        }
    }
    begin(alloc, pending, vxid)
}

/// The place of the newest node of a VXID; where there is none, one begins.
pub fn other_row(alloc: Global, pending: &mut Pending, vxid: Vxid) -> Result<usize, NoMemory>
    ensures went { IsHeld pending.old →
        OnOk result (Went (with_other vxid (state_of pending.old)) pending.new) }
    ensures newest { IfOk result (λ at. newest_in pending.new.index vxid ≡ Some at) }
    ensures marks { IsHeld pending.old →
        OnOk result (KeepMarks pending.old.nodes.items pending.new.nodes.items) }
    ensures keeps { OnOk result ((v at : ℕ) → newest_in pending.old.index v ≡ Some at →
        newest_in pending.new.index v ≡ Some at) }
{
    if let Some(at) = seek(pending, vxid) {
        return Ok(at);
    }
    begin(alloc, pending, vxid)
}
