//! Nodes: pending transactions, and where they stand among the others.

ghost use Rattle.std.specs.Prelude.{◌≡◌, [], None, Some, false, true, slice_get};
ghost use Rattle.std.specs.Option.{option_map_or};

use crate::marks::RowMarks;
use log_model::NoMemory;
use std::alloc::Global;
use txn_rows::{Kind, ParentLink, Reason};
use vsl_record::{Records, Vxid};

/// A transaction, and the places of those around it.
#[derive(Drop)]
pub struct Node {
    /// Whether the transaction is pending. Where it isn't, the node is free.
    pub stands: bool,
    /// How many transactions began before it.
    pub serial: u64,
    pub vxid: Vxid,
    pub kind: Kind,
    pub reason: Reason,
    pub records: Records,
    /// What its records say of the tests of each query.
    pub marks: RowMarks,
    pub parent: Option<ParentLink>,
    /// How many children it has.
    pub children: u64,
    pub ended: bool,
    /// The log time when it began, in units of 10^-18 seconds.
    pub time: Option<u128>,
    /// The node of its first child, of its last, and of the child that its parent got next.
    pub first: Option<usize>,
    pub last: Option<usize>,
    pub next: Option<usize>,
    /// A node of the same tree, above which fewer are left; at the end itself.
    pub up: usize,
    /// Where `up` is the node itself: how many nodes its tree has, and how many of these have not ended.
    pub size: usize,
    pub unended: usize,
    /// Where `up` is the node itself: the node at the top of its tree.
    pub top: usize,
    /// The pending nodes of its VXID that began last before it, and first after it.
    pub older: Option<usize>,
    pub newer: Option<usize>,
}

/// A node at a place, of which no record was seen.
pub fn empty_node(
    alloc: Global,
    at: usize,
    serial: u64,
    vxid: Vxid,
    time: Option<u128>,
    older: Option<usize>,
) -> Node
    ensures { result ≡ record {
      stands = true;
      serial = serial;
      vxid = vxid;
      kind = Kind.Unknown;
      reason = Reason.Other;
      records = [];
      marks = [];
      parent = None;
      children = 0;
      ended = false;
      time = time;
      first = None;
      last = None;
      next = None;
      up = at;
      size = 1;
      unended = 1;
      top = at;
      older = older;
      newer = None;
    } }
{
    Node {
        stands: true,
        serial,
        vxid,
        kind: Kind::Unknown,
        reason: Reason::Other,
        records: Records::new(alloc),
        marks: RowMarks::new(alloc),
        parent: None,
        children: 0,
        ended: false,
        time,
        first: None,
        last: None,
        next: None,
        up: at,
        size: 1,
        unended: 1,
        top: at,
        older,
        newer: None,
    }
}

/// Whether the transaction of the node at a place has ended. At no place none has not.
pub fn is_ended(nodes: &[Node], at: usize) -> bool
    ensures { result ≡ option_map_or (λ x. x.ended) (slice_get nodes.now at) true }
{
    match nodes.get(at) {
        Some(node) => node.ended,
        None => true,
    }
}
