//! Grouping the records of a log by transaction, over trees of nodes, with queries that are asked as records arrive.
//!
//! `Groups` takes units as a table of `txn_rows` does, and hands out the same groups in the same order, each with what
//! every query says of it. The newest transaction of a VXID is told by an index, the tree of a transaction by few steps
//! up, and the oldest that has not ended by a serial number that only rises: none of them by a search over all that is
//! pending. A node keeps for each query which of its tests the records so far satisfy.
//!
//! Start with `specs/Groups.antt`, then `specs/inside/Nodes.antt`, and `specs/inside/Trees.antt` for what a store of
//! nodes keeps.
#![tactic(auto)]

mod add;
mod add_to;
mod answers;
mod askers;
mod asking;
mod claim;
mod end;
mod end_row;
mod force_row;
mod forest;
mod groups;
mod index;
mod leave;
mod link;
mod link_row;
mod marking;
mod marks;
mod node;
mod oldest;
mod order;
mod pending;
mod place;
mod raise;
mod take_node;
mod trees;
mod walk;

pub use groups::Groups;
