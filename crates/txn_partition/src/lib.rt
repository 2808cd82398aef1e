//! The groups of a whole log, told at once.
//!
//! A reader goes from record to record, with rules for each (`txn_rows`). Here stands what these come to where a log is
//! told whole, where it is regular: the VXIDs that Begins and Links join are one group. Nothing in `specs/Partition.antt`
//! goes from record to record, so who reads it need not look at the rules. Beside it stand two laws of any log, with its
//! overruns: no group joins what no record joins, and groups of units are such as units have.
//!
//! Source: vsl(7), vsl-query(7) "Grouping", varnishlog(1); what is this project's choice is said in `txn_rows`.
#![tactic(auto)]

mod laws;

pub use laws::{
    each_child_was_named, each_vxid_once, groups_are_of_units, groups_are_the_partition,
};
