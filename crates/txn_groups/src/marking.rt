//! Records that are added to the marks of nodes.

ghost use Rattle.std.specs.Prelude.{◌≡◌, ◌<◌, ◌++◌, List, length, IfOk, OnOk};
ghost use Rattle.vsl_record.specs.declared.record_type.Record.{Record};
ghost use Rattle.txn_rows.specs.Transaction.{Transaction, forced};
ghost use Rattle.txn_groups.specs.declared.node.Node.{Node as AsNode};
ghost use Rattle.txn_groups.specs.inside.Nodes.{StandsAt, transaction_of_node};
ghost use Rattle.txn_groups.specs.inside.Marked.{queries_of, AreMarksOf};
ghost use Rattle.txn_groups.specs.inside.Remarked.{IsRemarked};

use crate::askers::Askers;
use crate::node::Node;
use log_model::NoMemory;
use query_eval::Marking;
use std::alloc::Global;
use txn_rows::{Cause, add_forced};
use vsl_record::{Records, RecordsView};

/// Adds a record, or records, to the marks of the node at a place.
pub fn mark_at<M: Marking>(
    nodes: &mut Vec<Node>,
    askers: &mut Askers<'_>,
    place: usize,
    marking: &M,
) -> Result<(), NoMemory>
    ensures marks { (x : AsNode) (records : List Record) → StandsAt nodes.old.items place x →
        AreMarksOf (queries_of askers.old) records x.marks →
        OnOk result (IsRemarked (queries_of askers.old)
        (records ++ M.records marking.now) place nodes.old.items nodes.new.items) }
    ensures same { queries_of askers.new ≡ queries_of askers.old }
{
    if place < nodes.len() {
        askers.add(&mut nodes[place].marks, marking)?;
    }
    Ok(())
}

/// What is added to records of a transaction that is force-completed: a VSL record with the cause and an End.
fn forced_records(
    alloc: Global,
    records: &RecordsView<'_>,
    cause: Cause,
) -> Result<Records, NoMemory>
    ensures { IfOk result (λ more. (t : Transaction) → t.records ≡ records.now →
        (forced cause t).records ≡ t.records ++ more) }
{
    let mut more = Records::new(alloc);
    if records.is_empty() {
        add_forced(alloc, &mut more, cause)?;
        return Ok(more);
    }
    let mut all = Records::new(alloc);
    all.push(&records.get(0))?;
    add_forced(alloc, &mut all, cause)?;
    let (_, behind) = all.view().split_at(1);
    more.append(&behind)?;
    Ok(more)
}

/// Adds the records that a force-completion gives the node at a place to its marks.
pub fn mark_forced(
    alloc: Global,
    nodes: &mut Vec<Node>,
    askers: &mut Askers<'_>,
    place: usize,
    cause: Cause,
) -> Result<(), NoMemory>
    requires { place < length nodes.old.items }
    ensures marks { (x : AsNode) → StandsAt nodes.old.items place x →
        AreMarksOf (queries_of askers.old) x.records x.marks →
        OnOk result (IsRemarked (queries_of askers.old)
        (forced cause (transaction_of_node x)).records place nodes.old.items nodes.new.items) }
    ensures same { queries_of askers.new ≡ queries_of askers.old }
{
    let node = &nodes[place];
    let more = forced_records(alloc, &node.records.view(), cause)?;
    mark_at(nodes, askers, place, &more.view())
}
