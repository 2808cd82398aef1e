//! Records of pending transactions.

ghost use Rattle.std.specs.Prelude.{◌≡◌, OnOk};
ghost use Rattle.txn_rows.specs.Transaction.{claimed_kind, longer_by};
ghost use Rattle.txn_rows.specs.Claim.{own_claim};
ghost use Rattle.txn_rows.specs.inside.Rows.{with_one};
ghost use Rattle.txn_groups.specs.inside.Told.{node_told, told_at};
ghost use Rattle.txn_groups.specs.inside.Retold.{AreChanged};

use crate::node::Node;
use log_model::NoMemory;
use txn_rows::{Claim, Kind};
use vsl_record::{RecordView, Records, RecordsView};

/// Where a node has no records, makes room for some.
fn make_room(records: &mut Records, more: &RecordsView<'_>) -> Result<(), NoMemory>
    ensures { records.new ≡ records.old }
{
    if records.view().is_empty() && !more.is_empty() {
        records.reserve(more)?;
    }
    Ok(())
}

/// Gives a node of unknown kind what a claim says.
fn claim_kind(node: &mut Node, claim: Option<Claim>)
    ensures { node.new ≡ node_told (claimed_kind claim) node.old }
{
    let Some(claim) = claim else {
        return;
    };
    if node.kind == Kind::Unknown {
        node.kind = claim.kind;
        node.reason = claim.reason;
    }
}

/// Adds a record to a node; a Begin may tell its kind. Where the node has no records, room is made
/// for those at hand.
fn add_record(
    node: &mut Node,
    rec: &RecordView<'_>,
    claim: Option<Claim>,
    at_hand: &RecordsView<'_>,
) -> Result<(), NoMemory>
    requires { claim ≡ own_claim rec.now }
    ensures { OnOk result (node.new ≡ node_told (with_one rec.now) node.old) }
{
    make_room(&mut node.records, at_hand)?;
    node.records.push(rec)?;
    claim_kind(node, claim);
    Ok(())
}

/// Adds records that tell nothing but themselves to a node.
fn add_records(node: &mut Node, run: &RecordsView<'_>) -> Result<(), NoMemory>
    ensures { OnOk result (node.new ≡ node_told (longer_by run.now) node.old) }
{
    make_room(&mut node.records, run)?;
    node.records.append(run)
}

/// Adds a record to the node at a place; a Begin may tell its kind.
pub fn add_at(
    nodes: &mut Vec<Node>,
    place: usize,
    rec: &RecordView<'_>,
    claim: Option<Claim>,
    at_hand: &RecordsView<'_>,
) -> Result<(), NoMemory>
    requires { claim ≡ own_claim rec.now }
    ensures { OnOk result (AreChanged
        (told_at (with_one rec.now) place) nodes.old.items nodes.new.items) }
{
    if place < nodes.len() {
        add_record(&mut nodes[place], rec, claim, at_hand)?;
    }
    Ok(())
}

/// Adds records that tell nothing but themselves to the node at a place.
pub fn add_run_at(
    nodes: &mut Vec<Node>,
    place: usize,
    run: &RecordsView<'_>,
) -> Result<(), NoMemory>
    ensures { OnOk result (AreChanged
        (told_at (longer_by run.now) place) nodes.old.items nodes.new.items) }
{
    if place < nodes.len() {
        add_records(&mut nodes[place], run)?;
    }
    Ok(())
}
