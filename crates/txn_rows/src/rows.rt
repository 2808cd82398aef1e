//! Rows: the pending transactions of a table, in the order in which they began.

ghost use Rattle.std.specs.Prelude.{◌≡◌, ◌<◌, length, false, true, map, [], ◌∷◌, IfOk, OnOk, IfSome, IfNone, None};
ghost use Rattle.txn_rows.specs.Transaction.{is_pending, claimed_kind, longer_by};
ghost use Rattle.txn_rows.specs.Grouping.{timed};
ghost use Rattle.txn_rows.specs.Claim.{own_claim};
ghost use Rattle.txn_rows.specs.Trees.{transaction_of, IsNewestRow};
ghost use Rattle.txn_rows.specs.inside.Rows.{row_told, with_one};

use crate::claim::Claim;
use crate::group::{Kind, ParentLink, Reason};
use crate::path::Path;
use log_model::NoMemory;
use std::alloc::Global;
use vsl_record::{RecordView, Records, RecordsView, Vxid};

/// A pending transaction, and where it stands in its tree.
#[derive(Drop)]
pub(crate) struct Row {
    pub(crate) serial: u64,
    pub(crate) vxid: Vxid,
    pub(crate) kind: Kind,
    pub(crate) reason: Reason,
    pub(crate) records: Records,
    pub(crate) parent: Option<ParentLink>,
    /// How many children it has.
    pub(crate) children: u64,
    pub(crate) ended: bool,
    /// The log time when it began, in units of 10^-18 seconds.
    pub(crate) time: Option<u128>,
    /// The serial number of the row at the top of its tree.
    pub(crate) root: u64,
    /// Which child it is, from the top down.
    pub(crate) path: Path,
}

/// The place of the newest row of a VXID.
pub(crate) fn newest_row(rows: &[Row], vxid: Vxid) -> Option<usize>
    ensures some { IfSome result (λ at. IsNewestRow vxid at rows.now) }
    ensures none { IfNone result (is_pending vxid (map transaction_of rows.now) ≡ false) }
{
    let mut left = rows.len();
    while left > 0 {
        left -= 1;
        if rows[left].vxid == vxid {
            return Some(left);
        }
    }
    None
}

/// A row of which no record was seen.
pub(crate) fn empty_row(alloc: Global, serial: u64, vxid: Vxid, time: Option<u128>) -> Row
    ensures { result ≡ record {
      serial = serial;
      vxid = vxid;
      kind = Kind.Unknown;
      reason = Reason.Other;
      records = [];
      parent = None;
      children = 0;
      ended = false;
      time = time;
      root = serial;
      path = [];
    } }
{
    Row {
        serial,
        vxid,
        kind: Kind::Unknown,
        reason: Reason::Other,
        records: Records::new(alloc),
        parent: None,
        children: 0,
        ended: false,
        time,
        root: serial,
        path: Path::new(alloc),
    }
}

/// Where a row has no records, makes room for some.
fn make_room(records: &mut Records, more: &RecordsView<'_>) -> Result<(), NoMemory>
    ensures { records.new ≡ records.old }
{
    if records.view().is_empty() && !more.is_empty() {
        records.reserve(more)?;
    }
    Ok(())
}

/// Adds a record to a row; a Begin may tell the row's kind. Where the row has no records, room
/// is made for those at hand.
pub(crate) fn add_record(
    row: &mut Row,
    rec: &RecordView<'_>,
    claim: Option<Claim>,
    at_hand: &RecordsView<'_>,
) -> Result<(), NoMemory>
    requires { claim ≡ own_claim rec.now }
    ensures { OnOk result (row.new ≡ row_told (with_one rec.now) row.old) }
{
    make_room(&mut row.records, at_hand)?;
    row.records.push(rec)?;
    take_claim(row, claim);
    Ok(())
}

/// Adds records that tell nothing but themselves to a row.
pub(crate) fn add_records(row: &mut Row, run: &RecordsView<'_>) -> Result<(), NoMemory>
    ensures { OnOk result (row.new ≡ row_told (longer_by run.now) row.old) }
{
    make_room(&mut row.records, run)?;
    row.records.append(run)
}

/// Gives a row of unknown kind what a claim says.
fn take_claim(row: &mut Row, claim: Option<Claim>)
    ensures { row.new ≡ row_told (claimed_kind claim) row.old }
{
    let Some(claim) = claim else {
        return;
    };
    if row.kind == Kind::Unknown {
        row.kind = claim.kind;
        row.reason = claim.reason;
    }
}

/// Gives a row without a time one.
fn time_row(row: &mut Row, now: Option<u128>)
    ensures { row.new ≡ row_told (timed now) row.old }
{
    if row.time.is_none() {
        row.time = now;
    }
}

/// Gives rows without a time one.
pub(crate) fn time_rows(rows: &mut Vec<Row>, now: Option<u128>)
    ensures { rows.new.items ≡ map (row_told (timed now)) rows.old.items }
{
    for i in 0..rows.len() {
        time_row(&mut rows[i], now);
    }
}
