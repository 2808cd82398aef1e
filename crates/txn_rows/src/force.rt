//! Force-completing rows.

ghost use Rattle.std.specs.Prelude.{◌≡◌, ℕ, ◌≤◌, ◌<◌, Bool, [], ◌∷◌, ◌++◌, length, map, false, count_by, codes, Option, IfOk, IfSome, IfNone, OnOk, OnErr};
ghost use Rattle.std.specs.List.{list_any};
ghost use Rattle.vsl_tags.specs.Tags.{end_tag, vsl_tag};
ghost use Rattle.vsl_record.specs.Payload.{most_payload};
ghost use Rattle.txn_rows.specs.Transaction.{Transaction, first_mark, cause_text, forced};
ghost use Rattle.txn_rows.specs.Grouping.{forced_one, is_unfinished};
ghost use Rattle.txn_rows.specs.Trees.{transaction_of, AreTrees};
ghost use Rattle.txn_rows.specs.inside.Rows.{row_told, IsOldestRow};
ghost use Rattle.txn_rows.specs.Times.{RiseTo, times_of};
ghost use Rattle.txn_rows.specs.Store.{test_of};
ghost use Rattle.txn_rows.specs.States.{state_with};
ghost use Rattle.txn_rows.specs.inside.Steps.{RowsStep};

use crate::group::{Cause, Group, Grouping};
use crate::leave::leave;
use crate::rows::Row;
use crate::which::Which;
use log_model::NoMemory;
use std::alloc::Global;
use vsl_record::{Mark, Payload, Record, Records, RecordsView};
use vsl_tags::Tag;

/// Force-completes a row: it gets a VSL record with the cause and an End.
fn force_row(alloc: Global, row: &mut Row, cause: Cause) -> Result<(), NoMemory>
    ensures { OnOk result (row.new ≡ row_told (forced cause) row.old) }
{
    add_forced(alloc, &mut row.records, cause)?;
    row.ended = true;
    Ok(())
}

/// Adds what a transaction gets that is force-completed: a VSL record with the cause and an End.
pub fn add_forced(alloc: Global, records: &mut Records, cause: Cause) -> Result<(), NoMemory>
    ensures { OnOk result (records.new ≡ records.old ++ record { tag = vsl_tag; mark = first_mark records.old; payload = cause_text cause } ∷ record { tag = end_tag; mark = first_mark records.old; payload = codes "synth" } ∷ []) }
{
    let mark = mark_of(&records.view());
    let told = synthesized(alloc, Tag::VSL, mark, text_of(cause))?;
    records.push(&told.view())?;
    let end = synthesized(alloc, Tag::END, mark, b"synth")?;
    records.push(&end.view())?;
    Ok(())
}

/// The text of a cause.
fn text_of(cause: Cause) -> &'static [u8]
    ensures value { result.now ≡ cause_text cause }
    ensures short { length result.now ≤ most_payload }
{
    match cause {
        Cause::Overflow => b"store overflow",
        Cause::Timeout => b"timeout",
        Cause::Flush => b"flush",
    }
}

/// The mark of the first record, or none.
fn mark_of(records: &RecordsView<'_>) -> Mark
    ensures { result ≡ first_mark records.now }
{
    if records.is_empty() {
        return Mark::Plain;
    }
    records.get(0).mark()
}

/// A record that no worker wrote.
fn synthesized(alloc: Global, tag: Tag, mark: Mark, payload: &[u8]) -> Result<Record, NoMemory>
    requires { length payload.now ≤ most_payload }
    ensures { IfOk result (λ rec. rec ≡ record { tag = tag; mark = mark; payload = payload.now }) }
{
    let payload = Payload::from_slice(alloc, payload)?;
    Ok(Record { tag, mark, payload })
}

/// The place of the oldest row that has not ended.
fn oldest_unfinished(rows: &[Row]) -> Option<usize>
    ensures some { IfSome result (λ at. IsOldestRow is_unfinished at rows.now) }
    ensures none { IfNone result (list_any is_unfinished (map transaction_of rows.now) ≡ false) }
{
    for i in 0..rows.len() {
        if !rows[i].ended {
            return Some(i);
        }
    }
    None
}

/// The place of the oldest of those rows. Times rise: where the oldest row that has not ended isn't late, none is.
pub(crate) fn oldest_of(which: Which, rows: &[Row]) -> Option<usize>
    ensures some { IfSome result (λ at. IsOldestRow (test_of which) at rows.now) }
    ensures none { (time : Option ℕ) → RiseTo time (times_of (map transaction_of rows.now)) →
        IfNone result (list_any (test_of which) (map transaction_of rows.now) ≡ false) }
{
    let Some(at) = oldest_unfinished(rows) else {
        return None;
    };
    let row = &rows[at];
    if which.is_met(row.ended, row.time) {
        return Some(at);
    }
    None
}

/// How many rows have not ended.
pub(crate) fn count_unfinished(rows: &[Row]) -> usize
    ensures { result ≡ count_by is_unfinished (map transaction_of rows.now) }
{
    rows.iter().filter(|row| !row.ended).count()
}

/// Force-completes a row, which may complete a group.
pub(crate) fn force_at(
    alloc: Global,
    grouping: Grouping,
    rows: &mut Vec<Row>,
    at: usize,
    cause: Cause,
    out: &mut Vec<Group>,
) -> Result<(), NoMemory>
    requires { at < length rows.old.items }
    ensures ok { (test : Transaction → Bool) (begun : ℕ) (time : Option ℕ) →
        IsOldestRow test at rows.old.items → AreTrees begun rows.old.items →
        OnOk result (RowsStep grouping
        (forced_one test cause (state_with begun time rows.old.items)) begun time rows.new.items
        out.old.items out.new.items) }
    ensures err { OnErr result (out.new.items ≡ out.old.items) }
{
    force_row(alloc, &mut rows[at], cause)?;
    let root = rows[at].root;
    leave(alloc, grouping, rows, root, out)
}
