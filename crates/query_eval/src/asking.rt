//! Asking a test of a group, of records, or of a record.

ghost use Rattle.std.specs.Prelude.{◌≡◌, ◌≤◌, false, length, take, IfOk, IsOk};
ghost use Rattle.std.specs.List.{list_any};
ghost use Rattle.query_eval.specs.Meaning.{group_satisfies, member_satisfies, record_marks, subject, subject_satisfies};
ghost use Rattle.query_eval.specs.Asking.{IsReady, has_pattern};

use crate::check::satisfies;
use crate::selection::{meets_level, subject};
use query_parser::Test;
use std::alloc::{AllocError, Global};
use txn_rows::{Group, Member};
use vsl_pattern::Matching;
use vsl_record::{RecordView, RecordsView};

/// Whether some record of some member of the group satisfies the test. Only a test with a pattern takes memory, once a
/// record with what is asked is there, and where nothing that asks it was made before.
pub(crate) fn group_satisfies<'t>(
    alloc: Global,
    test: &'t Test,
    matching: &mut Option<Matching<'t>>,
    group: &Group,
) -> Result<bool, AllocError>
    requires ready { IsReady test.now.check matching.old }
    ensures answer { IfOk result (λ b. b ≡ group_satisfies group.now test.now) }
    ensures answered { has_pattern test.now.check ≡ false → IsOk result }
    ensures ready { IsReady test.now.check matching.new }
{
    for member in group.members.as_slice() {
        if member_satisfies(alloc, test, matching, member)? {
            return Ok(true);
        }
    }
    Ok(false)
}

/// Whether some record of the member satisfies the test.
fn member_satisfies<'t>(
    alloc: Global,
    test: &'t Test,
    matching: &mut Option<Matching<'t>>,
    member: &Member,
) -> Result<bool, AllocError>
    requires ready { IsReady test.now.check matching.old }
    ensures answer { IfOk result (λ b. b ≡ member_satisfies test.now member.now) }
    ensures answered { has_pattern test.now.check ≡ false → IsOk result }
    ensures ready { IsReady test.now.check matching.new }
{
    if !meets_level(test.criterion.level, member.level) {
        return Ok(false);
    }
    records_mark(alloc, test, matching, &member.records.view())
}

/// The place of the first record from a place on that is of one of the test's tags, or the number of records. No payload
/// is looked at.
fn next_of(test: &Test, records: &RecordsView<'_>, from: usize) -> usize
    requires { from ≤ length records.now }
    ensures behind { from ≤ result }
    ensures passed { list_any (record_marks test.now) (take result records.now) ≡ list_any
        (record_marks test.now) (take from records.now) }
{
    for i in from..records.len() {
        if test.criterion.tags.has(records.tag(i)) {
            return i;
        }
    }
    records.len()
}

/// Whether some record satisfies the test, its level left aside.
pub(crate) fn records_mark<'t>(
    alloc: Global,
    test: &'t Test,
    matching: &mut Option<Matching<'t>>,
    records: &RecordsView<'_>,
) -> Result<bool, AllocError>
    requires ready { IsReady test.now.check matching.old }
    ensures answer { IfOk result (λ b. b ≡ list_any (record_marks test.now) records.now) }
    ensures answered { has_pattern test.now.check ≡ false → IsOk result }
    ensures ready { IsReady test.now.check matching.new }
{
    let mut at = next_of(test, records, 0);
    while at < records.len() {
        if record_marks(alloc, test, matching, &records.get(at))? {
            return Ok(true);
        }
        at = next_of(test, records, at + 1);
    }
    Ok(false)
}

/// Whether the record is selected, its member's level left aside, and satisfies what is asked.
pub(crate) fn record_marks<'t>(
    alloc: Global,
    test: &'t Test,
    matching: &mut Option<Matching<'t>>,
    rec: &RecordView<'_>,
) -> Result<bool, AllocError>
    requires ready { IsReady test.now.check matching.old }
    ensures answer { IfOk result (λ b. b ≡ record_marks test.now rec.now) }
    ensures answered { has_pattern test.now.check ≡ false → IsOk result }
    ensures ready { IsReady test.now.check matching.new }
{
    if !test.criterion.tags.has(rec.tag()) {
        return Ok(false);
    }
    payload_marks(alloc, test, matching, rec.payload())
}

/// Whether what is asked of a payload is there, and satisfies the test.
fn payload_marks<'t>(
    alloc: Global,
    test: &'t Test,
    matching: &mut Option<Matching<'t>>,
    payload: &[u8],
) -> Result<bool, AllocError>
    requires ready { IsReady test.now.check matching.old }
    ensures answer { IfOk result
        (λ b. b ≡ subject_satisfies test.now.check (subject test.now.criterion payload.now)) }
    ensures answered { has_pattern test.now.check ≡ false → IsOk result }
    ensures ready { IsReady test.now.check matching.new }
{
    match subject(&test.criterion, payload) {
        Some(text) => satisfies(alloc, &test.check, matching, text),
        None => Ok(false),
    }
}
