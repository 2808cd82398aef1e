//! The text of groups.
#![tactic(auto, using(log_model::proofs::PrefixLemmas::adding))]

ghost use Rattle.std.specs.Prelude.{◌≡◌, ◌==◌, ◌++◌, [], if◌then◌else◌, codes, decimal};
ghost use Rattle.std.specs.List.{flat_map, list_all};
ghost use Rattle.vsl_select.specs.RawLine.{at_left, raw_line};
ghost use Rattle.log_model.specs.Adding.{Puts, Adds};
ghost use Rattle.vsl_select.specs.Lines.{header, record_text, record_line, member_text, member_raw_lines, transactions_text, group_text};
ghost use Rattle.vsl_select.specs.Shown.{shown, shown_member, shown_members};

use crate::level_field::LevelField;
use crate::parts::{put_byte, put_text, put_vxid_left, title_of};
use crate::raw::{put_raw_line, put_raw_lines, put_tag_line};
use crate::selection::Selection;
use crate::viewer::Viewer;
use crate::vxid_columns::VxidColumns;
use log_model::{NoMemory, or_cut_back};
use txn_rows::{Group, Member};
use vsl_record::{RecordView, Vxid};

/// Adds the raw lines of the shown records of a member.
fn put_raw_member(
    out: &mut Vec<u8>,
    viewer: &mut Viewer<'_>,
    member: &Member,
) -> Result<(), NoMemory>
    ensures text { Puts result out.old.items out.new.items
        (member_raw_lines (shown_member viewer.old member.now)) }
    ensures same { viewer.new ≡ viewer.old }
{
    if viewer.selection().shows_every_record() {
        return put_raw_lines(out, member.vxid, &member.records.view());
    }
    let columns = VxidColumns::new(member.vxid);
    let records = member.records.view();
    for i in 0..records.len() {
        let rec = records.get(i);
        if viewer.shows(&rec)? {
            put_raw_line(out, &columns, &rec)?;
        }
    }
    Ok(())
}

/// Adds the raw lines of what is shown of a group of records by themselves.
fn put_raw_members(
    out: &mut Vec<u8>,
    viewer: &mut Viewer<'_>,
    members: &[Member],
) -> Result<(), NoMemory>
    ensures text { Puts result out.old.items out.new.items
        (flat_map member_raw_lines (shown_members viewer.old members.now)) }
    ensures same { viewer.new ≡ viewer.old }
{
    for member in members {
        if viewer.selection().shows_member(member) {
            put_raw_member(out, viewer, member)?;
        }
    }
    Ok(())
}

/// Adds the end of a header: the VXID and a line feed.
fn put_header_end(out: &mut Vec<u8>, vxid: Vxid) -> Result<(), NoMemory>
    ensures { Puts result out.old.items out.new.items (codes " " ++ at_left 10 (decimal vxid) ++ codes "\n") }
{
    put_byte(out, b' ')?;
    put_vxid_left(out, vxid)?;
    put_byte(out, b'\n')?;
    Ok(())
}

/// Adds a transaction's header.
fn put_header(out: &mut Vec<u8>, member: &Member) -> Result<(), NoMemory>
    ensures { Puts result out.old.items out.new.items (header member.now) }
{
    LevelField::new(b'*', member.level).put(out)?;
    put_text(out, title_of(member.kind))?;
    put_header_end(out, member.vxid)?;
    Ok(())
}

/// Adds the text of a record in its transaction, after the level.
fn put_record_text(out: &mut Vec<u8>, rec: &RecordView<'_>) -> Result<(), NoMemory>
    ensures { Puts result out.old.items out.new.items (record_text rec.now) }
{
    put_tag_line(out, rec.tag(), rec.payload())
}

/// Adds the line of a record in a transaction of this level, in dashes, and VXID.
fn put_record(
    out: &mut Vec<u8>,
    verbose: bool,
    level: &LevelField,
    vxid: &VxidColumns,
    rec: &RecordView<'_>,
) -> Result<(), NoMemory>
    ensures { Puts result out.old.items out.new.items
        (level.now ++ (if verbose then raw_line vxid.now rec.now else record_text rec.now)) }
{
    level.put(out)?;
    if verbose {
        put_raw_line(out, vxid, rec)
    } else {
        put_record_text(out, rec)
    }
}

/// Adds the lines of all records of a transaction.
fn put_every_record(out: &mut Vec<u8>, verbose: bool, member: &Member) -> Result<(), NoMemory>
    ensures { Puts result out.old.items out.new.items
        (flat_map (record_line verbose member.now) member.now.records) }
{
    let level = LevelField::new(b'-', member.level);
    let vxid = VxidColumns::new(member.vxid);
    let records = member.records.view();
    for i in 0..records.len() {
        put_record(out, verbose, &level, &vxid, &records.get(i))?;
    }
    Ok(())
}

/// Adds the lines of the shown records of a transaction.
fn put_records(
    out: &mut Vec<u8>,
    verbose: bool,
    viewer: &mut Viewer<'_>,
    member: &Member,
) -> Result<(), NoMemory>
    ensures text { Puts result out.old.items out.new.items
        (flat_map (record_line verbose member.now)
        (shown_member viewer.old member.now).records) }
    ensures same { viewer.new ≡ viewer.old }
{
    if viewer.selection().shows_every_record() {
        return put_every_record(out, verbose, member);
    }
    let level = LevelField::new(b'-', member.level);
    let vxid = VxidColumns::new(member.vxid);
    let records = member.records.view();
    for i in 0..records.len() {
        let rec = records.get(i);
        if viewer.shows(&rec)? {
            put_record(out, verbose, &level, &vxid, &rec)?;
        }
    }
    Ok(())
}

/// Adds a transaction's header and its shown records, if it has any: the header of one without is cut off again.
fn put_member(
    out: &mut Vec<u8>,
    verbose: bool,
    viewer: &mut Viewer<'_>,
    member: &Member,
) -> Result<(), NoMemory>
    ensures text { Puts result out.old.items out.new.items
        (member_text verbose (shown_member viewer.old member.now)) }
    ensures same { viewer.new ≡ viewer.old }
{
    let before = out.len();
    put_header(out, member)?;
    let behind = out.len();
    put_records(out, verbose, viewer, member)?;
    if out.len() == behind {
        out.truncate(before);
    }
    Ok(())
}

/// Adds the texts of what is shown of transactions, in order.
fn put_members(
    out: &mut Vec<u8>,
    verbose: bool,
    viewer: &mut Viewer<'_>,
    members: &[Member],
) -> Result<(), NoMemory>
    ensures text { Puts result out.old.items out.new.items
        (flat_map (member_text verbose) (shown_members viewer.old members.now)) }
    ensures same { viewer.new ≡ viewer.old }
{
    for member in members {
        if viewer.selection().shows_member(member) {
            put_member(out, verbose, viewer, member)?;
        }
    }
    Ok(())
}

/// Whether what is shown of these are records by themselves.
fn are_raw(selection: &Selection, members: &[Member]) -> bool
    ensures { result ≡ list_all (λ m. m.level == 0) (shown_members selection.now members.now) }
{
    members
        .iter()
        .all(|m| m.level == 0 || !selection.shows_member(m))
}

/// Adds the texts of what is shown of transactions, and an empty line if anything was printed.
fn put_transactions(
    out: &mut Vec<u8>,
    verbose: bool,
    viewer: &mut Viewer<'_>,
    members: &[Member],
) -> Result<(), NoMemory>
    ensures text { Puts result out.old.items out.new.items
        (transactions_text verbose (shown_members viewer.old members.now)) }
    ensures same { viewer.new ≡ viewer.old }
{
    let before = out.len();
    put_members(out, verbose, viewer, members)?;
    if out.len() > before {
        put_byte(out, b'\n')?;
    }
    Ok(())
}

/// Adds the text of what is shown of a group, or a part of it.
fn put_group(
    out: &mut Vec<u8>,
    verbose: bool,
    viewer: &mut Viewer<'_>,
    group: &Group,
) -> Result<(), NoMemory>
    ensures text { Puts result out.old.items out.new.items
        (group_text verbose (shown viewer.old group.now)) }
    ensures same { viewer.new ≡ viewer.old }
{
    let members = group.members.as_slice();
    if are_raw(viewer.selection(), members) {
        put_raw_members(out, viewer, members)
    } else {
        put_transactions(out, verbose, viewer, members)
    }
}

/// Adds the text of what a selection shows of a group; verbose, with the VXID and the mark of each record. Where nothing
/// is shown, nothing is added. After want of memory the list is as it was.
///
/// Source: varnishlog(1), `-v`.
pub fn group_text(
    group: &Group,
    viewer: &mut Viewer<'_>,
    verbose: bool,
    out: &mut Vec<u8>,
) -> Result<(), NoMemory>
    ensures text { Adds result out.old.items out.new.items
        (group_text verbose (shown viewer.old group.now)) }
    ensures same { viewer.new ≡ viewer.old }
{
    let before = out.len();
    let put = put_group(out, verbose, viewer, group);
    or_cut_back(put, before, out)
}
