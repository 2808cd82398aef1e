//! How groups are written: as lines, or as the units of a log file.

ghost use Rattle.std.specs.Prelude.{◌≡◌, ◌++◌, ◌∷◌, [], OnOk};
ghost use Rattle.std.specs.List.{filter};
ghost use Rattle.vsl_select.specs.Shown.{is_shown_alone, shown, shown_member};
ghost use Rattle.vsl_file.specs.File.{alone_bytes, log_bytes};
ghost use Rattle.vsl_select.specs.FileUnits.{file_units, units_of};
ghost use Rattle.vsl_dispatch.specs.Groups.{raw_groups};
ghost use Rattle.tool_consumers.specs.Output.{laid_out};
ghost use Rattle.tool_consumers.specs.inside.Consumer.{raw_written};

use txn_rows::{Group, Member};
use vio::NoMemory;
use vsl_file::{put_alone, put_each, put_records};
use vsl_record::{RecordView, RecordsView, Unit, Vxid};
use vsl_select::{Viewer, first_unit, group_text, raw_lines, shown_raw_lines};

/// How groups are written.
#[derive(Clone, Copy, Debug, PartialEq, Eq)]
pub enum Layout {
    /// As lines of text.
    Lines,
    /// As the units of a log file.
    Units,
}

/// What groups look like: how they are written, and what of them is shown.
#[derive(Drop)]
pub struct Look<'s> {
    pub layout: Layout,
    /// Whether each line has the VXID and the mark of its record (varnishlog(1), `-v`).
    pub verbose: bool,
    pub viewer: Viewer<'s>,
}

/// Adds records as the units of a log file.
fn put_units(out: &mut Vec<u8>, vxid: Vxid, records: &RecordsView<'_>) -> Result<(), NoMemory>
    ensures { OnOk result (out.new.items ≡ out.old.items ++ log_bytes (units_of vxid records.now)) }
{
    let (_, mut rest) = records.split_at(0);
    while !rest.is_empty() {
        let (unit, after) = rest.split_at(first_unit(&rest));
        put_records(vxid, &unit, out)?;
        rest = after;
    }
    Ok(())
}

/// Adds the shown records of a transaction as the units of a log file.
fn put_member_units(
    out: &mut Vec<u8>,
    viewer: &mut Viewer<'_>,
    member: &Member,
) -> Result<(), NoMemory>
    ensures text { OnOk result (out.new.items ≡ out.old.items ++ log_bytes
        (units_of member.now.vxid (shown_member viewer.old member.now).records)) }
    ensures same { viewer.new ≡ viewer.old }
{
    if viewer.selection().shows_every_record() {
        return put_units(out, member.vxid, &member.records.view());
    }
    let records = viewer.shown_records(member)?;
    put_units(out, member.vxid, &records.view())
}

/// Adds what is shown of a group as the units of a log file.
fn put_group_units(
    out: &mut Vec<u8>,
    viewer: &mut Viewer<'_>,
    group: &Group,
) -> Result<(), NoMemory>
    ensures text { OnOk result (out.new.items ≡ out.old.items ++ log_bytes
        (file_units (shown viewer.old group.now))) }
    ensures same { viewer.new ≡ viewer.old }
{
    for member in group.members.as_slice() {
        if viewer.selection().shows_member(member) {
            put_member_units(out, viewer, member)?;
        }
    }
    Ok(())
}

/// Adds what is shown of a group as it looks.
pub fn put_group(out: &mut Vec<u8>, look: &mut Look<'_>, group: &Group) -> Result<(), NoMemory>
    ensures text { OnOk result (out.new.items ≡ out.old.items ++
        laid_out look.old (group.now ∷ [])) }
    ensures same { look.new ≡ look.old }
{
    match look.layout {
        Layout::Lines => group_text(group, &mut look.viewer, look.verbose, out),
        Layout::Units => put_group_units(out, &mut look.viewer, group),
    }
}

/// Adds a record as a unit of a log file by itself, where it is so shown.
fn put_one_shown(
    out: &mut Vec<u8>,
    vxid: Vxid,
    viewer: &mut Viewer<'_>,
    rec: &RecordView<'_>,
) -> Result<(), NoMemory>
    ensures text { OnOk result (out.new.items ≡ out.old.items ++ alone_bytes vxid
        (filter (is_shown_alone viewer.old) (rec.now ∷ []))) }
    ensures same { viewer.new ≡ viewer.old }
{
    if viewer.shows_alone(rec)? {
        put_alone(vxid, rec, out)
    } else {
        Ok(())
    }
}

/// Adds those of the records that are shown by themselves as units of a log file, each by itself.
fn put_shown_alone(
    out: &mut Vec<u8>,
    vxid: Vxid,
    viewer: &mut Viewer<'_>,
    records: &RecordsView<'_>,
) -> Result<(), NoMemory>
    ensures text { OnOk result (out.new.items ≡ out.old.items ++ alone_bytes vxid
        (filter (is_shown_alone viewer.old) records.now)) }
    ensures same { viewer.new ≡ viewer.old }
{
    for i in 0..records.len() {
        put_one_shown(out, vxid, viewer, &records.get(i))?;
    }
    Ok(())
}

/// Adds each record of a unit by itself, as it is laid out.
fn put_every_raw(out: &mut Vec<u8>, layout: Layout, unit: &Unit) -> Result<(), NoMemory>
    ensures { OnOk result (out.new.items ≡ out.old.items ++
        raw_written layout unit.now.vxid unit.now.records) }
{
    match layout {
        Layout::Lines => raw_lines(unit, out),
        Layout::Units => put_each(unit, out),
    }
}

/// Adds each record of a unit that is shown by itself, as it looks.
fn put_shown_raw(out: &mut Vec<u8>, look: &mut Look<'_>, unit: &Unit) -> Result<(), NoMemory>
    ensures text { OnOk result (out.new.items ≡ out.old.items ++
        raw_written look.old.layout unit.now.vxid
        (filter (is_shown_alone look.old.viewer) unit.now.records)) }
    ensures same { look.new ≡ look.old }
{
    match look.layout {
        Layout::Lines => shown_raw_lines(unit, &mut look.viewer, out),
        Layout::Units => { put_shown_alone(out, unit.vxid(), &mut look.viewer, &unit.records()) }
    }
}

/// Adds what is shown of a unit's records, each a group by itself, as it looks. Where nothing is hidden no record is asked.
pub fn put_raw(out: &mut Vec<u8>, look: &mut Look<'_>, unit: &Unit) -> Result<(), NoMemory>
    ensures text { OnOk result (out.new.items ≡ out.old.items ++
        laid_out look.old (raw_groups unit.now)) }
    ensures same { look.new ≡ look.old }
{
    if look.viewer.selection().shows_everything() {
        return put_every_raw(out, look.layout, unit);
    }
    put_shown_raw(out, look, unit)
}
