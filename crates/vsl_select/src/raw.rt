//! Raw lines: of one record, of a unit, and of records by themselves; and a tag with a text.
#![tactic(auto, using(log_model::proofs::PrefixLemmas::adding))]

ghost use Rattle.std.specs.Prelude.{◌≡◌, ◌∷◌, ◌++◌, codes, decimal};
ghost use Rattle.std.specs.List.{filter, flat_map};
ghost use Rattle.log_model.specs.Adding.{Puts, Adds};
ghost use Rattle.vsl_tags.specs.Tags.{name_columns};
ghost use Rattle.vsl_select.specs.RawLine.{at_right, escaped, mark_letter, tag_line, raw_line, raw_lines};
ghost use Rattle.vsl_select.specs.Shown.{is_shown_alone};

use crate::parts::{letter_of, put_byte, put_escaped, put_text};
use crate::viewer::Viewer;
use crate::vxid_columns::VxidColumns;
use log_model::{NoMemory, or_cut_back};
use vsl_record::{Mark, RecordView, RecordsView, Unit, Vxid};
use vsl_tags::{Tag, name_columns};

/// The bytes of a VXID's columns, and the space behind them.
const VXID_BYTES: usize = 11;

/// The bytes of a tag's columns, and the space behind them.
const TAG_BYTES: usize = 15;

/// The bytes before the payload of a raw line: the last two are of the mark and a space.
const COLUMN_BYTES: usize = 28;

/// Adds a tag's name in its columns, and a space.
#[inline]
fn put_tag(out: &mut Vec<u8>, tag: Tag) -> Result<(), NoMemory>
    ensures { Puts result out.old.items out.new.items (name_columns tag) }
{
    put_text(out, name_columns(tag))
}

/// Adds the end of a line: the text with its escapes, and a line feed.
fn put_line_end(out: &mut Vec<u8>, text: &[u8]) -> Result<(), NoMemory>
    ensures { Puts result out.old.items out.new.items (escaped text.now ++ codes "\n") }
{
    put_escaped(out, text)?;
    put_byte(out, b'\n')?;
    Ok(())
}

/// Adds a tag in its columns and a text with its escapes, or a part of them.
pub(crate) fn put_tag_line(out: &mut Vec<u8>, tag: Tag, text: &[u8]) -> Result<(), NoMemory>
    ensures { Puts result out.old.items out.new.items (tag_line tag text.now) }
{
    put_tag(out, tag)?;
    put_line_end(out, text)?;
    Ok(())
}

/// Adds the digits of a VXID for which its columns have no room, which are mostly none.
#[inline]
fn put_before(out: &mut Vec<u8>, digits: &[u8]) -> Result<(), NoMemory>
    ensures { Puts result out.old.items out.new.items digits.now }
{
    if digits.is_empty() {
        return Ok(());
    }
    put_text(out, digits)
}

/// Adds what stands before the payload in a raw line: the VXID, the tag and the mark, in their columns. They are put
/// together first, so that the list grows once.
fn put_raw_columns(
    out: &mut Vec<u8>,
    vxid: &VxidColumns,
    tag: Tag,
    mark: Mark,
) -> Result<(), NoMemory>
    ensures { Puts result out.old.items out.new.items (at_right 10 (decimal vxid.now) ++ codes " " ++ name_columns tag ++ mark_letter mark ∷ codes " ") }
{
    let (before, vxid_bytes) = vxid.parts();
    put_before(out, before)?;
    let mut columns = [b' '; COLUMN_BYTES];
    let (vxid_columns, behind) = columns.split_at_mut(VXID_BYTES);
    let (tag_columns, mark_columns) = behind.split_at_mut(TAG_BYTES);
    vxid_columns.copy_from_slice(vxid_bytes);
    tag_columns.copy_from_slice(name_columns(tag));
    mark_columns.copy_from_slice(&[letter_of(mark), b' ']);
    put_text(out, &columns)?;
    Ok(())
}

/// Adds the raw line of a record, or a part of it.
pub(crate) fn put_raw_line(
    out: &mut Vec<u8>,
    vxid: &VxidColumns,
    rec: &RecordView<'_>,
) -> Result<(), NoMemory>
    ensures { Puts result out.old.items out.new.items (raw_line vxid.now rec.now) }
{
    put_raw_columns(out, vxid, rec.tag(), rec.mark())?;
    put_line_end(out, rec.payload())?;
    Ok(())
}

/// Adds the raw lines of records, or a part of them.
pub(crate) fn put_raw_lines(
    out: &mut Vec<u8>,
    vxid: Vxid,
    records: &RecordsView<'_>,
) -> Result<(), NoMemory>
    ensures { Puts result out.old.items out.new.items (flat_map (raw_line vxid) records.now) }
{
    let columns = VxidColumns::new(vxid);
    for i in 0..records.len() {
        put_raw_line(out, &columns, &records.get(i))?;
    }
    Ok(())
}

/// Adds the raw lines of those of the records that are shown by themselves, or a part of them.
fn put_shown_lines(
    out: &mut Vec<u8>,
    vxid: Vxid,
    viewer: &mut Viewer<'_>,
    records: &RecordsView<'_>,
) -> Result<(), NoMemory>
    ensures text { Puts result out.old.items out.new.items
        (flat_map (raw_line vxid) (filter (is_shown_alone viewer.old) records.now)) }
    ensures same { viewer.new ≡ viewer.old }
{
    let columns = VxidColumns::new(vxid);
    for i in 0..records.len() {
        let rec = records.get(i);
        if viewer.shows_alone(&rec)? {
            put_raw_line(out, &columns, &rec)?;
        }
    }
    Ok(())
}

/// Adds a tag's name at the left of 14 columns, a space, the text with its escapes, and a line feed. After want of memory the list is as it was.
pub fn tag_line(tag: Tag, text: &[u8], out: &mut Vec<u8>) -> Result<(), NoMemory>
    ensures { Adds result out.old.items out.new.items (tag_line tag text.now) }
{
    let before = out.len();
    let put = put_tag_line(out, tag, text);
    or_cut_back(put, before, out)
}

/// Adds the raw line of a record (varnishlog(1), `-g raw`). After want of memory the list is as it was.
pub fn raw_line(vxid: Vxid, rec: &RecordView<'_>, out: &mut Vec<u8>) -> Result<(), NoMemory>
    ensures { Adds result out.old.items out.new.items (raw_line vxid rec.now) }
{
    let before = out.len();
    let put = put_raw_line(out, &VxidColumns::new(vxid), rec);
    or_cut_back(put, before, out)
}

/// Adds the raw lines of a unit's records (varnishlog(1), `-g raw`). After want of memory the list is as it was.
pub fn raw_lines(unit: &Unit, out: &mut Vec<u8>) -> Result<(), NoMemory>
    ensures { Adds result out.old.items out.new.items (raw_lines unit.now) }
{
    let before = out.len();
    let put = put_raw_lines(out, unit.vxid(), &unit.records());
    or_cut_back(put, before, out)
}

/// Adds the raw lines of those of a unit's records that are shown by themselves (varnishlog(1), `-g raw`, `-i` and `-c`).
/// After want of memory the list is as it was.
pub fn shown_raw_lines(
    unit: &Unit,
    viewer: &mut Viewer<'_>,
    out: &mut Vec<u8>,
) -> Result<(), NoMemory>
    ensures text { Adds result out.old.items out.new.items
        (flat_map (raw_line unit.now.vxid)
        (filter (is_shown_alone viewer.old) unit.now.records)) }
    ensures same { viewer.new ≡ viewer.old }
{
    let before = out.len();
    let put = put_shown_lines(out, unit.vxid(), viewer, &unit.records());
    or_cut_back(put, before, out)
}
