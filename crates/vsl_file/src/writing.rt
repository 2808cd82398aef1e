//! Writing a log file: its header and its units.

ghost use Rattle.std.specs.Prelude.{◌≡◌, ◌+◌, ◌<◌, ◌≤◌, ◌++◌, ℕ, length, slice_index, OnOk, OnErr};
ghost use Rattle.std.specs.Int.{w32, to_le_bytes};
ghost use Rattle.std.specs.List.{flat_map};
ghost use Rattle.log_model.specs.Adding.{Puts};
ghost use Rattle.vsl_record.specs.declared.mark.Mark.{Mark as LogMark};
ghost use Rattle.vsl_record.specs.Payload.{most_payload};
ghost use Rattle.vsl_record.specs.Unit.{IsRecordOf, LogUnit};
ghost use Rattle.vsl_record.specs.Words.{header_mark, most_words, unit_words};
ghost use Rattle.vsl_file.specs.File.{file_header, record_bytes, unit_bytes};
ghost use Rattle.vsl_file.specs.inside.Writing.{filled};

use crate::header::HEADER;
use crate::steps::WORD;
use log_model::or_cut_back;
use vio::NoMemory;
use vsl_record::{HEADER_MARK, Mark, RecordsView, TOP_BYTE, Unit, Vxid, count_words};
use vsl_tags::Tag;

/// What fills the last word of a payload, at most.
const FILLING: [u8; 3] = [0; 3];

/// Adds the header of a file. After want of memory the list is as it was.
pub fn put_header(out: &mut Vec<u8>) -> Result<(), NoMemory>
    ensures ok { OnOk result (out.new.items ≡ out.old.items ++ file_header) }
    ensures err { OnErr result (out.new.items ≡ out.old.items) }
{
    out.extend_from_slice(&HEADER)?;
    Ok(())
}

/// Bytes are below 256.
fn are_bytes(bytes: &[u8])
    ensures { (i : ℕ) → slice_index bytes.now i < 256 }
{}

/// Adds a payload, and zero bytes up to a whole word. Three are added always, since a copy of a fixed size is no call, and
/// those too many are cut off.
#[tactic(auto, using(log_model::proofs::PrefixLemmas::adding))]
fn put_payload(payload: &[u8], out: &mut Vec<u8>) -> Result<(), NoMemory>
    ensures { Puts result out.old.items out.new.items (filled payload.now) }
{
    out.extend_from_slice(payload)?;
    out.extend_from_slice(&FILLING)?;
    out.truncate(out.len() - (payload.len() % WORD + FILLING.len()) % WORD);
    Ok(())
}

/// Adds the bytes of a record of a unit of this VXID, or a part of them.
#[tactic(auto, using(log_model::proofs::PrefixLemmas::adding))]
pub fn put_record(
    vxid: Vxid,
    mark: Mark,
    tag: Tag,
    payload: &[u8],
    out: &mut Vec<u8>,
) -> Result<(), NoMemory>
    requires { length payload.now ≤ most_payload }
    ensures written { Puts result out.old.items out.new.items
        (record_bytes vxid (record { tag = tag; mark = mark; payload = payload.now })) }
    ensures rec { IsRecordOf mark (record { tag = tag; mark = mark; payload = payload.now }) }
{
    are_bytes(payload);
    let head = TOP_BYTE * u32::from(tag.number()) + payload.len() as u32;
    let id = vxid.wrapping_add(mark.bits());
    out.extend_from_slice(&head.to_le_bytes())?;
    out.extend_from_slice(&id.to_le_bytes())?;
    put_payload(payload, out)
}

/// Adds the bytes of records.
#[tactic(auto, using(log_model::proofs::PrefixLemmas::adding))]
fn put_body(vxid: Vxid, records: &RecordsView<'_>, out: &mut Vec<u8>) -> Result<(), NoMemory>
    ensures { Puts result out.old.items out.new.items (flat_map (record_bytes vxid) records.now) }
{
    for i in 0..records.len() {
        let rec = records.get(i);
        put_record(vxid, rec.mark(), rec.tag(), rec.payload(), out)?;
    }
    Ok(())
}

/// Adds the header word of a unit of so many words.
pub(crate) fn put_head(words: usize, out: &mut Vec<u8>) -> Result<(), NoMemory>
    requires { words ≤ most_words }
    ensures { Puts result out.old.items out.new.items (to_le_bytes w32 (header_mark + words)) }
{
    let head = HEADER_MARK + words as u32;
    out.extend_from_slice(&head.to_le_bytes())?;
    Ok(())
}

/// Adds the unit of so many words that has these bytes behind its header, or a part of it.
#[tactic(auto, using(log_model::proofs::PrefixLemmas::adding))]
pub fn put_unit_of(words: usize, body: &[u8], out: &mut Vec<u8>) -> Result<(), NoMemory>
    requires { words ≤ most_words }
    ensures { (u : LogUnit) → words ≡ length (unit_words u) →
        body.now ≡ flat_map (record_bytes u.vxid) u.records →
        Puts result out.old.items out.new.items (unit_bytes u) }
{
    put_head(words, out)?;
    out.extend_from_slice(body)?;
    Ok(())
}

/// Adds the header and the records of a unit, or a part of them.
#[tactic(auto, using(log_model::proofs::PrefixLemmas::adding))]
fn put_words(vxid: Vxid, records: &RecordsView<'_>, out: &mut Vec<u8>) -> Result<(), NoMemory>
    requires { (mark : LogMark) →
        length (unit_words (record { vxid = vxid; mark = mark; records = records.now })) ≤
        most_words }
    ensures { (mark : LogMark) →
        Puts result out.old.items out.new.items
        (unit_bytes (record { vxid = vxid; mark = mark; records = records.now })) }
{
    let words = count_words(records) as usize;
    out.reserve(WORD * words + FILLING.len())?;
    put_head(words, out)?;
    put_body(vxid, records, out)
}

/// Adds the bytes of the unit of these records, whose marks they tell. After want of memory the list is as
/// it was. Any VXID is taken, and whether the records are a unit's is for the caller.
pub fn put_records(vxid: Vxid, records: &RecordsView<'_>, out: &mut Vec<u8>) -> Result<(), NoMemory>
    requires { (mark : LogMark) →
        length (unit_words (record { vxid = vxid; mark = mark; records = records.now })) ≤
        most_words }
    ensures ok { OnOk result ((mark : LogMark) →
        out.new.items ≡ out.old.items ++ unit_bytes
        (record { vxid = vxid; mark = mark; records = records.now })) }
    ensures err { OnErr result (out.new.items ≡ out.old.items) }
{
    let before = out.len();
    let put = put_words(vxid, records, out);
    or_cut_back(put, before, out)
}

/// Adds the bytes of a unit. After want of memory the list is as it was.
pub fn put_unit(unit: &Unit, out: &mut Vec<u8>) -> Result<(), NoMemory>
    ensures ok { OnOk result (out.new.items ≡ out.old.items ++ unit_bytes unit.now) }
    ensures err { OnErr result (out.new.items ≡ out.old.items) }
{
    let Some(bytes) = unit.bytes() else {
        return put_records(unit.vxid(), &unit.records(), out);
    };
    out.extend_from_slice(bytes)?;
    Ok(())
}
