//! Writing records as units by themselves.

ghost use Rattle.std.specs.Prelude.{◌≡◌, ◌++◌, ◌∷◌, [], OnOk, OnErr};
ghost use Rattle.std.specs.List.{flat_map};
ghost use Rattle.log_model.specs.Adding.{Puts};
ghost use Rattle.vsl_record.specs.declared.mark.Mark.{Mark as LogMark};
ghost use Rattle.vsl_file.specs.File.{alone_bytes, alone_unit, record_bytes, unit_bytes};

use crate::steps::WORD;
use crate::writing::{put_head, put_record};
use log_model::or_cut_back;
use vio::NoMemory;
use vsl_record::{RecordView, RecordsView, Unit, Vxid};

/// Adds the header and the record of a unit of one record, or a part of them.
#[tactic(auto, using(log_model::proofs::PrefixLemmas::adding))]
fn put_one(vxid: Vxid, rec: &RecordView<'_>, out: &mut Vec<u8>) -> Result<(), NoMemory>
    ensures { Puts result out.old.items out.new.items (unit_bytes (alone_unit vxid rec.now)) }
{
    put_head(1 + rec.words(), out)?;
    put_record(vxid, rec.mark(), rec.tag(), rec.payload(), out)
}

/// Adds the bytes of the unit of one record, as `put_records` adds those of more.
pub fn put_alone(vxid: Vxid, rec: &RecordView<'_>, out: &mut Vec<u8>) -> Result<(), NoMemory>
    ensures ok { OnOk result ((mark : LogMark) →
        out.new.items ≡ out.old.items ++ unit_bytes
        (record { vxid = vxid; mark = mark; records = rec.now ∷ [] })) }
    ensures err { OnErr result (out.new.items ≡ out.old.items) }
{
    let before = out.len();
    let put = put_one(vxid, rec, out);
    or_cut_back(put, before, out)
}

/// Adds records, each as a unit by itself, or a part of them.
#[tactic(auto, using(log_model::proofs::PrefixLemmas::adding))]
fn make_each(vxid: Vxid, records: &RecordsView<'_>, out: &mut Vec<u8>) -> Result<(), NoMemory>
    ensures { Puts result out.old.items out.new.items (alone_bytes vxid records.now) }
{
    for i in 0..records.len() {
        put_one(vxid, &records.get(i), out)?;
    }
    Ok(())
}

/// Adds records of these bytes, each as a unit by itself, or a part of them.
#[tactic(auto, using(log_model::proofs::PrefixLemmas::adding))]
fn copy_each(
    vxid: Vxid,
    records: &RecordsView<'_>,
    bytes: &[u8],
    out: &mut Vec<u8>,
) -> Result<(), NoMemory>
    requires { bytes.now ≡ flat_map (record_bytes vxid) records.now }
    ensures { Puts result out.old.items out.new.items (alone_bytes vxid records.now) }
{
    out.reserve(bytes.len())?;
    let mut left = bytes;
    for i in 0..records.len() {
        let words = records.get(i).words();
        let (here, behind) = left.split_at(WORD * words);
        put_head(1 + words, out)?;
        out.extend_from_slice(here)?;
        left = behind;
    }
    Ok(())
}

/// Adds each record of a unit as a unit by itself, or a part of them.
fn put_each_of(unit: &Unit, out: &mut Vec<u8>) -> Result<(), NoMemory>
    ensures { Puts result out.old.items out.new.items
        (alone_bytes unit.now.vxid unit.now.records) }
{
    let Some(bytes) = unit.bytes() else {
        return make_each(unit.vxid(), &unit.records(), out);
    };
    let (_, body) = bytes.split_at(WORD);
    copy_each(unit.vxid(), &unit.records(), body, out)
}

/// Adds each record of a unit as a unit by itself. After want of memory the list is as it was.
pub fn put_each(unit: &Unit, out: &mut Vec<u8>) -> Result<(), NoMemory>
    ensures ok { OnOk result (out.new.items ≡ out.old.items ++
        alone_bytes unit.now.vxid unit.now.records) }
    ensures err { OnErr result (out.new.items ≡ out.old.items) }
{
    let before = out.len();
    let put = put_each_of(unit, out);
    or_cut_back(put, before, out)
}
