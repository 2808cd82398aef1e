//! Reading a unit from bytes.

ghost use Rattle.std.specs.Prelude.{◌≡◌, ◌≢◌, ◌⊎◌, ◌+◌, ◌-◌, ◌*◌, ◌/◌, ◌%◌, ◌<◌, ◌≤◌, nat_lt, [], ◌++◌, ℕ, List, Option, Some, false, length, slice_index, take, drop, IfOk, IfErr, IfSome, IfNone, OnOk};
ghost use Rattle.vsl_tags.specs.Tags.{IsTag};
ghost use Rattle.vsl_words.specs.Versions.{id_in, id_size, id_words, most_words_of, vxid_end_of};
ghost use Rattle.vsl_words.specs.Words.{is_filled, payload_words, words_in};
ghost use Rattle.vsl_record.specs.Payload.{most_payload};
ghost use Rattle.vsl_record.specs.Unit.{LogUnit};
ghost use Rattle.vsl_record.specs.WordFaults.{header_fault, mixed_fault, record_fault, unless, HasBadRecord, FirstFault};
ghost use Rattle.vsl_record.specs.Words.{IsUnitOf, most_words, unit_words_of};
ghost use Rattle.vsl_record.specs.Blocks.{block_records, entry_record, IsBlock, IsEntryOf};
ghost use Rattle.vsl_record.specs.inside.Blocks.{IsPlaced};
ghost use Rattle.vsl_record.specs.inside.UnitReading.{IsHeaded, IsPayloadRead, IsRecordRead, AreRecordsRead, StopsAt, differing};

use crate::body::{Block, Body};
use crate::entry::Entry;
use crate::fault::WordFault;
use crate::lent::RecordView;
use crate::mark::Mark;
use crate::payload::MAX_PAYLOAD;
use crate::records::Records;
use crate::unit::{TOP_BYTE, UNIT_MARK, Unit};
use vsl_tags::Tag;
use vsl_words::{
    NEXT_WORD, Version, are_bytes, first_word, header_word, id_in, is_padded, keep_words,
    word_count,
};

/// Beside its id a record has so many words usually. Room for the records is made before they are read.
const USUAL_WORDS: usize = 4;

/// The payload of so many bytes whose words begin the bytes, and the bytes behind them. It begins at this place of the
/// unit.
#[tactic(auto, unfolding(vsl_words::specs::Words::is_filled))]
fn look_at_payload(at: u64, count: usize, bytes: &[u8]) -> Result<(&[u8], &[u8]), WordFault>
    requires place { at ≤ most_words + 3 }
    requires short { count ≤ most_payload }
    requires enough { payload_words count ≤ length (words_in bytes.now) }
    ensures read { IfOk result
        (λ x. IsPayloadRead count (words_in bytes.now) x.0.now (words_in x.1.now)) }
    ensures placed { IfOk result (λ x. x.0.now ≡ take count bytes.now) }
    ensures behind { IfOk result (λ x. x.1.now ≡ drop (4 * payload_words count) bytes.now) }
    ensures inside { OnOk result (count ≤ length bytes.now) }
    ensures refused { IfErr result (λ fault. (is_filled count (words_in bytes.now) ≡ false) ×
        (fault ≡ WordFault.BadPadding (at + count / 4))) }
{
    are_bytes(bytes);
    let (held, rest) = bytes.split_at(4 * ((count + 3) / 4));
    if !is_padded(held, count) {
        return Err(WordFault::BadPadding {
            at: at + (count / 4) as u64,
        });
    }
    let (payload, _) = held.split_at(count);
    Ok((payload, rest))
}

/// The tag and the length of the record of which this is the first word. It stands at this place, from which so many
/// words go to the unit's end.
#[tactic(auto, unfolding(crate::specs::WordFaults::record_fault))]
fn look_at_head(
    version: Version,
    head: u32,
    at: u64,
    count: usize,
) -> Result<(Tag, usize), WordFault>
    ensures tag { IfOk result (λ x. x.0 ≡ head / 16777216) }
    ensures is_tag { OnOk result (IsTag (head / 16777216)) }
    ensures size { IfOk result (λ x. x.1 ≡ head % 16777216) }
    ensures short { IfOk result (λ x. x.1 ≤ most_payload) }
    ensures room { IfOk result (λ x. 1 + id_size version + payload_words x.1 ≤ count) }
    ensures refused { IfErr result (λ fault. (id : ℕ) (words : List ℕ) →
        slice_index words 0 ≡ head →
        length words ≡ count → record_fault version id at words ≡ Some fault) }
{
    let Some(tag) = Tag::from_number((head / TOP_BYTE) as u8) else {
        return Err(WordFault::BadTag { at });
    };
    let length = (head % TOP_BYTE) as usize;
    if length > MAX_PAYLOAD {
        return Err(WordFault::BadLength { at });
    }
    if count < 1 + version.id_size() + (length + 3) / 4 {
        return Err(WordFault::BadLength { at });
    }
    Ok((tag, length))
}

/// Looks at the id that begins the bytes, of the record at this place, where that of the unit's first record is this, and
/// gives the bytes behind it.
fn look_at_id(version: Version, id: u64, at: u64, bytes: &[u8]) -> Result<&[u8], WordFault>
    requires place { at ≤ most_words }
    requires enough { id_size version ≤ length (words_in bytes.now) }
    ensures same { OnOk result (id_in version (words_in bytes.now) ≡ id) }
    ensures one_mark { OnOk result (id < vxid_end_of version * 3) }
    ensures behind { IfOk result (λ rest. rest.now ≡ drop (4 * id_size version) bytes.now) }
    ensures refused { IfErr result (λ fault. (next : Option WordFault) →
        mixed_fault (at + 1) (id_words version id) (words_in bytes.now)
        (unless (nat_lt id (vxid_end_of version * 3))
        (WordFault.BadMark (at + id_size version)) next) ≡ Some fault) }
{
    are_bytes(bytes);
    let here = id_in(version, bytes);
    if here != id {
        return Err(WordFault::Mixed {
            at: at + 1 + differing(version, id, here),
        });
    }
    if id >= 3 * version.vxid_end() {
        return Err(WordFault::BadMark {
            at: at + version.id_size() as u64,
        });
    }
    let (_, behind) = bytes.split_at(4 * version.id_size());
    Ok(behind)
}

/// The place of the first word in which two ids differ.
fn differing(version: Version, id: u64, other: u64) -> u64
    ensures { result ≡ differing version id other }
{
    match version {
        Version::One => 0,
        Version::Two => u64::from(id % NEXT_WORD == other % NEXT_WORD),
    }
}

/// The record that begins the bytes with this first word, and the bytes behind it. The bytes reach to the end of a
/// unit of so many words, the first record of which has this id.
#[tactic(auto, unfolding(crate::specs::WordFaults::record_fault))]
fn look_at_record(
    version: Version,
    head: u32,
    id: u64,
    size: usize,
    bytes: &[u8],
) -> Result<(RecordView<'_>, &[u8]), WordFault>
    requires head { slice_index (words_in bytes.now) 0 ≡ head }
    requires some { 0 < length (words_in bytes.now) }
    requires inside { length (words_in bytes.now) ≤ size }
    requires few { size ≤ most_words }
    ensures read { IfOk result
        (λ x. IsRecordRead version id (words_in bytes.now) x.0 (words_in x.1.now)) }
    ensures placed { IfOk result (λ x. IsPlaced version bytes.now x.0.payload x.1.now) }
    ensures refused { IfErr result (λ fault. fault ≢ WordFault.NoMemory →
        record_fault version id (size - length (words_in bytes.now))
        (words_in bytes.now) ≡ Some fault) }
{
    are_bytes(bytes);
    let count = word_count(bytes);
    let at = (size - count) as u64;
    let (tag, length) = look_at_head(version, head, at, count)?;
    let (_, behind) = bytes.split_at(4);
    let held = look_at_id(version, id, at, behind)?;
    let first = at + 1 + version.id_size() as u64;
    let (payload, rest) = look_at_payload(first, length, held)?;
    Ok((
        RecordView::new(tag, Mark::of_id(version, id), payload),
        rest,
    ))
}

/// The entry of a record of a block, the payload of which stands behind the first word and the id of those that are left.
fn entry_of(version: Version, block: &[u8], left: &[u8], rec: &RecordView<'_>) -> Entry
    requires few { length block.now ≤ 4 * most_words + 3 }
    requires left { left.now ≡ drop (length block.now - length left.now) block.now }
    requires fewer { length left.now ≤ length block.now }
    requires long { 4 + 4 * id_size version + length rec.now.payload ≤ length left.now }
    requires there { rec.now.payload ≡ take (length rec.now.payload)
        (drop (4 * id_size version) (drop 4 left.now)) }
    ensures record { entry_record block.now result ≡ rec.now }
    ensures entry { IsEntryOf block.now result }
{
    Entry {
        tag: rec.tag(),
        mark: rec.mark(),
        size: rec.payload().len() as u16,
        at: (block.len() - left.len() + 4 + 4 * version.id_size()) as u32,
    }
}

/// The entries of the records of a unit of so many words, whose bytes are a block. They stand in the memory of the
/// entries that are given.
fn look_at_records(
    version: Version,
    room: Vec<Entry>,
    id: u64,
    size: usize,
    block: &[u8],
) -> Result<Vec<Entry>, WordFault>
    requires size { size ≡ length (words_in block.now) }
    requires few { size ≤ most_words }
    requires some { 1 ≤ size }
    ensures read { IfOk result (λ v. AreRecordsRead version id (drop 1 (words_in block.now))
        (block_records block.now v.items) []) }
    ensures entries { IfOk result (λ v. IsBlock block.now v.items) }
    ensures refused { IfErr result (λ fault. fault ≢ WordFault.NoMemory →
        StopsAt version id (drop 1 (words_in block.now)) fault) }
{
    let mut entries = room;
    entries.clear();
    entries.reserve(size / (USUAL_WORDS + version.id_size()))?;
    let (_, mut left) = block.split_at(4);
    while let Some(head) = first_word(left) {
        let (rec, rest) = look_at_record(version, head, id, size, left)?;
        entries.push(entry_of(version, block, left, &rec))?;
        left = rest;
    }
    Ok(entries)
}

/// How many words the unit has whose header word this is, where there are so many words; where there is
/// none, the header word is 0.
#[tactic(auto, unfolding(crate::specs::WordFaults::header_fault))]
pub(crate) fn unit_size(version: Version, head: u32, count: usize) -> Result<usize, WordFault>
    ensures size { IfOk result (λ n. (n ≡ head % 16777216) × (2 + id_size version ≤ n) ×
        (n ≤ most_words_of version) × (n ≤ count)) }
    ensures good { IfOk result (λ _. header_fault version head count ≡ None) }
    ensures headed { IfOk result (λ n. (words : List ℕ) → slice_index words 0 ≡ head →
        length words ≡ count →
        IsHeaded version (take n words)) }
    ensures refused { IfErr result (λ fault. header_fault version head count ≡ Some fault) }
{
    if count == 0 {
        return Err(WordFault::Short);
    }
    if head / TOP_BYTE != UNIT_MARK {
        return Err(WordFault::BadTag { at: 0 });
    }
    let size = (head % TOP_BYTE) as usize;
    let least = 2 + version.id_size();
    if size < least {
        return Err(WordFault::BadLength { at: 0 });
    }
    let most = version.most_words();
    if size > most {
        return Err(WordFault::BadLength { at: 0 });
    }
    if count < size {
        return Err(WordFault::Short);
    }
    Ok(size)
}

/// Reads the unit of these bytes, which are as many words as its header counts. It keeps a copy of them.
pub(crate) fn read_checked(version: Version, room: Records, bytes: &[u8]) -> Result<Unit, WordFault>
    requires headed { IsHeaded version (words_in bytes.now) }
    requires whole { length bytes.now ≡ 4 * length (words_in bytes.now) }
    ensures read { IfOk result
        (λ u. IsUnitOf version u × (words_in bytes.now ≡ unit_words_of version u)) }
    ensures refused { IfErr result (λ fault. fault ≢ WordFault.NoMemory →
        HasBadRecord version (words_in bytes.now) fault) }
{
    let size = word_count(bytes);
    let (_, behind) = bytes.split_at(8);
    let id = id_in(version, behind);
    let (mut kept, entries) = room.into_parts();
    let entries = look_at_records(version, entries, id, size, bytes)?;
    kept.clear();
    kept.extend_from_slice(bytes)?;
    let block = Block {
        version,
        bytes: kept,
        entries,
    };
    Ok(Unit::from_parts(
        id % version.vxid_end(),
        Mark::of_id(version, id),
        Body::Packed(block),
    ))
}

/// Reads the unit of a version that begins the bytes' words, and says how many words it has.
fn read_prefix(version: Version, room: Records, bytes: &[u8]) -> Result<(Unit, usize), WordFault>
    ensures found { IfOk result (λ x. IsUnitOf version x.0 × (x.1 ≤ length (words_in bytes.now)) ×
        (take x.1 (words_in bytes.now) ≡ unit_words_of version x.0)) }
    ensures refused { IfErr result (λ fault. fault ≢ WordFault.NoMemory →
        FirstFault version (words_in bytes.now) fault) }
{
    let head = header_word(bytes);
    let size = unit_size(version, head, word_count(bytes))?;
    let unit = read_checked(version, room, keep_words(bytes, size))?;
    Ok((unit, size))
}

/// Reads the unit that begins the bytes' words, in words of a version, whatever stands behind it, and says how many words
/// it has. It keeps one copy of the unit's bytes, in the memory of the records that are given, which are let go. Bytes
/// that are no whole word at the end don't count.
pub fn read_unit_bytes(
    version: Version,
    room: Records,
    bytes: &[u8],
) -> Result<(Unit, usize), WordFault>
    ensures found { IfOk result (λ x. IsUnitOf version x.0 × (x.1 ≤ length (words_in bytes.now)) ×
        (take x.1 (words_in bytes.now) ≡ unit_words_of version x.0)) }
    ensures only { (u : LogUnit) (rest : List ℕ) → IsUnitOf version u →
        words_in bytes.now ≡ unit_words_of version u ++ rest →
        (result ≡ Ok (u, length (unit_words_of version u))) ⊎ (result ≡ Err WordFault.NoMemory) }
    ensures refused { IfErr result (λ fault. fault ≢ WordFault.NoMemory →
        FirstFault version (words_in bytes.now) fault) }
    ensures faulty { (fault : WordFault) → FirstFault version (words_in bytes.now) fault →
        (result ≡ Err fault) ⊎ (result ≡ Err WordFault.NoMemory) }
{
    read_prefix(version, room, bytes)
}
