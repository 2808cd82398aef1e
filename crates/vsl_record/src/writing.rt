//! The words of a unit, one of them or all.

ghost use Rattle.std.specs.Prelude.{◌≡◌, ◌+◌, ◌*◌, ◌/◌, ◌%◌, ◌<◌, ◌≤◌, ◌++◌, length, slice_index, IfOk};
ghost use Rattle.std.specs.List.{flat_map};
ghost use Rattle.vsl_record.specs.Unit.{vxid_end};
ghost use Rattle.vsl_record.specs.inside.Writing.{Wrote};
ghost use Rattle.vsl_record.specs.Words.{header_mark, most_words, record_words, unit_words, word_bytes};

use crate::lent::{RecordView, RecordsView};
use crate::unit::{HEADER_MARK, TOP_BYTE, Unit, Vxid, count_words};
use log_model::NoMemory;
use std::alloc::Global;
use vsl_words::{NEXT_WORD, packed_word};

impl Unit {
    /// How many words the unit has, its header word included: 4 to 2,097,152.
    pub fn words(&self) -> usize
        ensures words { result ≡ length (unit_words self.now) }
        ensures most { result ≤ most_words }
    {
        count_words(&self.records()) as usize
    }

    /// The word at this place, counted from the unit's header word. It walks over the records before it.
    pub fn word_at(&self, place: usize) -> u32
        requires { place < length (unit_words self.now) }
        ensures { result ≡ slice_index (unit_words self.now) place }
    {
        if place == 0 {
            return self.header_word();
        }
        body_word(self.vxid(), &self.records(), place - 1)
    }

    /// Writes the bytes of the unit's words, the lowest byte of each word first. It takes no memory.
    pub fn write_bytes(&self, out: &mut [u8])
        requires { length out.old ≡ 4 * length (unit_words self.now) }
        ensures { out.new ≡ word_bytes (unit_words self.now) }
    {
        write_at(out, 0, &self.header_word().to_le_bytes());
        write_records(self.vxid(), &self.records(), out, 4);
    }

    /// The first word, which counts all.
    pub(crate) fn header_word(&self) -> u32
        ensures { result ≡ header_mark + length (unit_words self.now) }
    {
        HEADER_MARK + self.words() as u32
    }
}

impl RecordView<'_> {
    /// The first word: the tag and the payload's length.
    pub(crate) fn head_word(&self) -> u32
        ensures { result ≡ 16777216 * self.now.tag + length self.now.payload }
    {
        TOP_BYTE * u32::from(self.tag().number()) + self.payload().len() as u32
    }

    /// The word at this place of the record's, in a unit of this VXID.
    fn word_at(&self, vxid: Vxid, place: usize) -> u32
        requires in_range { vxid < vxid_end }
        requires inside { place < length (record_words vxid self.now) }
        ensures { result ≡ slice_index (record_words vxid self.now) place }
    {
        match place {
            0 => self.head_word(),
            1 => low_word(self.mark().id(vxid)),
            2 => high_word(self.mark().id(vxid)),
            _ => packed_word(self.payload(), place - 3),
        }
    }

    /// Writes the bytes of the record's words, in a unit of this VXID, from a place on, and answers how many they are.
    fn write_bytes(&self, vxid: Vxid, out: &mut [u8], at: usize) -> usize
        requires in_range { vxid < vxid_end }
        requires room { at + 4 * length (record_words vxid self.now) ≤ length out.old }
        ensures written { Wrote at (at + 4 * length (record_words vxid self.now))
            (word_bytes (record_words vxid self.now)) out.old out.new }
        ensures size { result ≡ 4 * length (record_words vxid self.now) }
    {
        let payload = self.payload();
        let padding = &[0; 3][..(4 - payload.len() % 4) % 4];
        write_at(out, at, &self.head_word().to_le_bytes());
        write_at(out, at + 4, &self.mark().id(vxid).to_le_bytes());
        write_at(out, at + 12, payload);
        write_at(out, at + 12 + payload.len(), padding);
        12 + payload.len() + padding.len()
    }
}

/// The lower word of an id.
pub(crate) fn low_word(id: u64) -> u32
    ensures { result ≡ id % 4294967296 }
{
    (id % NEXT_WORD) as u32
}

/// The higher word of an id.
pub(crate) fn high_word(id: u64) -> u32
    ensures { result ≡ id / 4294967296 }
{
    (id / NEXT_WORD) as u32
}

/// Writes bytes from a place on.
fn write_at(out: &mut [u8], at: usize, bytes: &[u8])
    requires { at + length bytes.now ≤ length out.old }
    ensures { Wrote at (at + length bytes.now) bytes.now out.old out.new }
{
    let (_, behind) = out.split_at_mut(at);
    let (here, _) = behind.split_at_mut(bytes.len());
    here.copy_from_slice(bytes);
}

/// Writes the bytes of the records' words, in a unit of this VXID, from a place on.
fn write_records(vxid: Vxid, records: &RecordsView<'_>, out: &mut [u8], at: usize)
    requires in_range { vxid < vxid_end }
    requires room { at + 4 * length (flat_map (record_words vxid) records.now) ≤ length out.old }
    ensures { Wrote at (at + 4 * length (flat_map (record_words vxid) records.now))
        (word_bytes (flat_map (record_words vxid) records.now)) out.old out.new }
{
    let mut place = at;
    for i in 0..records.len() {
        place += records.get(i).write_bytes(vxid, out, place);
    }
}

/// The word at this place of the records' words, in a unit of this VXID.
fn body_word(vxid: Vxid, records: &RecordsView<'_>, place: usize) -> u32
    requires in_range { vxid < vxid_end }
    requires inside { place < length (flat_map (record_words vxid) records.now) }
    ensures { result ≡ slice_index (flat_map (record_words vxid) records.now) place }
{
    let mut left = place;
    for i in 0..records.len() {
        let rec = records.get(i);
        let size = rec.words();
        if left < size {
            return rec.word_at(vxid, left);
        }
        left -= size;
    }
    0
}

/// The words of a unit.
pub fn unit_words(alloc: Global, unit: &Unit) -> Result<Vec<u32>, NoMemory>
    ensures { IfOk result (λ words. words.items ≡ unit_words unit.now) }
{
    let mut words = Vec::with_capacity(alloc, unit.words())?;
    let mut left = unit.each_word();
    while let Some(word) = left.next() {
        words.push(word)?;
    }
    Ok(words)
}
