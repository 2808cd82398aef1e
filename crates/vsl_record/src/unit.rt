//! A unit of a log.

ghost use Rattle.std.specs.Prelude.{◌≡◌, ◌+◌, ◌-◌, ◌^◌, ◌<◌, ◌↔◌, ℕ, min, length, IfOk, IfSome};
ghost use Rattle.std.specs.List.{All, flat_map};
ghost use Rattle.vsl_tags.specs.Tags.{IsTag};
ghost use Rattle.vsl_record.specs.Payload.{IsPayload};
ghost use Rattle.vsl_record.specs.Unit.{vxid_end};
ghost use Rattle.vsl_record.specs.Words.{IsUnit, most_words, record_words, unit_words, word_bytes};
ghost use Rattle.vsl_record.specs.Bodies.{body_records, IsBodyOf};

use crate::body::{Block, Body};
use crate::fault::UnitFault;
use crate::lent::RecordsView;
use crate::mark::Mark;
use crate::record_type::Record;
use crate::records::Records;
use std::marker::Model;
use vsl_words::Version;

/// A VXID (vsl(7)), the number of a transaction: below `VXID_END`.
pub type Vxid = u64;

/// One more than the highest VXID. This project's choice.
pub const VXID_END: Vxid = 4_611_686_018_427_387_904;

/// The most words that a unit has. This project's choice.
pub const MAX_UNIT_WORDS: usize = 2_097_152;

/// A record's first word is its tag so many times, and below that the payload's length.
/// A unit's is `UNIT_MARK` so many times, and below that its number of words. This project's choice.
pub const TOP_BYTE: u32 = 16_777_216;

/// The top byte of a unit's header word. This project's choice.
pub const UNIT_MARK: u32 = 0xfe;

/// What a unit's header word is above its number of words. This project's choice.
pub const HEADER_MARK: u32 = 0xfe00_0000;

/// What a worker writes at once: one or more records of one transaction and one mark (vsl(7)).
#[derive(Drop)]
pub struct Unit {
    vxid: Vxid,
    mark: Mark,
    body: Body,
}

impl Model for Unit {
    ghost use Rattle.vsl_record.specs.Unit.{LogUnit};
    ghost use Rattle.vsl_record.specs.Words.{IsUnit};
    ghost use Rattle.vsl_record.specs.Bodies.{body_records, IsBodyOf};

    ghost Value = { LogUnit };

    ghost view = { λ u. record { vxid = u.vxid; mark = u.mark; records = body_records u.body } };

    ghost invariant = { λ u.
        let unit : LogUnit =
        record { vxid = u.vxid; mark = u.mark; records = body_records u.body } in
        IsUnit unit × IsBodyOf unit u.body };
}

impl Unit {
    /// The unit of these records, which are all of this mark.
    pub fn new(vxid: Vxid, mark: Mark, records: Vec<Record>) -> Result<Unit, UnitFault>
        requires in_range { vxid < vxid_end }
        requires has_mark { All (λ r. r.mark ≡ mark) records.items }
        ensures made { IfOk result (λ u. (u.vxid ≡ vxid) × (u.mark ≡ mark) ×
            (u.records ≡ records.items)) }
        ensures unit { IfOk result (λ u. IsUnit u) }
        ensures empty { result ≡ Err UnitFault.Empty ↔ length records.items ≡ 0 }
        ensures too_long { let size =
            length (unit_words (record { vxid = vxid; mark = mark; records = records.items })) in
            most_words < size → result ≡ Err (UnitFault.TooLong (min size (2 ^ 64 - 1))) }
        ensures refused { let size =
            length (unit_words (record { vxid = vxid; mark = mark; records = records.items })) in
            (words : ℕ) → result ≡ Err (UnitFault.TooLong words) →
            (most_words < size) × (words ≡ min size (2 ^ 64 - 1)) }
    {
        if records.is_empty() {
            return Err(UnitFault::Empty);
        }
        let words = count_words(&RecordsView::listed(&records));
        if words > MAX_UNIT_WORDS as u64 {
            return Err(UnitFault::TooLong { words });
        }
        Ok(Unit::from_parts(vxid, mark, Body::Listed(records)))
    }

    /// The unit of parts that are known to be one.
    pub(crate) fn from_parts(vxid: Vxid, mark: Mark, body: Body) -> Unit
        requires unit { IsUnit (record { vxid = vxid; mark = mark; records = body_records body }) }
        requires body { IsBodyOf (record { vxid = vxid; mark = mark; records = body_records body })
            body }
        ensures { result ≡ record { vxid = vxid; mark = mark; records = body_records body } }
    {
        Unit { vxid, mark, body }
    }

    /// The records of a unit that was read. Their memory serves `read_unit_bytes` again.
    pub fn into_records(self) -> Option<Records>
        ensures { IfSome result (λ records. records ≡ self.records) }
    {
        match self.body {
            Body::Listed(_) => None,
            Body::Packed(block) => {
                let Block { bytes, entries, .. } = block;
                Some(Records::of_block(bytes, entries))
            }
        }
    }

    /// The bytes of the unit's words, where it keeps them: a unit that was read from words of version 2 does.
    pub fn bytes(&self) -> Option<&[u8]>
        ensures { IfSome result (λ bytes. bytes.now ≡ word_bytes (unit_words self.now)) }
    {
        let Body::Packed(block) = &self.body else {
            return None;
        };
        match block.version {
            Version::One => None,
            Version::Two => Some(&block.bytes),
        }
    }

    /// The VXID.
    pub fn vxid(&self) -> Vxid
        ensures { result ≡ self.now.vxid }
    {
        self.vxid
    }

    /// The mark of every record.
    pub fn mark(&self) -> Mark
        ensures { result ≡ self.now.mark }
    {
        self.mark
    }

    /// The records, in order: at least one.
    pub fn records(&self) -> RecordsView<'_>
        ensures records { result ≡ self.now.records }
        ensures unit { IsUnit self.now }
    {
        match &self.body {
            Body::Listed(records) => RecordsView::listed(records),
            Body::Packed(block) => RecordsView::packed(&block.bytes, &block.entries),
        }
    }
}

/// How many words the records and a unit's header take, or 2^64 - 1 where that is greater.
pub fn count_words(records: &RecordsView<'_>) -> u64
    ensures words { (vxid : ℕ) →
        result ≡ min (1 + length (flat_map (record_words vxid) records.now)) (2 ^ 64 - 1) }
    ensures tags { All (λ r. IsTag r.tag) records.now }
    ensures payloads { All (λ r. IsPayload r.payload) records.now }
{
    let mut words: u64 = 1;
    for i in 0..records.len() {
        words = words.saturating_add(records.get(i).words() as u64);
    }
    words
}
