//! Records that are lent.

ghost use Rattle.std.specs.Prelude.{◌≡◌, ◌==◌, ◌<◌, ◌≤◌, ℕ, length, take, drop, slice_index_or, IfOk, IfSome};
ghost use Rattle.vsl_tags.specs.Tags.{IsTag};
ghost use Rattle.vsl_record.specs.declared.record_type.Record.{Record};
ghost use Rattle.vsl_record.specs.Payload.{most_payload, IsPayload};
ghost use Rattle.vsl_record.specs.Words.{record_words};
ghost use Rattle.vsl_record.specs.Blocks.{block_records, entry_record, IsBlock, IsEntryOf};

use crate::entry::Entry;
use crate::mark::Mark;
use crate::payload::Payload;
use crate::record_type::Record;
use std::alloc::{AllocError, Global};
use std::marker::Model;
use vsl_tags::Tag;
use vsl_words::are_bytes;

/// A record that is lent. It copies nothing. Contracts see the record.
#[derive(Drop)]
pub struct RecordView<'a> {
    tag: Tag,
    mark: Mark,
    payload: &'a [u8],
}

impl<'a> Model for RecordView<'a> {
    ghost use Rattle.std.specs.Prelude.{◌≤◌, length};
    ghost use Rattle.vsl_record.specs.declared.record_type.Record.{Record};
    ghost use Rattle.vsl_record.specs.Payload.{most_payload};

    ghost Value = { Record };

    ghost view = { λ v. record { tag = v.tag; mark = v.mark; payload = v.payload.now } };

    ghost invariant = { λ v. length v.payload.now ≤ most_payload };
}

impl<'a> RecordView<'a> {
    /// The record of these parts.
    pub(crate) fn new(tag: Tag, mark: Mark, payload: &'a [u8]) -> RecordView<'a>
        requires { length payload.now ≤ most_payload }
        ensures { result ≡ record { tag = tag; mark = mark; payload = payload.now } }
    {
        RecordView { tag, mark, payload }
    }

    /// What the record is about.
    pub fn tag(&self) -> Tag
        ensures { result ≡ self.now.tag }
    {
        self.tag
    }

    /// The mark of its transaction.
    pub fn mark(&self) -> Mark
        ensures { result ≡ self.now.mark }
    {
        self.mark
    }

    /// What it says: at most 4,000 bytes.
    pub fn payload(&self) -> &'a [u8]
        ensures bytes { result.now ≡ self.now.payload }
        ensures payload { IsPayload self.now.payload }
    {
        are_bytes(self.payload);
        self.payload
    }

    /// How many words the record takes, whatever its VXID: three, and one for each four bytes of
    /// payload or less.
    pub fn words(&self) -> usize
        ensures words { (vxid : ℕ) → result ≡ length (record_words vxid self.now) }
        ensures tag { IsTag self.now.tag }
        ensures payload { IsPayload self.now.payload }
    {
        let _tag = self.tag.number();
        3 + self.payload().len().div_ceil(4)
    }

    /// A copy of the record.
    pub fn to_owned(&self, alloc: Global) -> Result<Record, AllocError>
        ensures { IfOk result (λ r. r ≡ self.now) }
    {
        Ok(Record {
            tag: self.tag,
            mark: self.mark,
            payload: Payload::from_slice(alloc, self.payload)?,
        })
    }
}

/// The record of an entry of a block.
fn entry_view<'a>(block: &'a [u8], entry: &Entry) -> RecordView<'a>
    requires { IsEntryOf block.now entry.now }
    ensures { result ≡ entry_record block.now entry.now }
{
    let (_, behind) = block.split_at(entry.at as usize);
    let (payload, _) = behind.split_at(entry.size as usize);
    RecordView::new(entry.tag, entry.mark, payload)
}

/// Records that are lent, in order: some of a list, or some of a block. It copies nothing. Contracts see the list.
#[derive(Drop)]
pub struct RecordsView<'a> {
    listed: &'a [Record],
    block: &'a [u8],
    entries: &'a [Entry],
}

impl<'a> Model for RecordsView<'a> {
    ghost use Rattle.std.specs.Prelude.{List, ◌++◌};
    ghost use Rattle.vsl_record.specs.declared.record_type.Record.{Record};
    ghost use Rattle.vsl_record.specs.Blocks.{block_records, IsBlock, IsOneForm};

    ghost Value = { List Record };

    ghost view = { λ v. v.listed.now ++ block_records v.block.now v.entries.now };

    ghost invariant = { λ v. IsBlock v.block.now v.entries.now ×
        IsOneForm v.listed.now v.entries.now };
}

impl<'a> RecordsView<'a> {
    /// The records of a list.
    pub fn listed(listed: &'a [Record]) -> RecordsView<'a>
        ensures { result ≡ listed.now }
    {
        RecordsView {
            listed,
            block: &[],
            entries: &[],
        }
    }

    /// The records of a block.
    pub(crate) fn packed(block: &'a [u8], entries: &'a [Entry]) -> RecordsView<'a>
        requires { IsBlock block.now entries.now }
        ensures { result ≡ block_records block.now entries.now }
    {
        RecordsView {
            listed: &[],
            block,
            entries,
        }
    }

    /// How many records there are.
    pub fn len(&self) -> usize
        ensures { result ≡ length self.now }
    {
        if self.listed.is_empty() {
            return self.entries.len();
        }
        self.listed.len()
    }

    /// Whether there is no record.
    pub fn is_empty(&self) -> bool
        ensures { result ≡ (length self.now == 0) }
    {
        self.len() == 0
    }

    /// The record at this place, from 0.
    pub fn get(&self, place: usize) -> RecordView<'a>
        requires { place < length self.now }
        ensures { result ≡ slice_index_or self.now place result }
    {
        if self.listed.is_empty() {
            return entry_view(self.block, &self.entries[place]);
        }
        self.listed[place].view()
    }

    /// The tag of the record at this place, from 0. No payload is looked at.
    pub fn tag(&self, place: usize) -> Tag
        requires { place < length self.now }
        ensures { (rec : Record) → result ≡ (slice_index_or self.now place rec).tag }
    {
        if self.listed.is_empty() {
            return self.entries[place].tag;
        }
        self.listed[place].tag
    }

    /// The block and the entries of the records, where they stand in a block.
    pub(crate) fn in_block(&self) -> Option<(&'a [u8], &'a [Entry])>
        ensures { IfSome result (λ x. IsBlock x.0.now x.1.now ×
            (self.now ≡ block_records x.0.now x.1.now)) }
    {
        if self.listed.is_empty() {
            return Some((self.block, self.entries));
        }
        None
    }

    /// The records before this place, and those from it on.
    pub fn split_at(&self, place: usize) -> (RecordsView<'a>, RecordsView<'a>)
        requires { place ≤ length self.now }
        ensures front { result.0 ≡ take place self.now }
        ensures back { result.1 ≡ drop place self.now }
    {
        if self.listed.is_empty() {
            let (front, back) = self.entries.split_at(place);
            return (
                RecordsView::packed(self.block, front),
                RecordsView::packed(self.block, back),
            );
        }
        let (front, back) = self.listed.split_at(place);
        (RecordsView::listed(front), RecordsView::listed(back))
    }
}
