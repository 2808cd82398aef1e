//! A list of records.

ghost use Rattle.std.specs.Prelude.{◌≡◌, ◌+◌, ◌-◌, ◌^◌, ◌<◌, ◌≤◌, ℕ, List, [], ◌∷◌, ◌++◌, length, map, OnOk, OnErr};
ghost use Rattle.std.specs.List.{AllByRecursion};
ghost use Rattle.vsl_record.specs.Blocks.{block_records, IsBlock};
ghost use Rattle.vsl_record.specs.inside.Blocks.{moved, IsWithin};

use crate::entry::Entry;
use crate::lent::{RecordView, RecordsView};
use log_model::NoMemory;
use std::alloc::{AllocError, Global};
use std::marker::Model;

/// For so many records room is made at once at most.
const FIRST_RECORDS: usize = 64;

/// For so many bytes of payloads room is made at once at most.
const FIRST_BYTES: usize = 4096;

/// Records in order, kept as a block of bytes and eight bytes a record. Contracts see the list.
#[derive(Drop)]
pub struct Records {
    block: Vec<u8>,
    entries: Vec<Entry>,
}

impl Model for Records {
    ghost use Rattle.std.specs.Prelude.{List};
    ghost use Rattle.vsl_record.specs.declared.record_type.Record.{Record};
    ghost use Rattle.vsl_record.specs.Blocks.{block_records, IsBlock};

    ghost Value = { List Record };

    ghost view = { λ r. block_records r.block.items r.entries.items };

    ghost invariant = { λ r. IsBlock r.block.items r.entries.items };
}

impl Records {
    /// No records. It takes no memory.
    pub fn new(alloc: Global) -> Records
        ensures { result ≡ [] }
    {
        Records {
            block: Vec::new(alloc),
            entries: Vec::new(alloc),
        }
    }

    /// The records of a block.
    pub(crate) fn of_block(block: Vec<u8>, entries: Vec<Entry>) -> Records
        requires { IsBlock block.items entries.items }
        ensures { result ≡ block_records block.items entries.items }
    {
        Records { block, entries }
    }

    /// The block and the entries.
    pub(crate) fn into_parts(self) -> (Vec<u8>, Vec<Entry>) {
        (self.block, self.entries)
    }

    /// Makes room for records that are to be added, or for the first of them: at most 64, and 4,096 bytes. The list stays
    /// as it is, also where there is no memory.
    pub fn reserve(&mut self, more: &RecordsView<'_>) -> Result<(), AllocError>
        ensures { self.new ≡ self.old }
    {
        self.entries.reserve(more.len().min(FIRST_RECORDS))?;
        if let Some((block, _)) = more.in_block() {
            self.block.reserve(block.len().min(FIRST_BYTES))?;
        }
        Ok(())
    }

    /// Adds a copy of a record. 2^32 bytes of payloads count as want of memory.
    pub fn push(&mut self, rec: &RecordView<'_>) -> Result<(), NoMemory>
        ensures ok { OnOk result (self.new ≡ self.old ++ rec.now ∷ []) }
        ensures err { OnErr result (self.new ≡ self.old) }
    {
        let payload = rec.payload();
        let Ok(at) = u32::try_from(self.block.len()) else {
            return Err(NoMemory);
        };
        self.block.extend_from_slice(payload)?;
        self.entries.push(Entry {
            tag: rec.tag(),
            mark: rec.mark(),
            size: payload.len() as u16,
            at,
        })?;
        Ok(())
    }

    /// Adds copies of records. 2^32 bytes count as want of memory; how many were added before is not said.
    pub fn append(&mut self, more: &RecordsView<'_>) -> Result<(), NoMemory>
        ensures { OnOk result (self.new ≡ self.old ++ more.now) }
    {
        if let Some((block, entries)) = more.in_block() {
            return self.append_packed(block, entries);
        }
        for i in 0..more.len() {
            self.push(&more.get(i))?;
        }
        Ok(())
    }

    /// Adds the records of a block, and the bytes of it from the first that one of them has to the last.
    fn append_packed(&mut self, block: &[u8], entries: &[Entry]) -> Result<(), NoMemory>
        requires { IsBlock block.now entries.now }
        ensures { OnOk result (self.new ≡ self.old ++ block_records block.now entries.now) }
    {
        let (from, until) = span_of(block, entries);
        let base = self.block.len();
        let (_, behind) = block.split_at(from);
        let (span, _) = behind.split_at(until.saturating_sub(from));
        self.block.extend_from_slice(span)?;
        if u32::try_from(self.block.len()).is_err() {
            return Err(NoMemory);
        }
        append_moved(&mut self.entries, entries, from, base)
    }

    /// The records.
    pub fn view(&self) -> RecordsView<'_>
        ensures { result ≡ self.now }
    {
        RecordsView::packed(&self.block, &self.entries)
    }
}

/// Where the bytes of a block begin and end that some of its entries have. Without an entry it begins at the block's end.
fn span_of(block: &[u8], entries: &[Entry]) -> (usize, usize)
    requires { IsBlock block.now entries.now }
    ensures within { AllByRecursion (IsWithin result.0 result.1) entries.now }
    ensures begins { result.0 ≤ length block.now }
    ensures ends { result.1 ≤ length block.now }
{
    let mut from = block.len();
    let mut until = 0;
    for entry in entries {
        let at = entry.at as usize;
        let end = at + entry.size as usize;
        from = if at < from { at } else { from };
        until = if until < end { end } else { until };
    }
    (from, until)
}

/// Adds entries the bytes of which stood from one place of a block on, and now stand from another place on.
fn append_moved(
    into: &mut Vec<Entry>,
    entries: &[Entry],
    from: usize,
    base: usize,
) -> Result<(), NoMemory>
    requires behind { AllByRecursion (λ e. from ≤ e.at) entries.now }
    requires fits { AllByRecursion (λ e. e.at - from + base < 2 ^ 32) entries.now }
    ensures ok { OnOk result (into.new.items ≡ into.old.items ++ map
        (moved from base) entries.now) }
    ensures block { (block : List ℕ) →
        IsBlock block (into.old.items ++ map (moved from base) entries.now) →
        IsBlock block into.new.items }
{
    let kept = into.len();
    into.extend_from_slice(entries)?;
    let (_, added) = into.as_mut_slice().split_at_mut(kept);
    move_entries(added, from, base);
    Ok(())
}

/// Tells entries that their bytes stand from another place of a block on.
fn move_entries(entries: &mut [Entry], from: usize, base: usize)
    requires behind { AllByRecursion (λ e. from ≤ e.at) entries.old }
    requires fits { AllByRecursion (λ e. e.at - from + base < 2 ^ 32) entries.old }
    ensures { entries.new ≡ map (moved from base) entries.old }
{
    for i in 0..entries.len() {
        let entry = entries[i];
        entries[i] = Entry {
            at: (entry.at as usize - from + base) as u32,
            ..entry
        };
    }
}
