//! How often each key was counted.

ghost use Rattle.std.specs.Prelude.{◌≡◌, ◌+◌, ◌^◌, ◌<◌, ℕ, [], ◌∷◌, ◌++◌, List, None, Some, length, map, slice_get, OnOk, IfOk, IsOk};
ghost use Rattle.indexmap.specs.IndexMap.{get, index_map_len};
ghost use Rattle.vsl_top.specs.Report as report;
ghost use Rattle.vsl_top.specs.Report.{is_same, key_of, lines_of};
ghost use Rattle.vsl_top.specs.Counting.{AreCounted};
ghost use Rattle.vsl_top.specs.inside.Lines.{AreLinesOf, IsRanked, entry_line, line_in};
ghost use Rattle.vsl_top.specs.inside.Keys.{member_keys, shown_keys};

use crate::hashing::{Seed, Told};
use crate::key::{Key, KeyParts};
use crate::line::Line;
use indexmap::IndexMap;
use log_model::NoMemory;
use std::alloc::Global;
use std::mem::replace;
use txn_rows::{Group, Member};
use vsl_decimal::field;
use vsl_record::{RecordView, RecordsView};
use vsl_select::Viewer;
use vsl_tags::{Tag, names_differ};

/// For how many keys there is room at first.
const FIRST_KEYS: usize = 64;

/// So many keys are hashed as anyone can tell, and more by a seed that follows from what the log told until then.
const UNSEEDED_KEYS: usize = 1024;

/// How often each key was counted, in the order in which the keys were first seen.
#[derive(Drop)]
pub(crate) struct Counts {
    alloc: Global,
    map: IndexMap<Key, u64, Seed>,
    told: Told,
    seeded: bool,
}

/// The text of a record's key: with `first_field` the first field of the payload, and else the payload.
pub(crate) fn text_of<'a>(first_field: bool, rec: &RecordView<'a>) -> &'a [u8]
    ensures { result.now ≡ (key_of first_field rec.now).text }
{
    let payload = rec.payload();
    if first_field {
        field(payload, 1).unwrap_or(&[])
    } else {
        payload
    }
}

impl Counts {
    /// Nothing was counted.
    pub(crate) fn new(alloc: Global) -> Result<Counts, NoMemory>
        ensures { IfOk result (λ counts. AreCounted [] counts) }
    {
        let told = Told::new();
        let map = IndexMap::with_capacity_and_hasher(alloc, FIRST_KEYS, Seed::of(&told))?;
        Ok(Counts {
            alloc,
            map,
            told,
            seeded: false,
        })
    }

    /// Takes in what the log tells beside the keys, until they have a seed: the second of some records, as the time of a
    /// transaction, or the only one.
    fn tell(&mut self, records: &RecordsView<'_>)
        ensures { (keys : List report.Key) → AreCounted keys self.old → AreCounted keys self.new }
    {
        if self.seeded {
            return;
        }
        if records.is_empty() {
            return;
        }
        let place = if records.len() == 1 { 0 } else { 1 };
        self.told.take(records.get(place).payload());
    }

    /// Hashes the keys by what the log told so far.
    fn hash_anew(&mut self) -> Result<(), NoMemory>
        ensures { OnOk result (self.new.map.entries ≡ self.old.map.entries) }
    {
        let room = self.map.len().saturating_mul(2);
        let seed = Seed::of(&self.told);
        let map = IndexMap::with_capacity_and_hasher(self.alloc, room, seed)?;
        let old = replace(&mut self.map, map);
        self.map.extend(old)?;
        self.seeded = true;
        Ok(())
    }

    /// Gives the keys a seed, once they are no longer few.
    fn seed(&mut self) -> Result<(), NoMemory>
        ensures { OnOk result (self.new.map.entries ≡ self.old.map.entries) }
    {
        if self.seeded {
            return Ok(());
        }
        if self.map.len() < UNSEEDED_KEYS {
            return Ok(());
        }
        self.hash_anew()
    }

    /// Counts a key that was not counted before, of which it keeps a copy.
    fn add_new(&mut self, tag: Tag, text: &[u8]) -> Result<(), NoMemory>
        requires { get is_same self.old.map (record { tag = tag; text = text.now }) ≡ None }
        ensures { OnOk result ((keys : List report.Key) → AreCounted keys self.old →
            AreCounted (keys ++ record { tag = tag; text = text.now } ∷ []) self.new) }
    {
        self.seed()?;
        let key = Key::new(self.alloc, tag, text)?;
        self.map.insert(key, 1)?;
        Ok(())
    }

    /// Counts a tag with a text once more. Where it was counted before, this takes no memory, and else a copy of the text.
    /// A count above 2^64 - 1 is answered as want of memory.
    pub(crate) fn add(&mut self, tag: Tag, text: &[u8]) -> Result<(), NoMemory>
        ensures answered { (n : ℕ) →
            get is_same self.old.map (record { tag = tag; text = text.now }) ≡ Some n →
            n + 1 < 2 ^ 64 → IsOk result }
        ensures counted { OnOk result ((keys : List report.Key) → AreCounted keys self.old →
            AreCounted (keys ++ record { tag = tag; text = text.now } ∷ []) self.new) }
    {
        let Some((index, _, count)) = self.map.get_full(&KeyParts { tag, text }) else {
            return self.add_new(tag, text);
        };
        let more = count.checked_add(1).ok_or(NoMemory)?;
        self.map[index] = more;
        Ok(())
    }

    /// Counts records, each with its key.
    pub(crate) fn add_records(
        &mut self,
        first_field: bool,
        records: &RecordsView<'_>,
    ) -> Result<(), NoMemory>
        ensures { OnOk result ((keys : List report.Key) → AreCounted keys self.old →
            AreCounted (keys ++ map (key_of first_field) records.now) self.new) }
    {
        self.tell(records);
        for i in 0..records.len() {
            let rec = records.get(i);
            self.add(rec.tag(), text_of(first_field, &rec))?;
        }
        Ok(())
    }

    /// Counts a record of a shown transaction, where it is shown.
    fn add_shown(
        &mut self,
        viewer: &mut Viewer<'_>,
        first_field: bool,
        rec: &RecordView<'_>,
    ) -> Result<(), NoMemory>
        ensures counted { OnOk result ((keys : List report.Key) → AreCounted keys self.old →
            AreCounted (keys ++ shown_keys viewer.old first_field (rec.now ∷ [])) self.new) }
        ensures same { viewer.new ≡ viewer.old }
    {
        if viewer.shows(rec)? {
            self.add(rec.tag(), text_of(first_field, rec))
        } else {
            Ok(())
        }
    }

    /// Counts the shown records among those of a shown transaction.
    fn add_all_shown(
        &mut self,
        viewer: &mut Viewer<'_>,
        first_field: bool,
        records: &RecordsView<'_>,
    ) -> Result<(), NoMemory>
        ensures counted { OnOk result ((keys : List report.Key) → AreCounted keys self.old →
            AreCounted (keys ++ shown_keys viewer.old first_field records.now) self.new) }
        ensures same { viewer.new ≡ viewer.old }
    {
        for i in 0..records.len() {
            self.add_shown(viewer, first_field, &records.get(i))?;
        }
        Ok(())
    }

    /// Counts the shown records of a transaction, where it is shown.
    fn add_member(
        &mut self,
        viewer: &mut Viewer<'_>,
        first_field: bool,
        member: &Member,
    ) -> Result<(), NoMemory>
        ensures counted { OnOk result ((keys : List report.Key) → AreCounted keys self.old →
            AreCounted (keys ++ member_keys viewer.old first_field (member.now ∷ [])) self.new) }
        ensures same { viewer.new ≡ viewer.old }
    {
        if viewer.selection().shows_member(member) {
            self.add_all_shown(viewer, first_field, &member.records.view())
        } else {
            Ok(())
        }
    }

    /// Counts the shown records of a group.
    pub(crate) fn add_group(
        &mut self,
        viewer: &mut Viewer<'_>,
        first_field: bool,
        group: &Group,
    ) -> Result<(), NoMemory>
        ensures counted { OnOk result ((keys : List report.Key) → AreCounted keys self.old →
            AreCounted (keys ++ member_keys viewer.old first_field group.now.members) self.new) }
        ensures same { viewer.new ≡ viewer.old }
    {
        for member in group.members.as_slice() {
            self.tell(&member.records.view());
            self.add_member(viewer, first_field, member)?;
        }
        Ok(())
    }

    /// The line of the i-th key.
    fn line_at(&self, i: usize) -> Line<'_>
        requires { i < index_map_len self.now.map }
        ensures line { slice_get (map entry_line self.now.map.entries) i ≡ Some (line_in result) }
        ensures ranked { IsRanked result }
    {
        let Some((key, count)) = self.map.get_index(i) else {
            unreachable!()
        };
        Line::new(key, *count)
    }

    /// A line for each key, in no order.
    fn all_lines(&self) -> Result<Vec<Line<'_>>, NoMemory>
        ensures { IfOk result (λ lines.
            AreLinesOf self.now.map.entries (length self.now.map.entries) lines.items) }
    {
        let mut lines = Vec::new(self.alloc);
        for i in 0..self.map.len() {
            let line = self.line_at(i);
            if lines.push(line).is_err() {
                return Err(NoMemory);
            }
        }
        Ok(lines)
    }

    /// A line for each key, in the order of the report.
    pub(crate) fn lines(&self) -> Result<Vec<Line<'_>>, NoMemory>
        ensures { IfOk result (λ lines. (keys : List report.Key) → AreCounted keys self.now →
            map line_in lines.items ≡ lines_of keys) }
    {
        names_differ();
        let mut lines = self.all_lines()?;
        lines.sort()?;
        Ok(lines)
    }
}
