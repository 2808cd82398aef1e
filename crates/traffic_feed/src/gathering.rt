//! Gathering the records of a listing into units.

ghost use Rattle.std.specs.Prelude.{◌≡◌, ◌+◌, ◌^◌, ◌<◌, ◌≤◌, length, take, IsTrue, IfSome, IfOk, OnOk};
ghost use Rattle.std.specs.List.{AllByRecursion};
ghost use Rattle.vsl_record.specs.Payload.{most_payload};
ghost use Rattle.vsl_record.specs.Unit.{vxid_end};
ghost use Rattle.raw_records.specs.Lines.{LoggedRecord};
ghost use Rattle.raw_records.specs.Gathered.{with_record};
ghost use Rattle.traffic_feed.specs.Batches.{IsWithin};
ghost use Rattle.traffic_feed.specs.inside.Gathering.{begins, begun_goes_on, begun_has_room, ended, nothing, stepped, taken_by};
ghost use Rattle.raw_records.specs.LineRead.{IsInRange, line_of};

use crate::begun_unit::BegunUnit;
use crate::listing::Listing;
use crate::units::Units;
use log_model::NoMemory;
use raw_records::LineRead;
use ring_layout::Shape;
use std::alloc::Global;
use std::marker::Model;
use vsl_record::{Mark, Record, RecordFault, RecordView, Vxid};
use vsl_tags::Tag;

/// What was gathered of the lines of a listing.
#[derive(Drop)]
pub(crate) struct Gathering {
    alloc: Global,
    /// How many bytes are kept of a payload.
    most: usize,
    /// How many words a segment has.
    seg: usize,
    units: Units,
    cuts: u64,
    /// The unit to which the next record may be added.
    begun: Option<BegunUnit>,
}

impl Model for Gathering {
    ghost use Rattle.traffic_feed.specs.inside.Gathering.{Gathered, IsGathering};

    ghost Value = { Gathered };

    ghost view = { λ g. record {
      most = g.most;
      seg = g.seg;
      units = g.units;
      cuts = g.cuts;
      begun = g.begun;
    } };

    ghost invariant = { λ g. IsGathering
        (record { most = g.most; seg = g.seg; units = g.units; cuts = g.cuts; begun = g.begun }) };
}

/// A record with a copy of a payload that isn't too long.
fn new_record(alloc: Global, tag: Tag, mark: Mark, payload: &[u8]) -> Result<Record, NoMemory>
    requires { length payload.now ≤ most_payload }
    ensures { IfOk result (λ r. r ≡ record { tag = tag; mark = mark; payload = payload.now }) }
{
    match Record::new(alloc, tag, mark, payload) {
        Ok(rec) => Ok(rec),
        Err(RecordFault::TooLong { .. }) => unreachable!(),
        Err(RecordFault::NoMemory) => Err(NoMemory),
    }
}

impl Gathering {
    /// Nothing gathered yet.
    pub fn new(alloc: Global, reclen: u32, shape: Shape) -> Gathering
        requires { reclen ≤ most_payload }
        ensures { result ≡ nothing reclen shape }
    {
        let seg = shape.seg() as usize;
        Gathering {
            alloc,
            most: (reclen as usize).min(4 * (seg - 4)),
            seg,
            units: Units::new(alloc),
            cuts: 0,
            begun: None,
        }
    }

    /// Ends the unit that was begun.
    fn end(&mut self) -> Result<(), NoMemory>
        ensures { OnOk result (self.new ≡ ended self.old) }
    {
        if let Some(begun) = self.begun.take() {
            self.units.push(begun.close())?;
        }
        Ok(())
    }

    /// Begins a unit with a record.
    fn begin(&mut self, vxid: Vxid, rec: Record) -> Result<(), NoMemory>
        requires in_range { vxid < vxid_end }
        requires few { length rec.payload ≤ self.old.most }
        ensures { OnOk result (self.new ≡ begins self.old (record { vxid = vxid; rec = rec })) }
    {
        self.end()?;
        self.begun = Some(BegunUnit::new(self.alloc, vxid, rec)?);
        Ok(())
    }

    /// Whether the batch of the unit that was begun goes on with a record of this VXID and mark.
    fn goes_on(&self, vxid: Vxid, mark: Mark) -> bool
        ensures { (l : LoggedRecord) → l.vxid ≡ vxid → l.rec.mark ≡ mark →
            result ≡ begun_goes_on self.now.begun l }
    {
        match &self.begun {
            Some(begun) => begun.goes_on(vxid, mark),
            None => false,
        }
    }

    /// Whether the unit that was begun has room for a record.
    fn has_room(&self, rec: &RecordView<'_>) -> bool
        ensures { (l : LoggedRecord) → l.rec ≡ rec.now →
            result ≡ begun_has_room self.now.seg self.now.begun l }
    {
        match &self.begun {
            Some(begun) => begun.has_room(self.seg, rec),
            None => false,
        }
    }

    /// Adds a record to the unit that was begun.
    fn push(&mut self, rec: Record) -> Result<(), NoMemory>
        requires room { IsTrue (begun_has_room self.old.seg self.old.begun
            (record { vxid = 0; rec = rec })) }
        requires mark { IfSome self.old.begun (λ u. rec.mark ≡ u.mark) }
        ensures { OnOk result (IfSome self.old.begun
            (λ u. self.new ≡ record self.old { begun = Some (with_record u rec) })) }
    {
        match &mut self.begun {
            Some(begun) => begun.push(rec),
            None => unreachable!(),
        }
    }

    /// Adds a record behind those that were gathered.
    fn add(&mut self, vxid: Vxid, rec: Record) -> Result<(), NoMemory>
        requires in_range { vxid < vxid_end }
        requires few { length rec.payload ≤ self.old.most }
        requires cuts { self.old.cuts + 1 < 2 ^ 64 }
        ensures { OnOk result (self.new ≡ taken_by self.old.begun self.old
            (record { vxid = vxid; rec = rec })) }
    {
        if !self.goes_on(vxid, rec.mark) {
            return self.begin(vxid, rec);
        }
        if !self.has_room(&rec.view()) {
            self.cuts += 1;
            return self.begin(vxid, rec);
        }
        self.push(rec)
    }

    /// Takes a line behind those that were gathered.
    pub fn step(&mut self, line: LineRead<'_>) -> Result<(), NoMemory>
        requires in_range { IsInRange (line_of line) }
        requires cuts { self.old.cuts + 1 < 2 ^ 64 }
        ensures { OnOk result (self.new ≡ stepped self.old (line_of line.entry)) }
    {
        match line {
            LineRead::Blank => self.end(),
            LineRead::Comment => Ok(()),
            LineRead::Record {
                vxid,
                tag,
                mark,
                payload,
            } => {
                let kept = payload.len().min(self.most);
                let (kept, _) = payload.split_at(kept);
                let rec = new_record(self.alloc, tag, mark, kept)?;
                self.add(vxid, rec)
            }
        }
    }

    /// The listing of all that was gathered.
    pub fn finish(mut self) -> Result<Listing, NoMemory>
        ensures units { IfOk result (λ listing. listing.units ≡ (ended self).units) }
        ensures cuts { IfOk result (λ listing. listing.cuts ≡ self.cuts) }
        ensures within { IfOk result (λ listing. AllByRecursion (IsWithin self.seg) listing.units) }
    {
        self.end()?;
        Ok(Listing {
            units: self.units,
            cuts: self.cuts,
        })
    }
}
