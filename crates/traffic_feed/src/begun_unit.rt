//! A unit to which records are added.

ghost use Rattle.std.specs.Prelude.{◌≡◌, ◌<◌, ◌≤◌, length, IfOk, OnOk, OnErr};
ghost use Rattle.vsl_record.specs.Unit.{vxid_end};
ghost use Rattle.vsl_record.specs.Words.{IsUnit, most_words, unit_words};
ghost use Rattle.raw_records.specs.Lines.{LoggedRecord};
ghost use Rattle.raw_records.specs.Gathered.{goes_on, unit_of, with_record};
ghost use Rattle.traffic_feed.specs.Batches.{has_room};

use log_model::NoMemory;
use std::alloc::Global;
use std::marker::Model;
use vsl_record::{Mark, Record, RecordView, Unit, Vxid};
use vsl_tags::Tag;

/// A unit to which records are added. Contracts see the unit.
#[derive(Drop)]
pub(crate) struct BegunUnit {
    vxid: Vxid,
    mark: Mark,
    records: Vec<Record>,
    /// How many words the unit has.
    words: usize,
    /// Whether one of the records is an End.
    has_end: bool,
}

impl Model for BegunUnit {
    ghost use Rattle.vsl_record.specs.Unit.{LogUnit};
    ghost use Rattle.traffic_feed.specs.inside.Gathering.{IsBegunUnit};

    ghost Value = { LogUnit };

    ghost view = { λ u. record { vxid = u.vxid; mark = u.mark; records = u.records.items } };

    ghost invariant = { λ u. IsBegunUnit
        (record { vxid = u.vxid; mark = u.mark; records = u.records.items }) u.words u.has_end };
}

impl BegunUnit {
    /// The unit of one record.
    pub fn new(alloc: Global, vxid: Vxid, rec: Record) -> Result<BegunUnit, NoMemory>
        requires { vxid < vxid_end }
        ensures made { IfOk result (λ u. u ≡ unit_of (record { vxid = vxid; rec = rec })) }
        ensures unit { IfOk result (λ u. IsUnit u) }
    {
        let mark = rec.mark;
        let words = 1 + rec.view().words();
        let has_end = rec.tag == Tag::END;
        let mut records = Vec::new(alloc);
        records.push(rec)?;
        Ok(BegunUnit {
            vxid,
            mark,
            records,
            words,
            has_end,
        })
    }

    /// Whether its batch goes on with a record of this VXID and mark.
    pub fn goes_on(&self, vxid: Vxid, mark: Mark) -> bool
        ensures { (l : LoggedRecord) → l.vxid ≡ vxid → l.rec.mark ≡ mark →
            result ≡ goes_on self.now l }
    {
        self.vxid == vxid && vxid != 0 && self.mark == mark && !self.has_end
    }

    /// Whether it has room for a record in a segment of so many words.
    pub fn has_room(&self, seg: usize, rec: &RecordView<'_>) -> bool
        ensures { (l : LoggedRecord) → l.rec ≡ rec.now → result ≡ has_room seg self.now l }
    {
        self.words + rec.words() <= seg
    }

    /// Adds a record.
    pub fn push(&mut self, rec: Record) -> Result<(), NoMemory>
        requires mark { rec.mark ≡ self.old.mark }
        requires few { length (unit_words (with_record self.old rec)) ≤ most_words }
        ensures pushed { OnOk result (self.new ≡ with_record self.old rec) }
        ensures unit { OnOk result (IsUnit self.new) }
        ensures err { OnErr result (self.new ≡ self.old) }
    {
        let words = rec.view().words();
        let is_end = rec.tag == Tag::END;
        self.records.push(rec)?;
        self.words += words;
        self.has_end |= is_end;
        Ok(())
    }

    /// The unit.
    pub fn close(self) -> Unit
        ensures { result ≡ self }
    {
        let Ok(unit) = Unit::new(self.vxid, self.mark, self.records) else {
            unreachable!()
        };
        unit
    }
}
