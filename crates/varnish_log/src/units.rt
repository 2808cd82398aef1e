//! The units of records that come one by one, as the bytes of a log file.

ghost use Rattle.std.specs.Prelude.{◌≡◌, ◌+◌, ◌/◌, ◌<◌, ◌≤◌, ◌++◌, ◌∷◌, [], List, ℕ, true, false, length, OnOk, IfOk, IfSome, IfNone, Some};
ghost use Rattle.std.specs.List.{AllByRecursion};
ghost use Rattle.vsl_record.specs.Payload.{most_payload};
ghost use Rattle.vsl_record.specs.Unit.{LogUnit, vxid_end};
ghost use Rattle.vsl_record.specs.Words.{IsUnit, most_words};
ghost use Rattle.vsl_file.specs.File.{log_bytes};
ghost use Rattle.raw_records.specs.Gathered.{gathered, goes_on, has_end};
ghost use Rattle.raw_records.specs.Lines.{LoggedRecord};
ghost use Rattle.varnish_log.specs.inside.Written.{IsWritten, Keeps, nothing, words_of};
ghost use Rattle.varnish_log.specs.inside.Writers.{GoesOnWith, IsReady, known};

use log_model::NoMemory;
use std::alloc::Global;
use std::marker::Model;
use vsl_file::{put_record, put_unit_of};
use vsl_record::{Mark, Vxid};
use vsl_tags::Tag;

/// What is known of the unit that goes on.
#[derive(Clone, Copy)]
struct Begun {
    vxid: Vxid,
    mark: Mark,
    /// How many words it has.
    words: usize,
    /// Whether it has an End.
    ended: bool,
}

impl Begun {
    /// Whether the unit goes on with a record of this VXID and mark.
    fn goes_on(self, vxid: Vxid, mark: Mark) -> bool
        ensures goes { (u : LogUnit) (l : LoggedRecord) → u.vxid ≡ self.vxid → u.mark ≡ self.mark →
            has_end u ≡ self.ended → l.vxid ≡ vxid → l.rec.mark ≡ mark → result ≡ goes_on u l }
        ensures same { result ≡ true → (self.vxid ≡ vxid) × (self.mark ≡ mark) ×
            (self.ended ≡ false) }
    {
        self.vxid == vxid && vxid != 0 && self.mark == mark && !self.ended
    }
}

/// The unit that goes on. Contracts see what is known of it, and the bytes of its records.
#[derive(Drop)]
pub(crate) struct UnitWriter {
    begun: Option<Begun>,
    /// The bytes of its records.
    body: Vec<u8>,
}

impl Model for UnitWriter {
    ghost use Rattle.std.specs.Prelude.{◌≡◌, None, []};
    ghost use Rattle.varnish_log.specs.inside.Written.{Kept};
    ghost use Rattle.varnish_log.specs.inside.Writers.{known_of};

    ghost Value = { Kept };

    ghost view = { λ w. record { begun = known_of w.begun; body = w.body.items } };

    ghost invariant = { λ w. known_of w.begun ≡ None → w.body.items ≡ [] };
}

impl UnitWriter {
    /// No unit goes on.
    pub fn new(alloc: Global) -> UnitWriter
        ensures { result ≡ nothing }
    {
        UnitWriter {
            begun: None,
            body: Vec::new(alloc),
        }
    }

    /// Ends the unit that goes on, if there is one, and adds its bytes.
    pub fn close(&mut self, out: &mut Vec<u8>) -> Result<(), NoMemory>
        requires { words_of self.old ≤ most_words }
        ensures written { (before : List ℕ) (ls : List LoggedRecord) →
            IsWritten self.old out.old.items before ls →
            OnOk result (out.new.items ≡ before ++ log_bytes (gathered goes_on ls)) }
        ensures units { (before : List ℕ) (ls : List LoggedRecord) →
            IsWritten self.old out.old.items before ls →
            OnOk result (AllByRecursion IsUnit (gathered goes_on ls)) }
        ensures nothing { OnOk result (self.new ≡ nothing) }
    {
        let Some(begun) = self.begun else {
            return Ok(());
        };
        put_unit_of(begun.words, self.body.as_slice(), out)?;
        self.begun = None;
        self.body.clear();
        Ok(())
    }

    /// The unit that goes on, where it does with a record of this VXID and mark.
    fn open_for(&self, vxid: Vxid, mark: Mark) -> Option<Begun>
        ensures some { IfSome result (λ begun. GoesOnWith self.now (known begun) vxid mark) }
        ensures none { IfNone result ((u : LogUnit) (l : LoggedRecord) → Keeps self.now (Some u) →
            l.vxid ≡ vxid → l.rec.mark ≡ mark → goes_on u l ≡ false) }
    {
        let begun = self.begun?;
        if !begun.goes_on(vxid, mark) {
            return None;
        }
        Some(begun)
    }

    /// What is known of the unit of the next record, of this VXID and mark: the one that goes on, or, where it can't,
    /// one that begins, after that one was ended.
    fn unit_for(&mut self, vxid: Vxid, mark: Mark, out: &mut Vec<u8>) -> Result<Begun, NoMemory>
        requires vxid { vxid < vxid_end }
        requires few { words_of self.old ≤ most_words }
        ensures ready { (before : List ℕ) (ls : List LoggedRecord) →
            IsWritten self.old out.old.items before ls →
            IfOk result (λ begun. IsReady (known begun) self.new.body out.new.items before ls) }
        ensures vxid { IfOk result (λ begun. begun.vxid ≡ vxid) }
        ensures mark { IfOk result (λ begun. begun.mark ≡ mark) }
        ensures words { IfOk result (λ begun. begun.words ≤ words_of self.old + 1) }
    {
        if let Some(begun) = self.open_for(vxid, mark) {
            return Ok(begun);
        }
        self.close(out)?;
        Ok(Begun {
            vxid,
            mark,
            words: 1,
            ended: false,
        })
    }

    /// Adds a record: to the unit that goes on, or, where it can't, to one that begins after that one was ended.
    pub fn add(
        &mut self,
        vxid: Vxid,
        mark: Mark,
        tag: Tag,
        payload: &[u8],
        out: &mut Vec<u8>,
    ) -> Result<(), NoMemory>
        requires vxid { vxid < vxid_end }
        requires few { length payload.now ≤ most_payload }
        requires room { words_of self.old + 1004 ≤ most_words }
        ensures written { (before : List ℕ) (ls : List LoggedRecord) →
            IsWritten self.old out.old.items before ls →
            OnOk result (IsWritten self.new out.new.items before
            (ls ++ record {
              vxid = vxid;
              rec = record { tag = tag; mark = mark; payload = payload.now };
            } ∷ [])) }
        ensures words { OnOk result
            (words_of self.new ≤ words_of self.old + 4 + (length payload.now + 3) / 4) }
    {
        let begun = self.unit_for(vxid, mark, out)?;
        let words = begun.words + 3 + payload.len().div_ceil(4);
        let ended = tag == Tag::END;
        self.begun = Some(Begun {
            vxid,
            mark,
            words,
            ended,
        });
        put_record(vxid, mark, tag, payload, &mut self.body)
    }
}
