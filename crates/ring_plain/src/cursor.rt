//! A cursor over a ring.

ghost use Rattle.std.specs.Prelude.{◌≡◌, ◌+◌, ◌-◌, ◌*◌, ◌%◌, ◌≤◌, ◌<◌, ℕ, [], length, None, Some, IsSome, is_some, IfOk};
ghost use Rattle.vsl_record.specs.Unit.{LogUnit, Log};
ghost use Rattle.vsl_record.specs.Views.{Spells};
ghost use Rattle.ring_layout.specs.Places.{seek_distance};
ghost use Rattle.ring_plain.specs.Ring.{IsRingOf};
ghost use Rattle.ring_plain.specs.Cursor.{Answers, IsOverrun, overrun_at, Stands, StandsAtStart};

use crate::ring::PlainRing;
use log_model::NoMemory;
use ring_layout::{OVERRUN_DISTANCE, SEEK_DISTANCE, Shape, Sought, Step, WORD, segment_of};
use std::alloc::Global;
use std::marker::Model;
use vsl_record::UnitView;

/// Reads a ring on the thread that puts into it. Contracts see its state.
#[derive(Drop)]
pub struct PlainCursor {
    shape: Shape,
    place: u64,
    /// How many units of the log start below the place.
    number: u64,
    lost: Option<u64>,
    bytes: Vec<u8>,
    /// How many of the bytes are the unit's.
    used: usize,
    /// The number of the unit that was taken last.
    taken: u64,
}

impl Model for PlainCursor {
    ghost use Rattle.std.specs.Prelude.{◌≡◌, ◌*◌, ◌≤◌, length, take};
    ghost use Rattle.vsl_record.specs.Words.{words_in};
    ghost use Rattle.ring_plain.specs.Cursor.{CursorState};

    ghost Value = { CursorState };

    ghost view = { λ c. record {
      seg = c.shape;
      place = c.place;
      number = c.number;
      lost = c.lost;
      words = words_in (take c.used c.bytes.items);
      taken = c.taken;
    } };

    ghost invariant = { λ c. (length c.bytes.items ≡ 4 * c.shape) × (c.used ≤ 4 * c.shape) };
}

impl PlainCursor {
    /// A cursor at the first unit. It takes the memory for a unit of a segment's words; no other call takes any.
    pub fn new(alloc: Global, ring: &PlainRing) -> Result<PlainCursor, NoMemory>
        ensures shape { IfOk result (λ cursor. cursor.seg ≡ ring.now.seg) }
        ensures place { IfOk result (λ cursor. cursor.place ≡ 0) }
        ensures stands { IfOk result (λ cursor. (log : Log) → Stands cursor log 0) }
        ensures words { IfOk result (λ cursor. cursor.words ≡ []) }
    {
        let shape = ring.shape();
        Ok(PlainCursor {
            shape,
            place: 0,
            number: 0,
            lost: None,
            bytes: vec![in alloc; 0; WORD * shape.seg() as usize]?,
            used: 0,
            taken: 0,
        })
    }

    /// Takes the next unit. A cursor that was overrun takes nothing until it seeks. The cursor stands in a log that the
    /// ring stands for.
    pub fn next(&mut self, ring: &PlainRing) -> Step
        requires shape { self.old.seg ≡ ring.now.seg }
        requires stands { self.old.lost ≡ None → (log : Log) × (k : ℕ) × IsRingOf ring.now log ×
            Stands self.old log k }
        ensures answers { (log : Log) (k : ℕ) → IsRingOf ring.now log → Stands self.old log k →
            Answers ring.now log k result self.old self.new }
        ensures lost { self.new.lost ≡ overrun_at result }
        ensures still_lost { (at : ℕ) → self.old.lost ≡ Some at →
            (result ≡ Step.Lost at ring.now.counter) × (self.new ≡ self.old) }
        ensures shape { self.new.seg ≡ self.old.seg }
    {
        let seen = ring.counter();
        if let Some(at) = self.lost {
            return Step::Lost { at, seen };
        }
        let at = segment_of(self.shape, self.place);
        if at + OVERRUN_DISTANCE <= seen {
            self.lost = Some(at);
            return Step::Lost { at, seen };
        }
        self.take(ring)
    }

    /// Takes the unit that is due, if there is one.
    fn take(&mut self, ring: &PlainRing) -> Step
        requires shape { self.old.seg ≡ ring.now.seg }
        requires near { ¬ IsOverrun ring.now self.old }
        requires stands { (log : Log) × (k : ℕ) × IsRingOf ring.now log × Stands self.old log k }
        ensures answers { (log : Log) (k : ℕ) → IsRingOf ring.now log → Stands self.old log k →
            Answers ring.now log k result self.old self.new }
        ensures lost { self.new.lost ≡ overrun_at result }
        ensures shape { self.new.seg ≡ self.old.seg }
    {
        let Some(stretch) = ring.due_unit(self.place) else {
            if ring.has_ended() {
                return Step::Ended;
            }
            return Step::NotYet { place: self.place };
        };
        ring.copy(stretch.place, stretch.words, &mut self.bytes);
        self.used = WORD * stretch.words;
        self.place = stretch.place + stretch.words as u64;
        self.taken = self.number;
        self.number += 1;
        Step::Took
    }

    /// Stands at the start of the segment four behind the tail's, or of the first one.
    pub fn seek(&mut self, ring: &PlainRing) -> Sought
        requires lost { IsSome self.old.lost }
        requires shape { self.old.seg ≡ ring.now.seg }
        ensures at { result ≡ Sought.At
            (ring.now.counter - seek_distance) self.new.place self.new.number }
        ensures stands { (log : Log) → IsRingOf ring.now log →
            StandsAtStart self.new log (ring.now.counter - seek_distance) }
        ensures words { self.new.words ≡ self.old.words }
        ensures taken { self.new.taken ≡ self.old.taken }
        ensures shape { self.new.seg ≡ self.old.seg }
    {
        let segment = ring.counter().saturating_sub(SEEK_DISTANCE);
        let place = ring.start_of(segment);
        let number = ring.number_of(segment);
        self.place = place;
        self.number = number;
        self.lost = None;
        Sought::At {
            segment,
            place,
            number,
        }
    }

    /// Whether the cursor was overrun, and didn't seek.
    pub fn is_lost(&self) -> bool
        ensures { result ≡ is_some self.now.lost }
    {
        self.lost.is_some()
    }

    /// The number of the unit that was taken last, from 0: how many units of the log stand before it. The first unit that
    /// is taken after a `seek` has the number that `At` told, and each other one the next. It takes no memory.
    pub fn number(&self) -> u64
        requires { (u : LogUnit) × Spells self.now.words u }
        ensures { result ≡ self.now.taken }
    {
        self.taken
    }

    /// The number of the unit that is due: how many units of the log start below the cursor's place. It stays so where the
    /// cursor is overrun, so `At`'s number less this one is how many units were missed. It takes no memory.
    pub fn next_number(&self) -> u64
        ensures { result ≡ self.now.number }
    {
        self.number
    }

    /// The unit that was taken last.
    pub fn unit(&self) -> UnitView<'_>
        requires { (u : LogUnit) × Spells self.now.words u }
        ensures { result ≡ self.now.words }
    {
        let (words, _) = self.bytes.split_at(self.used);
        UnitView::new(words)
    }
}
