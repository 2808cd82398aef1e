//! A reader's pass.

ghost use Rattle.std.specs.Prelude.{◌≡◌, ◌≢◌, ℕ, ◌+◌, ◌-◌, ◌*◌, ◌/◌, ◌%◌, ◌<◌, ◌≤◌, [], ◌∷◌, length, vec_len, Some, None, IsSome, IfSome, IfNone, is_some, MatchBool};
ghost use Rattle.vsl_record.specs.Unit.{LogUnit};
ghost use Rattle.vsl_record.specs.Views.{Spells};
ghost use Rattle.vsl_record.specs.Words.{header_mark};
ghost use Rattle.ring_layout.specs.Places.{end_mark, fewest_words, wrap_mark};
ghost use Rattle.ring_layout.specs.History.{next_number};
ghost use Rattle.log_ring.specs.declared.rule.Unchecked.TheVariants.{Words};
ghost use Rattle.log_ring.specs.Readers.{new_reader, new_pass, IsSought, IsAnswer, HasFound, StaysLost};
ghost use Rattle.log_ring.specs.inside.Reading.{reader_of};
ghost use Rattle.log_ring.specs.inside.Steps.{HasMoved, IsReaderSeat, FoundWord, HasChecked, HasTried, set_of};

use crate::pause::{NoPause, Pause, stop};
use crate::ring::{Ring, RingSeat};
use ring_layout::{
    END_MARK, FEWEST_WORDS, OVERRUN_DISTANCE, SEEK_DISTANCE, SEGMENTS, Sought, Step, WORD,
    WRAP_MARK, segment_of,
};
use std::marker::Model;
use vsl_record::{HEADER_MARK, UnitView};

/// The right to read a ring, and what was taken by it. Contracts see these.
#[derive(Drop)]
pub struct ReaderPass {
    pub(crate) seat: RingSeat,
    place: u64,
    /// How many units of the log start before the place.
    number: u64,
    lost: Option<u64>,
    /// How many writers the ring has.
    writers: u64,
    bytes: Vec<u8>,
    /// How many of the bytes are the unit's.
    used: usize,
    /// The number of the unit that was taken last.
    taken: u64,
}

impl Model for ReaderPass {
    ghost use Rattle.std.specs.Prelude.{◌≡◌, ◌*◌, ◌≤◌, length, take};
    ghost use Rattle.vsl_record.specs.Words.{words_in};
    ghost use Rattle.ring_layout.specs.Places.{last_tail};
    ghost use Rattle.ring_layout.specs.History.{next_number};
    ghost use Rattle.log_ring.specs.Readers.{ReaderState};
    ghost use Rattle.log_ring.specs.inside.Reading.{reader_of};
    ghost use Rattle.log_ring.specs.inside.Steps.{IsReaderSeat, reader_seen};

    ghost Value = { ReaderState };

    ghost view = { λ p. reader_seen p.seat.table_id p.seat.me.0
        (words_in (take p.used p.bytes.items)) p.taken };

    ghost invariant = { λ p. IsReaderSeat p.seat.me × (p.place ≡ (reader_of p.seat.me.0).place) ×
        (p.lost ≡ (reader_of p.seat.me.0).lost) × (p.writers ≡ p.seat.me.0.ring.writers) ×
        (p.place ≤ last_tail) × (length p.bytes.items ≡ 4 * p.seat.me.0.ring.seg) ×
        (p.used ≤ 4 * p.seat.me.0.ring.seg) × (p.number ≡ (reader_of p.seat.me.0).number) ×
        (p.number ≤ last_tail) × (p.number ≡ next_number (reader_of p.seat.me.0).items) };
}

impl ReaderPass {
    /// The pass of a seat that took nothing.
    pub(crate) fn of_seat(seat: RingSeat, writers: u64, bytes: Vec<u8>) -> ReaderPass
        requires reader { IsReaderSeat seat.me }
        requires part { reader_of seat.me.0 ≡ new_reader }
        requires writers { writers ≡ seat.me.0.ring.writers }
        requires size { vec_len bytes ≡ 4 * seat.me.0.ring.seg }
        ensures { result ≡ new_pass (set_of seat.table_id seat.me.0.ring) }
    {
        ReaderPass {
            seat,
            place: 0,
            number: 0,
            lost: None,
            writers,
            bytes,
            used: 0,
            taken: 0,
        }
    }

    /// Whether the cursor was overrun, and didn't seek.
    pub fn is_lost(&self) -> bool
        ensures { result ≡ is_some self.now.reader.lost }
    {
        self.lost.is_some()
    }

    /// Goes on at the start of the segment four behind the counter, or of the first segment: `At` says which segment
    /// that is, its place in words, and how many units of the log start before it, so that a caller can say exactly how
    /// many were missed. `Lost` where the counter came six segments ahead of it meanwhile. The cursor was overrun before.
    /// It takes no memory and never waits.
    pub fn seek(&mut self, ring: &Ring) -> Sought
        requires ours { self.old.ring ≡ ring.now }
        requires lost { IsSome self.old.reader.lost }
        ensures sought { IsSought self.old result self.new }
        ensures same { self.new.ring ≡ self.old.ring }
        ensures words { self.new.words ≡ self.old.words }
        ensures taken { self.new.taken ≡ self.old.taken }
    {
        self.seek_with(ring, &mut NoPause)
    }

    /// Goes on as `seek` does, and calls `pause` before each load.
    pub fn seek_with<P: Pause>(&mut self, ring: &Ring, pause: &mut P) -> Sought
        requires ours { self.old.ring ≡ ring.now }
        requires lost { IsSome self.old.reader.lost }
        ensures sought { IsSought self.old result self.new }
        ensures same { self.new.ring ≡ self.old.ring }
        ensures words { self.new.words ≡ self.old.words }
        ensures taken { self.new.taken ≡ self.old.taken }
    {
        let Some(before) = self.lost else {
            unreachable!();
        };
        let mut step: u64 = 0;
        stop(pause, &mut step);
        let counter = ring.look(&mut self.seat);
        let segment = counter.saturating_sub(SEEK_DISTANCE);
        stop(pause, &mut step);
        let place = ring.load_start(&mut self.seat, segment);
        stop(pause, &mut step);
        let number = ring.load_number(&mut self.seat, segment);
        stop(pause, &mut step);
        let seen = ring.check_start(&mut self.seat, before);
        if seen >= OVERRUN_DISTANCE && segment <= seen - OVERRUN_DISTANCE {
            self.lost = Some(segment);
            return Sought::Lost { at: segment, seen };
        }
        self.place = place;
        self.number = number;
        self.lost = None;
        Sought::At {
            segment,
            place,
            number,
        }
    }

    /// Answers for a cursor that was overrun and didn't seek.
    fn lost_again<P: Pause>(&mut self, ring: &Ring, at: u64, pause: &mut P, step: &mut u64) -> Step
        requires ours { self.old.ring ≡ ring.now }
        requires lost { self.old.reader.lost ≡ Some at }
        ensures answer { IsAnswer self.old result self.new }
        ensures found { HasFound self.old result self.new }
        ensures lost { StaysLost self.old result self.new }
        ensures same { self.new.ring ≡ self.old.ring }
    {
        stop(pause, step);
        let seen = ring.check_again(&mut self.seat, at);
        Step::Lost { at, seen }
    }

    /// Answers where the end mark was found, once so many writers had left.
    fn at_end<P: Pause>(
        &mut self,
        ring: &Ring,
        finished_seen: u64,
        pause: &mut P,
        step: &mut u64,
    ) -> Step
        requires ours { self.old.ring ≡ ring.now }
        requires reading { self.old.reader.lost ≡ None }
        requires copied { self.old.reader.unchecked ≡ Words (end_mark ∷ []) }
        requires finished_seen { finished_seen ≡ self.old.reader.finished_seen }
        ensures answer { IsAnswer self.old result self.new }
        ensures word { FoundWord self.old.reader.place end_mark self.new (Some result) }
        ensures checked { HasChecked self.old self.new }
        ensures same { self.new.ring ≡ self.old.ring }
    {
        let at = segment_of(ring.shape, self.place);
        stop(pause, step);
        let seen = ring.check_end(&mut self.seat);
        if at + OVERRUN_DISTANCE <= seen {
            self.lost = Some(at);
            return Step::Lost { at, seen };
        }
        if finished_seen >= self.writers {
            return Step::Ended;
        }
        Step::NotYet { place: self.place }
    }

    /// Goes on at the next lap, where the wrap mark was found; or answers that it was overrun.
    fn at_lap<P: Pause>(&mut self, ring: &Ring, pause: &mut P, step: &mut u64) -> Option<Step>
        requires ours { self.old.ring ≡ ring.now }
        requires reading { self.old.reader.lost ≡ None }
        requires copied { self.old.reader.unchecked ≡ Words (wrap_mark ∷ []) }
        ensures overrun { IfSome result (λ step. IsAnswer self.old step self.new) }
        ensures word { FoundWord self.old.reader.place wrap_mark self.new result }
        ensures moved { IfNone result
            ((self.new.reader.lost ≡ None) × (self.new.reader.items ≡ self.old.reader.items) ×
            (self.new.reader.place ≡ (self.old.reader.place / (8 * self.old.ring.seg) + 1) *
            (8 * self.old.ring.seg))) }
        ensures checked { HasChecked self.old self.new }
        ensures same { self.new.ring ≡ self.old.ring }
    {
        let at = segment_of(ring.shape, self.place);
        let lap = SEGMENTS as u64 * u64::from(ring.shape.seg());
        let next = (self.place / lap + 1) * lap;
        stop(pause, step);
        let seen = ring.check_lap(&mut self.seat);
        if at + OVERRUN_DISTANCE <= seen {
            self.lost = Some(at);
            return Some(Step::Lost { at, seen });
        }
        self.place = next;
        None
    }

    /// Answers that it was overrun, where a word was found that is none of a log's.
    fn at_nothing<P: Pause>(
        &mut self,
        ring: &Ring,
        head: u64,
        pause: &mut P,
        step: &mut u64,
    ) -> Step
        requires ours { self.old.ring ≡ ring.now }
        requires reading { self.old.reader.lost ≡ None }
        requires copied { self.old.reader.unchecked ≡ Words (head ∷ []) }
        requires no_end { head ≢ end_mark }
        requires no_lap { head ≡ wrap_mark →
            self.old.reader.place % (8 * self.old.ring.seg) + self.old.ring.seg < 8 *
            self.old.ring.seg }
        requires no_unit { header_mark + fewest_words ≤ head →
            head ≤ header_mark + self.old.ring.seg →
            self.old.reader.place % (8 * self.old.ring.seg) +
            (head - header_mark) < 8 * self.old.ring.seg → ⊥ }
        ensures answer { IsAnswer self.old result self.new }
        ensures word { FoundWord self.old.reader.place head self.new (Some result) }
        ensures checked { HasChecked self.old self.new }
        ensures same { self.new.ring ≡ self.old.ring }
    {
        let at = segment_of(ring.shape, self.place);
        stop(pause, step);
        let seen = ring.check_nothing(&mut self.seat, head);
        self.lost = Some(at);
        Step::Lost { at, seen }
    }

    /// Takes the unit whose header was found, which has so many words.
    fn at_unit<P: Pause>(
        &mut self,
        ring: &Ring,
        head: u32,
        count: u64,
        pause: &mut P,
        step: &mut u64,
    ) -> Step
        requires ours { self.old.ring ≡ ring.now }
        requires reading { self.old.reader.lost ≡ None }
        requires copied { self.old.reader.unchecked ≡ Words (head ∷ []) }
        requires head { head ≡ header_mark + count }
        requires some { 0 < count }
        requires fits { count ≤ self.old.ring.seg }
        requires in_lap { self.old.reader.place %
            (8 * self.old.ring.seg) + count < 8 * self.old.ring.seg }
        ensures answer { IsAnswer self.old result self.new }
        ensures word { FoundWord self.old.reader.place head self.new (Some result) }
        ensures checked { HasChecked self.old self.new }
        ensures same { self.new.ring ≡ self.old.ring }
    {
        let at = segment_of(ring.shape, self.place);
        ring.copy(
            &mut self.seat,
            &mut self.bytes,
            self.place,
            head,
            count,
            pause,
            step,
        );
        self.used = WORD * count as usize;
        stop(pause, step);
        let seen = ring.check_unit(&mut self.seat);
        if at + OVERRUN_DISTANCE <= seen {
            self.lost = Some(at);
            return Step::Lost { at, seen };
        }
        self.place += count;
        self.taken = self.number;
        self.number += 1;
        Step::Took
    }

    /// The unit that was taken last, in the pass's own bytes, where one was.
    pub fn unit(&self) -> UnitView<'_>
        requires { (u : LogUnit) × Spells self.now.words u }
        ensures { result ≡ self.now.words }
    {
        let (words, _) = self.bytes.split_at(self.used);
        UnitView::new(words)
    }

    /// The number of the unit that was taken last, from 0: how many units of the log stand before it. The first unit that
    /// is taken after a `seek` has the number that `At` told, and each other one the next. It takes no memory.
    pub fn number(&self) -> u64
        requires { (u : LogUnit) × Spells self.now.words u }
        ensures { result ≡ self.now.taken }
    {
        self.taken
    }

    /// The number of the unit that is due: the one behind the last that was taken, or the one that `At` told of where none
    /// was taken since. It stays so where the cursor is overrun, so `At`'s number less this one is how many units were
    /// missed. It takes no memory.
    pub fn next_number(&self) -> u64
        ensures { result ≡ next_number self.now.reader.items }
    {
        self.number
    }

    /// How many words the unit of this header has, if it is the header of a unit at the cursor's place.
    fn unit_size(&self, ring: &Ring, head: u32) -> Option<u64>
        requires ours { self.now.ring ≡ ring.now }
        ensures unit { IfSome result (λ count. (head ≡ header_mark + count) ×
            (fewest_words ≤ count) × (count ≤ self.now.ring.seg)) }
        ensures in_lap { IfSome result
            (λ count. self.now.reader.place %
            (8 * self.now.ring.seg) + count < 8 * self.now.ring.seg) }
        ensures none { IfNone result (header_mark + fewest_words ≤ head →
            head ≤ header_mark + self.now.ring.seg →
            self.now.reader.place % (8 * self.now.ring.seg) +
            (head - header_mark) < 8 * self.now.ring.seg → ⊥) }
    {
        if head < HEADER_MARK + FEWEST_WORDS {
            return None;
        }
        let seg = u64::from(ring.shape.seg());
        let count = u64::from(head - HEADER_MARK);
        if count > seg {
            return None;
        }
        let lap = SEGMENTS as u64 * seg;
        if self.place % lap + count >= lap {
            return None;
        }
        Some(count)
    }

    /// Whether a unit at the cursor's place may wrap.
    fn may_wrap(&self, ring: &Ring) -> bool
        requires ours { self.now.ring ≡ ring.now }
        ensures { MatchBool result
            (8 * self.now.ring.seg ≤ self.now.reader.place %
            (8 * self.now.ring.seg) + self.now.ring.seg)
            (self.now.reader.place % (8 * self.now.ring.seg) + self.now.ring.seg < 8 *
            self.now.ring.seg) }
    {
        let seg = u64::from(ring.shape.seg());
        let lap = SEGMENTS as u64 * seg;
        self.place % lap + seg >= lap
    }

    /// Answers for the first word that was found, or goes on at the next lap.
    #[tactic(auto, using(crate::proofs::AnswerLemmas::answer_as, crate::proofs::AnswerLemmas::found_as))]
    fn found<P: Pause>(
        &mut self,
        ring: &Ring,
        finished_seen: u64,
        head: u32,
        pause: &mut P,
        step: &mut u64,
    ) -> Option<Step>
        requires ours { self.old.ring ≡ ring.now }
        requires reading { self.old.reader.lost ≡ None }
        requires copied { self.old.reader.unchecked ≡ Words (head ∷ []) }
        requires finished_seen { finished_seen ≡ self.old.reader.finished_seen }
        ensures answer { IfSome result (λ step. IsAnswer self.old step self.new) }
        ensures moved { IfNone result (HasMoved self.old self.new) }
        ensures word { FoundWord self.old.reader.place head self.new result }
        ensures checked { HasChecked self.old self.new }
        ensures same { self.new.ring ≡ self.old.ring }
    {
        if head == END_MARK {
            return Some(self.at_end(ring, finished_seen, pause, step));
        }
        if head == WRAP_MARK {
            if self.may_wrap(ring) {
                return self.at_lap(ring, pause, step);
            }
            return Some(self.at_nothing(ring, u64::from(head), pause, step));
        }
        match self.unit_size(ring, head) {
            Some(count) => Some(self.at_unit(ring, head, count, pause, step)),
            None => Some(self.at_nothing(ring, u64::from(head), pause, step)),
        }
    }

    /// Takes the unit that is due, or goes on at the next lap.
    #[tactic(auto, using(crate::proofs::AnswerLemmas::answer_as, crate::proofs::AnswerLemmas::tried_as))]
    fn take<P: Pause>(&mut self, ring: &Ring, pause: &mut P, step: &mut u64) -> Option<Step>
        requires ours { self.old.ring ≡ ring.now }
        requires reading { self.old.reader.lost ≡ None }
        ensures answer { IfSome result (λ step. IsAnswer self.old step self.new) }
        ensures moved { IfNone result (HasMoved self.old self.new) }
        ensures tried { HasTried result self.old self.new }
        ensures same { self.new.ring ≡ self.old.ring }
    {
        stop(pause, step);
        let finished_seen = ring.load_finished(&mut self.seat);
        stop(pause, step);
        let head = ring.load_head(&mut self.seat, self.place) as u32;
        self.found(ring, finished_seen, head, pause, step)
    }

    /// Takes the next unit: `Took`, and `unit` lends it. `NotYet` where none is there and not all writers have left, with
    /// the place in words; `Ended` where none is there and all have; `Lost` where the counter came six segments ahead of
    /// the cursor, with both segments. A cursor that was overrun takes nothing until it seeks. It takes no memory and
    /// never waits.
    pub fn next(&mut self, ring: &Ring) -> Step
        requires ours { self.old.ring ≡ ring.now }
        ensures answer { IsAnswer self.old result self.new }
        ensures found { HasFound self.old result self.new }
        ensures lost { StaysLost self.old result self.new }
        ensures same { self.new.ring ≡ self.old.ring }
    {
        self.next_with(ring, &mut NoPause)
    }

    /// Takes the next unit as `next` does, and calls `pause` before each load. A test stops a call anywhere so, and its
    /// contract is the same.
    #[tactic(auto, using(crate::proofs::AnswerLemmas::answer_as, crate::proofs::AnswerLemmas::found_once, crate::proofs::AnswerLemmas::found_twice, crate::proofs::AnswerLemmas::free_stays))]
    pub fn next_with<P: Pause>(&mut self, ring: &Ring, pause: &mut P) -> Step
        requires ours { self.old.ring ≡ ring.now }
        ensures answer { IsAnswer self.old result self.new }
        ensures found { HasFound self.old result self.new }
        ensures lost { StaysLost self.old result self.new }
        ensures same { self.new.ring ≡ self.old.ring }
    {
        let mut step: u64 = 0;
        if let Some(at) = self.lost {
            return self.lost_again(ring, at, pause, &mut step);
        }
        // a read for the proof alone: it tells what holds of each ring, before and behind the next call
        let _shape = ring.shape;
        if let Some(answer) = self.take(ring, pause, &mut step) {
            return answer;
        }
        let Some(answer) = self.take(ring, pause, &mut step) else {
            unreachable!();
        };
        answer
    }

    /// The seat of this reader.
    pub(crate) fn into_seat(self) -> RingSeat
        ensures reader { IsReaderSeat result.me }
        ensures part { reader_of result.me.0 ≡ self.reader }
        ensures ring { set_of result.table_id result.me.0.ring ≡ self.ring }
    {
        self.seat
    }
}
