//! The steps of a put.

ghost use Rattle.std.specs.Prelude.{◌≡◌, ◌+◌, ◌*◌, ◌/◌, ◌%◌, ◌<◌, ◌≤◌, [], ◌∷◌, length, drop, slice_index};
ghost use Rattle.vsl_record.specs.Words.{IsUnit, unit_words};
ghost use Rattle.ring_layout.specs.Places.{last_tail};
ghost use Rattle.ring_layout.specs.Content.{first_word, last_word};
ghost use Rattle.ring_layout.specs.inside.Numbers.{entered_number};
ghost use Rattle.log_ring.specs.declared.rule.Progress.TheVariants.{Free, Storing, Stored};
ghost use Rattle.log_ring.specs.inside.Rule.{first_ring_word};
ghost use Rattle.log_ring.specs.inside.Writing.{begun, first_entries, after_acquire, after_publish, after_leave};
ghost use Rattle.log_ring.specs.inside.Steps.{IsPlaced, IsPutAt, with_progress, known, announced, starting, started, written, marked, counted, first_of, first_writer_of, with_put};

use crate::pause::{Pause, stop};
use crate::ring::{Ring, RingSeat};
use crate::rule::{
    Acquiring, Announcing, Coming, CountingUnit, Leaving, LoadingCount, Marking, Numbering,
    Publishing, Releasing, Starting, Wording,
};
use ring_layout::{END_MARK, Placed, SEGMENTS, WRAP_MARK, segment_of};
use std::sync::Wait;
use std::thread;
use vsl_record::{Unit, UnitWords, is_unit};

/// How often a writer that waits looks at the write token before it lets other threads run.
const PEEKS: u32 = 64;

/// The word of the write token. Readers load none of the seven behind it, so that writers have a cache line alone.
pub(crate) const WRITE_TOKEN: usize = 0;

/// The word of the number of units of the log. Readers don't load it.
const UNIT_COUNT: usize = 1;

/// The word of the counter.
pub(crate) const SEGMENT_COUNTER: usize = 8;

/// The first of the words that keep the starts of segments.
pub(crate) const SEGMENT_STARTS: usize = 9;

/// The word that counts the writers that left.
pub(crate) const FINISHED_WRITERS: usize = 17;

/// The first of the words that keep the numbers of segments' first units.
pub(crate) const SEGMENT_NUMBERS: usize = 18;

/// The first of the ring's words.
pub(crate) const FIRST: usize = 32;

/// A unit, and where it is put at the tail that was found.
#[derive(Drop)]
pub(crate) struct PlacedUnit<'a> {
    pub(crate) unit: &'a Unit,
    pub(crate) tail: u64,
    /// How many units stand before it.
    pub(crate) count: u64,
    pub(crate) placed: Placed,
}

/// Passes over a unit's header, which is its word 0, and answers the number of the next one.
fn skip_header(words: &mut UnitWords<'_>) -> usize
    requires { 0 < length words.old }
    ensures rest { words.new ≡ drop 1 words.old }
    ensures next { result ≡ 1 }
{
    let _header = words.next();
    1
}

impl Ring {
    /// The word in which a place lies.
    pub(crate) fn word_of(&self, place: u64) -> usize
        ensures { result ≡ first_ring_word + place % (8 * self.now.seg) }
    {
        FIRST + (place % (SEGMENTS as u64 * u64::from(self.shape.seg()))) as usize
    }

    /// Swaps the write token with 0, with a unit to be put. Where another writer has it, it answers 0.
    pub(crate) fn acquire<N: Coming>(&self, seat: &mut RingSeat) -> u64
        requires ours { seat.old.table_id ≡ self.now.table }
        requires free { seat.old.me.0.progress ≡ Free }
        requires stays { seat.old.me.0.finished < length seat.old.me.0.writers }
        ensures same { seat.new.table_id ≡ seat.old.table_id }
        ensures taken { seat.new.me ≡ (
          after_acquire unit_words N.unit result seat.old.me.0,
          seat.old.me.1,
        ) }
        ensures busy { result ≡ 0 → 1 < seat.old.me.0.ring.writers }
        ensures found { 0 < result → (length (first_entries seat.old.me.0.writers) < result) ×
            (result ≤ last_tail + 1) }
    {
        self.table.shared.swap::<Acquiring<N>>(seat, WRITE_TOKEN, 0)
    }

    /// Waits until the write token was seen released. It only loads, so that the writer that has the token keeps its cache
    /// line, and lets other threads run.
    pub(crate) fn await_token<R: Wait>(&self, rt: &R) {
        for _ in rt.forever() {
            for _ in 0..PEEKS {
                if self.table.shared.peek(WRITE_TOKEN) != 0 {
                    return;
                }
            }
            thread::yield_now();
        }
    }

    /// Releases the write token where the unit has no place.
    pub(crate) fn withdraw<P: Pause>(
        &self,
        seat: &mut RingSeat,
        tail: u64,
        unit: &Unit,
        pause: &mut P,
        step: &mut u64,
    )
        requires ours { seat.old.table_id ≡ self.now.table }
        requires begun { seat.old.me.0.progress ≡ Storing
            (begun unit_words self.now.seg tail unit.now) }
        requires low { tail ≤ last_tail }
        ensures same { seat.new.table_id ≡ seat.old.table_id }
        ensures released { seat.new.me ≡ (with_progress Free seat.old.me.0, seat.old.me.1) }
    {
        stop(pause, step);
        self.table
            .shared
            .store::<Releasing>(seat, WRITE_TOKEN, tail + 1);
    }

    /// The number of units of the log.
    pub(crate) fn load_count<P: Pause>(
        &self,
        seat: &mut RingSeat,
        tail: u64,
        unit: &Unit,
        pause: &mut P,
        step: &mut u64,
    ) -> u64
        requires ours { seat.old.table_id ≡ self.now.table }
        requires begun { seat.old.me.0.progress ≡ Storing
            (begun unit_words self.now.seg tail unit.now) }
        ensures same { seat.new.table_id ≡ seat.old.table_id }
        ensures known { seat.new.me ≡ (
          with_progress (Storing (known self.now.seg tail result unit.now)) seat.old.me.0,
          seat.old.me.1,
        ) }
        ensures low { result ≤ last_tail }
    {
        stop(pause, step);
        self.table.shared.load::<LoadingCount>(seat, UNIT_COUNT)
    }

    /// Stores the counter where the unit ends in another segment than the tail's.
    fn announce<P: Pause>(
        &self,
        seat: &mut RingSeat,
        put: &PlacedUnit<'_>,
        pause: &mut P,
        step: &mut u64,
    )
        requires placed { IsPutAt self.now seat.old.table_id put.now.tail put.now.unit.now
            put.now.placed }
        requires known { seat.old.me.0.progress ≡ Storing
            (known self.now.seg put.now.tail put.now.count put.now.unit.now) }
        ensures same { seat.new.table_id ≡ seat.old.table_id }
        ensures announced { seat.new.me ≡ (
          with_progress (Storing (announced self.now.seg put.now.tail put.now.count
              put.now.unit.now)) seat.old.me.0,
          seat.old.me.1,
        ) }
    {
        let counter = segment_of(self.shape, put.placed.tail);
        if counter > segment_of(self.shape, put.tail) {
            stop(pause, step);
            self.table
                .shared
                .store::<Announcing>(seat, SEGMENT_COUNTER, counter);
        }
    }

    /// Stores the starts of the segments that the unit enters, and the numbers of their first units.
    fn store_starts<P: Pause>(
        &self,
        seat: &mut RingSeat,
        put: &PlacedUnit<'_>,
        pause: &mut P,
        step: &mut u64,
    )
        requires placed { IsPutAt self.now seat.old.table_id put.now.tail put.now.unit.now
            put.now.placed }
        requires announced { seat.old.me.0.progress ≡ Storing
            (announced self.now.seg put.now.tail put.now.count put.now.unit.now) }
        requires low { put.now.count ≤ last_tail }
        ensures same { seat.new.table_id ≡ seat.old.table_id }
        ensures started { seat.new.me ≡ (
          with_progress (Storing (started self.now.seg put.now.tail put.now.count
              put.now.unit.now)) seat.old.me.0,
          seat.old.me.1,
        ) }
    {
        let from = segment_of(self.shape, put.tail) + 1;
        let upto = segment_of(self.shape, put.placed.tail) + 1;
        for segment in from..upto {
            let starts_here = segment_of(self.shape, put.placed.start) == segment;
            let place = if starts_here {
                put.placed.start
            } else {
                put.placed.tail
            };
            stop(pause, step);
            self.store_start(seat, put, segment, place);
            let number = if starts_here {
                put.count
            } else {
                put.count + 1
            };
            stop(pause, step);
            self.store_number(seat, put, segment, number);
        }
    }

    /// Stores the start of a segment that the unit enters.
    fn store_start(&self, seat: &mut RingSeat, put: &PlacedUnit<'_>, segment: u64, place: u64)
        requires placed { IsPutAt self.now seat.old.table_id put.now.tail put.now.unit.now
            put.now.placed }
        requires started { seat.old.me.0.progress ≡ Storing
            (starting self.now.seg put.now.tail put.now.count put.now.unit.now segment) }
        requires above { put.now.tail / self.now.seg < segment }
        requires upto { segment ≤ put.now.placed.tail / self.now.seg }
        requires place { place ≡ first_of segment self.now.seg put.now.placed.start
            put.now.placed.tail }
        ensures same { seat.new.table_id ≡ seat.old.table_id }
        ensures stored { seat.new.me ≡ (
          with_progress (Storing (record
              (starting self.now.seg put.now.tail put.now.count put.now.unit.now segment) {
                start =
                    segment + 1;
              })) seat.old.me.0,
          seat.old.me.1,
        ) }
    {
        self.table.shared.store::<Starting>(
            seat,
            SEGMENT_STARTS + (segment % SEGMENTS as u64) as usize,
            place,
        );
    }

    /// Stores the number of the first unit of a segment that the unit enters.
    fn store_number(&self, seat: &mut RingSeat, put: &PlacedUnit<'_>, segment: u64, number: u64)
        requires placed { IsPutAt self.now seat.old.table_id put.now.tail put.now.unit.now
            put.now.placed }
        requires started { seat.old.me.0.progress ≡ Storing
            (record (starting self.now.seg put.now.tail put.now.count put.now.unit.now segment)
            { start = segment + 1 }) }
        requires above { put.now.tail / self.now.seg < segment }
        requires upto { segment ≤ put.now.placed.tail / self.now.seg }
        requires number { number ≡
            entered_number self.now.seg put.now.count put.now.placed.start segment }
        ensures same { seat.new.table_id ≡ seat.old.table_id }
        ensures stored { seat.new.me ≡ (
          with_progress (Storing (starting self.now.seg put.now.tail put.now.count
              put.now.unit.now (segment + 1))) seat.old.me.0,
          seat.old.me.1,
        ) }
    {
        self.table.shared.store::<Numbering>(
            seat,
            SEGMENT_NUMBERS + (segment % SEGMENTS as u64) as usize,
            number,
        );
    }

    /// Stores the words of the unit, but for the one at the tail.
    fn store_words<P: Pause>(
        &self,
        seat: &mut RingSeat,
        put: &PlacedUnit<'_>,
        pause: &mut P,
        step: &mut u64,
    )
        requires placed { IsPutAt self.now seat.old.table_id put.now.tail put.now.unit.now
            put.now.placed }
        requires started { seat.old.me.0.progress ≡ Storing
            (started self.now.seg put.now.tail put.now.count put.now.unit.now) }
        ensures same { seat.new.table_id ≡ seat.old.table_id }
        ensures written { seat.new.me ≡ (
          with_progress (Storing (written self.now.seg put.now.tail put.now.count
              put.now.unit.now)) seat.old.me.0,
          seat.old.me.1,
        ) }
    {
        let count = (put.placed.tail - put.placed.start) as usize;
        let at = self.word_of(put.placed.start);
        let mut words = put.unit.each_word();
        let first = if put.placed.wraps {
            0
        } else {
            skip_header(&mut words)
        };
        for place in first..count {
            let Some(word) = words.next() else {
                unreachable!();
            };
            stop(pause, step);
            self.store_word(seat, put, place, at + place, word);
        }
    }

    /// Stores a word of the unit that isn't the one at the tail, in this word of the table.
    fn store_word(
        &self,
        seat: &mut RingSeat,
        put: &PlacedUnit<'_>,
        place: usize,
        at: usize,
        word: u32,
    )
        requires placed { IsPutAt self.now seat.old.table_id put.now.tail put.now.unit.now
            put.now.placed }
        requires started { seat.old.me.0.progress ≡ Storing
            (record (started self.now.seg put.now.tail put.now.count put.now.unit.now) {
              word =
                  place;
            }) }
        requires inside { place < length (unit_words put.now.unit.now) }
        requires behind { first_word unit_words self.now.seg put.now.tail
            (length (unit_words put.now.unit.now)) ≤ place }
        requires at { at ≡ first_ring_word + (put.now.placed.start + place) % (8 * self.now.seg) }
        requires word { word ≡ slice_index (unit_words put.now.unit.now) place }
        ensures same { seat.new.table_id ≡ seat.old.table_id }
        ensures stored { seat.new.me ≡ (
          with_progress (Storing (record
              (started self.now.seg put.now.tail put.now.count put.now.unit.now) {
                word =
                    place + 1;
              })) seat.old.me.0,
          seat.old.me.1,
        ) }
    {
        self.table
            .shared
            .store::<Wording>(seat, at, u64::from(word));
    }

    /// Stores the end mark.
    fn store_mark<P: Pause>(
        &self,
        seat: &mut RingSeat,
        put: &PlacedUnit<'_>,
        pause: &mut P,
        step: &mut u64,
    )
        requires placed { IsPutAt self.now seat.old.table_id put.now.tail put.now.unit.now
            put.now.placed }
        requires written { seat.old.me.0.progress ≡ Storing
            (written self.now.seg put.now.tail put.now.count put.now.unit.now) }
        ensures same { seat.new.table_id ≡ seat.old.table_id }
        ensures marked { seat.new.me ≡ (
          with_progress (Storing (marked self.now.seg put.now.tail put.now.count
              put.now.unit.now)) seat.old.me.0,
          seat.old.me.1,
        ) }
    {
        stop(pause, step);
        self.table
            .shared
            .store::<Marking>(seat, self.word_of(put.placed.tail), u64::from(END_MARK));
    }

    /// Counts the unit.
    fn count_unit<P: Pause>(
        &self,
        seat: &mut RingSeat,
        put: &PlacedUnit<'_>,
        pause: &mut P,
        step: &mut u64,
    )
        requires placed { IsPutAt self.now seat.old.table_id put.now.tail put.now.unit.now
            put.now.placed }
        requires marked { seat.old.me.0.progress ≡ Storing
            (marked self.now.seg put.now.tail put.now.count put.now.unit.now) }
        requires low { put.now.count ≤ last_tail }
        ensures same { seat.new.table_id ≡ seat.old.table_id }
        ensures counted { seat.new.me ≡ (
          with_progress (Storing (counted self.now.seg put.now.tail put.now.count
              put.now.unit.now)) seat.old.me.0,
          seat.old.me.1,
        ) }
    {
        stop(pause, step);
        self.table
            .shared
            .store::<CountingUnit>(seat, UNIT_COUNT, put.count + 1);
    }

    /// Stores the word at the tail: the unit enters the log.
    fn publish<P: Pause>(
        &self,
        seat: &mut RingSeat,
        put: &PlacedUnit<'_>,
        pause: &mut P,
        step: &mut u64,
    )
        requires placed { IsPutAt self.now seat.old.table_id put.now.tail put.now.unit.now
            put.now.placed }
        requires counted { seat.old.me.0.progress ≡ Storing
            (counted self.now.seg put.now.tail put.now.count put.now.unit.now) }
        requires one { seat.old.me.0.writers ≡ first_writer_of seat.old.me.0 ∷ [] }
        requires stays { seat.old.me.0.finished ≡ 0 }
        ensures same { seat.new.table_id ≡ seat.old.table_id }
        ensures put { seat.new.me ≡ (after_publish seat.old.me.0, seat.old.me.1) }
    {
        let word = self.last_word(put);
        is_unit(put.unit);
        stop(pause, step);
        self.table
            .shared
            .store::<Publishing>(seat, self.word_of(put.tail), u64::from(word));
    }

    /// The word that is stored last, at the tail.
    fn last_word(&self, put: &PlacedUnit<'_>) -> u32
        requires placed { IsPlaced self.now.seg put.now.tail
            (length (unit_words put.now.unit.now)) put.now.placed }
        ensures { result ≡ last_word unit_words self.now.seg put.now.tail put.now.unit.now }
    {
        if put.placed.wraps {
            WRAP_MARK
        } else {
            put.unit.word_at(0)
        }
    }

    /// Releases the write token once the unit is in the log.
    fn release<P: Pause>(
        &self,
        seat: &mut RingSeat,
        put: &PlacedUnit<'_>,
        pause: &mut P,
        step: &mut u64,
    )
        requires placed { IsPutAt self.now seat.old.table_id put.now.tail put.now.unit.now
            put.now.placed }
        requires stored { seat.old.me.0.progress ≡ Stored
            (counted self.now.seg put.now.tail put.now.count put.now.unit.now) }
        ensures same { seat.new.table_id ≡ seat.old.table_id }
        ensures released { seat.new.me ≡ (with_progress Free seat.old.me.0, seat.old.me.1) }
    {
        stop(pause, step);
        self.table
            .shared
            .store::<Releasing>(seat, WRITE_TOKEN, put.placed.tail + 1);
    }

    /// Stores a unit where it has a place, and releases the write token.
    pub(crate) fn store<P: Pause>(
        &self,
        seat: &mut RingSeat,
        put: &PlacedUnit<'_>,
        pause: &mut P,
        step: &mut u64,
    )
        requires placed { IsPutAt self.now seat.old.table_id put.now.tail put.now.unit.now
            put.now.placed }
        requires known { seat.old.me.0.progress ≡ Storing
            (known self.now.seg put.now.tail put.now.count put.now.unit.now) }
        requires low { put.now.count ≤ last_tail }
        requires one { seat.old.me.0.writers ≡ first_writer_of seat.old.me.0 ∷ [] }
        requires stays { seat.old.me.0.finished ≡ 0 }
        ensures same { seat.new.table_id ≡ seat.old.table_id }
        ensures put { seat.new.me ≡ (
          with_put put.now.tail put.now.unit.now seat.old.me.0,
          seat.old.me.1,
        ) }
    {
        self.announce(seat, put, pause, step);
        self.store_starts(seat, put, pause, step);
        self.store_words(seat, put, pause, step);
        self.store_mark(seat, put, pause, step);
        self.count_unit(seat, put, pause, step);
        self.publish(seat, put, pause, step);
        self.release(seat, put, pause, step);
    }

    /// Counts a writer that left.
    pub(crate) fn count_finished(&self, seat: &mut RingSeat)
        requires ours { seat.old.table_id ≡ self.now.table }
        requires free { seat.old.me.0.progress ≡ Free }
        requires stays { seat.old.me.0.finished < length seat.old.me.0.writers }
        ensures same { seat.new.table_id ≡ seat.old.table_id }
        ensures finished { seat.new.me ≡ (after_leave seat.old.me.0, seat.old.me.1) }
    {
        self.table
            .shared
            .fetch_add::<Leaving>(seat, FINISHED_WRITERS, 1);
    }
}
