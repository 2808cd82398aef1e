//! The loads of a reader.

ghost use Rattle.std.specs.Prelude.{◌≡◌, ◌≢◌, ℕ, ◌+◌, ◌-◌, ◌*◌, ◌%◌, ◌^◌, ◌<◌, ◌≤◌, List, [], ◌∷◌, length, slice_index, Some, None};
ghost use Rattle.vsl_record.specs.Words.{header_mark, unit_words};
ghost use Rattle.ring_layout.specs.Places.{fewest_words, seek_distance, end_mark, wrap_mark};
ghost use Rattle.log_ring.specs.declared.rule.Unchecked.TheVariants.{Words, Start, Numbered};
ghost use Rattle.log_ring.specs.inside.Rule.{first_ring_word};
ghost use Rattle.log_ring.specs.inside.Steps.{IsReaderOf, IsReadingOf};
ghost use Rattle.log_ring.specs.inside.Reading.{reader_of, unchecked_words, unchecked_start, unchecked_number, Becomes, LoadsFinished, LoadsHead, LoadsMore, Checks, FindsEnd, FindsLap, FindsUnit, FindsNothing, ChecksAgain, Looks, LoadsStart, LoadsNumber, Seeks};

use crate::reading_rule::{
    CheckingAgain, CheckingEnd, CheckingLap, CheckingNothing, CheckingUnit, LoadingFinished,
    LoadingHead, LoadingMore, LoadingNumber, LoadingStart, Looking, Seeking,
};
use crate::ring::{Ring, RingSeat};
use crate::storing::{FINISHED_WRITERS, SEGMENT_COUNTER, SEGMENT_NUMBERS, SEGMENT_STARTS};
use ring_layout::SEGMENTS;

impl Ring {
    /// The number of writers that left.
    pub(crate) fn load_finished(&self, seat: &mut RingSeat) -> u64
        requires reader { IsReaderOf self.now seat.old.table_id seat.old.me }
        ensures same { seat.new.table_id ≡ seat.old.table_id }
        ensures loaded { Becomes LoadsFinished seat.old.me result seat.new.me }
    {
        self.table
            .shared
            .load::<LoadingFinished>(seat, FINISHED_WRITERS)
    }

    /// The first word at a cursor's place.
    pub(crate) fn load_head(&self, seat: &mut RingSeat, place: u64) -> u64
        requires reader { IsReadingOf self.now seat.old.table_id seat.old.me }
        requires place { place ≡ (reader_of seat.old.me.0).place }
        ensures same { seat.new.table_id ≡ seat.old.table_id }
        ensures loaded { Becomes LoadsHead seat.old.me result seat.new.me }
    {
        self.table
            .shared
            .load::<LoadingHead>(seat, self.word_of(place))
    }

    /// A further word of the unit at a cursor's place, which lies in this word of the table.
    pub(crate) fn load_more(&self, seat: &mut RingSeat, at: usize) -> u64
        requires reader { IsReadingOf self.now seat.old.table_id seat.old.me }
        requires copied { (reader_of seat.old.me.0).unchecked ≡ Words
            (unchecked_words (reader_of seat.old.me.0).unchecked) }
        requires behind { 0 < length (unchecked_words (reader_of seat.old.me.0).unchecked) }
        requires unit { slice_index
            (unchecked_words (reader_of seat.old.me.0).unchecked) 0 ≢ end_mark }
        requires starts { slice_index
            (unchecked_words (reader_of seat.old.me.0).unchecked) 0 ≢ wrap_mark }
        requires inside { header_mark + length
            (unchecked_words (reader_of seat.old.me.0).unchecked) < slice_index
            (unchecked_words (reader_of seat.old.me.0).unchecked) 0 }
        requires at { at ≡ first_ring_word +
            ((reader_of seat.old.me.0).place + length
            (unchecked_words (reader_of seat.old.me.0).unchecked)) % (8 * self.now.seg) }
        ensures same { seat.new.table_id ≡ seat.old.table_id }
        ensures loaded { Becomes LoadsMore seat.old.me result seat.new.me }
    {
        self.table.shared.load::<LoadingMore>(seat, at)
    }

    /// The counter, where the end mark was found.
    pub(crate) fn check_end(&self, seat: &mut RingSeat) -> u64
        requires reader { IsReadingOf self.now seat.old.table_id seat.old.me }
        requires copied { (reader_of seat.old.me.0).unchecked ≡ Words (end_mark ∷ []) }
        ensures same { seat.new.table_id ≡ seat.old.table_id }
        ensures checked { Becomes (Checks FindsEnd) seat.old.me result seat.new.me }
    {
        self.table.shared.load::<CheckingEnd>(seat, SEGMENT_COUNTER)
    }

    /// The counter, where the wrap mark was found.
    pub(crate) fn check_lap(&self, seat: &mut RingSeat) -> u64
        requires reader { IsReadingOf self.now seat.old.table_id seat.old.me }
        requires copied { (reader_of seat.old.me.0).unchecked ≡ Words (wrap_mark ∷ []) }
        ensures same { seat.new.table_id ≡ seat.old.table_id }
        ensures checked { Becomes (Checks FindsLap) seat.old.me result seat.new.me }
    {
        self.table.shared.load::<CheckingLap>(seat, SEGMENT_COUNTER)
    }

    /// The counter, where a unit was copied.
    pub(crate) fn check_unit(&self, seat: &mut RingSeat) -> u64
        requires reader { IsReadingOf self.now seat.old.table_id seat.old.me }
        requires copied { (reader_of seat.old.me.0).unchecked ≡ Words
            (unchecked_words (reader_of seat.old.me.0).unchecked) }
        requires unit { slice_index
            (unchecked_words (reader_of seat.old.me.0).unchecked) 0 ≢ end_mark }
        requires starts { slice_index
            (unchecked_words (reader_of seat.old.me.0).unchecked) 0 ≢ wrap_mark }
        requires whole { slice_index (unchecked_words (reader_of seat.old.me.0).unchecked) 0 ≡
            header_mark + length (unchecked_words (reader_of seat.old.me.0).unchecked) }
        ensures same { seat.new.table_id ≡ seat.old.table_id }
        ensures checked { Becomes (Checks (FindsUnit unit_words)) seat.old.me result seat.new.me }
    {
        self.table
            .shared
            .load::<CheckingUnit>(seat, SEGMENT_COUNTER)
    }

    /// The counter, where a word was found that is none of a log's.
    pub(crate) fn check_nothing(&self, seat: &mut RingSeat, head: u64) -> u64
        requires reader { IsReadingOf self.now seat.old.table_id seat.old.me }
        requires copied { (reader_of seat.old.me.0).unchecked ≡ Words (head ∷ []) }
        requires no_end { head ≢ end_mark }
        requires no_lap { head ≡ wrap_mark →
            (reader_of seat.old.me.0).place % (8 * self.now.seg) + self.now.seg < 8 * self.now.seg }
        requires no_unit { header_mark + fewest_words ≤ head → head ≤ header_mark + self.now.seg →
            (reader_of seat.old.me.0).place % (8 * self.now.seg) +
            (head - header_mark) < 8 * self.now.seg → ⊥ }
        ensures same { seat.new.table_id ≡ seat.old.table_id }
        ensures checked { Becomes (Checks FindsNothing) seat.old.me result seat.new.me }
    {
        self.table
            .shared
            .load::<CheckingNothing>(seat, SEGMENT_COUNTER)
    }

    /// The counter of a cursor that was overrun.
    pub(crate) fn check_again(&self, seat: &mut RingSeat, at: u64) -> u64
        requires reader { IsReaderOf self.now seat.old.table_id seat.old.me }
        requires lost { (reader_of seat.old.me.0).lost ≡ Some at }
        ensures same { seat.new.table_id ≡ seat.old.table_id }
        ensures checked { Becomes ChecksAgain seat.old.me result seat.new.me }
    {
        self.table
            .shared
            .load::<CheckingAgain>(seat, SEGMENT_COUNTER)
    }

    /// The counter, before a cursor seeks.
    pub(crate) fn look(&self, seat: &mut RingSeat) -> u64
        requires reader { IsReaderOf self.now seat.old.table_id seat.old.me }
        ensures same { seat.new.table_id ≡ seat.old.table_id }
        ensures loaded { Becomes Looks seat.old.me result seat.new.me }
    {
        self.table.shared.load::<Looking>(seat, SEGMENT_COUNTER)
    }

    /// The start of a segment that is sought.
    pub(crate) fn load_start(&self, seat: &mut RingSeat, segment: u64) -> u64
        requires reader { IsReaderOf self.now seat.old.table_id seat.old.me }
        requires segment { segment ≡ (reader_of seat.old.me.0).loaded - seek_distance }
        ensures same { seat.new.table_id ≡ seat.old.table_id }
        ensures loaded { Becomes LoadsStart seat.old.me result seat.new.me }
    {
        self.table.shared.load::<LoadingStart>(
            seat,
            SEGMENT_STARTS + (segment % SEGMENTS as u64) as usize,
        )
    }

    /// The number of the first unit of a segment that is sought.
    pub(crate) fn load_number(&self, seat: &mut RingSeat, segment: u64) -> u64
        requires reader { IsReaderOf self.now seat.old.table_id seat.old.me }
        requires segment { segment ≡ (reader_of seat.old.me.0).loaded - seek_distance }
        requires unchecked { (reader_of seat.old.me.0).unchecked ≡ Start
            ((reader_of seat.old.me.0).loaded - seek_distance)
            (unchecked_start (reader_of seat.old.me.0).unchecked) }
        ensures same { seat.new.table_id ≡ seat.old.table_id }
        ensures loaded { Becomes LoadsNumber seat.old.me result seat.new.me }
    {
        self.table.shared.load::<LoadingNumber>(
            seat,
            SEGMENT_NUMBERS + (segment % SEGMENTS as u64) as usize,
        )
    }

    /// The counter of a cursor that seeks.
    pub(crate) fn check_start(&self, seat: &mut RingSeat, at: u64) -> u64
        requires reader { IsReaderOf self.now seat.old.table_id seat.old.me }
        requires lost { (reader_of seat.old.me.0).lost ≡ Some at }
        requires unchecked { (reader_of seat.old.me.0).unchecked ≡ Numbered
            ((reader_of seat.old.me.0).loaded - seek_distance)
            (unchecked_start (reader_of seat.old.me.0).unchecked)
            (unchecked_number (reader_of seat.old.me.0).unchecked) }
        ensures same { seat.new.table_id ≡ seat.old.table_id }
        ensures checked { Becomes Seeks seat.old.me result seat.new.me }
    {
        self.table.shared.load::<Seeking>(seat, SEGMENT_COUNTER)
    }
}
