//! The ring.

ghost use Rattle.std.specs.Prelude.{◌≡◌, ◌+◌, ◌*◌, ◌/◌, ◌%◌, ◌≤◌, ◌<◌, ◌++◌, [], ◌∷◌, ℕ, true, false, not, length, slice_index, take, drop, None, IfOk, OnOk, OnErr};
ghost use Rattle.std.specs.Result.{result_err};
ghost use Rattle.vsl_record.specs.Unit.{Log};
ghost use Rattle.vsl_record.specs.Words.{unit_words, words_in};
ghost use Rattle.ring_layout.specs.Places.{last_tail, stays, start_at, end_at, end_mark};
ghost use Rattle.ring_layout.specs.Copied.{IsDueAt};
ghost use Rattle.ring_plain.specs.Ring.{IsRingOf, put_fault};
ghost use Rattle.ring_layout.specs.Places.{overrun_distance};
ghost use Rattle.ring_plain.specs.inside.Due.{unit_place, IsDue};
ghost use Rattle.ring_plain.specs.inside.Stores.{with_kept, words_with, ring_with};

use log_model::NoMemory;
use ring_layout::{
    END_MARK, Placed, PutFault, SEGMENTS, Shape, WORD, WRAP_MARK, copy_words, place_after,
    read_word, segment_of, write_unit, write_word,
};
use std::alloc::Global;
use std::marker::Model;
use vsl_record::{TOP_BYTE, Unit, is_unit};

/// Words of a ring that follow one another.
#[derive(Clone, Copy)]
pub(crate) struct Stretch {
    /// Where the first lies.
    pub(crate) place: u64,
    /// How many they are.
    pub(crate) words: usize,
}

/// A ring on one thread. Contracts see its state: the words, and what is kept beside them.
///
/// The words are kept as bytes, the lowest byte of each first, so that a unit is written and copied at once.
#[derive(Drop)]
pub struct PlainRing {
    shape: Shape,
    bytes: Vec<u8>,
    starts: [u64; SEGMENTS],
    /// How many units start before each segment's start.
    numbers: [u64; SEGMENTS],
    /// How many units were put.
    units: u64,
    tail: u64,
    counter: u64,
    wraps: u64,
    ended: bool,
}

impl Model for PlainRing {
    ghost use Rattle.std.specs.Prelude.{◌≡◌, ◌*◌, ◌≤◌, length};
    ghost use Rattle.vsl_record.specs.Words.{words_in};
    ghost use Rattle.ring_layout.specs.Places.{IsSegment};
    ghost use Rattle.ring_plain.specs.Ring.{RingState};

    ghost Value = { RingState };

    ghost view = { λ r. record {
      seg = r.shape;
      starts = r.starts;
      numbers = r.numbers;
      units = r.units;
      words = words_in r.bytes.items;
      tail = r.tail;
      counter = r.counter;
      wraps = r.wraps;
      ended = r.ended;
    } };

    ghost invariant = { λ r. IsSegment r.shape × (length r.bytes.items ≡ 32 * r.shape) ×
        (length r.starts ≡ 8) × (length r.numbers ≡ 8) × (r.units ≤ r.tail) × (r.wraps ≤ r.tail) };
}

/// The number of the word in which a place lies.
fn word_of(shape: Shape, place: u64) -> usize
    ensures { result ≡ place % (8 * shape) }
{
    (place % (SEGMENTS as u64 * u64::from(shape.seg()))) as usize
}

/// The words of a ring with no unit: the end mark, and zeros.
fn empty_words(alloc: Global, shape: Shape) -> Result<Vec<u8>, NoMemory>
    ensures size { IfOk result (λ bytes. length bytes.items ≡ 32 * shape) }
    ensures mark { IfOk result (λ bytes. slice_index (words_in bytes.items) 0 ≡ end_mark) }
{
    let mut bytes = vec![in alloc; 0; WORD * SEGMENTS * shape.seg() as usize]?;
    write_word(&mut bytes, 0, END_MARK);
    Ok(bytes)
}

/// Keeps a number for the segment of a place, where that is behind the counter.
fn keep(kept: &mut [u64], shape: Shape, counter: u64, place: u64, number: u64)
    requires { length kept.old ≡ 8 }
    ensures { kept.new ≡ with_kept shape counter place number kept.old }
{
    let segment = segment_of(shape, place);
    if segment > counter {
        kept[(segment % SEGMENTS as u64) as usize] = number;
    }
}

/// Stores the words of a unit, the end mark behind them, and the wrap mark at the tail where it wraps.
fn store_words(bytes: &mut [u8], shape: Shape, tail: u64, placed: Placed, unit: &Unit)
    requires wide { length bytes.old ≡ 32 * shape }
    requires fits { length (unit_words unit.now) ≤ shape }
    requires start { placed.start ≡ start_at shape tail (length (unit_words unit.now)) }
    requires tail { placed.tail ≡ end_at shape tail (length (unit_words unit.now)) }
    requires wraps { placed.wraps ≡ not (stays shape tail (length (unit_words unit.now))) }
    ensures { words_in bytes.new ≡ words_with shape tail (unit_words unit.now)
        (words_in bytes.old) }
{
    if placed.wraps {
        write_word(bytes, word_of(shape, tail), WRAP_MARK);
    }
    let first = word_of(shape, placed.start);
    let count = (placed.tail - placed.start) as usize;
    write_unit(bytes, first, count, unit);
    write_word(bytes, first + count, END_MARK);
}

impl PlainRing {
    /// A ring with no unit.
    pub fn new(alloc: Global, shape: Shape) -> Result<PlainRing, NoMemory>
        ensures shape { IfOk result (λ ring. ring.seg ≡ shape) }
        ensures empty { IfOk result (λ ring. IsRingOf ring []) }
        ensures open { IfOk result (λ ring. ring.ended ≡ false) }
    {
        Ok(PlainRing {
            shape,
            bytes: empty_words(alloc, shape)?,
            starts: [0; SEGMENTS],
            numbers: [0; SEGMENTS],
            units: 0,
            tail: 0,
            counter: 0,
            wraps: 0,
            ended: false,
        })
    }

    /// Puts a unit at the tail. It takes no memory. After a refusal the ring is as it was.
    pub fn put(&mut self, unit: &Unit) -> Result<(), PutFault>
        requires { self.old.ended ≡ false }
        ensures put { OnOk result ((log : Log) → IsRingOf self.old log →
            IsRingOf self.new (log ++ unit.now ∷ [])) }
        ensures refused { result_err result ≡ put_fault self.old unit.now }
        ensures unchanged { OnErr result (self.new ≡ self.old) }
        ensures shape { self.new.seg ≡ self.old.seg }
        ensures open { self.new.ended ≡ false }
    {
        let words = unit.words();
        if words > self.shape.seg() as usize {
            return Err(PutFault::TooLong {
                words: words as u64,
            });
        }
        is_unit(unit);
        let Some(placed) = place_after(self.shape, self.tail, words as u32) else {
            return Err(PutFault::Exhausted { tail: self.tail });
        };
        self.store(placed, unit);
        Ok(())
    }

    /// Stores a unit where it is put.
    fn store(&mut self, placed: Placed, unit: &Unit)
        requires fits { length (unit_words unit.now) ≤ self.old.seg }
        requires start { placed.start ≡ start_at self.old.seg self.old.tail
            (length (unit_words unit.now)) }
        requires tail { placed.tail ≡ end_at self.old.seg self.old.tail
            (length (unit_words unit.now)) }
        requires wraps { placed.wraps ≡ not
            (stays self.old.seg self.old.tail (length (unit_words unit.now))) }
        ensures { self.new ≡ ring_with self.old unit.now }
    {
        let Placed { start, tail, .. } = placed;
        keep(&mut self.starts, self.shape, self.counter, tail, tail);
        keep(&mut self.starts, self.shape, self.counter, start, start);
        let after = self.units + 1;
        keep(&mut self.numbers, self.shape, self.counter, tail, after);
        keep(
            &mut self.numbers,
            self.shape,
            self.counter,
            start,
            self.units,
        );
        self.units = after;
        store_words(&mut self.bytes, self.shape, self.tail, placed, unit);
        if placed.wraps {
            self.wraps += 1;
        }
        self.tail = placed.tail;
        self.counter = segment_of(self.shape, placed.tail);
    }

    /// Says that no unit will be put any more.
    pub fn end(&mut self)
        ensures ended { self.new ≡ record self.old { ended = true } }
        ensures log { (log : Log) → IsRingOf self.old log → IsRingOf self.new log }
    {
        self.ended = true;
    }

    /// How many units wrapped: those that started a lap early because the lap had no room for them.
    pub fn wraps(&self) -> u64
        ensures { result ≡ self.now.wraps }
    {
        self.wraps
    }

    /// How many words a segment has.
    pub(crate) fn shape(&self) -> Shape
        ensures { result ≡ self.now.seg }
    {
        self.shape
    }

    /// The tail's segment.
    pub(crate) fn counter(&self) -> u64
        ensures { result ≡ self.now.counter }
    {
        self.counter
    }

    /// Whether no unit will be put any more.
    pub(crate) fn has_ended(&self) -> bool
        ensures { result ≡ self.now.ended }
    {
        self.ended
    }

    /// The place that is kept as the start of a segment.
    pub(crate) fn start_of(&self, segment: u64) -> u64
        ensures { result ≡ slice_index self.now.starts (segment % 8) }
    {
        self.starts[(segment % SEGMENTS as u64) as usize]
    }

    /// How many units start before the start of a segment, as it is kept.
    pub(crate) fn number_of(&self, segment: u64) -> u64
        ensures { result ≡ slice_index self.now.numbers (segment % 8) }
    {
        self.numbers[(segment % SEGMENTS as u64) as usize]
    }

    /// The word at a place.
    fn word_at(&self, place: u64) -> u32
        ensures { result ≡ slice_index self.now.words (place % (8 * self.now.seg)) }
    {
        read_word(&self.bytes, word_of(self.shape, place))
    }

    /// Where the unit starts that is due at a place.
    fn unit_place(&self, place: u64) -> u64
        requires { place ≤ last_tail }
        ensures { result ≡ unit_place self.now place }
    {
        if self.word_at(place) == WRAP_MARK {
            let lap = SEGMENTS as u64 * u64::from(self.shape.seg());
            return (place / lap + 1) * lap;
        }
        place
    }

    /// The words of the unit that is due at a place, if there is one.
    pub(crate) fn due_unit(&self, place: u64) -> Option<Stretch>
        requires near { self.now.counter < place / self.now.seg + overrun_distance }
        requires due { (log : Log) × (k : ℕ) × IsRingOf self.now log ×
            IsDueAt unit_words self.now.seg log k place }
        ensures { (log : Log) (k : ℕ) → IsRingOf self.now log →
            IsDueAt unit_words self.now.seg log k place → IsDue self.now log k result }
    {
        let start = self.unit_place(place);
        let head = self.word_at(start);
        if head == END_MARK {
            return None;
        }
        Some(Stretch {
            place: start,
            words: (head % TOP_BYTE) as usize,
        })
    }

    /// Copies so many words from a place on into the first bytes.
    pub(crate) fn copy(&self, place: u64, count: usize, to: &mut [u8])
        requires lap { place % (8 * self.now.seg) + count ≤ 8 * self.now.seg }
        requires room { 4 * count ≤ length to.old }
        ensures { words_in (take (4 * count) to.new) ≡ take count
            (drop (place % (8 * self.now.seg)) self.now.words) }
    {
        copy_words(to, &self.bytes, word_of(self.shape, place), count);
    }
}
