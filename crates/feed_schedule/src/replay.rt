//! Writers and a reader that have their turns over a ring.

ghost use Rattle.std.specs.Prelude.{◌≡◌, ◌+◌, ◌*◌, ◌≤◌, ◌<◌, ◌++◌, ◌==◌, List, [], ◌∷◌, true, false, map, take, length, slice_get, Option, Some, None, IsSome, IsNone, IfSome, is_none, IfOk};
ghost use Rattle.std.specs.List.{All};
ghost use Rattle.std.specs.Option.{option_map};
ghost use Rattle.vsl_record.specs.Unit.{LogUnit, Log};
ghost use Rattle.vsl_record.specs.Words.{unit_words};
ghost use Rattle.vsl_record.specs.Views.{Spells};
ghost use Rattle.ring_layout.specs.Places.{AreFit, last_tail};
ghost use Rattle.ring_layout.specs.declared.history.HistoryItem.{HistoryItem};
ghost use Rattle.ring_plain.specs.Ring.{IsRingOf, put_fault};
ghost use Rattle.traffic_feed.specs.Turns.{first_draw, next_draw};
ghost use Rattle.feed_schedule.specs.Schedule.{Stage, count_writers, put_by, without_next, is_reading, has_ended, count_active, chosen_by, after_writer, after_reader, after_turn, IsScheduled};
ghost use Rattle.ring_layout.specs.declared.item.Item.{Item};
ghost use Rattle.ring_layout.specs.Items.{items_of};
ghost use Rattle.feed_schedule.specs.Replaying.{IsAt, Meets, Represents, count_feed_words};
ghost use Rattle.feed_schedule.specs.inside.Turning.{with_draw, turns_to_come, Leads};

use log_model::NoMemory;
use ring_layout::{Shape, Step};
use ring_plain::{PlainCursor, PlainRing};
use std::alloc::Global;
use std::marker::Model;
use traffic_feed::{Listing, Turns};
use vsl_record::{Unit, UnitView};

/// What the reader met.
#[derive(Clone, Copy, Debug, PartialEq, Eq)]
pub enum Advanced {
    /// A unit, which it took.
    Took,
    /// It was overrun, and goes on four segments behind the writers.
    Overrun {
        /// The segment where it stood.
        at: u64,
        /// The segment to which the writers had come.
        seen: u64,
        /// How many units it missed.
        missed: u64,
    },
    /// The end of the log, when all writers had left.
    Ended,
}

/// What the reader is about.
#[derive(Clone, Copy, Debug, PartialEq, Eq)]
enum Reading {
    /// It may have a turn.
    Reads,
    /// It met the end of the log, and may have a turn again when a writer had one.
    Waits,
    /// It met the end of the log when all writers had left.
    Ended,
}

/// A writer, with the units of its feed.
#[derive(Drop)]
pub(crate) struct Writer {
    listing: Listing,
    /// How many of the units were put.
    put: usize,
    left: bool,
}

impl Model for Writer {
    ghost use Rattle.std.specs.Prelude.{◌≤◌, if◌then◌else◌, drop, length, Option, Some, None};
    ghost use Rattle.vsl_record.specs.Unit.{Log};

    ghost Value = { Option Log };

    ghost view = { λ w. if w.left then None else Some (drop w.put w.listing.units) };

    ghost invariant = { λ w. w.put ≤ length w.listing.units };
}

/// Writers that put feeds into a ring, and a reader that takes from it, on one thread. Contracts see where they stand.
#[derive(Drop)]
pub struct Replay {
    ring: PlainRing,
    cursor: PlainCursor,
    writers: Vec<Writer>,
    /// How many writers have not left.
    active: u32,
    turns: Option<Turns>,
    reading: Reading,
}

impl Model for Replay {
    ghost use Rattle.feed_schedule.specs.Replaying.{ReplayState};

    ghost Value = { ReplayState };

    ghost use Rattle.feed_schedule.specs.inside.Turning.{stated, IsSteady};

    ghost view = { λ r. record {
      ring = r.ring;
      cursor = r.cursor;
      writers = r.writers.items;
      reading = stated r.reading;
      drawn = r.turns;
    } };

    ghost invariant = { λ r. IsSteady r.active (record {
      ring = r.ring;
      cursor = r.cursor;
      writers = r.writers.items;
      reading = stated r.reading;
      drawn = r.turns;
    }) };
}

impl Writer {
    /// A writer that has put nothing.
    pub(crate) fn new(listing: Listing) -> Writer
        ensures { result ≡ Some listing.units }
    {
        Writer {
            listing,
            put: 0,
            left: false,
        }
    }

    /// Whether it left.
    fn has_left(&self) -> bool
        ensures { result ≡ is_none self.now }
    {
        self.left
    }

    /// The unit that it puts next, if one is left.
    pub(crate) fn next_unit(&self) -> Option<&Unit>
        requires { IsSome self.now }
        ensures some { IfSome result (λ unit. put_by 0 (self.now ∷ []) ≡ unit.now ∷ []) }
        ensures none { IsNone result → put_by 0 (self.now ∷ []) ≡ [] }
    {
        self.listing.units.as_slice().get(self.put)
    }

    /// Has a turn, as one of so many that have not left: puts its next unit, or leaves where none is left, and the ring
    /// ends with the last. How many have not left then.
    pub(crate) fn write(&mut self, ring: &mut PlainRing, active: u32) -> u32
        requires stays { IsSome self.old }
        requires open { ring.old.ended ≡ false }
        requires room { (u : LogUnit) → put_by 0 (self.old ∷ []) ≡ u ∷ [] →
            put_fault ring.old u ≡ None }
        requires active { 0 < active }
        ensures writer { without_next 0 (self.old ∷ []) ≡ self.new ∷ [] }
        ensures put { (log : Log) → IsRingOf ring.old log →
            IsRingOf ring.new (log ++ put_by 0 (self.old ∷ [])) }
        ensures active { result + 1 ≡ length (put_by 0 (self.old ∷ [])) + active }
        ensures ended { ring.new.ended ≡ (result == 0) }
        ensures shape { ring.new.seg ≡ ring.old.seg }
    {
        let Some(unit) = self.listing.units.as_slice().get(self.put) else {
            self.left = true;
            if active == 1 {
                ring.end();
            }
            return active - 1;
        };
        let Ok(()) = ring.put(unit) else {
            unreachable!()
        };
        self.put += 1;
        active
    }
}

/// A writer for each listing.
pub(crate) fn writers_of(alloc: Global, listings: Vec<Listing>) -> Result<Vec<Writer>, NoMemory>
    ensures { IfOk result (λ writers. writers.items ≡ map (λ l. Some l.units) listings.items) }
{
    let writers = listings.into_iter().map(Writer::new).collect(alloc)?;
    Ok(writers)
}

/// A ring with no unit; it has ended where there are no writers.
pub(crate) fn empty_ring(alloc: Global, shape: Shape, writers: u32) -> Result<PlainRing, NoMemory>
    ensures shape { IfOk result (λ ring. ring.seg ≡ shape) }
    ensures empty { IfOk result (λ ring. IsRingOf ring []) }
    ensures ended { IfOk result (λ ring. ring.ended ≡ (writers == 0)) }
{
    let mut ring = PlainRing::new(alloc, shape)?;
    if writers == 0 {
        ring.end();
    }
    Ok(ring)
}

/// The draws of a seed, if there is one.
pub(crate) fn turns_of(seed: Option<u32>) -> Option<Turns>
    ensures { result ≡ option_map first_draw seed }
{
    seed.map(Turns::new)
}

/// Whose turn it is, of so many that may have one, counted from the first of them.
pub(crate) fn choose(turns: &mut Option<Turns>, active: u32) -> u32
    requires { 0 < active }
    ensures below { result < active }
    ensures chosen { result ≡ chosen_by turns.old active }
    ensures drawn { turns.new ≡ option_map next_draw turns.old }
{
    match turns {
        Some(turns) => turns.pick(active),
        None => 0,
    }
}

/// The place of the writer that has so many before it that have not left, and has not left itself.
pub(crate) fn place_of(writers: &[Writer], mut behind: u32) -> usize
    requires { behind < count_writers writers.now }
    ensures behind { count_writers (take result writers.now) ≡ behind }
    ensures writer { (units : Log) × (slice_get writers.now result ≡ Some (Some units)) }
{
    for (place, writer) in writers.iter().enumerate() {
        if !writer.has_left() {
            if behind == 0 {
                return place;
            }
            behind -= 1;
        }
    }
    unreachable!()
}

impl Replay {
    /// Before the first turn: nothing was put. Feed after feed, and then the reader; or in turns that a seed chooses.
    pub fn new(
        alloc: Global,
        listings: Vec<Listing>,
        seed: Option<u32>,
        shape: Shape,
    ) -> Result<Replay, NoMemory>
        requires feeds { All (AreFit unit_words shape) (map (λ l. l.units) listings.items) }
        requires few { 2 * count_feed_words (map (λ l. l.units) listings.items) ≤ last_tail }
        requires many { length listings.items < 4294967295 }
        ensures { IfOk result (λ r. (log : Log) (history : List (HistoryItem LogUnit)) →
            IsScheduled shape seed (map (λ l. l.units) listings.items) log history →
            Represents r (items_of history)) }
    {
        let writers = writers_of(alloc, listings)?;
        let active = writers.len() as u32;
        let ring = empty_ring(alloc, shape, active)?;
        let cursor = PlainCursor::new(alloc, &ring)?;
        Ok(Replay {
            ring,
            cursor,
            writers,
            active,
            turns: turns_of(seed),
            reading: Reading::Reads,
        })
    }

    /// Whose turn it is: a writer's, counted from the first that has not left, or behind them the reader's.
    fn choose(&mut self) -> u32
        requires { has_ended self.old.reading ≡ false }
        ensures stage { (s : Stage) → IsAt self.old s → IsAt self.new (with_draw s) }
        ensures choice { (s : Stage) → IsAt self.old s →
            result ≡ chosen_by s.drawn (count_active s) }
        ensures reader { count_writers self.old.writers ≤ result →
            is_reading self.old.reading ≡ true }
        ensures seg { self.new.ring.seg ≡ self.old.ring.seg }
        ensures writers { self.new.writers ≡ self.old.writers }
        ensures reading { self.new.reading ≡ self.old.reading }
    {
        let reader = match self.reading {
            Reading::Reads => 1,
            Reading::Waits | Reading::Ended => 0,
        };
        choose(&mut self.turns, self.active + reader)
    }

    /// A writer has a turn: it puts its next unit, or leaves where none is left.
    fn write(&mut self, chosen: u32)
        requires { chosen < count_writers self.old.writers }
        ensures stage { (s : Stage) → IsAt self.old s → IsAt self.new (after_writer chosen s) }
        ensures seg { self.new.ring.seg ≡ self.old.ring.seg }
        ensures fewer { turns_to_come self.new < turns_to_come self.old }
        ensures reads { is_reading self.new.reading ≡ true }
    {
        let place = place_of(&self.writers, chosen);
        self.active = self.writers[place].write(&mut self.ring, self.active);
        self.reading = Reading::Reads;
    }

    /// The reader has a turn; what it met, unless it waits.
    fn read(&mut self) -> Option<Advanced>
        requires { is_reading self.old.reading ≡ true }
        ensures leads { (s : Stage) → IsAt self.old s →
            Leads result self.new s (after_reader self.old.ring.seg s) }
        ensures seg { self.new.ring.seg ≡ self.old.ring.seg }
        ensures fewer { IsNone result → turns_to_come self.new < turns_to_come self.old }
        ensures waits { IsNone result → has_ended self.new.reading ≡ false }
    {
        match self.cursor.next(&self.ring) {
            Step::Took => Some(Advanced::Took),
            Step::NotYet { .. } => {
                self.reading = Reading::Waits;
                None
            }
            Step::Ended => {
                self.reading = Reading::Ended;
                Some(Advanced::Ended)
            }
            Step::Lost { at, seen } => {
                let due = self.cursor.next_number();
                self.cursor.seek(&self.ring);
                let goes_on = self.cursor.next_number();
                let missed = goes_on.saturating_sub(due);
                Some(Advanced::Overrun { at, seen, missed })
            }
        }
    }

    /// One turn; what the reader met, where it was its turn and it doesn't wait.
    fn turn(&mut self) -> Option<Advanced>
        requires { has_ended self.old.reading ≡ false }
        ensures leads { (s : Stage) → IsAt self.old s →
            Leads result self.new s (after_turn self.old.ring.seg s) }
        ensures seg { self.new.ring.seg ≡ self.old.ring.seg }
        ensures fewer { IsNone result → turns_to_come self.new < turns_to_come self.old }
        ensures waits { IsNone result → has_ended self.new.reading ≡ false }
    {
        let chosen = self.choose();
        if chosen < self.active {
            self.write(chosen);
            return None;
        }
        self.read()
    }

    /// Has turns until the reader meets something. It takes no memory.
    pub fn advance(&mut self) -> Advanced
        ensures { (more : List Item) → Represents self.old more → Meets result more self.new }
    {
        if self.reading == Reading::Ended {
            return Advanced::Ended;
        }
        loop {
            if let Some(met) = self.turn() {
                return met;
            }
        }
    }

    /// The unit that was taken last.
    pub fn unit(&self) -> UnitView<'_>
        requires { (u : LogUnit) × Spells self.now.cursor.words u }
        ensures { result ≡ self.now.cursor.words }
    {
        self.cursor.unit()
    }
}
