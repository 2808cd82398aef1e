//! Writers that put feeds into a ring that nobody reads, and count what they put.

ghost use Rattle.std.specs.Prelude.{◌≡◌, ◌*◌, ◌^◌, ◌<◌, ◌≤◌, ℕ, List, [], ◌∷◌, map, length, replicate, Option, IsSome, IfOk};
ghost use Rattle.std.specs.List.{All};
ghost use Rattle.vsl_record.specs.Unit.{Log};
ghost use Rattle.vsl_record.specs.Words.{unit_words};
ghost use Rattle.ring_layout.specs.Places.{AreFit, last_tail};
ghost use Rattle.ring_plain.specs.Ring.{count_wraps};
ghost use Rattle.counter_segments.specs.Sums.{counter_count, most_passes};
ghost use Rattle.traffic_feed.specs.Listing.{record_count};
ghost use Rattle.traffic_feed.specs.Counted.{counter_values};
ghost use Rattle.feed_schedule.specs.Schedule.{count_writers, without_next};
ghost use Rattle.feed_schedule.specs.Replaying.{count_feed_words};
ghost use Rattle.feed_schedule.specs.Unread.{count_turns, IsUnread};
ghost use Rattle.feed_schedule.specs.inside.Counting.{tally, IsSound, IsCounted, HasWritten, HasTallied};

use crate::replay::{Writer, choose, empty_ring, place_of, turns_of, writers_of};
use counter_segments::{CounterPass, Counters, Values, close};
use log_model::NoMemory;
use ring_layout::Shape;
use ring_plain::PlainRing;
use std::alloc::Global;
use traffic_feed::{Listing, Turns, count_cuts, count_unit};
use vsl_record::is_unit;

/// Writers that put feeds into a ring, each with a pass of its own to count what it puts.
#[derive(Drop)]
struct Counting {
    ring: PlainRing,
    counters: Counters,
    writers: Vec<Writer>,
    /// The cuts of each writer's listing.
    cuts: Vec<u64>,
    passes: Vec<CounterPass>,
    /// How many writers have not left.
    active: u32,
    turns: Option<Turns>,
}

/// Counts what a writer puts in its turn: its next unit, or its cuts where none is left and it leaves.
fn count_turn(writer: &Writer, cuts: u64, counts: &mut CounterPass, counters: &Counters)
    requires stays { IsSome writer.now }
    requires sound { IsSound counters.now (tally writer.now cuts counts.old) }
    ensures { (after : Option Log) → without_next 0 (writer.now ∷ []) ≡ after ∷ [] →
        IsCounted counters.now (tally writer.now cuts counts.old) (tally after cuts counts.new) }
{
    match writer.next_unit() {
        Some(unit) => {
            is_unit(unit);
            count_unit(counts, counters, unit);
        }
        None => count_cuts(counts, counters, cuts),
    }
}

/// The cuts of each listing.
fn cuts_of(alloc: Global, listings: &[Listing]) -> Result<Vec<u64>, NoMemory>
    ensures { IfOk result (λ cuts. cuts.items ≡ map (λ l. l.cuts) listings.now) }
{
    let cuts = listings.iter().map(|l| l.cuts).collect(alloc)?;
    Ok(cuts)
}

impl Counting {
    /// Before the first turn: nothing was put, and nothing counted.
    fn new(
        alloc: Global,
        listings: Vec<Listing>,
        seed: Option<u32>,
        shape: Shape,
    ) -> Result<Counting, NoMemory>
        requires feeds { All (AreFit unit_words shape) (map (λ l. l.units) listings.items) }
        requires few { 2 * count_feed_words (map (λ l. l.units) listings.items) ≤ last_tail }
        requires some { 0 < length listings.items }
        requires many { length listings.items ≤ most_passes }
        requires records { All (λ l. record_count l.units ≤ 4194304) listings.items }
        requires cuts { All (λ l. l.cuts ≤ record_count l.units) listings.items }
        ensures written { IfOk result (HasWritten shape seed (map (λ l. l.units) listings.items)) }
        ensures tallied { IfOk result (HasTallied listings.items) }
    {
        let cuts = cuts_of(alloc, &listings)?;
        let writers = writers_of(alloc, listings)?;
        let active = writers.len() as u32;
        let made = Counters::new(alloc, active)?;
        Ok(Counting {
            ring: empty_ring(alloc, shape, active)?,
            counters: made.counters,
            writers,
            cuts,
            passes: made.passes,
            active,
            turns: turns_of(seed),
        })
    }

    /// A writer has a turn: it puts its next unit, or leaves where none is left, and counts that.
    fn turn(&mut self)
        requires active { 0 < self.old.active }
        requires written { (seg : ℕ) × (order : Option ℕ) × (feeds : List Log) ×
            HasWritten seg order feeds self.old }
        requires tallied { (listings : List Listing) × HasTallied listings self.old }
        ensures written { (seg : ℕ) (order : Option ℕ) (feeds : List Log) →
            HasWritten seg order feeds self.old → HasWritten seg order feeds self.new }
        ensures tallied { (listings : List Listing) → HasTallied listings self.old →
            HasTallied listings self.new }
        ensures fewer { count_turns self.new.writers.items < count_turns self.old.writers.items }
    {
        let chosen = choose(&mut self.turns, self.active);
        let place = place_of(&self.writers, chosen);
        let writer = &mut self.writers[place];
        count_turn(
            writer,
            self.cuts[place],
            &mut self.passes[place],
            &self.counters,
        );
        self.active = writer.write(&mut self.ring, self.active);
    }

    /// Adds the units that wrapped, when all writers have left; what the counters came to.
    fn finish(self, alloc: Global) -> Result<Values, NoMemory>
        requires some { 0 < length self.writers.items }
        requires left { count_writers self.writers.items ≡ 0 }
        requires few { self.ring.wraps ≤ 2 ^ 53 }
        requires tallied { (listings : List Listing) × HasTallied listings self }
        ensures { IfOk result (λ values. (listings : List Listing) → HasTallied listings self →
            values ≡ counter_values listings self.ring.wraps) }
    {
        let Counting {
            ring,
            counters,
            mut passes,
            ..
        } = self;
        traffic_feed::count_wraps(&mut passes[0], &counters, ring.wraps());
        let values = close(alloc, counters, passes)?;
        Ok(values)
    }
}

/// The values of counters to which nothing is added.
fn no_counts(alloc: Global) -> Result<Values, NoMemory>
    ensures { IfOk result (λ values. values ≡ replicate counter_count 0) }
{
    let made = Counters::new(alloc, 1)?;
    let values = close(alloc, made.counters, made.passes)?;
    Ok(values)
}

/// Puts feeds into a ring that nobody reads, feed after feed or in turns that a seed chooses, and counts what is put; what the counters come to.
pub fn count_feeds(
    alloc: Global,
    listings: Vec<Listing>,
    seed: Option<u32>,
    shape: Shape,
) -> Result<Values, NoMemory>
    requires feeds { All (AreFit unit_words shape) (map (λ l. l.units) listings.items) }
    requires few { 2 * count_feed_words (map (λ l. l.units) listings.items) ≤ last_tail }
    requires many { length listings.items ≤ most_passes }
    requires records { All (λ l. record_count l.units ≤ 4194304) listings.items }
    requires cuts { All (λ l. l.cuts ≤ record_count l.units) listings.items }
    ensures { IfOk result (λ values. (log : Log) →
        IsUnread seed (map (λ l. l.units) listings.items) log →
        values ≡ counter_values listings.items (count_wraps shape log)) }
{
    if listings.is_empty() {
        return no_counts(alloc);
    }
    let mut counting = Counting::new(alloc, listings, seed, shape)?;
    while counting.active > 0 {
        counting.turn();
    }
    let values = counting.finish(alloc)?;
    Ok(values)
}
