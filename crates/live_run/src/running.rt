//! A run over a shared ring, from the listings to the closed ring.

ghost use Rattle.std.specs.Prelude.{◌≡◌, ◌⊎◌, [], false, IfOk, OnErr};
ghost use Rattle.one_run.specs.Run.{MadeBut, Ran, RanShort};
ghost use Rattle.live_run.specs.Runs.{LiveBegan, LiveCame, LiveCounted, MayBePut, feeds_of};

use crate::beside::{Beside, run_beside};
use crate::closing::part;
use crate::opening::{Opened, open};
use counter_segments::Values;
use log_model::NoMemory;
use log_ring::{ClosedRing, close};
use one_run::{Never, Output, RunEnded};
use ring_layout::Shape;
use run_sources::items_are_the_history;
use std::alloc::Global;
use std::sync::Wait;
use std::thread::Threads;
use traffic_feed::{Gate, Listing, run_workers};
use vio::World;

/// How a run over a shared ring ended, and the ring, which is closed.
#[derive(Drop)]
pub struct LiveEnded<E> {
    pub ended: RunEnded<E, Never>,
    pub ring: ClosedRing,
}

/// What the counters came to, and the ring, which is closed.
#[derive(Drop)]
pub struct CountEnded {
    pub values: Values,
    pub ring: ClosedRing,
}

/// Puts listings into a ring, each by a worker on a thread of its own, or here where none can be made, and gives an
/// output what one reader meets meanwhile, until the output ends or all that was put was met. A gate, for tests, is
/// asked before each put and each call of the reader, of which no clause here speaks. It waits for the workers, also where
/// there is no memory for the run. All memory but that of the reader's run is taken before the first thread begins.
pub fn run_live<R: Threads + Wait + Sync, W: World, O: Output, G: Gate>(
    rt: &R,
    alloc: Global,
    listings: Vec<Listing>,
    shape: Shape,
    world: &mut W,
    output: &mut O,
    gate: &G,
) -> Result<LiveEnded<O::Ending>, NoMemory>
    requires put { MayBePut shape listings.items }
    requires output { O.is_ready output.old (W.seen world.old) }
    requires new { O.is_new output.old }
    ensures ran { IfOk result (λ r. MadeBut (O.alone output.old) false [] (O.writes output.old)
        (Ran (λ calls. LiveCame shape (feeds_of listings.items) r.ring) (λ fault calls met. ⊥)
        (λ before. ⊥) (O.printed output.old output.new) (O.ended output.old)
        (O.writes output.old) r.ended.end r.ended.met) (W.seen world.old) (W.seen world.new)) }
    ensures short { OnErr result (MadeBut (O.alone output.old) false [] (O.writes output.old)
        (λ calls. (calls ≡ []) ⊎ RanShort (λ cs. LiveBegan shape (feeds_of listings.items))
        (λ cs met. ⊥) (O.took output.old output.new) (O.starved output.old) calls)
        (W.seen world.old) (W.seen world.new)) }
{
    let Opened {
        ring,
        counters,
        workers,
        mut readers,
        room,
        lefts,
        counts,
    } = open(alloc, listings, shape, 1)?;
    let Some(pass) = readers.pop() else {
        unreachable!()
    };
    let Beside { fed, pass, ran } = run_beside(
        rt, alloc, &ring, &counters, workers, room, pass, world, output, gate,
    );
    readers.push_reserved(pass);
    let (lefts, _) = part(fed, lefts, counts);
    let ring = close(ring, lefts, readers);
    items_are_the_history();
    let ended = ran?;
    Ok(LiveEnded { ended, ring })
}

/// Puts listings into a ring that nobody reads, each by a worker on a thread of its own, or here where none can be
/// made, and counts what is put; what the counters came to. A gate, for tests, is asked before each put, of which no
/// clause here speaks.
pub fn count_live<R: Threads + Wait + Sync, G: Gate>(
    rt: &R,
    alloc: Global,
    listings: Vec<Listing>,
    shape: Shape,
    gate: &G,
) -> Result<CountEnded, NoMemory>
    requires put { MayBePut shape listings.items }
    ensures { IfOk result (λ r. LiveCounted shape listings.items r.ring r.values) }
{
    let Opened {
        ring,
        counters,
        workers,
        readers,
        room,
        lefts,
        counts,
    } = open(alloc, listings, shape, 0)?;
    let fed = run_workers(rt, &ring, &counters, workers, room, gate);
    let (lefts, counts) = part(fed, lefts, counts);
    let values = counter_segments::close(alloc, counters, counts)?;
    let ring = close(ring, lefts, readers);
    Ok(CountEnded { values, ring })
}
