//! What a run over a shared ring needs, all of it opened before the first thread begins.

ghost use Rattle.std.specs.Prelude.{◌≡◌, ◌≤◌, map, reverse, vec_len, IfOk};
ghost use Rattle.log_ring.specs.Ring.{most_readers};
ghost use Rattle.traffic_feed.specs.Workers.{listings_of};
ghost use Rattle.live_run.specs.Runs.{MayBePut};
ghost use Rattle.live_run.specs.inside.Opening.{IsOpened};

use counter_segments::{CounterPass, Counters, OpenCounters};
use log_model::NoMemory;
use log_ring::{LeftWriter, ReaderPass, Ring, WriterPass};
use ring_layout::Shape;
use std::alloc::Global;
use traffic_feed::{Fed, Listing, Worker};

/// A ring and counters, whose passes workers and readers have, and room for what workers leave.
#[derive(Drop)]
pub struct Opened {
    pub ring: Ring,
    pub counters: Counters,
    pub workers: Vec<Worker>,
    pub readers: Vec<ReaderPass>,
    pub room: Vec<Fed>,
    pub lefts: Vec<LeftWriter>,
    pub counts: Vec<CounterPass>,
}

/// A worker for each listing, in their order; the passes are given out from the last on.
fn workers_of(
    alloc: Global,
    mut passes: Vec<WriterPass>,
    mut counts: Vec<CounterPass>,
    listings: Vec<Listing>,
) -> Result<Vec<Worker>, NoMemory>
    requires passes { vec_len passes ≡ vec_len listings }
    requires counts { vec_len counts ≡ vec_len listings }
    ensures passes { IfOk result
        (λ workers. passes.items ≡ reverse (map (λ w. w.pass) workers.items)) }
    ensures counts { IfOk result
        (λ workers. counts.items ≡ reverse (map (λ w. w.counts) workers.items)) }
    ensures listings { IfOk result (λ workers. listings_of workers.items ≡ listings.items) }
{
    let mut workers = Vec::with_capacity(alloc, listings.len())?;
    for listing in listings {
        let (Some(pass), Some(counts)) = (passes.pop(), counts.pop()) else {
            unreachable!()
        };
        workers.push_reserved(Worker {
            pass,
            counts,
            listing,
        });
    }
    Ok(workers)
}

/// Opens a ring with so many readers, and counters, for workers that put these listings.
pub fn open(
    alloc: Global,
    listings: Vec<Listing>,
    shape: Shape,
    readers: u32,
) -> Result<Opened, NoMemory>
    requires put { MayBePut shape listings.items }
    requires few { readers ≤ most_readers }
    ensures { IfOk result (IsOpened shape readers listings.items) }
{
    let writers = listings.len();
    let opened = Ring::new(alloc, shape, writers as u32, readers)?;
    let OpenCounters { counters, passes } = Counters::new(alloc, writers as u32)?;
    Ok(Opened {
        ring: opened.ring,
        counters,
        workers: workers_of(alloc, opened.writers, passes, listings)?,
        readers: opened.readers,
        room: Vec::with_capacity(alloc, writers)?,
        lefts: Vec::with_capacity(alloc, writers)?,
        counts: Vec::with_capacity(alloc, writers)?,
    })
}
