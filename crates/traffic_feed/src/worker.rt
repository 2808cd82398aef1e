//! Workers, each on a thread of its own, or here where none can be made.

ghost use Rattle.std.specs.Prelude.{◌≡◌, ◌<◌, ◌≤◌, ◌^◌, [], map, vec_len, vec_capacity};
ghost use Rattle.std.specs.Thread.{IsSync};
ghost use Rattle.traffic_feed.specs.Feeding.{IsFed, WasAskedEach};
ghost use Rattle.traffic_feed.specs.Workers.{MayBegin, AllReady, AllFed, AllAsked, listings_of};

use crate::{Fed, Gate, Listing, feed};
use counter_segments::{CounterPass, Counters};
use log_ring::{Ring, WriterPass};
use std::sync::Wait;
use std::thread::{Threads, join};

/// What a worker has.
#[derive(Drop)]
pub struct Worker {
    /// Its pass to the ring.
    pub pass: WriterPass,
    /// Its pass to the counters.
    pub counts: CounterPass,
    /// What it puts.
    pub listing: Listing,
}

/// What a worker does.
fn work<R: Wait, G: Gate>(
    rt: &R,
    ring: &Ring,
    counters: &Counters,
    worker: Worker,
    number: u32,
    gate: &G,
) -> Fed
    requires { MayBegin ring.now counters.now worker }
    ensures fed { IsFed ring.now counters.now worker.listing result }
    ensures number { result.left.number ≡ worker.pass.number }
    ensures asked { WasAskedEach (G.was_asked gate.now number) result.left.entries result.full }
{
    let Worker {
        pass,
        counts,
        listing,
    } = worker;
    feed(rt, pass, ring, counts, counters, number, &listing, gate)
}

/// Runs each worker on a thread of its own, or here where none can be made. A worker's number is its place, and what they
/// leave stands in their order, in the room that the caller took.
pub fn run_workers<R: Threads + Wait + Sync, G: Gate>(
    rt: &R,
    ring: &Ring,
    counters: &Counters,
    mut workers: Vec<Worker>,
    room: Vec<Fed>,
    gate: &G,
) -> Vec<Fed>
    requires ready { AllReady ring.now counters.now workers.items }
    requires room { (room.items ≡ []) × (vec_len workers ≤ vec_capacity room) ×
        (vec_len workers < 2 ^ 32) }
    ensures fed { AllFed ring.now counters.now (listings_of workers.items) result.items }
    ensures numbers { map (λ f. f.left.number) result.items ≡ map
        (λ w. w.pass.number) workers.items }
    ensures asked { AllAsked (G.was_asked gate.now) result.items }
    ensures room { (vec_capacity result ≡ vec_capacity room) × (vec_len result ≡ vec_len workers) }
{
    let Some(worker) = workers.pop() else {
        return room;
    };
    let number = workers.len() as u32;
    let (fed, mut all) = join(
        rt,
        move || -> Fed
            requires { MayBegin ring.now counters.now worker }
            ensures { IsFed ring.entry.now counters.entry.now worker.listing result
                × (result.left.number ≡ worker.pass.number)
                × WasAskedEach (G.was_asked gate.entry.now number) result.left.entries result.full }
        { work(rt, ring, counters, worker, number, gate) },
        move || -> Vec<Fed>
            requires { IsSync R.row
                × AllReady ring.now counters.now workers.items × (room.items ≡ [])
                × (vec_len workers < vec_capacity room) × (vec_len workers < 2 ^ 32) }
            ensures { AllFed ring.entry.now counters.entry.now
                (listings_of workers.items) result.items
                × (map (λ f. f.left.number) result.items ≡ map (λ w. w.pass.number) workers.items)
                × AllAsked (G.was_asked gate.entry.now) result.items
                × (vec_capacity result ≡ vec_capacity room) × (vec_len result ≡ vec_len workers) }
        { run_workers(rt, ring, counters, workers, room, gate) },
    );
    all.push_reserved(fed);
    all
}
