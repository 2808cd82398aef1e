//! Workers beside a reader's run.

ghost use Rattle.std.specs.Prelude.{◌≡◌, ◌<◌, ◌≤◌, ◌^◌, [], vec_len, vec_capacity};
ghost use Rattle.std.specs.Thread.{IsSync};
ghost use Rattle.log_ring.specs.Readers.{new_pass};
ghost use Rattle.traffic_feed.specs.Workers.{AllReady, AllFed, listings_of};
ghost use Rattle.live_run.specs.inside.Opening.{WorkReady, WorkFed};
ghost use Rattle.live_run.specs.inside.Reading.{HasRead, ReadBeside};

use counter_segments::Counters;
use log_model::NoMemory;
use log_ring::{ReaderPass, Ring};
use one_run::{Never, Output, RunEnded, run};
use run_sources::LiveItems;
use std::alloc::Global;
use std::sync::{Mutex, Wait};
use std::thread::{Threads, join_mut};
use traffic_feed::{Fed, Gate, Worker, run_workers};
use vio::World;

/// What workers are to do, until they are started, and the room for what they leave.
#[derive(Drop)]
struct Work {
    workers: Option<(Vec<Worker>, Vec<Fed>)>,
}

/// How often a reader looks whether the workers have begun, before it gives up.
const MOST_LOOKS: u32 = 20_000_000;

/// Starts the workers, once, and says so before.
fn run_once<R: Threads + Wait + Sync, G: Gate>(
    rt: &R,
    alloc: Global,
    ring: &Ring,
    counters: &Counters,
    work: &mut Work,
    begun: &Mutex<bool>,
    gate: &G,
) -> Vec<Fed>
    requires { WorkReady ring.now counters.now work.old }
    ensures { WorkFed ring.now counters.now work.old result.items }
{
    *begun.lock(rt) = true;
    match work.workers.take() {
        Some((workers, room)) => run_workers(rt, ring, counters, workers, room, gate),
        None => Vec::new(alloc),
    }
}

/// Gives an output what a pass meets, until one of them ends.
fn read<R: Wait, G: Gate, W: World, O: Output>(
    world: &mut W,
    source: &mut LiveItems<'_, R, G>,
    output: &mut O,
) -> Result<RunEnded<O::Ending, Never>, NoMemory>
    requires pass { source.old.pass ≡ new_pass source.old.ring.now }
    requires output { O.is_ready output.old (W.seen world.old) }
    requires new { O.is_new output.old }
    ensures { HasRead (O.alone output.old) (O.writes output.old) (O.took output.old output.new)
        (O.printed output.old output.new) (O.ended output.old) (O.starved output.old) result
        source.old.pass source.new.pass (W.seen world.old) (W.seen world.new) }
{
    run(world, source, output)
}

/// Waits until the workers have begun, and tells whether they have. Where no thread could be made for them they begin
/// behind the reader, which would wait for ever.
fn have_begun<R: Wait>(rt: &R, begun: &Mutex<bool>) -> bool {
    for _ in 0..MOST_LOOKS {
        if *begun.lock(rt) {
            return true;
        }
    }
    false
}

/// The same run, where the workers have begun; else nothing is done.
fn read_beside<R: Wait, G: Gate, W: World, O: Output>(
    world: &mut W,
    source: &mut LiveItems<'_, R, G>,
    output: &mut O,
    begun: &Mutex<bool>,
) -> Option<Result<RunEnded<O::Ending, Never>, NoMemory>>
    requires pass { source.old.pass ≡ new_pass source.old.ring.now }
    requires output { O.is_ready output.old (W.seen world.old) }
    requires new { O.is_new output.old }
    ensures { ReadBeside (λ s. s.pass) (O.alone output.old) (O.writes output.old)
        (O.took output.old output.new) (O.printed output.old output.new) (O.ended output.old)
        (O.starved output.old) result source.old source.new output.old output.new (W.seen world.old)
        (W.seen world.new) }
{
    if have_begun(source.rt, begun) {
        Some(read(world, source, output))
    } else {
        None
    }
}

/// What is left when the workers and the reader are done, and how the reader's run ended.
#[derive(Drop)]
pub struct Beside<E> {
    pub fed: Vec<Fed>,
    pub pass: ReaderPass,
    pub ran: Result<RunEnded<E, Never>, NoMemory>,
}

/// Runs workers beside a reader's run, which gives an output what the reader meets.
pub fn run_beside<R: Threads + Wait + Sync, W: World, O: Output, G: Gate>(
    rt: &R,
    alloc: Global,
    ring: &Ring,
    counters: &Counters,
    workers: Vec<Worker>,
    room: Vec<Fed>,
    pass: ReaderPass,
    world: &mut W,
    output: &mut O,
    gate: &G,
) -> Beside<O::Ending>
    requires ready { AllReady ring.now counters.now workers.items }
    requires room { (room.items ≡ []) × (vec_len workers ≤ vec_capacity room) ×
        (vec_len workers < 2 ^ 32) }
    requires pass { pass ≡ new_pass ring.now }
    requires output { O.is_ready output.old (W.seen world.old) }
    requires new { O.is_new output.old }
    ensures fed { AllFed ring.now counters.now (listings_of workers.items) result.fed.items }
    ensures read { HasRead (O.alone output.old) (O.writes output.old)
        (O.took output.old output.new) (O.printed output.old output.new) (O.ended output.old)
        (O.starved output.old) result.ran pass result.pass (W.seen world.old) (W.seen world.new) }
{
    let mut work = Work {
        workers: Some((workers, room)),
    };
    let begun = Mutex::new(false);
    let mut live = LiveItems::new(rt, alloc, ring, pass, gate);
    let todo = &mut work;
    let source = &mut live;
    let flag = &begun;
    let (fed, beside) = join_mut(
        rt,
        &mut || -> Vec<Fed>
            requires { IsSync R.row × IsSync G.row × WorkReady ring.now counters.now todo.now }
            ensures { WorkFed ring.entry.now counters.entry.now todo.entry.now result.items }
        { run_once(rt, alloc, ring, counters, todo, flag, gate) },
        &mut || -> Option<Result<RunEnded<O::Ending, Never>, NoMemory>>
            requires { IsSync G.row × (source.now.pass ≡ new_pass source.now.ring.now) ×
                O.is_ready output.now (W.seen world.now) × O.is_new output.now }
            ensures { ReadBeside (λ s. s.pass) (O.alone output.entry.now)
                (O.writes output.entry.now) (O.took output.entry.now output.exit.now)
                (O.printed output.entry.now output.exit.now)
                (O.ended output.entry.now)
                (O.starved output.entry.now) result source.entry.now source.exit.now
                output.entry.now output.exit.now (W.seen world.entry.now) (W.seen world.exit.now) }
        { read_beside(world, source, output, flag) },
    );
    // Where no thread could be made the workers have left by now.
    let ran = match beside {
        Some(ran) => ran,
        None => read(world, &mut live, output),
    };
    Beside {
        fed,
        pass: live.pass,
        ran,
    }
}
