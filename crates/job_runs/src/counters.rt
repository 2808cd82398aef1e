//! A run of varnishstat: feeds are put into a ring that nobody reads, and what was counted is printed.

ghost use Rattle.std.specs.Prelude.{◌≡◌, ◌⊎◌, [], true, false, codes, IfOk, OnErr};
ghost use Rattle.vio.specs.World.{Writing};
ghost use Rattle.vio.specs.Calls.{Called};
ghost use Rattle.tool_words.specs.Sound.{IsSound};
ghost use Rattle.job_steps.specs.Fits.{HasFitFeeds};
ghost use Rattle.job_steps.specs.Jobs.{is_on_threads};
ghost use Rattle.job_runs.specs.Counters.{CountsSo, WritesPartOf, WritesText, printed, record_of};
ghost use Rattle.job_runs.specs.Runs.{CountsShort};

use crate::feeds::{order_seed, with_made};
use crate::record::{Ran, RunRecord};
use counter_segments::Values;
use feed_schedule::{count_feeds, every_writing_ends};
use job_steps::{Counting, ToolFault, is_fed};
use live_run::{CountEnded, count_live};
use log_model::Text;
use ring_layout::Shape;
use std::alloc::Global;
use std::sync::Wait;
use std::thread::Threads;
use tool_words::{Job, StatMode};
use traffic_feed::Gate;
use vio::{NoMemory, World, WorldFault, write_all};
use vsl_stat::{Globs, stat_json, stat_list, stat_text};

/// The globs of a job.
fn globs_of(alloc: Global, job: &Job) -> Result<Globs, NoMemory>
    ensures { IfOk result (λ globs. globs ≡ job.now.globs) }
{
    let mut texts = Vec::new(alloc);
    for text in job.globs.as_slice() {
        texts.push(Text::new(alloc, text.as_str())?)?;
    }
    Ok(Globs::new(texts))
}

/// What a job prints of counters with these values.
fn text_of(alloc: Global, job: &Job, values: &Values) -> Result<Vec<u8>, NoMemory>
    ensures { IfOk result (λ text. text.items ≡ printed job.now.stat job.now.globs values.now) }
{
    let globs = globs_of(alloc, job)?;
    let mut text = Vec::new(alloc);
    match job.stat {
        StatMode::List => stat_list(&globs, &mut text)?,
        StatMode::Once => stat_text(values, &globs, &mut text)?,
        StatMode::Json => stat_json(alloc, values, &globs, &mut text)?,
    }
    Ok(text)
}

/// Writes the text of counters to standard output.
fn write_text<W: World>(
    alloc: Global,
    text: &[u8],
    sink: u32,
    run: RunRecord,
    world: &mut W,
) -> Result<Ran, NoMemory>
    requires named { (W.seen world.old).names Writing sink (codes "-") ≡ true }
    ensures run { IfOk result (λ r. r.run ≡ run) }
    ensures wrote { IfOk result
        (λ r. Called (WritesText sink text.now r.fault) (W.seen world.old) (W.seen world.new)) }
    ensures short { OnErr result
        (Called (λ calls. (calls ≡ []) ⊎ WritesPartOf sink text.now calls) (W.seen world.old)
        (W.seen world.new)) }
{
    let name = Text::new(alloc, "-")?;
    match write_all(world, sink, text) {
        Ok(()) => Ok(Ran { fault: None, run }),
        Err(WorldFault::Failed) => Ok(Ran {
            fault: Some(ToolFault::WriteFault { name }),
            run,
        }),
        Err(WorldFault::NoMemory) => Err(NoMemory),
    }
}

/// What is recorded of a job, which takes no unit; nothing where it has no log.
fn record_of(job: &Job) -> RunRecord
    ensures { result ≡ record_of job.now }
{
    if is_fed(job) {
        RunRecord::Counted { units: 0, items: 0 }
    } else {
        RunRecord::Nothing
    }
}

/// Prints the counters of feeds, as they are put in the order that a job states.
pub fn print_counters<W: World>(
    alloc: Global,
    job: &Job,
    counting: Counting,
    world: &mut W,
) -> Result<Ran, NoMemory>
    requires sound { IsSound job.now }
    requires fit { HasFitFeeds job.now counting.listings.items }
    requires stated { is_on_threads job.now ≡ false }
    requires named { (W.seen world.old).names Writing counting.sink.handle (codes "-") ≡ true }
    ensures ran { IfOk result
        (λ r. Called (CountsSo job.now counting.listings.items counting.sink.handle r.fault r.run)
        (W.seen world.old) (W.seen world.new)) }
    ensures short { OnErr result
        (Called (CountsShort job.now counting.listings.items counting.sink.handle)
        (W.seen world.old) (W.seen world.new)) }
{
    // A law, which says that there is a log.
    every_writing_ends();
    let Some(shape) = Shape::new(job.seg) else {
        unreachable!()
    };
    let listings = with_made(alloc, job, counting.listings, shape)?;
    let values = count_feeds(alloc, listings, order_seed(job.order), shape)?;
    let text = text_of(alloc, job, &values)?;
    write_text(alloc, &text, counting.sink.handle, record_of(job), world)
}

/// Prints the counters of feeds, which workers put on threads.
pub fn print_live_counters<R: Threads + Wait + Sync, W: World, G: Gate>(
    rt: &R,
    alloc: Global,
    job: &Job,
    counting: Counting,
    world: &mut W,
    gate: &G,
) -> Result<Ran, NoMemory>
    requires sound { IsSound job.now }
    requires fit { HasFitFeeds job.now counting.listings.items }
    requires threads { is_on_threads job.now ≡ true }
    requires named { (W.seen world.old).names Writing counting.sink.handle (codes "-") ≡ true }
    ensures ran { IfOk result
        (λ r. Called (CountsSo job.now counting.listings.items counting.sink.handle r.fault r.run)
        (W.seen world.old) (W.seen world.new)) }
    ensures short { OnErr result
        (Called (CountsShort job.now counting.listings.items counting.sink.handle)
        (W.seen world.old) (W.seen world.new)) }
{
    let Some(shape) = Shape::new(job.seg) else {
        unreachable!()
    };
    let listings = with_made(alloc, job, counting.listings, shape)?;
    let CountEnded { values, ring } = count_live(rt, alloc, listings, shape, gate)?;
    let text = text_of(alloc, job, &values)?;
    let run = RunRecord::Closed(ring);
    write_text(alloc, &text, counting.sink.handle, run, world)
}
