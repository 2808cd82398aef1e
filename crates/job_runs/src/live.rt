//! A run over feeds that workers put on threads.

ghost use Rattle.std.specs.Prelude.{◌≡◌, ◌≢◌, [], true, false, IfOk, OnErr};
ghost use Rattle.vio.specs.declared.world.TheConstants.{ERRORS};
ghost use Rattle.vio.specs.World.{Writing};
ghost use Rattle.vio.specs.Calls.{Called};
ghost use Rattle.vsl_dispatch.specs.Groups.{is_filled};
ghost use Rattle.tool_words.specs.Sound.{IsSound};
ghost use Rattle.tool_consumers.specs.Consumers.{IsJobConsumer};
ghost use Rattle.job_steps.specs.Fits.{HasFitFeeds};
ghost use Rattle.job_steps.specs.Jobs.{is_on_threads, write_of};
ghost use Rattle.job_steps.specs.Queries.{Ask, HoldsAsAsked};
ghost use Rattle.job_runs.specs.Sources.{FedCame, FeedsCame, RecordsOf};
ghost use Rattle.job_runs.specs.Rows.{RanFor, end_answer, job_due};
ghost use Rattle.job_runs.specs.Runs.{RanShort, RanSo};

use crate::feeds::with_made;
use crate::output::{answer, output_of};
use crate::record::{Ran, RunRecord};
use job_steps::written_name;
use live_run::{LiveEnded, run_live};
use log_model::Text;
use one_run::RunEnd;
use query_parser::Query;
use ring_layout::Shape;
use std::alloc::Global;
use std::sync::Wait;
use std::thread::Threads;
use tool_words::Job;
use traffic_feed::{Gate, Listing};
use vio::{Created, NoMemory, World};
use vsl_dispatch::Consumer;

/// Prints the groups of feeds while workers put them, each on a thread of its own.
pub fn print_live<R: Threads + Wait + Sync, W: World, C: Consumer, G: Gate>(
    rt: &R,
    alloc: Global,
    job: &Job,
    consumer: C,
    query: &Query,
    listings: Vec<Listing>,
    sink: Created,
    world: &mut W,
    gate: &G,
) -> Result<Ran, NoMemory>
    requires sound { IsSound job.now }
    requires fit { HasFitFeeds job.now listings.items }
    requires consumer { IsJobConsumer C.keep C.output C.represents job.now consumer }
    requires keeps { is_filled job.now.keep [] ≡ false }
    requires named { (W.seen world.old).names Writing sink.handle (write_of job.now) ≡ true }
    requires apart { sink.handle ≢ ERRORS }
    requires threads { is_on_threads job.now ≡ true }
    ensures ran { IfOk result (λ r. (ask : Ask) → HoldsAsAsked query.now ask →
        Called (RanSo (RanFor [] (λ calls. FeedsCame job.now listings.items r.run)
        (λ why calls met. ⊥) (RecordsOf [] job.now r.run) sink.handle
        (job_due job.now ask sink.empty) (end_answer job.now) r.fault)) (W.seen world.old)
        (W.seen world.new)) }
    ensures short { OnErr result ((ask : Ask) → HoldsAsAsked query.now ask →
        Called (RanShort [] (λ calls. FedCame job.now listings.items) sink.handle
        (job_due job.now ask sink.empty)) (W.seen world.old) (W.seen world.new)) }
{
    let Some(shape) = Shape::new(job.seg) else {
        unreachable!()
    };
    let written = Text::new(alloc, written_name(job))?;
    let errors = Text::new(alloc, "stderr")?;
    let mut output = output_of(alloc, job, consumer, query, sink)?;
    let writers = with_made(alloc, job, listings, shape)?;
    let LiveEnded { ended, ring } = run_live(rt, alloc, writers, shape, world, &mut output, gate)?;
    match ended.end {
        RunEnd::ByOutput(ending) => Ok(Ran {
            fault: answer(ending, written, errors),
            run: RunRecord::Closed(ring),
        }),
        RunEnd::BySource(never) => match never {},
    }
}
