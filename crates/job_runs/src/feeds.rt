//! A run over feeds in a stated order.

ghost use Rattle.std.specs.Prelude.{◌≡◌, ◌≢◌, ◌≤◌, [], true, false, length, Bool, IfOk, OnErr};
ghost use Rattle.std.specs.List.{All};
ghost use Rattle.vio.specs.declared.world.TheConstants.{ERRORS};
ghost use Rattle.vio.specs.World.{Writing};
ghost use Rattle.vio.specs.Calls.{Called};
ghost use Rattle.vsl_dispatch.specs.Groups.{is_filled};
ghost use Rattle.tool_words.specs.Sound.{IsSound};
ghost use Rattle.tool_consumers.specs.Consumers.{IsJobConsumer};
ghost use Rattle.job_steps.specs.Jobs.{is_on_threads, order_seed, with_made, write_of};
ghost use Rattle.job_steps.specs.Queries.{Ask, HoldsAsAsked};
ghost use Rattle.job_steps.specs.Fits.{FitsRing, HasFitFeeds};
ghost use Rattle.job_runs.specs.Sources.{FedCame, FeedsCame, RecordsOf};
ghost use Rattle.job_runs.specs.Rows.{RanFor, end_answer, job_due};
ghost use Rattle.job_runs.specs.Runs.{RanShort, RanSo};
ghost use Rattle.job_runs.specs.inside.Outputs.{IsFed};

use crate::output::{answer, output_of};
use crate::record::Ran;
use feed_schedule::{Replay, every_schedule_ends, schedules_are_read_whole};
use job_steps::written_name;
use log_model::Text;
use one_run::{RunEnd, RunEnded, run};
use query_parser::Query;
use ring_layout::Shape;
use run_sources::FeedItems;
use std::alloc::Global;
use tool_words::{Job, Order};
use traffic_feed::{Listing, generate};
use vio::{Created, NoMemory, World};
use vsl_dispatch::Consumer;

/// The seed from which an order's turns are drawn; feed after feed draws none, and neither do threads.
pub fn order_seed(order: Order) -> Option<u32>
    ensures { result ≡ order_seed order }
{
    match order {
        Order::Threads => None,
        Order::Turns(seed) => Some(seed),
        Order::FeedFirst => None,
    }
}

/// The listings of a job's feeds, and behind them the one that is made, where it asks for one.
pub fn with_made(
    alloc: Global,
    job: &Job,
    mut listings: Vec<Listing>,
    shape: Shape,
) -> Result<Vec<Listing>, NoMemory>
    requires sound { IsSound job.now }
    requires shape { shape ≡ job.now.seg }
    ensures made { IfOk result (λ all. all.items ≡ with_made job.now listings.items) }
    ensures fit { IfOk result (λ all. All (FitsRing job.now.seg) listings.items →
        All (FitsRing job.now.seg) all.items) }
{
    if let Some((count, seed)) = job.made {
        listings.push(generate(alloc, count, seed, job.reclen, shape)?)?;
    }
    Ok(listings)
}

/// The feeds of a job, as a reader meets them.
fn items_of(alloc: Global, job: &Job, listings: Vec<Listing>) -> Result<FeedItems, NoMemory>
    requires sound { IsSound job.now }
    requires fit { HasFitFeeds job.now listings.items }
    ensures comes { IfOk result (λ feeds. IsFed job.now listings.items feeds) }
{
    // Laws, which say that there is a log and a history, and what they are.
    every_schedule_ends();
    schedules_are_read_whole();
    let Some(shape) = Shape::new(job.seg) else {
        unreachable!()
    };
    let writers = with_made(alloc, job, listings, shape)?;
    let replay = Replay::new(alloc, writers, order_seed(job.order), shape)?;
    Ok(FeedItems {
        alloc,
        replay,
        missed: None,
    })
}

/// Prints the groups of feeds, which are put in the order that a job states. The requests that are made up are made
/// here, once the feeds were read, so a fault of a feed comes first.
pub fn print_feeds<W: World, C: Consumer>(
    alloc: Global,
    job: &Job,
    consumer: C,
    query: &Query,
    listings: Vec<Listing>,
    sink: Created,
    world: &mut W,
) -> Result<Ran, NoMemory>
    requires sound { IsSound job.now }
    requires fit { HasFitFeeds job.now listings.items }
    requires consumer { IsJobConsumer C.keep C.output C.represents job.now consumer }
    requires keeps { is_filled job.now.keep [] ≡ false }
    requires named { (W.seen world.old).names Writing sink.handle (write_of job.now) ≡ true }
    requires apart { sink.handle ≢ ERRORS }
    requires stated { is_on_threads job.now ≡ false }
    ensures ran { IfOk result (λ r. (ask : Ask) → HoldsAsAsked query.now ask →
        Called (RanSo (RanFor [] (λ calls. FeedsCame job.now listings.items r.run)
        (λ why calls met. ⊥) (RecordsOf [] job.now r.run) sink.handle
        (job_due job.now ask sink.empty) (end_answer job.now) r.fault)) (W.seen world.old)
        (W.seen world.new)) }
    ensures short { OnErr result ((ask : Ask) → HoldsAsAsked query.now ask →
        Called (RanShort [] (λ calls. FedCame job.now listings.items) sink.handle
        (job_due job.now ask sink.empty)) (W.seen world.old) (W.seen world.new)) }
{
    let written = Text::new(alloc, written_name(job))?;
    let errors = Text::new(alloc, "stderr")?;
    let mut output = output_of(alloc, job, consumer, query, sink)?;
    let mut feeds = items_of(alloc, job, listings)?;
    let RunEnded { end, met } = run(world, &mut feeds, &mut output)?;
    match end {
        RunEnd::ByOutput(ending) => Ok(Ran::counted(answer(ending, written, errors), met)),
        RunEnd::BySource(never) => match never {},
    }
}
