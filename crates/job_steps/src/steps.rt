//! The steps of a job, one after the other.

ghost use Rattle.std.specs.Prelude.{◌≡◌, ◌≢◌, true, [], map, codes, IfOk};
ghost use Rattle.vio.specs.declared.world.TheConstants.{ERRORS};
ghost use Rattle.vio.specs.World.{Writing};
ghost use Rattle.job_steps.specs.Fits.{HasFitFeeds, HasFitInput};
ghost use Rattle.job_steps.specs.Jobs.{write_of};
ghost use Rattle.vio.specs.Calls.{Called};
ghost use Rattle.vio.specs.Steps.{TookSteps};
ghost use Rattle.tool_words.specs.Sound.{IsSound};
ghost use Rattle.job_steps.specs.Steps.{Passes, Stops, counter_steps, group_steps, input_steps, names_steps, opens_of};
ghost use Rattle.job_steps.specs.Took.{TookAll};
ghost use Rattle.job_steps.specs.Begun.{HasInput, IsBegun, IsCounting, IsOpened};

use crate::fault::ToolFault;
use crate::feeds::take_feeds;
use crate::formats::read_format;
use crate::objects::{make_out, make_sink, open_log};
use crate::queries::take_queries;
use crate::words::file_name;
use log_model::Halt;
use ncsa_format::Format;
use query_parser::Query;
use std::alloc::Global;
use tool_words::{Job, Names};
use traffic_feed::Listing;
use vio::{Created, World};

/// What a job takes its units from.
#[derive(Drop)]
pub enum Input {
    /// The log of this handle.
    Log(u32),
    /// The listings of its feeds.
    Feeds(Vec<Listing>),
}

/// What the steps of a job found that prints groups.
#[derive(Drop)]
pub struct Begun {
    pub query: Query,
    pub format: Option<Format>,
    pub input: Input,
    pub sink: Created,
}

/// What the steps of a job found that prints counters.
#[derive(Drop)]
pub struct Counting {
    pub listings: Vec<Listing>,
    pub sink: Created,
}

/// What the steps found of a command that reads a log and writes a file.
#[derive(Drop)]
pub struct Opened {
    /// The handle of the log.
    pub handle: u32,
    pub sink: Created,
}

/// Opens the log of a job, or reads its feeds.
fn take_input<W: World>(alloc: Global, job: &Job, world: &mut W) -> Result<Input, Halt<ToolFault>>
    requires sound { IsSound job.now }
    ensures took { Called (TookSteps Passes Stops HasInput (opens_of (input_steps job.now))
        (input_steps job.now) result)
        (W.seen world.old) (W.seen world.new) }
    ensures fit { IfOk result (λ input. HasFitInput job.now input) }
{
    if job.file.is_some() {
        Ok(Input::Log(open_log(alloc, file_name(job), world)?))
    } else {
        Ok(Input::Feeds(take_feeds(alloc, job, world)?))
    }
}

/// Takes the steps of a job that prints groups: its queries, its format, its log or its feeds, and what it writes.
pub fn take_group_steps<W: World>(
    alloc: Global,
    job: &Job,
    world: &mut W,
) -> Result<Begun, Halt<ToolFault>>
    requires sound { IsSound job.now }
    ensures took { Called (TookAll (IsBegun job.now) (group_steps job.now) result)
        (W.seen world.old) (W.seen world.new) }
    ensures fit { IfOk result (λ begun. HasFitInput job.now begun.input) }
    ensures named { IfOk result
        (λ begun. (W.seen world.new).names Writing begun.sink.handle (write_of job.now) ≡ true) }
    ensures apart { IfOk result (λ begun. begun.sink.handle ≢ ERRORS) }
{
    let query = take_queries(alloc, job, world)?;
    let format = read_format(alloc, job)?;
    let input = take_input(alloc, job, world)?;
    let sink = make_out(alloc, job, world)?;
    Ok(Begun {
        query,
        format,
        input,
        sink,
    })
}

/// Takes the steps of a job that prints counters: its feeds, and standard output.
pub fn take_counter_steps<W: World>(
    alloc: Global,
    job: &Job,
    world: &mut W,
) -> Result<Counting, Halt<ToolFault>>
    requires sound { IsSound job.now }
    ensures took { Called (TookSteps Passes Stops IsCounting (opens_of (counter_steps job.now))
        (counter_steps job.now) result)
        (W.seen world.old) (W.seen world.new) }
    ensures fit { IfOk result (λ counting. HasFitFeeds job.now counting.listings.items) }
    ensures named { IfOk result (λ counting. (W.seen world.new).names Writing counting.sink.handle (codes "-") ≡ true) }
{
    let listings = take_feeds(alloc, job, world)?;
    let sink = make_sink(alloc, "-", false, world)?;
    Ok(Counting { listings, sink })
}

/// Takes the steps of a command that reads a log and writes a file.
pub fn take_names_steps<W: World>(
    alloc: Global,
    names: &Names,
    world: &mut W,
) -> Result<Opened, Halt<ToolFault>>
    ensures took { Called (TookSteps Passes Stops IsOpened (opens_of (names_steps names.now))
        (names_steps names.now) result)
        (W.seen world.old) (W.seen world.new) }
    ensures named { IfOk result
        (λ opened. (W.seen world.new).names Writing opened.sink.handle names.now.output ≡ true) }
    ensures apart { IfOk result (λ opened. opened.sink.handle ≢ ERRORS) }
{
    let handle = open_log(alloc, names.input.as_str(), world)?;
    let sink = make_sink(alloc, names.output.as_str(), false, world)?;
    Ok(Opened { handle, sink })
}
