//! A run over a log.

ghost use Rattle.std.specs.Prelude.{◌≡◌, ◌≢◌, [], ◌∷◌, true, false, IfOk, OnErr};
ghost use Rattle.vio.specs.declared.world.TheConstants.{ERRORS};
ghost use Rattle.vio.specs.World.{Writing};
ghost use Rattle.vio.specs.Calls.{Called};
ghost use Rattle.vsl_dispatch.specs.Groups.{is_filled};
ghost use Rattle.run_sources.specs.Sources.{FileCame, FileStopped};
ghost use Rattle.tool_consumers.specs.Consumers.{IsJobConsumer};
ghost use Rattle.job_steps.specs.Jobs.{file_of, write_of};
ghost use Rattle.job_steps.specs.Queries.{Ask, HoldsAsAsked};
ghost use Rattle.job_runs.specs.Sources.{LogBegan, RecordsCount};
ghost use Rattle.job_runs.specs.Rows.{RanFor, end_answer, job_due, stop_answer};
ghost use Rattle.job_runs.specs.Runs.{RanShort, RanSo};

use crate::output::{answer, output_of};
use crate::record::Ran;
use job_steps::{ToolFault, file_name, written_name};
use log_model::Text;
use one_run::{RunEnd, RunEnded, run};
use query_parser::Query;
use run_sources::{FileItems, FileStop};
use std::alloc::Global;
use tool_words::Job;
use vio::{Created, NoMemory, World};
use vsl_dispatch::Consumer;

/// The most bytes of a log that are read: 2^40.
const LOG_LIMIT: u64 = 1_099_511_627_776;

/// How it is answered that a log of this name stopped so.
#[tactic(auto, unfolding(vsl_file::specs::File::most_bytes))]
pub(crate) fn stop_answer(name: Text, stop: FileStop) -> ToolFault
    ensures { result ≡ stop_answer name stop }
{
    match stop {
        FileStop::NotALog { at } => ToolFault::NotALog { name, at },
        FileStop::Damaged { at } => ToolFault::Damaged { name, at },
        FileStop::TooLarge => ToolFault::TooLarge {
            name,
            limit: LOG_LIMIT,
        },
        FileStop::ReadFault => ToolFault::ReadFault { name },
    }
}

/// Prints the groups of the log of this handle.
pub fn print_log<W: World, C: Consumer>(
    alloc: Global,
    job: &Job,
    consumer: C,
    query: &Query,
    handle: u32,
    sink: Created,
    world: &mut W,
) -> Result<Ran, NoMemory>
    requires consumer { IsJobConsumer C.keep C.output C.represents job.now consumer }
    requires keeps { is_filled job.now.keep [] ≡ false }
    requires named { (W.seen world.old).names Writing sink.handle (write_of job.now) ≡ true }
    requires apart { sink.handle ≢ ERRORS }
    ensures ran { IfOk result (λ r. (ask : Ask) → HoldsAsAsked query.now ask →
        Called (RanSo (RanFor (handle ∷ []) (FileCame handle)
        (λ why calls met. FileStopped handle why calls met (W.seen world.new))
        (RecordsCount r.run) sink.handle (job_due job.now ask sink.empty)
        (end_answer job.now) r.fault)) (W.seen world.old) (W.seen world.new)) }
    ensures short { OnErr result ((ask : Ask) → HoldsAsAsked query.now ask →
        Called (RanShort (handle ∷ []) (LogBegan handle) sink.handle
        (job_due job.now ask sink.empty)) (W.seen world.old) (W.seen world.new)) }
{
    let name = Text::new(alloc, file_name(job))?;
    let written = Text::new(alloc, written_name(job))?;
    let errors = Text::new(alloc, "stderr")?;
    let mut output = output_of(alloc, job, consumer, query, sink)?;
    let mut log = FileItems::new(alloc, handle)?;
    let RunEnded { end, met } = run(world, &mut log, &mut output)?;
    match end {
        RunEnd::ByOutput(ending) => Ok(Ran::counted(answer(ending, written, errors), met)),
        RunEnd::BySource(stop) => Ok(Ran::counted(Some(stop_answer(name, stop)), met)),
    }
}
