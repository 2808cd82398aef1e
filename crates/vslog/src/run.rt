//! The top call.

ghost use Rattle.std.specs.Prelude.{◌≡◌, map, IfOk, OnErr};
ghost use Rattle.std.specs.String.{string_bytes};
ghost use Rattle.vio.specs.Calls.{Called};
ghost use Rattle.vslog.specs.Plain.{PrintsPlain};
ghost use Rattle.vslog.specs.Theorem.{Lacks, Runs};
ghost use Rattle.vslog.specs.Words.{job_as, job_of};
ghost use Rattle.vslog.specs.inside.Run.{IsWorked};

use crate::ended::{Ended, settled};
use crate::message::{text_due, usage_message};
use crate::words::{Job, UsageFault, read_job};
use crate::work::work;
use log_model::{Halt, NoMemory};
use one_command::say;
use std::alloc::Global;
use vio::World;

/// Copies the log of a job. What is to be said isn't yet.
fn work_off<W: World>(alloc: Global, world: &mut W, job: Job<'_>) -> Result<Ended, NoMemory>
    ensures { Called (IsWorked (job_as job.entry) result) (W.seen world.old) (W.seen world.new) }
{
    match work(alloc, world, job) {
        Ok(copied) => Ok(settled(job.asked.strict, copied)),
        Err(Halt::Fault(fault)) => Ok(Ended::Stopped(fault)),
        Err(Halt::NoMemory) => Err(NoMemory),
    }
}

/// Refuses the words.
fn refuse<W: World>(
    alloc: Global,
    world: &mut W,
    words: &[String],
    fault: UsageFault,
) -> Result<Ended, NoMemory>
    ensures runs { IfOk result
        (λ ended. Called (Runs (map string_bytes words.now) (Err fault) ended) (W.seen world.old)
        (W.seen world.new)) }
    ensures lacks { OnErr result
        (Called (Lacks (map string_bytes words.now) (Err fault)) (W.seen world.old)
        (W.seen world.new)) }
{
    let text = usage_message(alloc, words, fault)?;
    say(world, &text)?;
    Ok(Ended::Refused(fault))
}

/// Copies the log that the words name, and says how much was left out or cut, or why copying stopped: on standard error, once.
pub fn run_vslog<W: World>(
    alloc: Global,
    world: &mut W,
    words: &[String],
) -> Result<Ended, NoMemory>
    ensures runs { IfOk result
        (λ ended. Called (Runs (map string_bytes words.now)
        (job_of (map string_bytes words.now)) ended) (W.seen world.old) (W.seen world.new)) }
    ensures lacks { OnErr result
        (Called (Lacks (map string_bytes words.now) (job_of (map string_bytes words.now)))
        (W.seen world.old) (W.seen world.new)) }
    ensures plain { IfOk result (λ ended. PrintsPlain (map string_bytes words.now) ended
        (W.seen world.old) (W.seen world.new)) }
{
    let job = match read_job(words) {
        Ok(job) => job,
        Err(fault) => return refuse(alloc, world, words, fault),
    };
    let ended = work_off(alloc, world, job)?;
    let text = text_due(alloc, job, ended)?;
    say(world, &text)?;
    Ok(ended)
}
