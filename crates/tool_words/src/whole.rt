//! The tests of the whole, after the last word.

ghost use Rattle.std.specs.Prelude.{◌≡◌};
ghost use Rattle.tool_words.specs.Answers.{Gives};
ghost use Rattle.tool_words.specs.Job.{goes_on, has_ending, is_ending, is_fed, lists_counters, tested};

use crate::fault::{UsageFault, WordsFault};
use crate::job::{Job, StatMode, Tool};
use crate::options::Choice;
use crate::reading::Given;

/// Whether an option lets a tool end that goes on for ever by itself.
fn is_end(choice: Choice) -> bool
    ensures { result ≡ is_ending choice }
{
    match choice {
        Choice::Once => true,
        Choice::Json => true,
        Choice::ListCounters => true,
        _ => false,
    }
}

/// Whether one of the given options lets a tool end that goes on for ever by itself.
pub(crate) fn is_ended(given: &[Given]) -> bool
    ensures { result ≡ has_ending given.now }
{
    given.iter().any(|g| is_end(g.choice))
}

/// Whether a tool goes on for ever by itself.
fn is_endless(tool: Tool) -> bool
    ensures { result ≡ goes_on tool }
{
    match tool {
        Tool::Log => false,
        Tool::Ncsa => false,
        Tool::Top => true,
        Tool::Stat => true,
    }
}

/// Whether a job needs no log.
fn lists_only(mode: StatMode) -> bool
    ensures { result ≡ lists_counters mode }
{
    match mode {
        StatMode::List => true,
        _ => false,
    }
}

/// Whether a job names feeds or requests that are made up.
fn has_feeds(job: &Job) -> bool
    ensures { result ≡ is_fed job.now }
{
    !job.feeds.as_slice().is_empty() || job.made.is_some()
}

/// The tests after the last word, in their order.
pub(crate) fn test_job(ends: bool, job: Job) -> Result<Job, WordsFault>
    ensures { Gives result (tested ends job) }
{
    if is_endless(job.tool) && !ends {
        return Err(WordsFault::Usage(UsageFault::NoOnce));
    }
    let fed = has_feeds(&job);
    if job.file.is_none() && !fed && !lists_only(job.stat) {
        return Err(WordsFault::Usage(UsageFault::NoLog));
    }
    if job.file.is_some() && fed {
        return Err(WordsFault::Usage(UsageFault::TwoLogs));
    }
    Ok(job)
}
