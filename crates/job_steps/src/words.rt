//! What the words of a command line ask for.

ghost use Rattle.std.specs.Prelude.{◌≡◌, [], map, Ok, Err, IfOk};
ghost use Rattle.std.specs.String.{string_bytes};
ghost use Rattle.log_model.specs.Halts.{IfFault};
ghost use Rattle.vio.specs.Steps.{TookSteps};
ghost use Rattle.tool_words.specs.declared.fault.UsageFault.{UsageFault};
ghost use Rattle.tool_words.specs.Command.{IsSoundCommand, command_of};
ghost use Rattle.tool_words.specs.Job.{is_fed};
ghost use Rattle.job_steps.specs.Begun.{IsShown};
ghost use Rattle.job_steps.specs.Jobs.{appends_log, file_of, is_counting, is_on_threads, is_threads, options_of, write_of, writes_log, writes_units};
ghost use Rattle.job_steps.specs.Steps.{Passes, Stops, word_steps};
ghost use Rattle.job_steps.specs.inside.Tasks.{IsRuleHalt};

use crate::fault::ToolFault;
use log_model::{Halt, NoMemory, Text};
use std::alloc::Global;
use tool_words::{Command, Job, Order, Tool, UsageFault, WordsFault};
use txn_rows::GroupOptions;
use vsl_select::{RuleText, SelectFault, Selection};

/// Whether the tool prints counters.
pub fn is_counting(tool: Tool) -> bool
    ensures { result ≡ is_counting tool }
{
    match tool {
        Tool::Log | Tool::Ncsa | Tool::Top => false,
        Tool::Stat => true,
    }
}

/// Whether an order puts each feed on a thread of its own.
fn is_threads(order: Order) -> bool
    ensures { result ≡ is_threads order }
{
    match order {
        Order::Threads => true,
        Order::Turns(_) | Order::FeedFirst => false,
    }
}

/// Whether a job has feeds, or requests that are made.
pub fn is_fed(job: &Job) -> bool
    ensures { result ≡ is_fed job.now }
{
    job.feeds.as_slice().len() > 0 || job.made.is_some()
}

/// Whether workers put a job's feeds, or its made requests, on threads.
pub fn is_on_threads(job: &Job) -> bool
    ensures { result ≡ is_on_threads job.now }
{
    is_fed(job) && is_threads(job.order)
}

/// How a job groups records.
pub fn options_of(job: &Job) -> GroupOptions
    ensures { result ≡ options_of job.now }
{
    GroupOptions {
        grouping: job.grouping,
        limit: job.limit,
        timeout: job.timeout,
    }
}

/// The name of the job's log: that of a file, or `-` for standard input.
pub fn file_name(job: &Job) -> &str
    ensures { result.now ≡ file_of job.now }
{
    match &job.file {
        Some(name) => name.as_str(),
        None => "",
    }
}

/// The name of what a job writes: that of a file, or `-` for standard output.
pub fn written_name(job: &Job) -> &str
    ensures { result.now ≡ write_of job.now }
{
    match &job.write {
        Some(name) => name.as_str(),
        None => "-",
    }
}

/// Whether a tool can write a log file.
fn writes_units(tool: Tool) -> bool
    ensures { result ≡ writes_units tool }
{
    match tool {
        Tool::Log => true,
        Tool::Ncsa | Tool::Top | Tool::Stat => false,
    }
}

/// Whether a job writes a log file.
pub fn writes_log(job: &Job) -> bool
    ensures { result ≡ writes_log job.now }
{
    writes_units(job.tool) && job.write.is_some() && !job.text
}

/// Whether a job goes on with a log file that may be there.
pub fn appends_log(job: &Job) -> bool
    ensures { result ≡ appends_log job.now }
{
    writes_log(job) && job.append
}

/// Copies of a job's rules.
fn rules_of(alloc: Global, job: &Job) -> Result<Vec<RuleText>, NoMemory>
    ensures { IfOk result (λ rules. rules.items ≡ job.now.rules) }
{
    let mut rules = Vec::new(alloc);
    for rule in job.rules.as_slice() {
        let copy = RuleText {
            include: rule.include,
            regex: rule.regex,
            text: Text::new(alloc, rule.text.as_str())?,
            word: rule.word,
        };
        if rules.push(copy).is_err() {
            return Err(NoMemory);
        }
    }
    Ok(rules)
}

/// How it is answered that a rule is refused.
fn rule_halt(fault: SelectFault) -> Halt<ToolFault>
    ensures { IsRuleHalt fault result }
{
    match fault {
        SelectFault::BadTags { word } => {
            Halt::Fault(ToolFault::Usage(UsageFault::BadValue { word }))
        }
        SelectFault::BadPattern { word } => Halt::Fault(ToolFault::BadPattern { word }),
        SelectFault::NoMemory => Halt::NoMemory,
    }
}

/// The command that the words ask for, or the fault that refuses them.
pub fn read_command(alloc: Global, words: &[String]) -> Result<Command, Halt<ToolFault>>
    ensures command { IfOk result
        (λ command. command_of (map string_bytes words.now) ≡ Ok command) }
    ensures refused { IfFault result (λ fault. (why : UsageFault) ×
        (command_of (map string_bytes words.now) ≡ Err why) × (fault ≡ ToolFault.Usage why)) }
    ensures sound { IfOk result (λ command. IsSoundCommand command) }
{
    match tool_words::read_command(alloc, words) {
        Ok(command) => Ok(command),
        Err(WordsFault::Usage(fault)) => Err(Halt::Fault(ToolFault::Usage(fault))),
        Err(WordsFault::NoMemory) => Err(Halt::NoMemory),
    }
}

/// What a job shows, where its rules are good, or the fault of the first that isn't.
pub fn read_selection(alloc: Global, job: &Job) -> Result<Selection, Halt<ToolFault>>
    ensures took { TookSteps Passes Stops (IsShown job.now) [] (word_steps job.now) result [] }
{
    let rules = rules_of(alloc, job)?;
    match Selection::new(alloc, job.sides, rules, job.caseless) {
        Ok(selection) => Ok(selection),
        Err(fault) => Err(rule_halt(fault)),
    }
}
