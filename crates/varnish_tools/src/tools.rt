//! The top call.

ghost use Rattle.std.specs.Prelude.{◌≡◌, [], false, true, map, Ok, Err, IfOk, IfErr, OnOk, OnErr};
ghost use Rattle.std.specs.String.{string_bytes};
ghost use Rattle.vio.specs.World.{Seen};
ghost use Rattle.vio.specs.Calls.{Called};
ghost use Rattle.vsl_dispatch.specs.Groups.{is_filled};
ghost use Rattle.one_command.specs.Promise.{Says};
ghost use Rattle.tool_words.specs.declared.command.Command.TheVariants.{ForTool, ForConvert};
ghost use Rattle.tool_words.specs.Command.{command_of, is_other};
ghost use Rattle.tool_words.specs.Job.{job_of};
ghost use Rattle.tool_words.specs.Sound.{IsSound};
ghost use Rattle.job_steps.specs.Jobs.{is_on_threads};
ghost use Rattle.varnish_tools.specs.Faults.{fault_message};
ghost use Rattle.varnish_tools.specs.Theorem.{IsCutShort, IsFaithful, PrintsPlain, TouchesJob};
ghost use Rattle.varnish_tools.specs.inside.Ready.{IsReady, PassedRules};
ghost use Rattle.varnish_tools.specs.inside.Works.{IsWorked, SaysPartOf};

use crate::laws::plain_logs_are_printed;
use crate::message::{message_of, status_of};
use crate::outcome::{Outcome, settled};
use job_runs::{
    Ran, convert_log, print_counters, print_feeds, print_live, print_live_counters, print_log,
};
use job_steps::{
    Begun, Counting, Input, ToolFault, is_counting, is_on_threads, read_command, read_selection,
    take_counter_steps, take_group_steps, take_names_steps,
};
use log_model::Halt;
use one_command::say;
use query_parser::Query;
use std::alloc::Global;
use std::sync::Wait;
use std::thread::Threads;
use tool_consumers::{ToolConsumer, consumer_of};
use tool_words::{Command, Job, Names};
use traffic_feed::{Gate, Listing};
use vio::{Created, NoMemory, World};
use vsl_select::Selection;

/// What is left of a job once its steps are taken, and its run where that is over a log.
#[derive(Drop)]
enum Ready<'s> {
    /// Nothing: it ran.
    Over(Ran),
    /// The counters of feeds are to be printed.
    Counters(Counting),
    /// Groups of feeds are to be printed.
    Groups {
        consumer: ToolConsumer<'s>,
        query: Query,
        listings: Vec<Listing>,
        sink: Created,
    },
}

/// Takes the steps of a job behind its rules, and runs it where it has a log.
fn begin<'s, W: World>(
    alloc: Global,
    job: &Job,
    selection: &'s Selection,
    world: &mut W,
) -> Result<Ready<'s>, Halt<ToolFault>>
    requires sound { IsSound job.now }
    requires keeps { is_filled job.now.keep [] ≡ false }
    requires rules { PassedRules job.now selection.now }
    ensures ready { IfOk result
        (λ ready. IsReady job.now ready (W.seen world.old) (W.seen world.new)) }
    ensures ended { IfErr result
        (λ halt. Called (IsWorked (Ok (ForTool job.now)) (W.seen world.new) (Err halt))
        (W.seen world.old) (W.seen world.new)) }
{
    if is_counting(job.tool) {
        let counting = take_counter_steps(alloc, job, world)?;
        return Ok(Ready::Counters(counting));
    }
    let Begun {
        query,
        format,
        input,
        sink,
    } = take_group_steps(alloc, job, world)?;
    let consumer = consumer_of(alloc, job, selection, format)?;
    match input {
        Input::Log(handle) => {
            let ran = print_log(alloc, job, consumer, &query, handle, sink, world)?;
            Ok(Ready::Over(ran))
        }
        Input::Feeds(listings) => Ok(Ready::Groups {
            consumer,
            query,
            listings,
            sink,
        }),
    }
}

/// Works off a job that starts no thread, but for the message of a fault: takes its steps, and runs it.
fn work_alone<W: World>(alloc: Global, job: &Job, world: &mut W) -> Result<Ran, Halt<ToolFault>>
    requires sound { IsSound job.now }
    requires keeps { is_filled job.now.keep [] ≡ false }
    requires alone { is_on_threads job.now ≡ false }
    ensures { Called (IsWorked (Ok (ForTool job.now)) (W.seen world.new) result) (W.seen world.old)
        (W.seen world.new) }
{
    let selection = read_selection(alloc, job)?;
    match begin(alloc, job, &selection, world)? {
        Ready::Over(ran) => Ok(ran),
        Ready::Counters(counting) => Ok(print_counters(alloc, job, counting, world)?),
        Ready::Groups {
            consumer,
            query,
            listings,
            sink,
        } => Ok(print_feeds(alloc, job, consumer, &query, listings, sink, world)?),
    }
}

/// The same for a job whose feeds workers put on threads.
fn work_on_threads<R: Threads + Wait + Sync, W: World, G: Gate>(
    rt: &R,
    alloc: Global,
    job: &Job,
    world: &mut W,
    gate: &G,
) -> Result<Ran, Halt<ToolFault>>
    requires sound { IsSound job.now }
    requires keeps { is_filled job.now.keep [] ≡ false }
    requires threads { is_on_threads job.now ≡ true }
    ensures { Called (IsWorked (Ok (ForTool job.now)) (W.seen world.new) result) (W.seen world.old)
        (W.seen world.new) }
{
    let selection = read_selection(alloc, job)?;
    match begin(alloc, job, &selection, world)? {
        Ready::Over(ran) => Ok(ran),
        Ready::Counters(counting) => {
            Ok(print_live_counters(rt, alloc, job, counting, world, gate)?)
        }
        Ready::Groups {
            consumer,
            query,
            listings,
            sink,
        } => Ok(print_live(
            rt, alloc, job, consumer, &query, listings, sink, world, gate,
        )?),
    }
}

/// Works off `convert` under these names, but for the message of a fault.
fn work_convert<W: World>(
    alloc: Global,
    names: &Names,
    world: &mut W,
) -> Result<Ran, Halt<ToolFault>>
    ensures { Called (IsWorked (Ok (ForConvert names.now)) (W.seen world.new) result)
        (W.seen world.old) (W.seen world.new) }
{
    let opened = take_names_steps(alloc, names, world)?;
    Ok(convert_log(alloc, names, opened, world)?)
}

/// Says the message of a fault on standard error. That this write fails changes nothing else.
fn report<W: World>(
    alloc: Global,
    words: &[String],
    world: &mut W,
    fault: &Option<ToolFault>,
) -> Result<(), NoMemory>
    ensures said { OnOk result
        (Called (Says (fault_message (map string_bytes words.now) fault.now)) (W.seen world.old)
        (W.seen world.new)) }
    ensures part { OnErr result
        (Called (SaysPartOf (map string_bytes words.now) fault.now) (W.seen world.old)
        (W.seen world.new)) }
{
    let Some(fault) = fault else {
        return Ok(());
    };
    let text = message_of(alloc, words, fault)?;
    say(world, &text)
}

/// What is answered where work ended so, once the message of its fault is said.
fn finish<W: World>(
    alloc: Global,
    words: &[String],
    worked: Result<Ran, Halt<ToolFault>>,
    world: &mut W,
) -> Result<Outcome, NoMemory>
    ensures faithful { (before : Seen) →
        Called (IsWorked (command_of (map string_bytes words.now)) (W.seen world.old) worked) before
        (W.seen world.old) → IfOk result
        (λ o. IsFaithful (map string_bytes words.now) o before (W.seen world.new)) }
    ensures memory { (before : Seen) →
        Called (IsWorked (command_of (map string_bytes words.now)) (W.seen world.old) worked) before
        (W.seen world.old) → OnErr result
        (IsCutShort (map string_bytes words.now) before (W.seen world.new)) }
    ensures touches { (before : Seen) →
        Called (IsWorked (command_of (map string_bytes words.now)) (W.seen world.old) worked) before
        (W.seen world.old) → Called (TouchesJob (map string_bytes words.now)) before
        (W.seen world.new) }
{
    let Ran { fault, run } = settled(worked)?;
    report(alloc, words, world, &fault)?;
    let status = status_of(&fault);
    Ok(Outcome { status, fault, run })
}

/// Does what a job asks for that starts no thread: it has a log file, or no feeds, or states whose turn it is. `words` are the words
/// of a command line that state it, and are named in messages. It waits for nobody, and its contract is that of `run_tools`.
pub fn run_alone<W: World>(
    alloc: Global,
    words: &[String],
    job: &Job,
    world: &mut W,
) -> Result<Outcome, NoMemory>
    requires job { job_of (map string_bytes words.now) ≡ Ok job.now }
    requires sound { IsSound job.now }
    requires keeps { is_filled job.now.keep [] ≡ false }
    requires alone { is_on_threads job.now ≡ false }
    ensures faithful { IfOk result
        (λ o. IsFaithful (map string_bytes words.now) o (W.seen world.old) (W.seen world.new)) }
    ensures memory { OnErr result
        (IsCutShort (map string_bytes words.now) (W.seen world.old) (W.seen world.new)) }
    ensures touches { Called (TouchesJob (map string_bytes words.now)) (W.seen world.old)
        (W.seen world.new) }
{
    let worked = work_alone(alloc, job, world);
    finish(alloc, words, worked, world)
}

/// Does what words ask for whose command is no tool: `convert`. It starts no thread and waits for nobody, and its contract is that
/// of `run_tools`.
pub fn run_other<W: World>(
    alloc: Global,
    words: &[String],
    world: &mut W,
) -> Result<Outcome, NoMemory>
    requires other { is_other (map string_bytes words.now) ≡ true }
    ensures faithful { IfOk result
        (λ o. IsFaithful (map string_bytes words.now) o (W.seen world.old) (W.seen world.new)) }
    ensures memory { OnErr result
        (IsCutShort (map string_bytes words.now) (W.seen world.old) (W.seen world.new)) }
    ensures touches { Called (TouchesJob (map string_bytes words.now)) (W.seen world.old)
        (W.seen world.new) }
{
    let names = match read_command(alloc, words) {
        Ok(Command::ForConvert(names)) => names,
        Ok(Command::ForTool(_)) => unreachable!(),
        Err(halt) => return finish(alloc, words, Err(halt), world),
    };
    let worked = work_convert(alloc, &names, world);
    finish(alloc, words, worked, world)
}

/// Does what the words of a command line ask for, without the program's name.
///
/// The steps are taken in order: the words, and the rules in them; the queries, in the order of the words, where the file of each is
/// opened and read, and its text judged, before the next one's; the format of varnishncsa; the log is opened, or is standard input,
/// or the feeds are read, one after the other; what is written is created, or is standard output, and a log file that is appended
/// to with `-a`, and has bytes, is opened and looked at. The first that refuses the job ends the call, and nothing else is done then
/// but that its message is written to standard error.
///
/// Then the job runs. Of varnishlog, what is written gains what is shown of the groups for which a query holds, all where there is
/// none, as lines, or with `-w` and without `-A` as the units of a log file; of varnishncsa a line for each request that is logged
/// of these groups; of varnishtop the report of what is shown of them; of varnishstat the counters of feeds. A log is read in pieces,
/// in one pass; with `-k` no more is taken after the unit, or the overrun, that completes the last group that is kept. A reader of
/// feeds that the writers have overrun says so on standard error, and where it goes on how many units it missed, exactly.
///
/// Feeds whose order isn't stated are put into a ring by workers, each on a thread of its own, or here where none can be made, while
/// this thread reads. Workers run to their end, and are joined before the call returns, whatever it answers. A gate, for tests,
/// is asked before each put and each call of the reader, of which no clause here speaks. Every other job waits for nobody.
///
/// Of `convert` what is written gains the header of a log file and the units of the log that is read, those before its damage where it
/// is damaged.
///
/// The status is 0 without a fault, 2 where the words, a pattern, the text of a query or the format is refused, and else 1. After
/// `NoMemory` a prefix of the output was written.
///
/// Source: varnishlog(1), varnishncsa(1), varnishtop(1), varnishstat(1); the order of refusals, messages and statuses are this
/// project's choice.
pub fn run_tools<R: Threads + Wait + Sync, W: World, G: Gate>(
    rt: &R,
    alloc: Global,
    words: &[String],
    world: &mut W,
    gate: &G,
) -> Result<Outcome, NoMemory>
    ensures plain { IfOk result
        (λ o. PrintsPlain (map string_bytes words.now) o (W.seen world.old) (W.seen world.new)) }
    ensures faithful { IfOk result
        (λ o. IsFaithful (map string_bytes words.now) o (W.seen world.old) (W.seen world.new)) }
    ensures memory { OnErr result
        (IsCutShort (map string_bytes words.now) (W.seen world.old) (W.seen world.new)) }
    ensures touches { Called (TouchesJob (map string_bytes words.now)) (W.seen world.old)
        (W.seen world.new) }
{
    // A law, by which the plain case follows.
    plain_logs_are_printed();
    let job = match read_command(alloc, words) {
        Ok(Command::ForTool(job)) => job,
        Ok(Command::ForConvert(_)) => return run_other(alloc, words, world),
        Err(halt) => return finish(alloc, words, Err(halt), world),
    };
    if !is_on_threads(&job) {
        return run_alone(alloc, words, &job, world);
    }
    let worked = work_on_threads(rt, alloc, &job, world, gate);
    finish(alloc, words, worked, world)
}
