//! What the given options change in a job.

ghost use Rattle.std.specs.Prelude.{◌≡◌, ◌∷◌, [], ◌++◌, IfOk, OnOk, unwrap_or};
ghost use Rattle.tool_words.specs.Fold.{number_or, or_json, plain_job, with_choice, with_options, with_query, with_rule};
ghost use Rattle.tool_words.specs.Number.{grouping_named};

use crate::job::{Job, Order, QueryText, StatMode, Tool};
use crate::lookup::option_number;
use crate::number::{read_count_and_seed, read_grouping};
use crate::options::Choice;
use crate::reading::Given;
use log_model::{Listed, Text};
use std::alloc::{AllocError, Global};
use txn_rows::Grouping;
use vsl_select::{RuleText, Sides};

/// The job of a tool without options.
pub(crate) fn new_job(alloc: Global, tool: Tool) -> Job
    ensures { result ≡ plain_job tool }
{
    Job {
        tool,
        file: None,
        feeds: Listed::new(alloc),
        made: None,
        seg: 65_536,
        reclen: 255,
        order: Order::Threads,
        grouping: Grouping::Vxid,
        limit: 1_000,
        timeout: 120,
        keep: None,
        sides: Sides {
            backend: false,
            client: false,
            esi: false,
        },
        caseless: false,
        verbose: false,
        queries: Listed::new(alloc),
        rules: Listed::new(alloc),
        write: None,
        append: false,
        text: false,
        format: None,
        first_field: false,
        stat: StatMode::Once,
        globs: Listed::new(alloc),
    }
}

/// The number that an option has of a value, or what was there before.
fn number_of(choice: Choice, value: &Text, before: u32) -> u32
    ensures { result ≡ number_or choice value.now before }
{
    match option_number(choice, value.as_bytes()) {
        Some(number) => number,
        None => before,
    }
}

/// The grouping of a value, or what was there before.
fn grouping_or(value: &Text, before: Grouping) -> Grouping
    ensures { result ≡ unwrap_or (grouping_named value.now) before }
{
    match read_grouping(value.as_str()) {
        Some(grouping) => grouping,
        None => before,
    }
}

/// JSON, but for the list of counters, which counts before it.
fn json_or_list(mode: StatMode) -> StatMode
    ensures { result ≡ or_json mode }
{
    match mode {
        StatMode::List => StatMode::List,
        _ => StatMode::Json,
    }
}

/// One more query.
fn add_query(job: &mut Job, file: bool, text: Text) -> Result<(), AllocError>
    ensures { OnOk result (job.new ≡ with_query file text job.old) }
{
    let query = QueryText { file, text };
    job.queries.push(query)?;
    Ok(())
}

/// One more rule.
fn add_rule(
    job: &mut Job,
    include: bool,
    regex: bool,
    word: u32,
    text: Text,
) -> Result<(), AllocError>
    ensures { OnOk result (job.new ≡ with_rule include regex word text job.old) }
{
    let rule = RuleText {
        include,
        regex,
        text,
        word,
    };
    job.rules.push(rule)?;
    Ok(())
}

/// One more text.
fn add_name(names: &mut Listed<Text>, name: Text) -> Result<(), AllocError>
    ensures { OnOk result (names.new ≡ names.old ++ name ∷ []) }
{
    names.push(name)?;
    Ok(())
}

/// What an option changes in a job, by the place and the text of its value.
fn add_choice(job: &mut Job, choice: Choice, word: u32, text: Text) -> Result<(), AllocError>
    ensures { OnOk result (job.new ≡ with_choice choice word text job.old) }
{
    match choice {
        Choice::Append => job.append = true,
        Choice::AsText => job.text = true,
        Choice::Backend => job.sides.backend = true,
        Choice::Caseless => job.caseless = true,
        Choice::Client => job.sides.client = true,
        Choice::Esi => job.sides.esi = true,
        Choice::Exclude => add_rule(job, false, false, word, text)?,
        Choice::ExcludePattern => add_rule(job, false, true, word, text)?,
        Choice::Feed => add_name(&mut job.feeds, text)?,
        Choice::FeedFirst => job.order = Order::FeedFirst,
        Choice::FileName => job.file = Some(text),
        Choice::FirstField => job.first_field = true,
        Choice::Format => job.format = Some(text),
        Choice::FromHead | Choice::Once => {}
        Choice::Glob => add_name(&mut job.globs, text)?,
        Choice::Group => job.grouping = grouping_or(&text, job.grouping),
        Choice::Include => add_rule(job, true, false, word, text)?,
        Choice::IncludePattern => add_rule(job, true, true, word, text)?,
        Choice::Json => job.stat = json_or_list(job.stat),
        Choice::Keep => job.keep = option_number(Choice::Keep, text.as_bytes()),
        Choice::Limit => job.limit = number_of(Choice::Limit, &text, job.limit),
        Choice::ListCounters => job.stat = StatMode::List,
        Choice::Made => job.made = read_count_and_seed(text.as_bytes()),
        Choice::Query => add_query(job, false, text)?,
        Choice::QueryFile => add_query(job, true, text)?,
        Choice::RecordLength => job.reclen = number_of(Choice::RecordLength, &text, job.reclen),
        Choice::Segment => job.seg = number_of(Choice::Segment, &text, job.seg),
        Choice::Timeout => job.timeout = number_of(Choice::Timeout, &text, job.timeout),
        Choice::Turns => job.order = Order::Turns(number_of(Choice::Turns, &text, 0)),
        Choice::Verbose => job.verbose = true,
        Choice::Write => job.write = Some(text),
    }
    Ok(())
}

/// What an option that is given changes in a job.
fn add_option(job: &mut Job, one: Given) -> Result<(), AllocError>
    ensures { OnOk result (job.new ≡ with_choice one.choice one.word one.value job.old) }
{
    let Given {
        choice,
        word,
        value,
    } = one;
    add_choice(job, choice, word, value)
}

/// What the given options change in a job, each in turn.
pub(crate) fn add_options(job: Job, given: Vec<Given>) -> Result<Job, AllocError>
    ensures { IfOk result (λ j. j ≡ with_options given.items job) }
{
    let mut job = job;
    for one in given {
        add_option(&mut job, one)?;
    }
    Ok(job)
}
