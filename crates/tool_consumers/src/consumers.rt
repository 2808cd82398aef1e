//! The consumer of a job's tool.

ghost use Rattle.std.specs.Prelude.{◌≡◌, [], false, IfOk};
ghost use Rattle.vsl_top.specs.Counting.{IsTop, keep_of};
ghost use Rattle.vsl_top.specs.Counting as counting;
ghost use Rattle.ncsa_format.specs.Access.{IsAccessLog};
ghost use Rattle.ncsa_format.specs.Access as access;
ghost use Rattle.job_steps.specs.Jobs.{HasFormat, is_counting, showing_of};
ghost use Rattle.tool_consumers.specs.Consumers.{IsJobConsumer, consumer_keep, consumer_output, consumer_represents};
ghost use Rattle.tool_consumers.specs.Output.{head_text, laid_out, layout_of, look_of, output_of};
ghost use Rattle.tool_consumers.specs.inside.Consumer.{IsLog};

use crate::layout::{Layout, Look};
use crate::log_consumer::LogConsumer;
use job_steps::writes_log;
use ncsa_format::{Format, NcsaConsumer};
use std::alloc::Global;
use tool_words::{Job, Tool};
use txn_rows::Group;
use vio::NoMemory;
use vsl_dispatch::{Consumer, Go};
use vsl_file::put_header;
use vsl_record::Unit;
use vsl_select::{Selection, Viewer};
use vsl_top::TopConsumer;

/// How a job writes groups.
fn layout_of(job: &Job) -> Layout
    ensures { result ≡ layout_of job.now }
{
    if writes_log(job) {
        Layout::Units
    } else {
        Layout::Lines
    }
}

/// What groups look like in what a job writes, of which this is shown.
fn look_of<'s>(alloc: Global, job: &Job, selection: &'s Selection) -> Result<Look<'s>, NoMemory>
    requires { selection.now ≡ showing_of job.now }
    ensures { IfOk result (λ look. look ≡ look_of job.now) }
{
    Ok(Look {
        layout: layout_of(job),
        verbose: job.verbose,
        viewer: Viewer::new(alloc, selection)?,
    })
}

/// What a job writes before any group: the header of a log file that was empty.
pub fn head_of(alloc: Global, job: &Job, empty: bool) -> Result<Vec<u8>, NoMemory>
    ensures { IfOk result (λ head. head.items ≡ head_text job.now empty) }
{
    let mut head = Vec::new(alloc);
    if writes_log(job) && empty {
        put_header(&mut head)?;
    }
    Ok(head)
}

/// The consumer of a job of varnishtop, which received nothing.
fn top_consumer<'s>(
    alloc: Global,
    job: &Job,
    selection: &'s Selection,
) -> Result<TopConsumer<'s>, NoMemory>
    requires tool { job.now.tool ≡ Tool.Top }
    requires selection { selection.now ≡ showing_of job.now }
    ensures keeps { IfOk result (λ c. keep_of c ≡ job.now.keep) }
    ensures writes { IfOk result (λ c. counting.output_of c ≡ output_of job.now) }
    ensures new { IfOk result (λ c. IsTop c [] false []) }
{
    TopConsumer::new(alloc, selection, job.first_field, job.keep)
}

/// The consumer of a job of varnishlog, which received nothing.
fn log_consumer<'s>(
    alloc: Global,
    job: &Job,
    selection: &'s Selection,
) -> Result<LogConsumer<'s>, NoMemory>
    requires tool { job.now.tool ≡ Tool.Log }
    requires selection { selection.now ≡ showing_of job.now }
    ensures keeps { IfOk result (λ c. c.received.keep ≡ job.now.keep) }
    ensures writes { IfOk result
        (λ c. (λ groups ended. laid_out c.look groups) ≡ output_of job.now) }
    ensures new { IfOk result (λ c. IsLog c [] false []) }
{
    let look = look_of(alloc, job, selection)?;
    Ok(LogConsumer::new(alloc, look, job.keep))
}

/// The consumer of a job of varnishncsa, which received nothing.
fn ncsa_consumer(alloc: Global, job: &Job, format: Option<Format>) -> Result<NcsaConsumer, NoMemory>
    requires tool { job.now.tool ≡ Tool.Ncsa }
    requires format { HasFormat job.now format }
    ensures keeps { IfOk result (λ c. access.keep_of c ≡ job.now.keep) }
    ensures writes { IfOk result (λ c. access.output_of c ≡ output_of job.now) }
    ensures new { IfOk result (λ c. IsAccessLog c [] false []) }
{
    let Some(format) = format else { unreachable!() };
    NcsaConsumer::new(alloc, format, job.sides, job.keep)
}

/// The consumer of a tool.
#[derive(Drop)]
pub enum ToolConsumer<'s> {
    /// Of varnishlog.
    Log(LogConsumer<'s>),
    /// Of varnishncsa.
    Ncsa(NcsaConsumer),
    /// Of varnishtop.
    Top(TopConsumer<'s>),
}

impl<'s> Consumer for ToolConsumer<'s> {
    ghost use Rattle.tool_consumers.specs.Consumers.{consumer_keep, consumer_output, consumer_represents};

    ghost keep = { consumer_keep };

    ghost output = { consumer_output };

    ghost represents = { consumer_represents };

    fn group(&mut self, group: &Group) -> Result<Go, NoMemory> {
        match self {
            ToolConsumer::Log(log) => log.group(group),
            ToolConsumer::Ncsa(ncsa) => ncsa.group(group),
            ToolConsumer::Top(top) => top.group(group),
        }
    }

    fn records(&mut self, unit: &Unit) -> Result<bool, NoMemory> {
        match self {
            ToolConsumer::Log(log) => log.records(unit),
            ToolConsumer::Ncsa(ncsa) => ncsa.records(unit),
            ToolConsumer::Top(top) => top.records(unit),
        }
    }

    fn end(&mut self) -> Result<(), NoMemory> {
        match self {
            ToolConsumer::Log(log) => log.end(),
            ToolConsumer::Ncsa(ncsa) => ncsa.end(),
            ToolConsumer::Top(top) => top.end(),
        }
    }

    fn take_text(&mut self) -> Vec<u8> {
        match self {
            ToolConsumer::Log(log) => log.take_text(),
            ToolConsumer::Ncsa(ncsa) => ncsa.take_text(),
            ToolConsumer::Top(top) => top.take_text(),
        }
    }

    fn text_len(&self) -> usize {
        match self {
            ToolConsumer::Log(log) => log.text_len(),
            ToolConsumer::Ncsa(ncsa) => ncsa.text_len(),
            ToolConsumer::Top(top) => top.text_len(),
        }
    }
}

/// The consumer of a job's tool, which received nothing.
pub fn consumer_of<'s>(
    alloc: Global,
    job: &Job,
    selection: &'s Selection,
    format: Option<Format>,
) -> Result<ToolConsumer<'s>, NoMemory>
    requires reads { is_counting job.now.tool ≡ false }
    requires selection { selection.now ≡ showing_of job.now }
    requires format { HasFormat job.now format }
    ensures { IfOk result (λ c.
        IsJobConsumer consumer_keep consumer_output consumer_represents job.now c) }
{
    match job.tool {
        Tool::Ncsa => Ok(ToolConsumer::Ncsa(ncsa_consumer(alloc, job, format)?)),
        Tool::Top => Ok(ToolConsumer::Top(top_consumer(alloc, job, selection)?)),
        Tool::Log => Ok(ToolConsumer::Log(log_consumer(alloc, job, selection)?)),
        Tool::Stat => unreachable!(),
    }
}
