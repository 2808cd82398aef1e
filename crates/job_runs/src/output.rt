//! The output of a job that prints groups, and how its end is answered.

ghost use Rattle.std.specs.Prelude.{◌≡◌, [], codes, false, IfOk};
ghost use Rattle.vsl_dispatch.specs.Groups.{is_filled};
ghost use Rattle.text_printer.specs.Printer.{HoldsAt, filled_at, text_at};
ghost use Rattle.tool_consumers.specs.Consumers.{IsJobConsumer};
ghost use Rattle.job_runs.specs.Rows.{one_answer};
ghost use Rattle.job_runs.specs.inside.Outputs.{IsOne, query_due};

use fan_output::{FanEnd, FanEnding, FanOutput, Sink};
use job_steps::{ToolFault, options_of, written_name};
use log_model::Text;
use query_parser::Query;
use std::alloc::Global;
use text_printer::Printer;
use tool_consumers::head_of;
use tool_words::Job;
use vio::{Created, NoMemory};
use vsl_dispatch::Consumer;

/// The output of a job's consumer to what it writes, which printed nothing.
pub fn output_of<'q, C: Consumer>(
    alloc: Global,
    job: &Job,
    consumer: C,
    query: &'q Query,
    sink: Created,
) -> Result<FanOutput<Printer<'q, C>>, NoMemory>
    requires consumer { IsJobConsumer C.keep C.output C.represents job.now consumer }
    requires keeps { is_filled job.now.keep [] ≡ false }
    ensures { IfOk result
        (λ o. IsOne (text_at C.keep C.output) (filled_at C.keep C.output)
        (HoldsAt C.keep C.output C.represents) (λ p. 1) sink.handle
        (query_due job.now query.now sink.empty) o) }
{
    let head = head_of(alloc, job, sink.empty)?;
    let name = Text::new(alloc, written_name(job))?;
    let printer = Printer::new(alloc, options_of(job), query, consumer)?;
    let to = Sink {
        handle: sink.handle,
        name,
        head,
    };
    match FanOutput::of_one(alloc, printer, to) {
        Ok(output) => Ok(output),
        Err(_) => Err(NoMemory),
    }
}

/// How it is answered that the one output ended so, to a sink of this name. `errors` is the name of standard error.
pub fn answer(ending: FanEnding, name: Text, errors: Text) -> Option<ToolFault>
    requires { errors ≡ codes "stderr" }
    ensures { result ≡ one_answer name ending }
{
    if ending.unwritten.is_some() {
        return Some(ToolFault::WriteFault { name });
    }
    match ending.how {
        FanEnd::Whole | FanEnd::Idle => None,
        FanEnd::Unreported => Some(ToolFault::WriteFault { name: errors }),
    }
}
