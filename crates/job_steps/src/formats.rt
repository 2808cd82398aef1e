//! Reading the format of a job.

ghost use Rattle.std.specs.Prelude.{◌≡◌, Some, None, IfOk};
ghost use Rattle.std.specs.Option.{option_map};
ghost use Rattle.log_model.specs.Halts.{IfFault};
ghost use Rattle.ncsa_format.specs.Reading.{format_fault, pieces_of};
ghost use Rattle.job_steps.specs.Jobs.{HasFormat, format_text, job_format_fault};

use crate::fault::ToolFault;
use log_model::Halt;
use ncsa_format::{Format, FormatFault, default_format};
use std::alloc::Global;
use tool_words::{Job, Tool};

/// The text of a job's format.
fn format_text(job: &Job) -> &str
    ensures { result.now ≡ format_text job.now }
{
    match &job.format {
        Some(text) => text.as_str(),
        None => default_format(),
    }
}

/// The format of a text, or its fault.
fn parse_format(alloc: Global, text: &str) -> Result<Format, Halt<ToolFault>>
    ensures read { IfOk result (λ format. (format ≡ pieces_of text.now) ×
        (format_fault text.now ≡ None)) }
    ensures refused { IfFault result
        (λ fault. option_map ToolFault.BadFormat (format_fault text.now) ≡ Some fault) }
{
    match Format::parse(alloc, text) {
        Ok(format) => Ok(format),
        Err(FormatFault::BadFormat { at }) => Err(Halt::Fault(ToolFault::BadFormat { at })),
        Err(FormatFault::NoMemory) => Err(Halt::NoMemory),
    }
}

/// The format of a job, where its tool writes lines in one, or the fault of its text.
pub fn read_format(alloc: Global, job: &Job) -> Result<Option<Format>, Halt<ToolFault>>
    ensures read { IfOk result (λ format. HasFormat job.now format ×
        (job_format_fault job.now ≡ None)) }
    ensures refused { IfFault result (λ fault. job_format_fault job.now ≡ Some fault) }
{
    match job.tool {
        Tool::Ncsa => Ok(Some(parse_format(alloc, format_text(job))?)),
        Tool::Log | Tool::Top | Tool::Stat => Ok(None),
    }
}
