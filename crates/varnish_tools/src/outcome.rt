//! What the top call answers.

ghost use Rattle.std.specs.Prelude.{IfOk, OnErr};
ghost use Rattle.varnish_tools.specs.inside.Works.{IsSettled};

use job_runs::{Ran, RunRecord};
use job_steps::ToolFault;
use log_model::{Halt, NoMemory};

/// How a tool ended.
#[derive(Drop)]
pub struct Outcome {
    /// The exit status: 0 done, 1 the input or the outside failed, 2 the words, a format or the text of a query was refused.
    pub status: u8,
    /// Why it stopped early, if it did.
    pub fault: Option<ToolFault>,
    /// What was taken of the input.
    pub run: RunRecord,
}

/// What is answered where a job was worked off, or stopped before its run with a fault; then nothing was taken.
pub fn settled(worked: Result<Ran, Halt<ToolFault>>) -> Result<Ran, NoMemory>
    ensures { IsSettled worked result }
{
    match worked {
        Ok(ran) => Ok(ran),
        Err(Halt::Fault(fault)) => Ok(Ran {
            fault: Some(fault),
            run: RunRecord::Nothing,
        }),
        Err(Halt::NoMemory) => Err(NoMemory),
    }
}
