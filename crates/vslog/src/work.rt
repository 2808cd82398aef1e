//! Copying the log of a job.

ghost use Rattle.std.specs.Prelude.{◌≡◌, IfOk};
ghost use Rattle.log_model.specs.Halts.{IfFault, OnShort};
ghost use Rattle.vio.specs.Calls.{Called};
ghost use Rattle.vslog.specs.Words.{job_as};
ghost use Rattle.vslog.specs.Theorem.{Begun, Copies, LacksWork, StopsWith};
ghost use Rattle.vslog.specs.inside.Work.{IsBegun};

use crate::ended::RunFault;
use crate::words::Job;
use log_model::{Halt, NoMemory};
use std::alloc::Global;
use varnish_log::{Copied, copy_log};
use vio::{World, WorldFault, create_stream, open_stream, write_all};
use vsl_file::put_header;

/// The handles between which a log is copied.
#[derive(Clone, Copy)]
struct Ends {
    input: u32,
    output: u32,
}

/// Opens what is read, creates what is written, and writes the header of a log file where that is empty.
fn begin<W: World>(alloc: Global, world: &mut W, job: Job<'_>) -> Result<Ends, Halt<RunFault>>
    ensures begun { IfOk result
        (λ ends. Called (IsBegun (job_as job.entry) ends) (W.seen world.old) (W.seen world.new)) }
    ensures fault { IfFault result
        (λ fault. Called (StopsWith (job_as job.entry) fault) (W.seen world.old)
        (W.seen world.new)) }
    ensures short { OnShort result
        (Called (LacksWork (job_as job.entry)) (W.seen world.old) (W.seen world.new)) }
{
    let mut header = Vec::new(alloc);
    put_header(&mut header)?;
    let input = match open_stream(world, job.input) {
        Ok(handle) => handle,
        Err(WorldFault::Failed) => return Err(Halt::Fault(RunFault::NoInput)),
        Err(WorldFault::NoMemory) => return Err(Halt::NoMemory),
    };
    let made = match create_stream(world, job.output, job.append) {
        Ok(made) => made,
        Err(WorldFault::Failed) => return Err(Halt::Fault(RunFault::NoOutput)),
        Err(WorldFault::NoMemory) => return Err(Halt::NoMemory),
    };
    if made.empty {
        match write_all(world, made.handle, &header) {
            Ok(()) => {}
            Err(WorldFault::Failed) => return Err(Halt::Fault(RunFault::NoHeader)),
            Err(WorldFault::NoMemory) => return Err(Halt::NoMemory),
        }
    }
    Ok(Ends {
        input,
        output: made.handle,
    })
}

/// Copies the log of a job.
pub fn work<W: World>(alloc: Global, world: &mut W, job: Job<'_>) -> Result<Copied, Halt<RunFault>>
    ensures copied { IfOk result
        (λ copied. Called (Copies (job_as job.entry) copied) (W.seen world.old)
        (W.seen world.new)) }
    ensures fault { IfFault result
        (λ fault. Called (StopsWith (job_as job.entry) fault) (W.seen world.old)
        (W.seen world.new)) }
    ensures short { OnShort result
        (Called (LacksWork (job_as job.entry)) (W.seen world.old) (W.seen world.new)) }
{
    let ends = begin(alloc, world, job)?;
    match copy_log(alloc, world, job.asked, ends.input, ends.output) {
        Ok(copied) => Ok(copied),
        Err(Halt::Fault(fault)) => Err(Halt::Fault(RunFault::Log(fault))),
        Err(Halt::NoMemory) => Err(Halt::NoMemory),
    }
}
