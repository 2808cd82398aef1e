//! Opening what a job reads, and creating what it writes.

ghost use Rattle.std.specs.Prelude.{◌≡◌, ◌≢◌, ◌≤◌, true, [], ◌∷◌, take, IfOk, OnErr};
ghost use Rattle.vio.specs.declared.world.TheConstants.{ERRORS};
ghost use Rattle.vio.specs.World.{FaultsRose, Reading, Writing};
ghost use Rattle.vio.specs.Calls.{Called};
ghost use Rattle.vio.specs.Steps.{TookSteps};
ghost use Rattle.vsl_file.specs.File.{file_header};
ghost use Rattle.job_steps.specs.Jobs.{write_of};
ghost use Rattle.job_steps.specs.Steps.{AppendLog, FoundLog, FoundSink, MakeSink, OpenLog, Passes, Stops, file_named, sink_step};
ghost use Rattle.job_steps.specs.Took.{TookAll};
ghost use Rattle.job_steps.specs.inside.Tasks.{IsStartOf, Looked, ReadFew};

use crate::fault::ToolFault;
use crate::words::{appends_log, written_name};
use log_model::{Halt, Text};
use std::alloc::Global;
use tool_words::Job;
use vio::{Created, Failed, World, WorldFault, create_stream, open_stream};
use vsl_file::{put_header, read_behind};

/// How many bytes the header of a log file has.
const START: usize = 8;

/// Opens the log of this name: a file, or standard input.
pub fn open_log<W: World>(alloc: Global, name: &str, world: &mut W) -> Result<u32, Halt<ToolFault>>
    ensures took { Called (TookSteps Passes Stops (λ handle found. found ≡ FoundLog handle ∷ [])
        (file_named name.now) (OpenLog name.now ∷ []) result) (W.seen world.old)
        (W.seen world.new) }
{
    let copy = Text::new(alloc, name)?;
    match open_stream(world, name) {
        Ok(handle) => Ok(handle),
        Err(WorldFault::Failed) => Err(Halt::Fault(ToolFault::NoOpen { name: copy })),
        Err(WorldFault::NoMemory) => Err(Halt::NoMemory),
    }
}

/// Creates the file of this name, or gives standard output, which counts as empty.
pub fn make_sink<W: World>(
    alloc: Global,
    name: &str,
    append: bool,
    world: &mut W,
) -> Result<Created, Halt<ToolFault>>
    ensures took { Called (TookSteps Passes Stops
        (λ sink found. found ≡ FoundSink sink.handle sink.empty ∷ [])
        [] (MakeSink append name.now ∷ []) result) (W.seen world.old) (W.seen world.new) }
    ensures named { IfOk result
        (λ sink. (W.seen world.new).names Writing sink.handle name.now ≡ true) }
    ensures apart { IfOk result (λ sink. sink.handle ≢ ERRORS) }
{
    let copy = Text::new(alloc, name)?;
    match create_stream(world, name, append) {
        Ok(sink) => Ok(sink),
        Err(WorldFault::Failed) => Err(Halt::Fault(ToolFault::NoOpen { name: copy })),
        Err(WorldFault::NoMemory) => Err(Halt::NoMemory),
    }
}

/// Reads the first bytes of a file, as many as a header has, or all that there are.
fn read_start<W: World>(world: &mut W, handle: u32, start: &mut [u8; 8]) -> Result<usize, Failed>
    ensures read { IfOk result
        (λ n. Called (IsStartOf handle (take n start.new)) (W.seen world.old) (W.seen world.new)) }
    ensures within { IfOk result (λ n. n ≤ 8) }
    ensures part { OnErr result (ReadFew handle (W.seen world.old) (W.seen world.new)) }
    ensures rose { OnErr result (FaultsRose Reading handle (W.seen world.old) (W.seen world.new)) }
{
    let mut size = 0;
    while size < START {
        let n = read_behind(start, size, handle, world)?;
        if n == 0 {
            return Ok(size);
        }
        size += n;
    }
    Ok(size)
}

/// Opens the file of this name, and looks whether it begins with the header.
fn look<W: World>(name: Text, header: &[u8], world: &mut W) -> Result<(), Halt<ToolFault>>
    requires { header.now ≡ file_header }
    ensures { Called (Looked name result) (W.seen world.old) (W.seen world.new) }
{
    let handle = match world.open(name.as_str()) {
        Ok(handle) => handle,
        Err(WorldFault::Failed) => return Err(Halt::Fault(ToolFault::NoOpen { name })),
        Err(WorldFault::NoMemory) => return Err(Halt::NoMemory),
    };
    let mut start = [0; 8];
    let Ok(size) = read_start(world, handle, &mut start) else {
        return Err(Halt::Fault(ToolFault::ReadFault { name }));
    };
    let (first, _) = start.split_at(size);
    if first == header {
        Ok(())
    } else {
        Err(Halt::Fault(ToolFault::OldLog { name }))
    }
}

/// Creates the log file of this name, which keeps its bytes, and looks at it where it has some; or gives standard output.
fn append_log<W: World>(
    alloc: Global,
    name: &str,
    world: &mut W,
) -> Result<Created, Halt<ToolFault>>
    ensures took { Called (TookAll (λ sink found. found ≡ FoundSink sink.handle sink.empty ∷ [])
        (AppendLog name.now ∷ []) result) (W.seen world.old) (W.seen world.new) }
    ensures named { IfOk result
        (λ sink. (W.seen world.new).names Writing sink.handle name.now ≡ true) }
    ensures apart { IfOk result (λ sink. sink.handle ≢ ERRORS) }
{
    let copy = Text::new(alloc, name)?;
    let mut header = Vec::new(alloc);
    put_header(&mut header)?;
    let sink = match create_stream(world, name, true) {
        Ok(sink) => sink,
        Err(WorldFault::Failed) => return Err(Halt::Fault(ToolFault::NoOpen { name: copy })),
        Err(WorldFault::NoMemory) => return Err(Halt::NoMemory),
    };
    if sink.empty {
        return Ok(sink);
    }
    look(copy, &header, world)?;
    Ok(sink)
}

/// Creates what a job writes, or gives standard output. A log file that is appended to is looked at.
pub fn make_out<W: World>(
    alloc: Global,
    job: &Job,
    world: &mut W,
) -> Result<Created, Halt<ToolFault>>
    ensures took { Called (TookAll (λ sink found. found ≡ FoundSink sink.handle sink.empty ∷ [])
        (sink_step job.now ∷ []) result) (W.seen world.old) (W.seen world.new) }
    ensures named { IfOk result
        (λ sink. (W.seen world.new).names Writing sink.handle (write_of job.now) ≡ true) }
    ensures apart { IfOk result (λ sink. sink.handle ≢ ERRORS) }
{
    if appends_log(job) {
        append_log(alloc, written_name(job), world)
    } else {
        make_sink(alloc, written_name(job), job.append, world)
    }
}
