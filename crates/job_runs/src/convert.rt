//! A run that writes the units of a log as a log file.

ghost use Rattle.std.specs.Prelude.{◌≡◌, ◌≢◌, true, IfOk, OnErr};
ghost use Rattle.vio.specs.declared.world.TheConstants.{ERRORS};
ghost use Rattle.vio.specs.World.{Writing};
ghost use Rattle.vio.specs.Calls.{Called};
ghost use Rattle.job_runs.specs.Converts.{Converts, ConvertsPart};
ghost use Rattle.job_runs.specs.Runs.{RanSo};
ghost use Rattle.job_runs.specs.inside.Outputs.{IsOne};
ghost use Rattle.vsl_file.specs.File.{file_header};
ghost use Rattle.unit_text.specs.Texts.{HoldsUnits, units_filled, units_text};
ghost use Rattle.unit_text.specs.Units.{units_due};

use crate::log::stop_answer;
use crate::output::answer;
use crate::record::{Ran, RunRecord};
use fan_output::{FanOutput, Sink};
use job_steps::Opened;
use log_model::Text;
use one_run::{RunEnd, RunEnded, run};
use run_sources::FileItems;
use std::alloc::Global;
use tool_words::Names;
use unit_text::UnitsText;
use vio::{NoMemory, World};
use vsl_file::put_header;

/// What stands before all units: the header of a log file.
fn header_of(alloc: Global) -> Result<Vec<u8>, NoMemory>
    ensures { IfOk result (λ head. head.items ≡ file_header) }
{
    let mut head = Vec::new(alloc);
    put_header(&mut head)?;
    Ok(head)
}

/// The output of a command to the name that it writes, of which this is the handle.
fn output_to(alloc: Global, names: &Names, sink: u32) -> Result<FanOutput<UnitsText>, NoMemory>
    ensures { IfOk result (λ o. IsOne units_text units_filled HoldsUnits (λ u. 1) sink
        (units_due names.now.output) o) }
{
    let head = header_of(alloc)?;
    let name = Text::new(alloc, names.output.as_str())?;
    let texts = UnitsText::new(alloc);
    let to = Sink {
        handle: sink,
        name,
        head,
    };
    match FanOutput::of_one(alloc, texts, to) {
        Ok(output) => Ok(output),
        Err(_) => Err(NoMemory),
    }
}

/// Writes the units of the log that was opened.
pub fn convert_log<W: World>(
    alloc: Global,
    names: &Names,
    opened: Opened,
    world: &mut W,
) -> Result<Ran, NoMemory>
    requires named { (W.seen world.old).names Writing opened.sink.handle names.now.output ≡ true }
    requires apart { opened.sink.handle ≢ ERRORS }
    ensures ran { IfOk result
        (λ r. Called (RanSo (Converts names.now opened.handle opened.sink.handle
        (W.seen world.new) r.fault r.run))
        (W.seen world.old) (W.seen world.new)) }
    ensures short { OnErr result (Called (ConvertsPart names.now opened.handle opened.sink.handle)
        (W.seen world.old) (W.seen world.new)) }
{
    let name = Text::new(alloc, names.input.as_str())?;
    let written = Text::new(alloc, names.output.as_str())?;
    let errors = Text::new(alloc, "stderr")?;
    let mut output = output_to(alloc, names, opened.sink.handle)?;
    let mut log = FileItems::new(alloc, opened.handle)?;
    let RunEnded { end, met: _ } = run(world, &mut log, &mut output)?;
    match end {
        RunEnd::ByOutput(ending) => Ok(Ran {
            fault: answer(ending, written, errors),
            run: RunRecord::Nothing,
        }),
        RunEnd::BySource(stop) => Ok(Ran {
            fault: Some(stop_answer(name, stop)),
            run: RunRecord::Nothing,
        }),
    }
}
