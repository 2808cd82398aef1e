//! What a whole run has to answer.

use crate::logs::OUTPUT;
use std::alloc::Global;
use tool_words::UsageFault;
use varnish_tools::{RunRecord, ToolFault};
use vio::NoMemory;

/// How a run over the file `f` ends.
#[derive(Clone, Copy)]
pub enum Ending {
    Done,
    BadValue,
    /// The file of this name can't be opened or created.
    NoOpen(&'static str),
    /// A read of the file of this name failed.
    ReadFault(&'static str),
    /// A write to what has this name failed.
    WriteFault(&'static str),
    /// At this byte.
    NotALog(u64),
    /// At this byte.
    Damaged(u64),
}

/// The status of an ending.
pub fn status_of(ending: Ending) -> u8 {
    match ending {
        Ending::Done => 0,
        Ending::BadValue => 2,
        _ => 1,
    }
}

/// An ending's fault: its variant, the name that it tells, and the place.
fn fault_of(ending: Ending) -> (&'static str, &'static str, u64) {
    match ending {
        Ending::Done => ("", "", 0),
        Ending::BadValue => ("BadValue", "", 0),
        Ending::NoOpen(name) => ("NoOpen", name, 0),
        Ending::ReadFault(name) => ("ReadFault", name, 0),
        Ending::WriteFault(name) => ("WriteFault", name, 0),
        Ending::NotALog(at) => ("NotALog", "f", at),
        Ending::Damaged(at) => ("Damaged", "f", at),
    }
}

/// What a message says after the name, or all that it says.
fn what_of(ending: Ending) -> &'static str {
    match ending {
        Ending::Done => "",
        Ending::BadValue => "bad value: -k0",
        Ending::NoOpen(_) => ": cannot open",
        Ending::ReadFault(_) => ": read failed",
        Ending::WriteFault(_) => ": write failed",
        Ending::NotALog(_) => ": not a log at ",
        Ending::Damaged(_) => ": damaged at ",
    }
}

/// Whether a message tells a place.
fn has_place(ending: Ending) -> bool {
    matches!(ending, Ending::NotALog(_) | Ending::Damaged(_))
}

/// The message of an ending.
pub fn message_of(alloc: Global, ending: Ending) -> Result<Vec<u8>, NoMemory> {
    if matches!(ending, Ending::Done) {
        return Ok(Vec::new(alloc));
    }
    let (_, name, at) = fault_of(ending);
    let what = what_of(ending);
    let message = if has_place(ending) {
        format!(in alloc; "vtools: {name}{what}{at}\n")
    } else {
        format!(in alloc; "vtools: {name}{what}\n")
    };
    Ok(message?.into_bytes())
}

/// A fault's variant, the name that it tells, and the place, where it is one of an ending.
fn told_in(fault: &ToolFault) -> (&'static str, &str, u64) {
    match fault {
        ToolFault::Usage(UsageFault::BadValue { .. }) => ("BadValue", "", 0),
        ToolFault::NoOpen { name } => ("NoOpen", name.as_str(), 0),
        ToolFault::ReadFault { name } => ("ReadFault", name.as_str(), 0),
        ToolFault::WriteFault { name } => ("WriteFault", name.as_str(), 0),
        ToolFault::NotALog { name, at } => ("NotALog", name.as_str(), *at),
        ToolFault::Damaged { name, at } => ("Damaged", name.as_str(), *at),
        _ => ("another fault", "", 0),
    }
}

/// Whether a fault is that of an ending, with its name and its place; no fault has no variant.
pub fn is_fault_of(fault: &Option<ToolFault>, ending: Ending) -> bool {
    let told = match fault {
        None => ("", "", 0),
        Some(fault) => told_in(fault),
    };
    told == fault_of(ending)
}

/// What a run record tells.
#[derive(Clone, Copy, Debug, PartialEq, Eq)]
pub enum Took {
    Nothing,
    /// So many units, and so many items of their history.
    Counted(u64, u64),
    /// A ring that is closed.
    Closed,
}

/// What a run record tells.
pub fn took_of(run: &RunRecord) -> Took {
    match run {
        RunRecord::Nothing => Took::Nothing,
        RunRecord::Counted { units, items } => Took::Counted(*units, *items),
        RunRecord::Closed(_) => Took::Closed,
    }
}

/// All that a run answers and writes.
#[derive(Clone, Copy)]
pub struct Answer<'a> {
    pub ending: Ending,
    pub took: Took,
    /// The handle of what is written, and what it has then.
    pub sink: u32,
    pub output: &'a [u8],
    /// How many bytes of the message are written, if it has more.
    pub written: usize,
}

/// The answer of a run that takes nothing.
pub fn refused(ending: Ending) -> Answer<'static> {
    Answer {
        ending,
        took: Took::Nothing,
        sink: OUTPUT.handle,
        output: b"",
        written: usize::MAX,
    }
}

/// The answer of a run that takes so many units.
pub fn taken<'a>(ending: Ending, units: u64, output: &'a [u8]) -> Answer<'a> {
    Answer {
        took: Took::Counted(units, 1),
        output,
        ..refused(ending)
    }
}
