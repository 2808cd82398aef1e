//! What is said on standard error.

ghost use Rattle.std.specs.Prelude.{◌≡◌, ◌++◌, [], map, slice_index_or, IfOk, OnOk};
ghost use Rattle.std.specs.String.{string_bytes};
ghost use Rattle.vslog.specs.Messages.{byte_of, copy_message, counted_line, counts_text, damage_text, fault_message, log_message, looks_text, loss_text, lost_text, text_due, told, usage_message};
ghost use Rattle.vslog.specs.Words.{job_as};

use crate::ended::{Ended, RunFault};
use crate::words::{Job, UsageFault};
use one_command::numbered;
use std::alloc::{AllocError, Global};
use varnish_log::{Copied, CopyFault, LogFault, Looks, Loss};

/// How many bytes stand before the first record of a binary log.
const FIRST_BYTES: u64 = 4;

/// A line of two texts, after the program's name.
fn tell_both(alloc: Global, first: &[u8], second: &[u8]) -> Result<Vec<u8>, AllocError>
    ensures { IfOk result (λ v. v.items ≡ told (first.now ++ second.now)) }
{
    let mut text = Vec::from_slice(alloc, b"vslog: ")?;
    text.extend_from_slice(first)?;
    text.extend_from_slice(second)?;
    text.push(b'\n')?;
    Ok(text)
}

/// A line of two texts, after the program's name.
fn tell(alloc: Global, first: &str, second: &str) -> Result<Vec<u8>, AllocError>
    ensures { IfOk result (λ v. v.items ≡ told (first.now ++ second.now)) }
{
    tell_both(alloc, first.as_bytes(), second.as_bytes())
}

/// The word at a place.
fn word_at(words: &[String], place: usize) -> &str
    ensures { result.now ≡ slice_index_or (map string_bytes words.now) place [] }
{
    match words.get(place) {
        Some(word) => word.as_str(),
        None => "",
    }
}

/// What is wrong with the words.
pub fn usage_message(
    alloc: Global,
    words: &[String],
    fault: UsageFault,
) -> Result<Vec<u8>, AllocError>
    ensures { IfOk result (λ v. v.items ≡ usage_message (map string_bytes words.now) fault) }
{
    match fault {
        UsageFault::UnknownOption { word } => tell(alloc, "unknown option: ", word_at(words, word)),
        UsageFault::NoValue => tell(alloc, "option needs a value: -w", ""),
        UsageFault::TwoLogs { word } => tell(alloc, "two logs: ", word_at(words, word)),
    }
}

/// What a file looks like that isn't the log it should be, and what to do.
fn looks_text(looks: Looks) -> &'static str
    ensures { result.now ≡ looks_text looks }
{
    match looks {
        Looks::Empty => ": empty",
        Looks::VarnishLog => ": Varnish's binary log: leave -t out",
        Looks::LogFile => ": a log file of vtools: read it with -r",
        Looks::OtherVersion => ": a binary log of another version of Varnish",
        Looks::Gzip => ": packed by gzip: unpack it first",
        Looks::Text => ": a text: use -t",
        Looks::Unknown => ": no log of Varnish",
    }
}

/// The place of a binary log's byte, counted with its first four.
fn byte_of(place: u64) -> u64
    ensures { result ≡ byte_of place }
{
    place.saturating_add(FIRST_BYTES)
}

/// The place where no part begins, of a text or of a binary log.
fn damage_text(alloc: Global, text: bool, place: u64) -> Result<Vec<u8>, AllocError>
    ensures { IfOk result (λ v. v.items ≡ damage_text text place) }
{
    if text {
        return numbered(alloc, ": damaged at line ", place, "");
    }
    numbered(alloc, ": damaged at byte ", byte_of(place), "")
}

/// The place of a part of which something would be left out or cut, and what.
fn lost_text(alloc: Global, text: bool, place: u64, what: &str) -> Result<Vec<u8>, AllocError>
    ensures { IfOk result (λ v. v.items ≡ lost_text text place what.now) }
{
    if text {
        return numbered(alloc, ": line ", place, what);
    }
    numbered(alloc, ": byte ", byte_of(place), what)
}

/// What would be left out or cut.
fn loss_text(loss: Loss) -> &'static str
    ensures { result.now ≡ loss_text loss }
{
    match loss {
        Loss::UnknownTag => ": a tag that vtools doesn't have",
        Loss::LongPayload => ": a payload above 4000 bytes",
        Loss::OtherVxid => ": a VXID out of range",
        Loss::OtherGrouping => ": a line of another grouping than raw",
        Loss::OtherForm => ": no raw line",
    }
}

/// Why copying stopped behind the first bytes.
fn copy_message(alloc: Global, job: Job<'_>, fault: CopyFault) -> Result<Vec<u8>, AllocError>
    ensures { IfOk result (λ v. v.items ≡ copy_message (job_as job.entry) fault) }
{
    let text = job.asked.text;
    match fault {
        CopyFault::ReadFault => tell(alloc, job.input, ": read failed"),
        CopyFault::WriteFault => tell(alloc, job.output, ": write failed"),
        CopyFault::Damaged { at } => {
            let place = damage_text(alloc, text, at)?;
            tell_both(alloc, job.input.as_bytes(), &place)
        }
        CopyFault::Lost { loss, at } => {
            let place = lost_text(alloc, text, at, loss_text(loss))?;
            tell_both(alloc, job.input.as_bytes(), &place)
        }
    }
}

/// Why copying stopped.
fn log_message(alloc: Global, job: Job<'_>, fault: LogFault) -> Result<Vec<u8>, AllocError>
    ensures { IfOk result (λ v. v.items ≡ log_message (job_as job.entry) fault) }
{
    match fault {
        LogFault::NotALog { looks } => tell(alloc, job.input, looks_text(looks)),
        LogFault::Unread => tell(alloc, job.input, ": read failed"),
        LogFault::Stopped(fault) => copy_message(alloc, job, fault),
    }
}

/// Why the work stopped.
fn fault_message(alloc: Global, job: Job<'_>, fault: RunFault) -> Result<Vec<u8>, AllocError>
    ensures { IfOk result (λ v. v.items ≡ fault_message (job_as job.entry) fault) }
{
    match fault {
        RunFault::NoInput => tell(alloc, job.input, ": cannot open"),
        RunFault::NoOutput => tell(alloc, job.output, ": cannot open"),
        RunFault::NoHeader => tell(alloc, job.output, ": write failed"),
        RunFault::Log(fault) => log_message(alloc, job, fault),
        RunFault::CutShort { left } => {
            let cut = numbered(alloc, ": ends inside a part: ", left as u64, " bytes")?;
            tell_both(alloc, job.input.as_bytes(), &cut)
        }
    }
}

/// Adds a line of so many, where there is one.
fn put_counted(alloc: Global, count: u64, what: &str, text: &mut Vec<u8>) -> Result<(), AllocError>
    ensures { OnOk result (text.new.items ≡ text.old.items ++ counted_line count what.now) }
{
    if count == 0 {
        return Ok(());
    }
    let line = tell_both(alloc, b"", &numbered(alloc, "", count, what)?)?;
    text.extend_from_slice(&line)?;
    Ok(())
}

/// How much was left out or cut.
fn counts_text(alloc: Global, copied: Copied) -> Result<Vec<u8>, AllocError>
    ensures { IfOk result (λ v. v.items ≡ counts_text copied) }
{
    let mut text = Vec::new(alloc);
    let counts = copied.counts;
    put_counted(
        alloc,
        counts.unknown_tags,
        " records of tags that vtools doesn't have were left out",
        &mut text,
    )?;
    put_counted(
        alloc,
        counts.long_payloads,
        " payloads above 4000 bytes were cut",
        &mut text,
    )?;
    put_counted(
        alloc,
        counts.other_vxids,
        " lines of VXIDs out of range were left out",
        &mut text,
    )?;
    put_counted(
        alloc,
        counts.other_groupings,
        " lines of another grouping than raw were left out",
        &mut text,
    )?;
    put_counted(
        alloc,
        counts.other_forms,
        " lines that are no raw lines were left out",
        &mut text,
    )?;
    put_counted(
        alloc,
        copied.left as u64,
        " bytes at the end, inside a part, were left out",
        &mut text,
    )?;
    Ok(text)
}

/// What is said where a job ended so.
pub fn text_due(alloc: Global, job: Job<'_>, ended: Ended) -> Result<Vec<u8>, AllocError>
    ensures { IfOk result (λ v. v.items ≡ text_due (job_as job.entry) ended) }
{
    match ended {
        Ended::Refused(_) => Ok(Vec::new(alloc)),
        Ended::Stopped(fault) => fault_message(alloc, job, fault),
        Ended::Done(_) if job.quiet => Ok(Vec::new(alloc)),
        Ended::Done(copied) => counts_text(alloc, copied),
    }
}
