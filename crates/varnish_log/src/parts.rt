//! The parts of a log: the records of a binary one, the lines of a text.

ghost use Rattle.std.specs.Prelude.{◌≡◌, ℕ, List, Ok, Err};
ghost use Rattle.raw_records.specs.LineRead.{line_of};
ghost use Rattle.varnish_log.specs.Parts.{LineSays, Said, is_grouped, loss_for, said_of, text_of, without_zero};
ghost use Rattle.varnish_log.specs.inside.Views.{IsNextPart, IsStep, entry_of, says_record};

use crate::entry::{Entry, Next, next_entry};
use crate::form::{BinaryForm, How, LogForm};
use crate::loss::Loss;
use crate::tags::tag_at;
use crate::taking::Stop;
use raw_records::{LineFault, LineRead, TagCache, ended_line, read_line};
use vsl_record::{MAX_PAYLOAD, Mark, Vxid};
use vsl_tags::Tag;

/// How many bytes are held at most: more than any line has that varnishlog prints.
pub(crate) const CAPACITY: usize = 262_208;

/// The number of the first tag whose records have no text.
const FIRST_WITHOUT_TEXT: u8 = 49;

/// The number of the last tag whose records have no text.
const LAST_WITHOUT_TEXT: u8 = 52;

/// What comes next of a log.
#[derive(Clone, Copy)]
pub(crate) enum NextPart<'a> {
    /// A record.
    Record {
        vxid: Vxid,
        mark: Mark,
        tag: Tag,
        /// The whole payload.
        payload: &'a [u8],
        behind: &'a [u8],
    },
    /// A part that says nothing.
    Nothing {
        behind: &'a [u8],
    },
    /// A part that is left out.
    LeftOut {
        loss: Loss,
        behind: &'a [u8],
    },
    /// None that is taken.
    Stop(Stop),
}

/// A record comes next; where copying is strict and it is too long, taking stops.
fn record_part<'a>(
    how: How,
    vxid: Vxid,
    mark: Mark,
    tag: Tag,
    payload: &'a [u8],
    behind: &'a [u8],
) -> NextPart<'a>
    ensures { (bytes : List ℕ) →
        IsNextPart how.form bytes (says_record vxid tag mark payload.now) behind.now →
        IsStep how bytes result }
{
    if how.strict {
        if payload.len() > MAX_PAYLOAD {
            return NextPart::Stop(Stop::Lost(Loss::LongPayload));
        }
    }
    NextPart::Record {
        vxid,
        mark,
        tag,
        payload,
        behind,
    }
}

/// A part that is left out comes next; where copying is strict, taking stops.
fn left_out(how: How, loss: Loss, behind: &[u8]) -> NextPart<'_>
    ensures { (bytes : List ℕ) → IsNextPart how.form bytes (Err loss) behind.now →
        IsStep how bytes result }
{
    if how.strict {
        return NextPart::Stop(Stop::Lost(loss));
    }
    NextPart::LeftOut { loss, behind }
}

/// A text without the zero byte at its end, if it has one.
fn without_zero(bytes: &[u8]) -> &[u8]
    ensures { result.now ≡ without_zero bytes.now }
{
    if let Some((last, text)) = bytes.split_last() {
        if *last == 0 {
            return text;
        }
    }
    bytes
}

/// What the bytes of a record of this tag are.
fn text_of(tag: Tag, bytes: &[u8]) -> &[u8]
    ensures { result.now ≡ text_of tag bytes.now }
{
    let number = tag.number();
    if number >= FIRST_WITHOUT_TEXT && number <= LAST_WITHOUT_TEXT {
        return bytes;
    }
    without_zero(bytes)
}

/// A record of a binary log of this form comes next.
fn entry_part<'a>(how: How, form: BinaryForm, entry: Entry<'a>, behind: &'a [u8]) -> NextPart<'a>
    ensures { (bytes filling : List ℕ) →
        IsNextPart how.form bytes (said_of form (entry_of entry.entry filling)) behind.now →
        IsStep how bytes result }
{
    let Some(tag) = tag_at(form, entry.number) else {
        return left_out(how, Loss::UnknownTag, behind);
    };
    let text = text_of(tag, entry.bytes);
    record_part(how, entry.vxid, entry.mark, tag, text, behind)
}

/// Whether a line begins as those of other groupings.
fn is_grouped(line: &[u8]) -> bool
    ensures { result ≡ is_grouped line.now }
{
    match line {
        [] => false,
        [first, ..] => *first == b'*' || *first == b'-',
    }
}

/// What is left out of a line that means nothing.
fn loss_for(line: &[u8], fault: LineFault) -> Loss
    ensures { result ≡ loss_for line.now fault }
{
    match fault {
        LineFault::OtherForm if is_grouped(line) => Loss::OtherGrouping,
        LineFault::OtherForm => Loss::OtherForm,
        LineFault::OtherVxid => Loss::OtherVxid,
        LineFault::UnknownTag => Loss::UnknownTag,
    }
}

/// What was read of a line comes next.
fn read_part<'a>(how: How, read: LineRead<'a>, behind: &'a [u8]) -> NextPart<'a>
    ensures { (bytes : List ℕ) → IsNextPart how.form bytes (Ok (line_of read.entry)) behind.now →
        IsStep how bytes result }
{
    match read {
        LineRead::Record {
            vxid,
            tag,
            mark,
            payload,
        } => record_part(how, vxid, mark, tag, payload, behind),
        LineRead::Blank => NextPart::Nothing { behind },
        LineRead::Comment => NextPart::Nothing { behind },
    }
}

/// A line of a text comes next.
fn line_part<'a>(how: How, line: &'a [u8], behind: &'a [u8], tags: &mut TagCache) -> NextPart<'a>
    ensures { (bytes : List ℕ) →
        ((said : Said) → LineSays line.now said → IsNextPart how.form bytes said behind.now) →
        IsStep how bytes result }
{
    match read_line(line, tags) {
        Ok(read) => read_part(how, read, behind),
        Err(fault) => left_out(how, loss_for(line, fault), behind),
    }
}

/// What comes next of a binary log of this form that goes on with these bytes.
fn next_record(how: How, form: BinaryForm, bytes: &[u8]) -> NextPart<'_>
    requires { how.form ≡ LogForm.Binary form }
    ensures { IsStep how bytes.now result }
{
    match next_entry(form, bytes) {
        Next::Entry(entry, behind) => entry_part(how, form, entry, behind),
        Next::Short => NextPart::Stop(Stop::GoesOn),
        Next::Damaged => NextPart::Stop(Stop::Damaged),
    }
}

/// What comes next of a text that goes on with these bytes.
fn next_line<'a>(how: How, bytes: &'a [u8], tags: &mut TagCache) -> NextPart<'a>
    requires { how.form ≡ LogForm.Text }
    ensures { IsStep how bytes.now result }
{
    match ended_line(bytes) {
        Some((line, behind)) => line_part(how, line, behind, tags),
        None if bytes.len() < CAPACITY => NextPart::Stop(Stop::GoesOn),
        None => NextPart::Stop(Stop::Damaged),
    }
}

/// What comes next of a log that goes on with these bytes.
pub(crate) fn next_part<'a>(how: How, bytes: &'a [u8], tags: &mut TagCache) -> NextPart<'a>
    ensures { IsStep how bytes.now result }
{
    match how.form {
        LogForm::Binary(form) => next_record(how, form, bytes),
        LogForm::Text => next_line(how, bytes, tags),
    }
}
