//! Reading a line of a listing.

ghost use Rattle.std.specs.Prelude.{◌≡◌, ◌≤◌, length, option_map, IfOk, IfErr, OnErr};
ghost use Rattle.std.specs.Char.{is_ascii_digit};
ghost use Rattle.std.specs.List.{prefix_len, position_or_len};
ghost use Rattle.raw_records.specs.Lines.{IsLine, IsRefused, Line, is_space};
ghost use Rattle.raw_records.specs.inside.Reading.{without_spaces, behind_spaces, digits_of, behind_digits, word_of, behind_word, mark_of, payload_behind, marked, parts_of, record_of, record_line, unindented, meaning, read_as, written_as};
ghost use Rattle.raw_records.specs.LineRead.{IsInRange, line_of};

use crate::tag_cache::TagCache;
use txn_rows::read_vxid;
use vsl_record::{Mark, Vxid};
use vsl_tags::Tag;

/// What a line means.
#[derive(Clone, Copy)]
pub enum LineRead<'a> {
    /// It has no bytes, or spaces alone.
    Blank,
    /// It begins with `#`.
    Comment,
    /// It is a record's.
    Record {
        /// The VXID.
        vxid: Vxid,
        /// What the record is about.
        tag: Tag,
        /// The mark.
        mark: Mark,
        /// The whole payload.
        payload: &'a [u8],
    },
}

/// Why a line has no meaning.
#[derive(Clone, Copy, Debug, PartialEq, Eq)]
pub enum LineFault {
    /// It is no blank line, no comment, and isn't written as a record.
    OtherForm,
    /// It is written as a record, and what stands for the VXID has more than 19 digits, or is 2^62 or more.
    OtherVxid,
    /// It is written as a record with a VXID, and no tag has this name.
    UnknownTag,
}

/// The parts of a record's line.
#[derive(Clone, Copy)]
struct Parts<'a> {
    /// The digits of the VXID.
    vxid: &'a [u8],
    /// The word that stands for the tag.
    name: &'a [u8],
    mark: Mark,
    payload: &'a [u8],
}

/// A text without the spaces at its beginning.
#[tactic(auto, unfolding(crate::specs::inside::Reading::without_spaces))]
fn without_spaces(text: &[u8]) -> &[u8]
    ensures { result.now ≡ without_spaces text.now }
{
    let mut rest = text;
    while let Some((b, behind)) = rest.split_first() {
        if *b != b' ' {
            return rest;
        }
        rest = behind;
    }
    rest
}

/// What follows one or more spaces.
#[tactic(auto, unfolding(crate::specs::inside::Reading::behind_spaces))]
fn behind_spaces(text: &[u8]) -> Option<&[u8]>
    ensures { option_map (λ behind. behind.now) result ≡ behind_spaces text.now }
{
    let (b, behind) = text.split_first()?;
    if *b == b' ' {
        Some(without_spaces(behind))
    } else {
        None
    }
}

/// How many digits a text begins with.
fn digit_count(text: &[u8]) -> usize
    ensures count { result ≡ prefix_len is_ascii_digit text.now }
    ensures within { result ≤ length text.now }
{
    for at in 0..text.len() {
        if !text[at].is_ascii_digit() {
            return at;
        }
    }
    text.len()
}

/// How many bytes stand before the first space of a text.
fn word_length(text: &[u8]) -> usize
    ensures length { result ≡ position_or_len is_space text.now }
    ensures within { result ≤ length text.now }
{
    for at in 0..text.len() {
        if text[at] == b' ' {
            return at;
        }
    }
    text.len()
}

/// The digits at the beginning of a text, and what follows them.
#[tactic(auto, unfolding(crate::specs::inside::Reading::digits_of, crate::specs::inside::Reading::behind_digits))]
fn split_digits(text: &[u8]) -> (&[u8], &[u8])
    ensures digits { result.0.now ≡ digits_of text.now }
    ensures behind { result.1.now ≡ behind_digits text.now }
{
    text.split_at(digit_count(text))
}

/// The bytes before the first space of a text, and what follows them.
#[tactic(auto, unfolding(crate::specs::inside::Reading::word_of, crate::specs::inside::Reading::behind_word))]
fn split_word(text: &[u8]) -> (&[u8], &[u8])
    ensures word { result.0.now ≡ word_of text.now }
    ensures behind { result.1.now ≡ behind_word text.now }
{
    text.split_at(word_length(text))
}

/// The mark of a letter.
#[tactic(auto, unfolding(crate::specs::inside::Reading::mark_of))]
fn mark_of(letter: u8) -> Option<Mark>
    ensures { result ≡ mark_of letter }
{
    match letter {
        b'c' => Some(Mark::Client),
        b'b' => Some(Mark::Backend),
        b'-' => Some(Mark::Plain),
        _ => None,
    }
}

/// The payload that stands behind the mark: none is an empty one, and else a space stands before it.
#[tactic(auto, unfolding(crate::specs::inside::Reading::payload_behind))]
fn payload_behind(text: &[u8]) -> Option<&[u8]>
    ensures { option_map (λ payload. payload.now) result ≡ payload_behind text.now }
{
    match text.split_first() {
        Some((b, payload)) => { if *b == b' ' { Some(payload) } else { None } }
        None => Some(text),
    }
}

/// A mark and a payload that are written so.
#[tactic(auto, unfolding(crate::specs::inside::Reading::marked))]
fn marked(text: &[u8]) -> Option<(Mark, &[u8])>
    ensures { option_map (λ is. (is.0, is.1.now)) result ≡ marked text.now }
{
    let (letter, behind) = text.split_first()?;
    let mark = mark_of(*letter)?;
    let payload = payload_behind(behind)?;
    Some((mark, payload))
}

/// The parts of the record's line that a text without spaces at its beginning is.
#[tactic(auto, unfolding(crate::specs::inside::Reading::parts_of, crate::specs::inside::Reading::some_parts))]
fn parts_of(text: &[u8]) -> Option<Parts<'_>>
    ensures { option_map written_as result ≡ parts_of text.now }
{
    let (vxid, behind) = split_digits(text);
    let (name, behind) = split_word(behind_spaces(behind)?);
    let (mark, payload) = marked(behind_spaces(behind)?)?;
    if vxid.is_empty() {
        return None;
    }
    if name.is_empty() {
        return None;
    }
    Some(Parts {
        vxid,
        name,
        mark,
        payload,
    })
}

/// The record that a text without spaces at its beginning is.
#[tactic(auto, unfolding(crate::specs::inside::Reading::record_of, crate::specs::inside::Reading::record_from, crate::specs::inside::Reading::record_line))]
fn record_of<'a>(text: &'a [u8], tags: &mut TagCache) -> Result<LineRead<'a>, LineFault>
    ensures { read_as result ≡ record_line (record_of (parts_of text.now)) }
{
    let Some(parts) = parts_of(text) else {
        return Err(LineFault::OtherForm);
    };
    let Some(vxid) = read_vxid(parts.vxid) else {
        return Err(LineFault::OtherVxid);
    };
    let Some(tag) = tags.tag_called(parts.name) else {
        return Err(LineFault::UnknownTag);
    };
    Ok(LineRead::Record {
        vxid,
        tag,
        mark: parts.mark,
        payload: parts.payload,
    })
}

/// What a text without spaces at its beginning means.
#[tactic(auto, unfolding(crate::specs::inside::Reading::unindented))]
fn unindented<'a>(text: &'a [u8], tags: &mut TagCache) -> Result<LineRead<'a>, LineFault>
    ensures { read_as result ≡ unindented text.now }
{
    if text.is_empty() {
        return Ok(LineRead::Blank);
    }
    record_of(text, tags)
}

/// What the bytes of a line are found to mean.
#[tactic(auto, unfolding(crate::specs::inside::Reading::meaning))]
fn meaning<'a>(text: &'a [u8], tags: &mut TagCache) -> Result<LineRead<'a>, LineFault>
    ensures { read_as result ≡ meaning text.now }
{
    let Some(first) = text.first() else {
        return Ok(LineRead::Blank);
    };
    if *first == b'#' {
        return Ok(LineRead::Comment);
    }
    unindented(without_spaces(text), tags)
}

/// What the bytes of a line mean, or why they mean nothing.
pub fn read_line<'a>(text: &'a [u8], tags: &mut TagCache) -> Result<LineRead<'a>, LineFault>
    ensures read { IfOk result (λ l. IsLine text.now (line_of l)) }
    ensures range { IfOk result (λ l. IsInRange (line_of l)) }
    ensures why { IfErr result (λ fault. IsRefused text.now fault) }
    ensures refused { OnErr result ((l : Line) → ¬ (IsLine text.now l)) }
{
    meaning(text, tags)
}
