//! Reading which part of a record is asked for.

ghost use Rattle.std.specs.Prelude.{◌≡◌, option_map, IfOk};
ghost use Rattle.ncsa_format.specs.Reading.{before_last, field_asked, part_asked, prefix_asked, tag_part};
ghost use Rattle.vsl_tags.specs.Called.{tag_called};

use crate::cut::cut;
use crate::formatter::{Formatter, Label};
use log_model::NoMemory;
use std::alloc::Global;
use vsl_decimal::whole_number;
use vsl_tags::tag_called;

/// The greatest field.
const MOST_FIELD: u32 = 9_999;

/// A text without its last byte, where that is this one.
#[tactic(auto, using(crate::proofs::FieldLemmas::before_last_push))]
fn before_last(text: &[u8], byte: u8) -> Option<&[u8]>
    ensures { option_map (λ front. front.now) result ≡ before_last byte text.now }
{
    let (last, front) = text.split_last()?;
    if *last == byte { Some(front) } else { None }
}

/// The field that what stands behind a prefix asks for: none where nothing stands there, or a number in brackets.
fn field_asked(text: &[u8]) -> Option<Option<u32>>
    ensures { result ≡ field_asked text.now }
{
    match text.split_first() {
        Some((_, behind)) => Some(Some(whole_number(before_last(behind, b']')?, 1, MOST_FIELD)?)),
        None => Some(None),
    }
}

/// The prefix that what stands behind a tag asks for: none where nothing stands there, or what follows its colon.
fn prefix_asked(alloc: Global, text: &[u8]) -> Result<Option<Label>, NoMemory>
    ensures { IfOk result (λ prefix. prefix ≡ prefix_asked text.now) }
{
    match text.split_first() {
        Some((_, prefix)) => Ok(Some(Label::new(alloc, prefix)?)),
        None => Ok(None),
    }
}

/// The part of a record of which these are the parts, where they are good.
fn tag_part(
    alloc: Global,
    name: &[u8],
    prefix: &[u8],
    field: &[u8],
) -> Result<Option<Formatter>, NoMemory>
    ensures { IfOk result (λ f. f ≡ tag_part (tag_called name.now) (prefix_asked prefix.now)
        (field_asked field.now)) }
{
    let Some(tag) = tag_called(name) else {
        return Ok(None);
    };
    let Some(field) = field_asked(field) else {
        return Ok(None);
    };
    let prefix = prefix_asked(alloc, prefix)?;
    Ok(Some(Formatter::TagPart { tag, prefix, field }))
}

/// The part of a record that a text asks for, as `ReqHeader:Host[1]`.
pub(crate) fn part_asked(alloc: Global, text: &[u8]) -> Result<Option<Formatter>, NoMemory>
    ensures { IfOk result (λ f. f ≡ part_asked text.now) }
{
    let (named, field) = cut(text, b'[');
    let (name, prefix) = cut(named, b':');
    tag_part(alloc, name, prefix, field)
}
