//! Reading the form of a time.

ghost use Rattle.std.specs.Prelude.{◌≡◌, ◌≤◌, ◌∷◌, length, IfOk, IfSome, option_map};
ghost use Rattle.ncsa_format.specs.Reading.{form_named, part_named, time_parts};
ghost use Rattle.ncsa_format.specs.inside.Read.{parts_from, read_of};

use crate::formatter::{TimeForm, TimePart};
use crate::reading::Read;
use log_model::{Listed, NoMemory};
use std::alloc::Global;

/// The part of a time that a letter behind a percent sign names.
fn part_named(letter: u8) -> Option<TimePart>
    ensures { result ≡ part_named letter }
{
    match letter {
        b'%' => Some(TimePart::Byte(b'%')),
        b'Y' => Some(TimePart::Year),
        b'm' => Some(TimePart::Month),
        b'd' => Some(TimePart::Day),
        b'e' => Some(TimePart::SpacedDay),
        b'H' => Some(TimePart::Hour),
        b'M' => Some(TimePart::Minute),
        b'S' => Some(TimePart::Second),
        b'b' => Some(TimePart::MonthName),
        b'F' => Some(TimePart::Date),
        b'T' => Some(TimePart::Clock),
        b'z' => Some(TimePart::Zone),
        _ => None,
    }
}

/// The part of a time that a byte begins before a text; nothing where it is a percent sign that begins none.
#[tactic(auto, using(crate::proofs::TimeLemmas::byte_first))]
fn part_at(first: u8, text: &[u8]) -> Option<Read<'_, TimePart>>
    ensures part { time_parts (first ∷ text.now) ≡ parts_from (read_of result) }
    ensures shorter { IfSome result (λ read. length read.rest.now ≤ length text.now) }
{
    if first != b'%' {
        let found = TimePart::Byte(first);
        return Some(Read { found, rest: text });
    }
    let (letter, rest) = text.split_first()?;
    let found = part_named(*letter)?;
    Some(Read { found, rest })
}

/// The parts of a text with directives; nothing where a percent sign begins none.
fn time_parts(alloc: Global, text: &[u8]) -> Result<Option<Listed<TimePart>>, NoMemory>
    ensures { IfOk result (λ parts. parts ≡ time_parts text.now) }
{
    let mut parts = Listed::new(alloc);
    let mut rest = text;
    while let Some((first, behind)) = rest.split_first() {
        let Some(Read { found, rest: after }) = part_at(*first, behind) else {
            return Ok(None);
        };
        parts.push(found)?;
        rest = after;
    }
    Ok(Some(parts))
}

/// The form of a time that a name asks for.
pub(crate) fn form_named(alloc: Global, name: &[u8]) -> Result<Option<TimeForm>, NoMemory>
    ensures { IfOk result (λ form. form ≡ form_named name.now) }
{
    if name == b"sec".as_slice() {
        return Ok(Some(TimeForm::Seconds));
    }
    if name == b"msec".as_slice() {
        return Ok(Some(TimeForm::Millis));
    }
    if name == b"usec".as_slice() {
        return Ok(Some(TimeForm::Micros));
    }
    if name == b"msec_frac".as_slice() {
        return Ok(Some(TimeForm::MillisPart));
    }
    if name == b"usec_frac".as_slice() {
        return Ok(Some(TimeForm::MicrosPart));
    }
    Ok(time_parts(alloc, name)?.map(TimeForm::Text))
}
