//! Reading a formatter by its letter or its name.

ghost use Rattle.std.specs.Prelude.{◌≡◌, IfOk};
ghost use Rattle.ncsa_format.specs.Reading.{extra_named, formatter_lettered, formatter_named, record_named};

use crate::formatter::{Formatter, Label};
use crate::tag_part::part_asked;
use crate::time_form::form_named;
use log_model::NoMemory;
use std::alloc::Global;

/// The formatter of a letter.
pub(crate) fn formatter_lettered(letter: u8) -> Option<Formatter>
    ensures { result ≡ formatter_lettered letter }
{
    match letter {
        b'h' => Some(Formatter::Host),
        b'l' => Some(Formatter::LogName),
        b'u' => Some(Formatter::User),
        b't' => Some(Formatter::Stamp),
        b'r' => Some(Formatter::RequestLine),
        b'm' => Some(Formatter::Method),
        b'U' => Some(Formatter::Path),
        b'q' => Some(Formatter::Query),
        b'H' => Some(Formatter::Protocol),
        b's' => Some(Formatter::Status),
        b'b' => Some(Formatter::Bytes),
        b'I' => Some(Formatter::Received),
        b'O' => Some(Formatter::Sent),
        b'D' => Some(Formatter::Micros),
        b'T' => Some(Formatter::Seconds),
        _ => None,
    }
}

/// The formatter of a name that begins with what asks for records by key or tag.
fn record_named(alloc: Global, name: &[u8]) -> Result<Option<Formatter>, NoMemory>
    ensures { IfOk result (λ f. f ≡ record_named name.now) }
{
    if let Some(key) = name.strip_prefix(b"VCL_Log:") {
        return Ok(Some(Formatter::LogKey(Label::new(alloc, key)?)));
    }
    match name.strip_prefix(b"VSL:") {
        Some(part) => part_asked(alloc, part),
        None => Ok(None),
    }
}

/// The formatter of a name before `x`.
fn extra_named(alloc: Global, name: &[u8]) -> Result<Option<Formatter>, NoMemory>
    ensures { IfOk result (λ f. f ≡ extra_named name.now) }
{
    if name == b"Varnish:time_firstbyte".as_slice() {
        return Ok(Some(Formatter::FirstByte));
    }
    if name == b"Varnish:hitmiss".as_slice() {
        return Ok(Some(Formatter::HitMiss));
    }
    if name == b"Varnish:handling".as_slice() {
        return Ok(Some(Formatter::Handling));
    }
    if name == b"Varnish:side".as_slice() {
        return Ok(Some(Formatter::Mark));
    }
    if name == b"Varnish:vxid".as_slice() {
        return Ok(Some(Formatter::Vxid));
    }
    record_named(alloc, name)
}

/// The formatter of a name in braces and the letter behind them.
pub(crate) fn formatter_named(
    alloc: Global,
    name: &[u8],
    letter: u8,
) -> Result<Option<Formatter>, NoMemory>
    ensures { IfOk result (λ f. f ≡ formatter_named name.now letter) }
{
    match letter {
        b'i' => Ok(Some(Formatter::RequestHeader(Label::new(alloc, name)?))),
        b'o' => Ok(Some(Formatter::ResponseHeader(Label::new(alloc, name)?))),
        b't' => Ok(form_named(alloc, name)?.map(Formatter::Time)),
        b'x' => extra_named(alloc, name),
        _ => Ok(None),
    }
}
