//! The lines of some bytes.

ghost use Rattle.std.specs.Prelude.{◌≡◌, ◌<◌, ◌∷◌, length, IfSome, IfNone};
ghost use Rattle.std.specs.Str.Lines.{lines, strip_carriage_return};
ghost use Rattle.raw_records.specs.Lines.{HasNoFeed, IsEndedLine};

use memchr::memchr;

/// A line without the carriage return at its end.
fn without_return(line: &[u8]) -> &[u8]
    ensures { result.now ≡ strip_carriage_return line.now }
{
    if let Some((last, before)) = line.split_last() {
        if *last == b'\r' {
            return before;
        }
    }
    line
}

/// The first line of some bytes that ends with a line feed, without it and a carriage return before it, and what follows.
pub fn ended_line(bytes: &[u8]) -> Option<(&[u8], &[u8])>
    ensures some { IfSome result (λ r. IsEndedLine bytes.now r.0.now r.1.now) }
    ensures none { IfNone result (HasNoFeed bytes.now) }
{
    let at = memchr(b'\n', bytes)?;
    let (line, behind) = bytes.split_at(at);
    let (_, rest) = behind.split_at(1);
    Some((without_return(line), rest))
}

/// The first line of some bytes, without a carriage return before its line feed, and what follows it.
pub fn first_line(bytes: &[u8]) -> (&[u8], &[u8])
    requires { 0 < length bytes.now }
    ensures first { lines bytes.now ≡ result.0.now ∷ lines result.1.now }
    ensures shorter { length result.1.now < length bytes.now }
{
    match ended_line(bytes) {
        Some(found) => found,
        None => bytes.split_at(bytes.len()),
    }
}
