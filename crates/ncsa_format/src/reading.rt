//! Reading the pieces of a format.

ghost use Rattle.std.specs.Prelude.{◌≡◌, ◌≤◌, ◌∷◌, length, IfOk, IfSome};
ghost use Rattle.ncsa_format.specs.Reading.{behind_backslash, behind_name, behind_percent, formatter_at, piece_at};
ghost use Rattle.ncsa_format.specs.inside.Read.{as_read, read_of};

use crate::cut::cut;
use crate::formatter::{Formatter, Piece};
use crate::named::{formatter_lettered, formatter_named};
use log_model::NoMemory;
use std::alloc::Global;

/// Something that was read, and what stands behind it.
#[derive(Drop)]
pub(crate) struct Read<'a, T> {
    pub found: T,
    pub rest: &'a [u8],
}

/// The formatter of a name in braces and of the letter with which the text behind them begins.
fn behind_name<'a>(
    alloc: Global,
    name: &[u8],
    text: &'a [u8],
) -> Result<Option<Read<'a, Formatter>>, NoMemory>
    ensures { IfOk result (λ r. read_of r ≡ behind_name name.now text.now) }
{
    let Some((letter, rest)) = text.split_first() else {
        return Ok(None);
    };
    let found = formatter_named(alloc, name, *letter)?;
    Ok(found.map(|found| Read { found, rest }))
}

/// The formatter that a name in braces and the letter behind them are, at the beginning of a text behind the opening brace.
fn braced_at(alloc: Global, text: &[u8]) -> Result<Option<Read<'_, Formatter>>, NoMemory>
    ensures { IfOk result (λ r. read_of r ≡ formatter_at (123 ∷ text.now)) }
{
    let (name, behind) = cut(text, b'}');
    match behind.split_first() {
        Some((_, behind)) => behind_name(alloc, name, behind),
        None => Ok(None),
    }
}

/// The formatter with which a text begins, behind its percent sign.
fn formatter_at(alloc: Global, text: &[u8]) -> Result<Option<Read<'_, Formatter>>, NoMemory>
    ensures { IfOk result (λ r. read_of r ≡ formatter_at text.now) }
{
    match text {
        [b'{', behind @ ..] => braced_at(alloc, behind),
        [letter, rest @ ..] => { Ok(formatter_lettered(*letter).map(|found| Read { found, rest })) }
        [] => Ok(None),
    }
}

/// The piece that a percent sign begins before a text: a second one is the sign itself.
fn behind_percent(alloc: Global, text: &[u8]) -> Result<Option<Read<'_, Piece>>, NoMemory>
    ensures { IfOk result (λ r. read_of r ≡ behind_percent text.now) }
{
    if let [b'%', rest @ ..] = text {
        let found = Piece::Byte(b'%');
        return Ok(Some(Read { found, rest }));
    }
    match formatter_at(alloc, text)? {
        Some(Read { found, rest }) => Ok(Some(Read {
            found: Piece::Value(found),
            rest,
        })),
        None => Ok(None),
    }
}

/// The piece that a backslash begins before a text: a line feed before `n`, a tab before `t`, and else itself.
fn behind_backslash(text: &[u8]) -> Read<'_, Piece>
    ensures { as_read result ≡ behind_backslash text.now }
{
    match text {
        [b'n', rest @ ..] => Read {
            found: Piece::Byte(b'\n'),
            rest,
        },
        [b't', rest @ ..] => Read {
            found: Piece::Byte(b'\t'),
            rest,
        },
        _ => Read {
            found: Piece::Byte(b'\\'),
            rest: text,
        },
    }
}

/// The piece that a byte begins before a text; nothing where it is a percent sign that begins no formatter.
pub(crate) fn piece_at(
    alloc: Global,
    first: u8,
    text: &[u8],
) -> Result<Option<Read<'_, Piece>>, NoMemory>
    ensures { IfOk result (λ r. read_of r ≡ piece_at first text.now) }
{
    match first {
        b'%' => behind_percent(alloc, text),
        b'\\' => Ok(Some(behind_backslash(text))),
        _ => Ok(Some(Read {
            found: Piece::Byte(first),
            rest: text,
        })),
    }
}
