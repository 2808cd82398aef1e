//! Values with their escapes.
#![tactic(auto, using(log_model::proofs::PrefixLemmas::adding))]

ghost use Rattle.std.specs.Prelude.{◌≡◌};
ghost use Rattle.std.specs.Option.{option_copied};
ghost use Rattle.log_model.specs.Adding.{Puts};
ghost use Rattle.ncsa_format.specs.Line.{printed, quoted, quoted_byte};
ghost use Rattle.ncsa_format.specs.inside.Escapes.{is_escaped, plain_byte};

use log_model::{Escapes, NoMemory, put_escaped, put_hex};

/// Adds a byte of a value.
pub(crate) fn put_byte(out: &mut Vec<u8>, byte: u8) -> Result<(), NoMemory>
    ensures { Puts result out.old.items out.new.items (quoted_byte byte) }
{
    match byte {
        b'"' | b'\\' => out.extend_from_slice(&[b'\\', byte])?,
        b'\n' => out.extend_from_slice(b"\\n")?,
        b'\r' => out.extend_from_slice(b"\\r")?,
        b'\t' => out.extend_from_slice(b"\\t")?,
        32..=126 => out.push(byte)?,
        _ => put_hex(byte, out)?,
    }
    Ok(())
}

/// How a value is printed.
struct Values;

impl Escapes for Values {
    ghost escapes = { is_escaped };

    ghost printed = { quoted_byte };

    fn has_escape(byte: u8) -> bool {
        byte < 32 || byte > 126 || byte == b'"' || byte == b'\\'
    }

    fn put_byte(byte: u8, out: &mut Vec<u8>) -> Result<(), NoMemory> {
        put_byte(out, byte)
    }

    ghost plain = { plain_byte };
}

/// Adds a text of which no byte needs an escape.
pub(crate) fn put_plain(out: &mut Vec<u8>, text: &[u8]) -> Result<(), NoMemory>
    requires { quoted text.now ≡ text.now }
    ensures { Puts result out.old.items out.new.items (quoted text.now) }
{
    out.extend_from_slice(text)?;
    Ok(())
}

/// Adds a value, or a part of it; at once where no byte of it needs an escape, as in most.
pub(crate) fn put_quoted(out: &mut Vec<u8>, value: &[u8]) -> Result<(), NoMemory>
    ensures { Puts result out.old.items out.new.items (quoted value.now) }
{
    put_escaped::<Values>(value, out)
}

/// Adds a value where there is one, and else `-`.
pub(crate) fn put_printed(out: &mut Vec<u8>, value: Option<&[u8]>) -> Result<(), NoMemory>
    ensures { Puts result out.old.items out.new.items (printed (option_copied value.entry)) }
{
    match value {
        Some(value) => put_quoted(out, value),
        None => put_plain(out, b"-"),
    }
}
