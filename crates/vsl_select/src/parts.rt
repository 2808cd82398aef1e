//! The parts of a line.
//!
//! Each writer adds its text, or a part of it where it answers want of memory.
#![tactic(auto, using(log_model::proofs::PrefixLemmas::adding))]

ghost use Rattle.std.specs.Prelude.{◌≡◌, ◌∷◌, [], decimal};
ghost use Rattle.vsl_select.specs.RawLine.{at_left, escaped_byte, escaped, is_control, mark_letter};
ghost use Rattle.vsl_select.specs.inside.Escapes.{plain_byte};
ghost use Rattle.log_model.specs.Adding.{Puts};
ghost use Rattle.vsl_select.specs.Lines.{title};

use crate::columns::put_left;
use itoa::Buffer;
use log_model::{Escapes, NoMemory, put_hex};
use txn_rows::Kind;
use vsl_record::{Mark, Vxid};

/// The columns of a VXID in a header.
const VXID_COLUMNS: usize = 10;

/// Adds a text as it is.
pub(crate) fn put_text(out: &mut Vec<u8>, text: &[u8]) -> Result<(), NoMemory>
    ensures { Puts result out.old.items out.new.items text.now }
{
    out.extend_from_slice(text)?;
    Ok(())
}

/// Adds a byte as it is.
pub(crate) fn put_byte(out: &mut Vec<u8>, byte: u8) -> Result<(), NoMemory>
    ensures { Puts result out.old.items out.new.items (byte ∷ []) }
{
    out.push(byte)?;
    Ok(())
}

/// Adds a VXID at the left of its columns.
pub(crate) fn put_vxid_left(out: &mut Vec<u8>, vxid: Vxid) -> Result<(), NoMemory>
    ensures { Puts result out.old.items out.new.items (at_left 10 (decimal vxid)) }
{
    let mut buffer = Buffer::new();
    put_left(VXID_COLUMNS, buffer.format(vxid).as_bytes(), out)
}

/// The title in a transaction's header.
pub(crate) fn title_of(kind: Kind) -> &'static [u8]
    ensures { result.now ≡ title kind }
{
    match kind {
        Kind::Session => b"<< Session  >>",
        Kind::Request => b"<< Request  >>",
        Kind::BeReq => b"<< BeReq    >>",
        Kind::Unknown => b"<< Unknown  >>",
        Kind::Record => b"<< Record   >>",
    }
}

/// The letter of a mark in a raw line.
pub(crate) fn letter_of(mark: Mark) -> u8
    ensures { result ≡ mark_letter mark }
{
    match mark {
        Mark::Client => b'c',
        Mark::Backend => b'b',
        Mark::Plain => b'-',
    }
}

/// How a payload is printed.
struct Payloads;

impl Escapes for Payloads {
    ghost escapes = { is_control };

    ghost printed = { escaped_byte };

    fn has_escape(byte: u8) -> bool {
        byte < 32 || byte == 127
    }

    fn put_byte(byte: u8, out: &mut Vec<u8>) -> Result<(), NoMemory> {
        if Self::has_escape(byte) {
            return put_hex(byte, out);
        }
        out.push(byte)?;
        Ok(())
    }

    ghost plain = { plain_byte };
}

/// Adds a payload; at once where no byte of it needs an escape, as in most.
pub(crate) fn put_escaped(out: &mut Vec<u8>, payload: &[u8]) -> Result<(), NoMemory>
    ensures { Puts result out.old.items out.new.items (escaped payload.now) }
{
    log_model::put_escaped::<Payloads>(payload, out)
}
