//! Texts in columns.
#![tactic(auto, using(log_model::proofs::PrefixLemmas::adding))]

ghost use Rattle.std.specs.Prelude.{◌≤◌, decimal};
ghost use Rattle.log_model.specs.Adding.{Puts};
ghost use Rattle.vsl_select.specs.RawLine.{at_left, at_right};

use itoa::Buffer;
use log_model::{NoMemory, put_copies};

/// Adds a text at the left of so many columns, or a part of it.
pub fn put_left(columns: usize, text: &[u8], out: &mut Vec<u8>) -> Result<(), NoMemory>
    requires { columns ≤ 64 }
    ensures { Puts result out.old.items out.new.items (at_left columns text.now) }
{
    out.extend_from_slice(text)?;
    put_copies(b' ', columns.saturating_sub(text.len()), out)
}

/// Adds a number at the right of so many columns, or a part of it.
pub fn put_right(columns: usize, number: u64, out: &mut Vec<u8>) -> Result<(), NoMemory>
    requires { columns ≤ 64 }
    ensures { Puts result out.old.items out.new.items (at_right columns (decimal number)) }
{
    let mut buffer = Buffer::new();
    let digits = buffer.format(number).as_bytes();
    put_copies(b' ', columns.saturating_sub(digits.len()), out)?;
    out.extend_from_slice(digits)?;
    Ok(())
}
