//! Adding to a list of bytes, whole or not at all.

ghost use Rattle.std.specs.Prelude.{◌≡◌, ◌≤◌, List, length, replicate};
ghost use Rattle.log_model.specs.Adding.{Adds, Puts};

use crate::fault::NoMemory;

/// Cuts a list back to the length that it had before a call, where that call failed.
#[tactic(auto, using(crate::proofs::PrefixLemmas::cut_back))]
pub fn or_cut_back<T: Drop>(
    put: Result<(), NoMemory>,
    before: usize,
    out: &mut Vec<T>,
) -> Result<(), NoMemory>
    ensures { (old text : List T) → before ≡ length old → Puts put old out.old.items text → Adds result old out.new.items text }
{
    if put.is_err() {
        out.truncate(before);
    }
    put
}

/// Adds a byte so many times.
pub fn put_copies(byte: u8, count: usize, out: &mut Vec<u8>) -> Result<(), NoMemory>
    requires { count ≤ 64 }
    ensures { Adds result out.old.items out.new.items (replicate count byte) }
{
    out.resize(out.len() + count, byte)?;
    Ok(())
}

/// Makes room for so many bytes in a list that has none.
pub fn make_room(out: &mut Vec<u8>, count: usize) -> Result<(), NoMemory>
    ensures { out.new.items ≡ out.old.items }
{
    if out.is_empty() {
        out.reserve(count)?;
    }
    Ok(())
}
