//! Lines for standard error, and the messages of items.

ghost use Rattle.std.specs.Prelude.{◌≡◌, [], ◌++◌, codes, IfOk, OnOk, OnErr, IsErrOf};
ghost use Rattle.log_model.specs.Faults.{HasNewFault};
ghost use Rattle.log_model.specs.Prefix.{IsProperPrefix};
ghost use Rattle.vio.specs.World.{Writing, Wrote};
ghost use Rattle.vio.specs.Writes.{WroteOn};
ghost use Rattle.fan_output.specs.Messages.{message_of, missed_message, overrun_message, told};

use one_command::numbered;
use ring_layout::Item;
use std::alloc::{AllocError, Global};
use vio::{ERRORS, World, WorldFault, write_all};

/// A line of two texts, after the program's name.
pub fn tell_both(alloc: Global, first: &[u8], second: &[u8]) -> Result<Vec<u8>, AllocError>
    ensures { IfOk result (λ v. v.items ≡ told (first.now ++ second.now)) }
{
    let mut text = Vec::from_slice(alloc, b"vtools: ")?;
    text.extend_from_slice(first)?;
    text.extend_from_slice(second)?;
    text.push(b'\n')?;
    Ok(text)
}

/// The message of an overrun: the segment where a reader stood, and that to which the writers had come.
pub fn overrun_text(alloc: Global, at: u64, seen: u64) -> Result<Vec<u8>, AllocError>
    ensures { IfOk result (λ v. v.items ≡ overrun_message at seen) }
{
    let place = numbered(alloc, "log overrun at segment ", at, ", counter ")?;
    tell_both(alloc, &place, &numbered(alloc, "", seen, "")?)
}

/// The message of how many units were missed.
pub fn missed_text(alloc: Global, units: u64) -> Result<Vec<u8>, AllocError>
    ensures { IfOk result (λ v. v.items ≡ missed_message units) }
{
    let text = numbered(alloc, "missed ", units, " units")?;
    tell_both(alloc, &text, b"")
}

/// Writes the message of an item, if it has one, to standard error.
pub fn report<W: World>(alloc: Global, world: &mut W, item: &Item) -> Result<(), WorldFault>
    ensures ok { OnOk result (Wrote ERRORS (message_of item.now) (W.seen world.old)
        (W.seen world.new)) }
    ensures err { OnErr result
        (WroteOn ERRORS [] (λ text. IsProperPrefix text (message_of item.now)) (W.seen world.old)
        (W.seen world.new)) }
    ensures cause { IsErrOf result WorldFault.Failed → HasNewFault ((W.seen world.old).faults Writing (codes "stderr")) ((W.seen world.new).faults Writing (codes "stderr")) }
{
    match item {
        Item::Unit(_) => Ok(()),
        Item::Overrun { at, seen } => {
            let Ok(text) = overrun_text(alloc, *at, *seen) else {
                return Err(WorldFault::NoMemory);
            };
            write_all(world, ERRORS, &text)
        }
        Item::Missed { units } => {
            let Ok(text) = missed_text(alloc, *units) else {
                return Err(WorldFault::NoMemory);
            };
            write_all(world, ERRORS, &text)
        }
    }
}
