//! Messages: a number in a text, and saying one on standard error.

ghost use Rattle.std.specs.Prelude.{◌≡◌, IfOk, OnErr, OnOk};
ghost use Rattle.vio.specs.Calls.{Called};
ghost use Rattle.one_command.specs.Messages.{numbered};
ghost use Rattle.one_command.specs.Promise.{Says, SaysPart};

use itoa::Buffer;
use log_model::NoMemory;
use std::alloc::{AllocError, Global};
use vio::{ERRORS, World, WorldFault, write_all};

/// A text with a number in it.
pub fn numbered(
    alloc: Global,
    before: &str,
    number: u64,
    after: &str,
) -> Result<Vec<u8>, AllocError>
    ensures { IfOk result (λ v. v.items ≡ numbered before.now number after.now) }
{
    let mut digits = Buffer::new();
    let mut text = Vec::from_slice(alloc, before.as_bytes())?;
    text.extend_from_slice(digits.format(number).as_bytes())?;
    text.extend_from_slice(after.as_bytes())?;
    Ok(text)
}

/// Says a message on standard error, if it has a byte. That this write fails changes nothing else.
pub fn say<W: World>(world: &mut W, text: &[u8]) -> Result<(), NoMemory>
    ensures said { OnOk result (Called (Says text.now) (W.seen world.old) (W.seen world.new)) }
    ensures part { OnErr result (Called (SaysPart text.now) (W.seen world.old) (W.seen world.new)) }
{
    if text.is_empty() {
        return Ok(());
    }
    match write_all(world, ERRORS, text) {
        Ok(()) => Ok(()),
        Err(WorldFault::Failed) => Ok(()),
        Err(WorldFault::NoMemory) => Err(NoMemory),
    }
}
