//! Reading a whole file by its name.

ghost use Rattle.std.specs.Prelude.{IfOk};
ghost use Rattle.log_model.specs.Halts.{IfFault, OnShort};
ghost use Rattle.vio.specs.Calls.{Called};
ghost use Rattle.vio.specs.Named.{IsLackedBy, IsReadBy, IsRefusedBy};

use crate::fault::{NamedFault, WholeFault, WorldFault};
use crate::whole::read_whole;
use crate::world::World;
use log_model::Halt;
use std::alloc::Global;

/// Opens the file of this name, and reads all of its bytes, at most `limit` of them.
///
/// Where the world tells what the file holds, `TooLarge` comes exactly where that is more than
/// `limit` bytes, no call failed and there was memory.
#[tactic(auto, using(crate::proofs::ReadLemmas::called_read, crate::proofs::ReadLemmas::called_refused, crate::proofs::ReadLemmas::called_long, crate::proofs::ReadLemmas::called_lacked))]
pub fn read_named<W: World>(
    alloc: Global,
    world: &mut W,
    name: &str,
    limit: u64,
) -> Result<Vec<u8>, Halt<NamedFault>>
    ensures reads { IfOk result (λ bytes. Called (IsReadBy limit name.now bytes.items) (W.seen world.old) (W.seen world.new)) }
    ensures stops { IfFault result (λ fault. Called (IsRefusedBy limit name.now fault) (W.seen world.old) (W.seen world.new)) }
    ensures lacks { OnShort result (Called (IsLackedBy name.now) (W.seen world.old) (W.seen world.new)) }
{
    let handle = match world.open(name) {
        Ok(handle) => handle,
        Err(WorldFault::Failed) => return Err(Halt::Fault(NamedFault::NoOpen)),
        Err(WorldFault::NoMemory) => return Err(Halt::NoMemory),
    };
    match read_whole(alloc, world, handle, limit) {
        Ok(bytes) => Ok(bytes),
        Err(WholeFault::Failed) => Err(Halt::Fault(NamedFault::Failed)),
        Err(WholeFault::TooLarge) => Err(Halt::Fault(NamedFault::TooLarge)),
        Err(WholeFault::NoMemory) => Err(Halt::NoMemory),
    }
}
