//! Whole reads and writes, over a world that moves pieces.

ghost use Rattle.std.specs.Prelude.{◌≡◌, ◌<◌, ◌≤◌, ℕ, List, [], length, IfOk, OnOk, OnErr, Some, vec_len};
ghost use Rattle.std.specs.Result.{IsErrOf};
ghost use Rattle.log_model.specs.Prefix.{IsProperPrefix};
ghost use Rattle.vio.specs.Writes.{WroteOn};
ghost use Rattle.vio.specs.World.{Reading, Writing, Read, ReadSome, ReadPast, Wrote, FaultsRose, IsAtEnd};

use crate::fault::{WholeFault, WorldFault};
use crate::world::World;
use std::alloc::Global;

/// How many bytes `read_whole` asks for at once.
const PIECE: usize = 65536;

/// Writes the whole piece to a handle. After a refusal a proper prefix of the piece was written.
pub fn write_all<W: World>(world: &mut W, h: u32, piece: &[u8]) -> Result<(), WorldFault>
    ensures ok { OnOk result (Wrote h piece.now (W.seen world.old) (W.seen world.new)) }
    ensures err { OnErr result (WroteOn h [] (λ text. IsProperPrefix text piece.now) (W.seen world.old) (W.seen world.new)) }
    ensures failed { IsErrOf result WorldFault.Failed → FaultsRose Writing h (W.seen world.old) (W.seen world.new) }
{
    let mut rest = piece;
    while !rest.is_empty() {
        let n = world.write(h, rest)?;
        let (_, after) = rest.split_at(n);
        rest = after;
    }
    Ok(())
}

/// Reads all bytes that a handle has left, at most `limit` of them.
///
/// Where the world tells what the handle has left, `TooLarge` comes exactly where that is more than
/// `limit` bytes and no read failed and there was memory. After a refusal some bytes were read.
pub fn read_whole<W: World>(
    alloc: Global,
    world: &mut W,
    h: u32,
    limit: u64,
) -> Result<Vec<u8>, WholeFault>
    ensures ok { IfOk result (λ v. Read h v.items (W.seen world.old) (W.seen world.new)) }
    ensures end { OnOk result (IsAtEnd h (W.seen world.new)) }
    ensures within { IfOk result (λ v. vec_len v ≤ limit) }

    ensures large { IsErrOf result WholeFault.TooLarge → ReadPast limit h (W.seen world.old) (W.seen world.new) }
    ensures failed { IsErrOf result WholeFault.Failed → FaultsRose Reading h (W.seen world.old) (W.seen world.new) }
    ensures err { OnErr result (ReadSome h (W.seen world.old) (W.seen world.new)) }
{
    let mut buffer = [0; PIECE];
    let mut bytes = Vec::new(alloc);
    while bytes.len() as u64 <= limit {
        let n = world.read(h, &mut buffer)?;
        if n == 0 {
            return Ok(bytes);
        }
        let (prefix, _) = buffer.split_at(n);
        bytes.extend_from_slice(prefix)?;
    }
    Err(WholeFault::TooLarge)
}
