//! Reading bytes into a buffer, at most so many.

ghost use Rattle.std.specs.Prelude.{◌≡◌, ◌+◌, ◌<◌, ◌≤◌, true, false, length, take, drop, max, IfOk, OnErr, IsErrOf};
ghost use Rattle.vio.specs.World.{Reading, Read, FaultsRose, IsAtEnd, OnlyCounts};
ghost use Rattle.vsl_file.specs.inside.ReaderSteps.{Filled};

use crate::fault::StepFault;
use bytes::BytesMut;
use vio::{Failed, World};

/// How many bytes are asked for at once.
pub(crate) const PIECE: usize = 65536;

/// Reads bytes into the part of a list behind a place: none only at the end, or where nothing is behind it.
pub fn read_behind<W: World>(
    bytes: &mut [u8],
    place: usize,
    handle: u32,
    world: &mut W,
) -> Result<usize, Failed>
    requires { place ≤ length bytes.old }
    ensures fits { IfOk result (λ n. place + n ≤ length bytes.old) }
    ensures kept { take place bytes.new ≡ take place bytes.old }
    ensures read { IfOk result
        (λ n. Read handle (take n (drop place bytes.new)) (W.seen world.old) (W.seen world.new)) }
    ensures end { IfOk result (λ n. n ≡ 0 → place < length bytes.old →
        IsAtEnd handle (W.seen world.new)) }

    ensures same { OnErr result (OnlyCounts (W.seen world.old) (W.seen world.new)) }
    ensures rose { OnErr result (FaultsRose Reading handle (W.seen world.old) (W.seen world.new)) }
{
    let (_, behind) = bytes.split_at_mut(place);
    world.read(handle, behind)
}

/// Adds what one read gives; none at the end, or where no more may be held.
fn fill<W: World>(
    buffer: &mut BytesMut,
    most: usize,
    handle: u32,
    world: &mut W,
) -> Result<usize, StepFault>
    requires { length buffer.old.items ≤ most }
    ensures filled { Filled handle buffer.old.items buffer.new.items (W.seen world.old)
        (W.seen world.new) }
    ensures within { length buffer.new.items ≤ most }
    ensures size { IfOk result (λ n. length buffer.new.items ≡ length buffer.old.items + n) }
    ensures few { IfOk result (λ n. n ≤ 65536) }
    ensures end { IfOk result (λ n. n ≡ 0 → length buffer.new.items < most →
        IsAtEnd handle (W.seen world.new)) }

    ensures kept { OnErr result (buffer.new.items ≡ buffer.old.items) }
    ensures rose { IsErrOf result StepFault.Failed →
        FaultsRose Reading handle (W.seen world.old) (W.seen world.new) }
{
    let length = buffer.len();
    let room = PIECE.min(most - length);
    buffer.reserve(room)?;
    buffer.advance_mut(room);
    match read_behind(buffer.as_mut_slice(), length, handle, world) {
        Ok(n) => {
            buffer.truncate(length + n);
            Ok(n)
        }
        Err(e) => {
            buffer.truncate(length);
            Err(StepFault::from(e))
        }
    }
}

/// Reads until so many bytes are held; `false` where they end before, or where no more may be held.
pub(crate) fn fill_to<W: World>(
    buffer: &mut BytesMut,
    size: usize,
    most: usize,
    handle: u32,
    world: &mut W,
) -> Result<bool, StepFault>
    requires size { size ≤ 8388608 }
    requires most { length buffer.old.items ≤ most }
    ensures filled { Filled handle buffer.old.items buffer.new.items (W.seen world.old)
        (W.seen world.new) }
    ensures within { length buffer.new.items ≤ most }
    ensures held { size ≤ length buffer.old.items → buffer.new.items ≡ buffer.old.items }
    ensures unread { size ≤ length buffer.old.items → W.seen world.new ≡ W.seen world.old }
    ensures enough { IfOk result (λ b. b ≡ true → size ≤ length buffer.new.items) }
    ensures bound { IfOk result
        (λ _. length buffer.new.items ≤ max (length buffer.old.items) (size + 65535)) }
    ensures short { IfOk result (λ b. b ≡ false → length buffer.new.items < size) }
    ensures end { IfOk result (λ b. b ≡ false → length buffer.new.items < most →
        IsAtEnd handle (W.seen world.new)) }

    ensures cut { OnErr result (length buffer.new.items < size) }
    ensures rose { IsErrOf result StepFault.Failed →
        FaultsRose Reading handle (W.seen world.old) (W.seen world.new) }
{
    while buffer.len() < size {
        let n = fill(buffer, most, handle, world)?;
        if n == 0 {
            return Ok(false);
        }
    }
    Ok(true)
}
