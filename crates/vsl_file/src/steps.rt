//! Taking a unit from a file.

ghost use Rattle.std.specs.Prelude.{◌≡◌, ◌+◌, ◌<◌, ◌≤◌, not, true, false, length, drop, IfOk, OnErr, IfSome, IfNone, IsErrOf};
ghost use Rattle.vio.specs.World.{Reading, ReadSome, FaultsRose, IsAtEnd, OnlyCounts};
ghost use Rattle.vsl_file.specs.File.{is_unit_header, stops_early};
ghost use Rattle.vsl_file.specs.inside.FileReading.{IsHeadSize, IsBroken, BeginsWithUnit};
ghost use Rattle.vsl_file.specs.inside.ReaderSteps.{Filled, Holds, GoesOn, HasEnded, Took, TookHeld, CutShort};

use crate::fault::StepFault;
use crate::filling::fill_to;
use bytes::BytesMut;
use std::alloc::Global;
use std::mem;
use vio::{Failed, NoMemory, World};
use vsl_record::{Records, TOP_BYTE, UNIT_MARK, Unit, Version, WordFault, read_unit_bytes};

/// The bytes of a word.
pub(crate) const WORD: usize = 4;

/// What is held where the next unit begins.
pub(crate) enum Held {
    /// As many bytes as the unit's header counts.
    Sized(usize),
    /// Fewer bytes than that, or than a header: all that are left, or as many as may be held.
    Stopped,
    /// The header of no unit.
    Broken,
}

/// What begins what is left.
#[derive(Drop)]
pub(crate) enum Taken {
    /// A unit of so many bytes, which was taken.
    Whole(Unit, usize),
    /// Nothing: all was used.
    End,
    /// Something that isn't a whole and correct unit.
    Damaged,
    /// What may be cut: more bytes are left than may be held.
    TooLarge,
}

/// Whether a word can be the header of a unit: it counts no fewer words than itself and a record without a payload are.
fn is_unit_header(version: Version, head: u32) -> bool
    ensures { result ≡ is_unit_header version head }
{
    let words = (head % TOP_BYTE) as usize;
    let least = 2 + version.id_size();
    let most = version.most_words();
    head / TOP_BYTE == UNIT_MARK && words >= least && words <= most
}

/// How many bytes the unit that begins the bytes has, as its header says, where that can be a unit's header.
fn head_size(version: Version, bytes: &[u8]) -> Option<usize>
    requires { 4 ≤ length bytes.now }
    ensures some { IfSome result (λ size. IsHeadSize version size bytes.now) }
    ensures none { IfNone result (IsBroken version bytes.now) }
{
    let [a, b, c, d, ..] = bytes else {
        return None;
    };
    let head = u32::from_le_bytes([*a, *b, *c, *d]);
    if !is_unit_header(version, head) {
        return None;
    }
    Some(WORD * (head % TOP_BYTE) as usize)
}

/// Whether the bytes don't stop before the end of a unit: a unit lies in them, or what they begin is none.
pub(crate) fn holds_next(version: Version, bytes: &[u8]) -> bool
    ensures { result ≡ not (stops_early version bytes.now) }
{
    if bytes.len() < WORD {
        return false;
    }
    match head_size(version, bytes) {
        Some(size) => size <= bytes.len(),
        None => true,
    }
}

/// Reads the unit of this size that begins the bytes. It stands in the memory of the records that are given.
fn read_sized(
    version: Version,
    room: Records,
    bytes: &[u8],
    size: usize,
) -> Result<Option<Unit>, NoMemory>
    requires sized { IsHeadSize version size bytes.now }
    requires enough { size ≤ length bytes.now }
    ensures some { IfOk result
        (λ o. IfSome o (λ u. BeginsWithUnit version bytes.now u (drop size bytes.now))) }
    ensures none { IfOk result (λ o. IfNone o (IsBroken version bytes.now)) }
{
    let (part, _) = bytes.split_at(size);
    match read_unit_bytes(version, room, part) {
        Ok((unit, _)) => Ok(Some(unit)),
        Err(fault) if fault == WordFault::NoMemory => Err(NoMemory),
        Err(_) => Ok(None),
    }
}

/// Reads until as many bytes are held as the next unit's header counts. The header is looked at before
/// more is asked for.
fn hold_unit<W: World>(
    version: Version,
    buffer: &mut BytesMut,
    most: usize,
    handle: u32,
    world: &mut W,
) -> Result<Held, StepFault>
    requires { length buffer.old.items ≤ most }
    ensures filled { Filled handle buffer.old.items buffer.new.items (W.seen world.old)
        (W.seen world.new) }
    ensures within { length buffer.new.items ≤ most }
    ensures holds { IfOk result
        (λ held. Holds version handle most held buffer.old.items buffer.new.items
        (W.seen world.new)) }
    ensures held { stops_early version buffer.old.items ≡ false →
        buffer.new.items ≡ buffer.old.items }
    ensures unread { stops_early version buffer.old.items ≡ false →
        W.seen world.new ≡ W.seen world.old }

    ensures stops { OnErr result (stops_early version buffer.new.items ≡ true) }
    ensures rose { IsErrOf result StepFault.Failed →
        FaultsRose Reading handle (W.seen world.old) (W.seen world.new) }
{
    if !fill_to(buffer, WORD, most, handle, world)? {
        return Ok(Held::Stopped);
    }
    let Some(size) = head_size(version, buffer.as_slice()) else {
        return Ok(Held::Broken);
    };
    if !fill_to(buffer, size, most, handle, world)? {
        return Ok(Held::Stopped);
    }
    Ok(Held::Sized(size))
}

/// Whether more bytes are left, where those that are held are all or as many as may be held. Then one of
/// them is read.
fn goes_on<W: World>(held: usize, most: usize, handle: u32, world: &mut W) -> Result<bool, Failed>
    requires within { held ≤ most }
    requires end { held < most → IsAtEnd handle (W.seen world.old) }
    ensures more { IfOk result (λ b. b ≡ true →
        (held ≡ most) × GoesOn handle (W.seen world.old) (W.seen world.new)) }
    ensures none { IfOk result (λ b. b ≡ false →
        HasEnded handle (W.seen world.old) (W.seen world.new)) }
    ensures reads { ReadSome handle (W.seen world.old) (W.seen world.new) }

    ensures same { OnErr result (OnlyCounts (W.seen world.old) (W.seen world.new)) }
    ensures rose { OnErr result (FaultsRose Reading handle (W.seen world.old) (W.seen world.new)) }
{
    if held < most {
        return Ok(false);
    }
    let mut aside = [0];
    let n = world.read(handle, &mut aside)?;
    Ok(n > 0)
}

/// Takes the unit that begins what is left. It stands in the memory of the records that are given, which are let go.
pub(crate) fn take_unit<W: World>(
    version: Version,
    alloc: Global,
    room: &mut Records,
    buffer: &mut BytesMut,
    most: usize,
    handle: u32,
    world: &mut W,
) -> Result<Taken, StepFault>
    requires { length buffer.old.items ≤ most }
    ensures took { IfOk result
        (λ t. Took version handle most t buffer.old.items buffer.new.items (W.seen world.old)
        (W.seen world.new)) }
    ensures within { length buffer.new.items ≤ most }
    ensures reads { ReadSome handle (W.seen world.old) (W.seen world.new) }
    ensures held { stops_early version buffer.old.items ≡ false →
        TookHeld result buffer.old.items buffer.new.items }
    ensures unread { stops_early version buffer.old.items ≡ false →
        W.seen world.new ≡ W.seen world.old }

    ensures failed { IsErrOf result StepFault.Failed →
        CutShort version handle buffer.old.items buffer.new.items (W.seen world.old)
        (W.seen world.new) }
{
    match hold_unit(version, buffer, most, handle, world)? {
        Held::Sized(size) => {
            let Some(unit) = read_sized(
                version,
                mem::replace(room, Records::new(alloc)),
                buffer.as_slice(),
                size,
            )?
            else {
                return Ok(Taken::Damaged);
            };
            buffer.advance(size);
            Ok(Taken::Whole(unit, size))
        }
        Held::Stopped => {
            if goes_on(buffer.len(), most, handle, world)? {
                return Ok(Taken::TooLarge);
            }
            if buffer.is_empty() {
                return Ok(Taken::End);
            }
            Ok(Taken::Damaged)
        }
        Held::Broken => Ok(Taken::Damaged),
    }
}
