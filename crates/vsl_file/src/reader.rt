//! Reading the units of a file, one after the other.

ghost use Rattle.std.specs.Prelude.{◌≡◌, ◌+◌, ◌≤◌, ℕ, List, [], true, is_err, length, Some, None, Ok, Err, IfOk};
ghost use Rattle.vio.specs.World.{ReadSome};
ghost use Rattle.vsl_file.specs.File.{most_bytes};
ghost use Rattle.vsl_file.specs.inside.ReaderSteps.{BeganSo};
ghost use Rattle.vsl_file.specs.ReaderState.{Represents, Stepped, SteppedAtHand, is_at_hand};
ghost use Rattle.vsl_record.specs.Unit.{LogUnit, Log};

use crate::fault::{FileFault, StepFault};
use crate::filling::PIECE;
use crate::header::{HEADER, Header, take_header};
use crate::steps::{Taken, holds_next, take_unit};
use bytes::BytesMut;
use std::alloc::Global;
use std::marker::Model;
use vio::{NoMemory, World};
use vsl_record::{Records, Unit, Version};

/// The most bytes of a file that are read: 2^40.
const MOST_BYTES: u64 = 1_099_511_627_776;

/// What comes next in a file.
#[derive(Drop)]
pub enum FileStep {
    /// A unit.
    Unit(Unit),
    /// The end.
    End,
}

/// Reads the units of a log file, one after the other. It holds at most one unit's bytes and 64 KiB, and the memory of one
/// unit that was given back. Contracts see its state.
#[derive(Drop)]
pub struct FileReader {
    alloc: Global,
    handle: u32,
    /// The version of the file, once its header was read.
    version: Option<Version>,
    place: u64,
    buffer: BytesMut,
    /// Records that aren't needed, in whose memory the next unit will stand.
    room: Records,
    failed: bool,
}

impl Model for FileReader {
    ghost use Rattle.std.specs.Prelude.{◌≡◌, ◌+◌, ◌≤◌, None, length};
    ghost use Rattle.vsl_file.specs.ReaderState.{ReaderState};

    ghost Value = { ReaderState };

    ghost view = { λ r. record {
      handle = r.handle;
      version = r.version;
      place = r.place;
      rest = r.buffer.items;
      failed = r.failed;
    } };

    ghost invariant = { λ r. (r.place + length r.buffer.items ≤ 1099511627776) ×
        (r.version ≡ None → r.place ≡ 0) };
}

impl FileReader {
    /// A reader of the file of this handle, from which nothing was read.
    pub fn new(alloc: Global, handle: u32) -> Result<FileReader, NoMemory>
        ensures handle { IfOk result (λ r. r.handle ≡ handle) }
        ensures new { IfOk result (λ r. Represents r [] []) }
    {
        Ok(FileReader {
            alloc,
            handle,
            version: None,
            place: 0,
            buffer: BytesMut::with_capacity(alloc, 2 * PIECE)?,
            room: Records::new(alloc),
            failed: false,
        })
    }

    #[tactic(auto, unfolding(crate::specs::File::most_bytes))]
    /// Gives the next unit, or says that the file ended. After a fault each call answers `FailedBefore`.
    ///
    /// Of a file of more than 2^40 bytes the first 2^40 are read as a file, and one more byte shows that it
    /// goes on.
    pub fn next<W: World>(&mut self, world: &mut W) -> Result<FileStep, FileFault>
        ensures stepped { (taken : List ℕ) (units : Log) → Represents self.old taken units →
            Stepped result self.old self.new taken units (W.seen world.old) (W.seen world.new) }
        ensures further { (u : LogUnit) → result ≡ Ok (FileStep.Unit u) →
            self.old.place + 12 ≤ self.new.place }
        ensures within { self.new.place ≤ most_bytes }
        ensures reads { ReadSome self.old.handle (W.seen world.old) (W.seen world.new) }

        ensures before { self.old.failed ≡ true → result ≡ Err FileFault.FailedBefore }
        ensures unread { self.old.failed ≡ true → W.seen world.new ≡ W.seen world.old }
        ensures failed { self.new.failed ≡ is_err result }
        ensures handle { self.new.handle ≡ self.old.handle }

        ensures at_hand { (taken : List ℕ) (units : Log) → Represents self.old taken units →
            is_at_hand self.old ≡ true →
            SteppedAtHand result self.old self.new taken units (W.seen world.new) }
        ensures unread_at_hand { is_at_hand self.old ≡ true → W.seen world.new ≡ W.seen world.old }
    {
        if self.failed {
            return Err(FileFault::FailedBefore);
        }
        let step = self.step(world);
        self.failed = step.is_err();
        step
    }

    /// The version of the file's words, once its header was read.
    pub fn version(&self) -> Option<Version>
        ensures { result ≡ self.now.version }
    {
        self.version
    }

    /// Whether what comes next is at hand: `next` reads nothing for it, and gives a unit, or says why there is none.
    pub fn is_at_hand(&self) -> bool
        ensures { result ≡ is_at_hand self.now }
    {
        let Some(version) = self.version else {
            return false;
        };
        holds_next(version, self.buffer.as_slice())
    }

    /// Takes back a unit that isn't needed: the next one will stand in its memory.
    pub fn give_back(&mut self, unit: Unit)
        ensures { self.new ≡ self.old }
    {
        if let Some(records) = unit.into_records() {
            self.room = records;
        }
    }

    /// Gives the next unit, after the header.
    fn step<W: World>(&mut self, world: &mut W) -> Result<FileStep, FileFault>
        ensures stepped { (taken : List ℕ) (units : Log) → Represents self.old taken units →
            Stepped result self.old self.new taken units (W.seen world.old) (W.seen world.new) }
        ensures further { (u : LogUnit) → result ≡ Ok (FileStep.Unit u) →
            self.old.place + 12 ≤ self.new.place }
        ensures reads { ReadSome self.old.handle (W.seen world.old) (W.seen world.new) }
        ensures failed { self.new.failed ≡ self.old.failed }
        ensures handle { self.new.handle ≡ self.old.handle }
        ensures at_hand { (taken : List ℕ) (units : Log) → Represents self.old taken units →
            is_at_hand self.old ≡ true →
            SteppedAtHand result self.old self.new taken units (W.seen world.new) }
        ensures unread_at_hand { is_at_hand self.old ≡ true → W.seen world.new ≡ W.seen world.old }
    {
        if let Some(version) = self.version {
            return self.take(version, world);
        }
        let version = self.begin(world)?;
        self.take(version, world)
    }

    /// Takes the header, and says of which version it is.
    fn begin<W: World>(&mut self, world: &mut W) -> Result<Version, FileFault>
        requires { self.old.version ≡ None }
        ensures began { (taken : List ℕ) (units : Log) → Represents self.old taken units →
            BeganSo result self.old self.new taken units (W.seen world.old) (W.seen world.new) }
        ensures version { IfOk result (λ v. self.new.version ≡ Some v) }
        ensures place { self.old.place ≤ self.new.place }
        ensures reads { ReadSome self.old.handle (W.seen world.old) (W.seen world.new) }
        ensures failed { self.new.failed ≡ self.old.failed }
        ensures handle { self.new.handle ≡ self.old.handle }
    {
        match take_header(&mut self.buffer, MOST_BYTES as usize, self.handle, world) {
            Ok(Header::Found(version)) => {
                self.version = Some(version);
                self.place = HEADER.len() as u64;
                Ok(version)
            }
            Ok(Header::Missing(at)) => Err(FileFault::NotALog { at: at as u64 }),
            Err(StepFault::Failed) => Err(FileFault::ReadFault),
            Err(StepFault::NoMemory) => Err(FileFault::NoMemory),
        }
    }

    /// Takes a unit.
    fn take<W: World>(&mut self, version: Version, world: &mut W) -> Result<FileStep, FileFault>
        requires { self.old.version ≡ Some version }
        ensures stepped { (taken : List ℕ) (units : Log) → Represents self.old taken units →
            Stepped result self.old self.new taken units (W.seen world.old) (W.seen world.new) }
        ensures further { (u : LogUnit) → result ≡ Ok (FileStep.Unit u) →
            self.old.place + 12 ≤ self.new.place }
        ensures reads { ReadSome self.old.handle (W.seen world.old) (W.seen world.new) }
        ensures failed { self.new.failed ≡ self.old.failed }
        ensures handle { self.new.handle ≡ self.old.handle }
        ensures at_hand { (taken : List ℕ) (units : Log) → Represents self.old taken units →
            is_at_hand self.old ≡ true →
            SteppedAtHand result self.old self.new taken units (W.seen world.new) }
        ensures unread_at_hand { is_at_hand self.old ≡ true → W.seen world.new ≡ W.seen world.old }
    {
        let most = (MOST_BYTES - self.place) as usize;
        match take_unit(
            version,
            self.alloc,
            &mut self.room,
            &mut self.buffer,
            most,
            self.handle,
            world,
        ) {
            Ok(Taken::Whole(unit, size)) => {
                self.place += size as u64;
                Ok(FileStep::Unit(unit))
            }
            Ok(Taken::End) => Ok(FileStep::End),
            Ok(Taken::Damaged) => Err(FileFault::Damaged { at: self.place }),
            Ok(Taken::TooLarge) => Err(FileFault::TooLarge),
            Err(StepFault::Failed) => Err(FileFault::ReadFault),
            Err(StepFault::NoMemory) => Err(FileFault::NoMemory),
        }
    }
}
