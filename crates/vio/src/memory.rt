//! A world in memory, for tests: it tells every byte.

ghost use Rattle.std.specs.Prelude.{◌≡◌, ◌≢◌, ◌⊎◌, ◌<◌, ◌≤◌, ℕ, List, length, take, codes, true, false, Some, IfOk, OnOk, OnErr};

use crate::fault::{Failed, WorldFault};
use crate::file::{
    MemFile, OpenFile, Plan, Source, begin_file, create_file, find_bytes, open_file,
};
use crate::world::{Created, ERRORS, INPUT, OUTPUT, World};
use log_model::NoMemory;
use std::alloc::Global;

/// How many bytes of output a new world has room for.
const FIRST_ROOM: usize = 4096;

/// The handle of the first file that is opened or created.
const FIRST_HANDLE: u32 = 3;

/// Files and standard streams in memory. Handles are given from 3 upwards, one for each `open` or
/// `create` that succeeds. What is written to a created one is appended to the file of its name. The
/// world keeps one count, which is its count of faults for every kind of call and every name.
#[derive(Drop)]
pub struct MemWorld {
    alloc: Global,
    /// The newest first: it hides an older one of its name.
    files: Vec<MemFile>,
    /// In the order in which they were opened or created.
    opened: Vec<OpenFile>,
    /// What handle 0 reads.
    input: Source,
    /// What was written to handle 1.
    output: Vec<u8>,
    /// What was written to handle 2.
    errors: Vec<u8>,
    /// How many calls failed; at 2^64 - 1 it stands still.
    faults: u64,
    /// Which calls fail, and how many bytes they move.
    plan: Plan,
}

impl MemWorld {
    ghost use Rattle.std.specs.Result.{IsErrOf};
    ghost use Rattle.vio.specs.Memory.{memory_seen, opened_at, content_of, held_now, is_sink, IsNew, Holds, HasInput, IsSame, TellsAll};
    ghost use Rattle.vio.specs.World.{Wrote};
    ghost use Rattle.vio.specs.Plan.{HasNoPlan, KeepsPlan, FailsToo, MovesAtMost};

    /// A world with no file, an empty standard input, and nothing written. Calls move all they can.
    pub fn new(alloc: Global) -> Result<MemWorld, NoMemory>
        ensures new { IfOk result (λ m. IsNew (memory_seen m)) }
        ensures plan { IfOk result (λ m. HasNoPlan m.plan) }
    {
        let output = Vec::with_capacity(alloc, FIRST_ROOM)?;
        Ok(MemWorld {
            alloc,
            files: Vec::new(alloc),
            opened: Vec::new(alloc),
            input: Source {
                bytes: Vec::new(alloc),
                place: 0,
            },
            output,
            errors: Vec::new(alloc),
            faults: 0,
            plan: Plan {
                calls: 0,
                failing: Vec::new(alloc),
                most: usize::MAX,
            },
        })
    }

    /// Puts bytes under a name, where they hide an older file of that name. The name `-` is that of
    /// standard input. Handles that were opened before keep their bytes.
    pub fn file(&mut self, name: &str, bytes: &[u8]) -> Result<(), NoMemory>
        ensures file { OnOk result (name.now ≢ codes "-" → Holds name.now bytes.now (memory_seen self.old) (memory_seen self.new)) }
        ensures input { OnOk result (name.now ≡ codes "-" → HasInput bytes.now (memory_seen self.old) (memory_seen self.new)) }
        ensures err { OnErr result (IsSame (memory_seen self.old) (memory_seen self.new)) }
        ensures plan { KeepsPlan self.old.plan self.new.plan }
    {
        let bytes = Vec::from_slice(self.alloc, bytes)?;
        if name == "-" {
            self.input = Source { bytes, place: 0 };
            return Ok(());
        }
        let name = Vec::from_slice(self.alloc, name.as_bytes())?;
        let file = MemFile { name, bytes };
        self.files.insert(0, file)?;
        Ok(())
    }

    /// Lets the call of this number fail, counted from 1 over `open`, `create`, `read` and `write`.
    pub fn fail(&mut self, call: u64) -> Result<(), NoMemory>
        ensures same { IsSame (memory_seen self.old) (memory_seen self.new) }
        ensures ok { OnOk result (FailsToo call self.old.plan self.new.plan) }
        ensures err { OnErr result (KeepsPlan self.old.plan self.new.plan) }
    {
        self.plan.failing.push(call)?;
        Ok(())
    }

    /// Lets each read and each write move at most so many bytes; 0 counts as 1.
    pub fn piece(&mut self, most: usize)
        ensures same { IsSame (memory_seen self.old) (memory_seen self.new) }
        ensures piece { MovesAtMost most self.old.plan self.new.plan }
    {
        self.plan.most = most;
    }

    /// The content behind a handle: of an opened or created handle what its name holds now, of 0 all of
    /// standard input, of 1 and 2 what was written, of a handle never given nothing.
    pub fn content(&self, h: u32) -> &[u8]
        ensures value { result.now ≡ content_of self.now h }
        ensures written { (h ≡ OUTPUT) ⊎ (h ≡ ERRORS) → (memory_seen self.now).written h ≡ Some result.now }
        ensures tells { TellsAll (⟦<MemWorld as World>⟧.seen self.now) }
    {
        match h {
            INPUT => self.input.bytes.as_slice(),
            OUTPUT => self.output.as_slice(),
            ERRORS => self.errors.as_slice(),
            _ => self.named_content(h),
        }
    }

    /// What the name of an opened or created handle holds now.
    fn named_content(&self, h: u32) -> &[u8]
        ensures { result.now ≡ held_now self.now.files.items (opened_at self.now.opened.items h) }
    {
        if h < FIRST_HANDLE {
            return &[];
        }
        let Some(file) = self.opened.get((h - FIRST_HANDLE) as usize) else {
            return &[];
        };
        let Some(bytes) = find_bytes(&self.files, &file.name) else {
            return &[];
        };
        bytes
    }

    /// Appends a piece to what was written to a handle, where it can be written to.
    fn append(&mut self, h: u32, piece: &[u8]) -> Result<(), WorldFault>
        ensures ok { OnOk result (Wrote h piece.now (memory_seen self.old) (memory_seen self.new)) }

        ensures err { OnErr result (IsSame (memory_seen self.old) (memory_seen self.new)) }
        ensures failed { IsErrOf result WorldFault.Failed → is_sink self.old.opened.items h ≡ false }
        ensures memory { IsErrOf result WorldFault.NoMemory → is_sink self.old.opened.items h ≡ true }
        ensures done { OnOk result (is_sink self.old.opened.items h ≡ true) }
        ensures plan { KeepsPlan self.old.plan self.new.plan }
        ensures faults { self.new.faults ≡ self.old.faults }
    {
        if h == OUTPUT {
            return Ok(self.output.extend_from_slice(piece)?);
        }
        if h == ERRORS {
            return Ok(self.errors.extend_from_slice(piece)?);
        }
        if h < FIRST_HANDLE {
            return Err(WorldFault::Failed);
        }
        let place = (h - FIRST_HANDLE) as usize;
        if place >= self.opened.len() {
            return Err(WorldFault::Failed);
        }
        self.opened[place].append(&mut self.files, piece)
    }
}

impl World for MemWorld {
    ghost use Rattle.std.specs.Result.{IsErrOf};
    ghost use Rattle.log_model.specs.Faults.{HasNewFault};
    ghost use Rattle.vio.specs.Memory.{memory_seen, MemOpens, MemCreates, MemReads, MemWrites};
    ghost use Rattle.vio.specs.World.{Opening, Creating, Reading, Writing, Opened, FileCreated, Read, Wrote, OnlyCounts, FaultsRose, NoNewFaults, IsAtEnd};
    ghost use Rattle.vio.specs.MemoryStreams.{HasStreams-memory};

    ghost seen = { memory_seen };

    ghost streams = { HasStreams-memory };

    fn open(&mut self, name: &str) -> Result<u32, WorldFault>
        ensures ok { IfOk result (λ h. Opened name.now h (memory_seen self.old) (memory_seen self.new)) }

        ensures err { OnErr result (OnlyCounts (memory_seen self.old) (memory_seen self.new)) }
        ensures failed { IsErrOf result WorldFault.Failed →
            HasNewFault ((memory_seen self.old).faults Opening name.now) ((memory_seen self.new).faults Opening name.now) }
        ensures memory { IsErrOf result WorldFault.NoMemory → NoNewFaults (memory_seen self.old) (memory_seen self.new) }
        ensures exact { MemOpens name.now self.old self.new result }
    {
        if self.plan.is_failing_call() {
            self.faults = self.faults.saturating_add(1);
            return Err(WorldFault::Failed);
        }
        let Some(bytes) = find_bytes(&self.files, name.as_bytes()) else {
            self.faults = self.faults.saturating_add(1);
            return Err(WorldFault::Failed);
        };
        let file = open_file(self.alloc, name.as_bytes(), bytes)?;
        let Ok(handle) = u32::try_from(self.opened.len() + FIRST_HANDLE as usize) else {
            return Err(WorldFault::NoMemory);
        };
        self.opened.push(file)?;
        Ok(handle)
    }

    fn create(&mut self, name: &str, append: bool) -> Result<Created, WorldFault>
        ensures ok { IfOk result (λ c. FileCreated append name.now c.handle c.empty (memory_seen self.old) (memory_seen self.new)) }

        ensures err { OnErr result (OnlyCounts (memory_seen self.old) (memory_seen self.new)) }
        ensures failed { IsErrOf result WorldFault.Failed →
            HasNewFault ((memory_seen self.old).faults Creating name.now) ((memory_seen self.new).faults Creating name.now) }
        ensures memory { IsErrOf result WorldFault.NoMemory → NoNewFaults (memory_seen self.old) (memory_seen self.new) }
        ensures exact { MemCreates append name.now self.old self.new result }
    {
        if self.plan.is_failing_call() {
            self.faults = self.faults.saturating_add(1);
            return Err(WorldFault::Failed);
        }
        let Ok(handle) = u32::try_from(self.opened.len() + FIRST_HANDLE as usize) else {
            return Err(WorldFault::NoMemory);
        };
        let file = create_file(self.alloc, name.as_bytes())?;
        self.opened.reserve(1)?;
        let empty = begin_file(self.alloc, &mut self.files, name.as_bytes(), append)?;
        self.opened.push_reserved(file);
        Ok(Created { handle, empty })
    }

    fn read(&mut self, h: u32, buf: &mut [u8]) -> Result<usize, Failed>
        ensures fits { IfOk result (λ n. n ≤ length buf.old) }
        ensures ok { IfOk result (λ n. Read h (take n buf.new) (memory_seen self.old) (memory_seen self.new)) }
        ensures some { IfOk result (λ n. n ≡ 0 → 0 < length buf.old → IsAtEnd h (memory_seen self.old)) }
        ensures end { IfOk result (λ n. n ≡ 0 → 0 < length buf.old → IsAtEnd h (memory_seen self.new)) }

        ensures err { OnErr result (OnlyCounts (memory_seen self.old) (memory_seen self.new)) }
        ensures failed { OnErr result (FaultsRose Reading h (memory_seen self.old) (memory_seen self.new)) }
        ensures exact { MemReads h (length buf.old) self.old self.new result }
    {
        if self.plan.is_failing_call() {
            self.faults = self.faults.saturating_add(1);
            return Err(Failed);
        }
        if h == INPUT {
            return Ok(self.input.take_piece(buf, self.plan.most));
        }
        if h < FIRST_HANDLE {
            self.faults = self.faults.saturating_add(1);
            return Err(Failed);
        }
        let place = (h - FIRST_HANDLE) as usize;
        if place >= self.opened.len() {
            self.faults = self.faults.saturating_add(1);
            return Err(Failed);
        }
        let Some(n) = self.opened[place].take_piece(buf, self.plan.most) else {
            self.faults = self.faults.saturating_add(1);
            return Err(Failed);
        };
        Ok(n)
    }

    fn write(&mut self, h: u32, piece: &[u8]) -> Result<usize, WorldFault>
        ensures fits { IfOk result (λ n. n ≤ length piece.now) }
        ensures ok { IfOk result (λ n. Wrote h (take n piece.now) (memory_seen self.old) (memory_seen self.new)) }
        ensures some { IfOk result (λ n. 0 < length piece.now → 0 < n) }

        ensures err { OnErr result (OnlyCounts (memory_seen self.old) (memory_seen self.new)) }
        ensures failed { IsErrOf result WorldFault.Failed → FaultsRose Writing h (memory_seen self.old) (memory_seen self.new) }
        ensures memory { IsErrOf result WorldFault.NoMemory → NoNewFaults (memory_seen self.old) (memory_seen self.new) }
        ensures exact { MemWrites h (length piece.now) self.old self.new result }
    {
        if self.plan.is_failing_call() {
            self.faults = self.faults.saturating_add(1);
            return Err(WorldFault::Failed);
        }
        let n = piece.len().min(self.plan.most.max(1));
        let (prefix, _) = piece.split_at(n);
        match self.append(h, prefix) {
            Ok(()) => Ok(n),
            Err(WorldFault::Failed) => {
                self.faults = self.faults.saturating_add(1);
                Err(WorldFault::Failed)
            }
            Err(WorldFault::NoMemory) => Err(WorldFault::NoMemory),
        }
    }
}
