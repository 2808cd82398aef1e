//! A world in memory that keeps the calls that are made of it.

ghost use Rattle.vio.specs.Memory.{memory_seen};
ghost use Rattle.vio.specs.MemoryStreams.{HasStreams-memory};

use crate::comparing::holds;
use acceptance_support::Ending;
use std::alloc::Global;
use std::process::Abort;
use vio::{Created, ERRORS, Failed, INPUT, MemWorld, OUTPUT, World, WorldFault};

/// What a call does.
#[derive(Clone, Copy, Debug, PartialEq, Eq)]
pub enum Deed {
    Open,
    Create,
    Read,
    Write,
}

/// A call: what it does, the name of its object, and how many bytes it moved; nothing where it failed.
#[derive(Clone, Copy, Debug, PartialEq, Eq)]
pub struct Call {
    pub deed: Deed,
    pub object: &'static str,
    pub moved: Option<usize>,
}

impl Call {
    /// How a run ends in which it fails.
    pub fn ending(self) -> Ending {
        match self.deed {
            Deed::Open => Ending::NoOpen(self.object),
            Deed::Create => Ending::NoOpen(self.object),
            Deed::Read => Ending::ReadFault(self.object),
            Deed::Write => Ending::WriteFault(self.object),
        }
    }
}

/// The name of standard error in a fault.
pub const STDERR: &str = "stderr";

/// How many bytes calls moved of an object.
pub fn moved_of(calls: &[Call], deed: Deed, object: &str) -> usize {
    let mut moved: usize = 0;
    for call in calls {
        if call.deed == deed && call.object == object {
            moved = moved.saturating_add(call.moved.unwrap_or(0));
        }
    }
    moved
}

/// The calls of a world, in order.
#[derive(Drop)]
struct Calls {
    /// The names that files may have.
    names: &'static [&'static str],
    /// The names of the handles from 3 on.
    given: Vec<&'static str>,
    made: Vec<Call>,
    /// Whether there was memory for all of them.
    whole: bool,
}

impl Calls {
    /// A name, among those that files may have.
    fn named(&self, name: &str) -> &'static str {
        for known in self.names {
            if *known == name {
                return *known;
            }
        }
        "another file"
    }

    /// The name of a handle.
    fn held_by(&self, h: u32) -> &'static str {
        match h {
            INPUT => "-",
            OUTPUT => "-",
            ERRORS => STDERR,
            _ => match self.given.get(h.saturating_sub(3) as usize) {
                Some(name) => *name,
                None => "no file",
            },
        }
    }

    /// Adds a call.
    fn add(&mut self, deed: Deed, object: &'static str, moved: Option<usize>) {
        let call = Call {
            deed,
            object,
            moved,
        };
        if self.made.push(call).is_err() {
            self.whole = false;
        }
    }

    /// Adds a call that gives a handle, if it didn't fail.
    fn add_given(&mut self, deed: Deed, name: &str, went: bool) {
        let object = self.named(name);
        if !went {
            self.add(deed, object, None);
            return;
        }
        self.add(deed, object, Some(0));
        if self.given.push(object).is_err() {
            self.whole = false;
        }
    }

    /// Adds a call on a handle.
    fn add_on(&mut self, deed: Deed, h: u32, moved: Option<usize>) {
        let object = self.held_by(h);
        self.add(deed, object, moved);
    }
}

/// A world in memory, and the calls that were made of it.
#[derive(Drop)]
pub struct WatchedWorld {
    pub memory: MemWorld,
    calls: Calls,
}

impl WatchedWorld {
    /// A world whose files may have these names, and have none yet.
    pub fn new(rt: &impl Abort, alloc: Global, names: &'static [&'static str]) -> WatchedWorld {
        WatchedWorld {
            memory: MemWorld::new(alloc).expect(rt, "memory"),
            calls: Calls {
                names,
                given: Vec::new(alloc),
                made: Vec::new(alloc),
                whole: true,
            },
        }
    }

    /// Gives a file bytes.
    pub fn file(&mut self, rt: &impl Abort, name: &str, bytes: &[u8]) {
        self.memory.file(name, bytes).expect(rt, "memory");
    }

    /// The calls that were made.
    pub fn calls(&self, rt: &impl Abort, alloc: Global) -> Vec<Call> {
        holds(rt, self.calls.whole, "memory for all calls");
        Vec::from_slice(alloc, &self.calls.made).expect(rt, "memory")
    }

    /// The handle of a file, which takes a call; nothing where there is none. At most two calls of a plan are left to fail.
    fn opened(&mut self, name: &str) -> Option<u32> {
        for _ in 0..3 {
            if let Ok(handle) = self.memory.open(name) {
                return Some(handle);
            }
        }
        None
    }

    /// What a file holds; nothing where there is none.
    pub fn held(&mut self, rt: &impl Abort, alloc: Global, name: &str) -> Vec<u8> {
        let Some(handle) = self.opened(name) else {
            return Vec::new(alloc);
        };
        Vec::from_slice(alloc, self.memory.content(handle)).expect(rt, "memory")
    }
}

impl World for WatchedWorld {
    ghost seen = { λ w. memory_seen w.memory };

    ghost streams = { λ w. HasStreams-memory w.memory };

    fn open(&mut self, name: &str) -> Result<u32, WorldFault> {
        let opened = self.memory.open(name);
        self.calls.add_given(Deed::Open, name, opened.is_ok());
        opened
    }

    fn create(&mut self, name: &str, append: bool) -> Result<Created, WorldFault> {
        let created = self.memory.create(name, append);
        self.calls.add_given(Deed::Create, name, created.is_ok());
        created
    }

    fn read(&mut self, h: u32, buf: &mut [u8]) -> Result<usize, Failed> {
        let moved = self.memory.read(h, buf);
        self.calls.add_on(Deed::Read, h, moved.ok());
        moved
    }

    fn write(&mut self, h: u32, piece: &[u8]) -> Result<usize, WorldFault> {
        let moved = self.memory.write(h, piece);
        self.calls.add_on(Deed::Write, h, moved.ok());
        moved
    }
}
