//! The files and streams of the system, as a world. What the system's calls answer is taken as `edge` says.

ghost use Rattle.std.specs.Prelude.{◌≡◌, true, false, ◌+◌, ◌-◌, ◌<◌, ◌≤◌, ◌↔◌, length, slice_get, IfOk, IfSome, IsErr, IsSome};
ghost use Rattle.system_world.specs.RealWorld.{seen_after, real_seen, HasStreams-real};

use crate::edge::{
    FIRST_FILE, create_answer, has_no_bytes, how_to_create, open_answer, read_answer, write_answer,
};
use std::alloc::Global;
use std::fs::File;
use std::io::{Read, Write};
use std::{fs, io};
use vio::{Created, ERRORS, Failed, INPUT, OUTPUT, World, WorldFault};

/// The system's files and streams. It tells no bytes, and has one count, which is that of each kind of call and of each name.
///
/// No call is tried again: also one that a signal cut short, which the system does to no program that handles no signal. An opening
/// for which no handle is left is want of memory. A call that the system refuses for its own want of memory failed like
/// any other, and is counted.
#[derive(Drop)]
pub struct RealWorld {
    rt: HostRuntime,
    /// In the order in which they were opened or created: that of handle `h` stands at `h - 3`.
    files: Vec<File>,
    /// How many calls failed; at 2^64 - 1 it stands still.
    faults: u64,
}

impl RealWorld {
    /// A world in which nothing was opened yet.
    pub fn new(alloc: Global, rt: HostRuntime) -> RealWorld
        ensures { real_seen result ≡ seen_after 0 0 }
    {
        RealWorld {
            rt,
            files: Vec::new(alloc),
            faults: 0,
        }
    }

    /// The file of a handle.
    fn file(&self, h: u32) -> Option<&File>
        ensures found { IfSome result (λ file. slice_get self.now.files.items (h - FIRST_FILE) ≡ Some file.now) }
        ensures there { IsSome result ↔ (FIRST_FILE ≤ h × h - FIRST_FILE < length self.now.files.items) }
    {
        let place = (h as usize).checked_sub(FIRST_FILE)?;
        self.files.get(place)
    }

    /// Opens a file for writing, and says whether it has no bytes.
    fn make_file(&self, name: &str, append: bool) -> io::Result<(File, bool)>
        ensures emptied { append ≡ false → IfOk result (λ made. made.1 ≡ true) }
    {
        let file = how_to_create(append).open(&self.rt, name)?;
        let empty = !append || has_no_bytes(&file.metadata()?);
        Ok((file, empty))
    }

    /// Reads from standard input or from a file; other handles are refused, and by the system those of
    /// files that were created.
    fn read_from(&self, h: u32, buf: &mut [u8]) -> io::Result<usize>
        ensures fits { IfOk result (λ n. n ≤ length buf.new) }
        ensures kept { length buf.new ≡ length buf.old }
        ensures no_stream { 0 < h → h < 3 → IsErr result }
        ensures no_file { 3 + length self.now.files.items ≤ h → IsErr result }
    {
        if h == INPUT {
            return self.rt.stdin().read(buf);
        }
        let Some(mut file) = self.file(h) else {
            return Err(io::Error::from(io::ErrorKind::InvalidInput));
        };
        file.read(buf)
    }

    /// Writes to standard output, standard error or a file; other handles are refused, and by the system
    /// those of files that were opened for reading.
    fn write_to(&self, h: u32, piece: &[u8]) -> io::Result<usize>
        ensures fits { IfOk result (λ n. n ≤ length piece.now) }
        ensures no_stream { h ≡ INPUT → IsErr result }
        ensures no_file { 3 + length self.now.files.items ≤ h → IsErr result }
    {
        if h == OUTPUT {
            return self.rt.stdout().write(piece);
        }
        if h == ERRORS {
            return self.rt.stderr().write(piece);
        }
        let Some(mut file) = self.file(h) else {
            return Err(io::Error::from(io::ErrorKind::InvalidInput));
        };
        file.write(piece)
    }
}

impl World for RealWorld {
    ghost seen = { real_seen };

    ghost streams = { HasStreams-real };

    fn open(&mut self, name: &str) -> Result<u32, WorldFault> {
        let given = fs::open(&self.rt, name);
        open_answer(given, &mut self.files, &mut self.faults)
    }

    /// There is room for the file before it is emptied.
    fn create(&mut self, name: &str, append: bool) -> Result<Created, WorldFault> {
        self.files.reserve(1)?;
        let given = self.make_file(name, append);
        create_answer(given, &mut self.files, &mut self.faults)
    }

    fn read(&mut self, h: u32, buf: &mut [u8]) -> Result<usize, Failed> {
        let given = self.read_from(h, buf);
        read_answer(given, &mut self.faults)
    }

    fn write(&mut self, h: u32, piece: &[u8]) -> Result<usize, WorldFault> {
        let given = self.write_to(h, piece);
        write_answer(given, piece, &mut self.faults)
    }
}

#[cfg(test)]
mod tests {
    use super::*;

    #[test]
    fn counts_a_missing_name(rt: HostRuntime) {
        let mut world = RealWorld::new(rt.alloc(), rt);
        assert_eq!(rt; world.open("no such file"), Err(WorldFault::Failed));
        assert_eq!(rt; world.faults, 1);
    }
}
