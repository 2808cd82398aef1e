//! The parts of a world in memory.

ghost use Rattle.std.specs.Prelude.{◌≡◌, ◌≢◌, ◌==◌, ℕ, ◌<◌, ◌≤◌, min, max, List, [], ◌++◌, take, drop, length, MatchOption, Some, None, IsSome, IsNone, IfSome, IfOk, OnOk, OnErr};

use crate::fault::WorldFault;
use log_model::NoMemory;
use std::alloc::Global;

/// A file: its name and its bytes.
#[derive(Drop)]
pub struct MemFile {
    /// The name by which it is opened.
    pub name: Vec<u8>,
    /// All of its bytes.
    pub bytes: Vec<u8>,
}

/// Bytes, and how many of them were read.
#[derive(Drop)]
pub struct Source {
    /// All bytes, those that were read too.
    pub bytes: Vec<u8>,
    /// How many bytes were read.
    pub place: usize,
}

/// What a file was opened for.
#[derive(Drop)]
pub enum Access {
    /// For reading: the bytes that it held when it was opened.
    ForReading(Source),
    /// For writing: the bytes that were written through its handle.
    ForWriting(Vec<u8>),
}

/// The file of a handle.
#[derive(Drop)]
pub struct OpenFile {
    /// The name by which it was opened.
    pub name: Vec<u8>,
    /// What it was opened for.
    pub access: Access,
}

/// Which calls fail, and how many bytes a call moves.
#[derive(Drop)]
pub struct Plan {
    /// How many calls of `open`, `create`, `read` and `write` were made; at 2^64 - 1 it stands still.
    pub calls: u64,
    /// The numbers of the calls that fail.
    pub failing: Vec<u64>,
    /// At most so many bytes are moved by a call; 0 counts as 1.
    pub most: usize,
}

impl Plan {
    ghost use Rattle.vio.specs.Plan.{CountsCall, fails_next};

    /// Counts a call, and says whether it is one that fails.
    pub fn is_failing_call(&mut self) -> bool
        ensures counted { CountsCall self.old self.new }
        ensures fails { result ≡ fails_next self.old }
    {
        self.calls = self.calls.saturating_add(1);
        self.failing.contains(&self.calls)
    }
}

impl Source {
    ghost use Rattle.vio.specs.Sources.{left_of};

    /// Moves bytes into the first part of `buf`, at most `most` of them; 0 counts as 1.
    pub fn take_piece(&mut self, buf: &mut [u8], most: usize) -> usize
        ensures fits { result ≤ length buf.old }
        ensures moved { take result buf.new ≡ take result (left_of self.old) }
        ensures count { result ≡ min (min (length (left_of self.old)) (length buf.old)) (max most 1) }
        ensures left { left_of self.new ≡ drop result (left_of self.old) }
        ensures bytes { self.new.bytes ≡ self.old.bytes }
        ensures some { result ≡ 0 → 0 < length buf.old → left_of self.old ≡ [] }
    {
        let count = self.bytes.len().saturating_sub(self.place);
        let n = count.min(buf.len()).min(most.max(1));
        for i in 0..n {
            buf[i] = self.bytes[self.place + i];
        }
        self.place += n;
        n
    }
}

impl OpenFile {
    ghost use Rattle.std.specs.Result.{IsErrOf};
    ghost use Rattle.vio.specs.Sources.{left_in, text_in};
    ghost use Rattle.vio.specs.inside.Handles.{TakesPiece, TakesText, IsSameFile, HoldsMore, HoldsSame};

    /// Moves bytes into the first part of `buf`, where the file was opened for reading.
    pub fn take_piece(&mut self, buf: &mut [u8], most: usize) -> Option<usize>
        ensures some { IfSome result (λ n. TakesPiece n (length buf.old) most (take n buf.new) self.old self.new) }
        ensures none { IsNone result → left_in self.old.access ≡ None }
        ensures same { IsNone result → IsSameFile self.old self.new }
    {
        match &mut self.access {
            Access::ForReading(source) => Some(source.take_piece(buf, most)),
            Access::ForWriting(_) => None,
        }
    }

    /// Appends a piece to what was written through the handle and to the file of its name, where the
    /// file was opened for writing.
    pub fn append(&mut self, files: &mut [MemFile], piece: &[u8]) -> Result<(), WorldFault>
        ensures text { OnOk result (TakesText piece.now self.old self.new) }
        ensures file { OnOk result (HoldsMore self.old.name.items piece.now files.old files.new) }

        ensures count { length files.new ≡ length files.old }
        ensures same { OnErr result (IsSameFile self.old self.new) }
        ensures held { OnErr result (HoldsSame files.old files.new) }
        ensures failed { IsErrOf result WorldFault.Failed → text_in self.old.access ≡ None }
        ensures memory { IsErrOf result WorldFault.NoMemory → IsSome (text_in self.old.access) }
    {
        let Access::ForWriting(written) = &mut self.access else {
            return Err(WorldFault::Failed);
        };
        match find_place(files, &self.name) {
            Some(place) => append_to_both(written, &mut files[place].bytes, piece)?,
            None => written.extend_from_slice(piece)?,
        }
        Ok(())
    }
}

ghost use Rattle.vio.specs.Sources.{held_in, left_of, left_in, text_in, begun};
ghost use Rattle.vio.specs.inside.Handles.{IsPlaceOf};

/// A file of this name that was opened for reading these bytes, of which none was read.
pub fn open_file(alloc: Global, name: &[u8], bytes: &[u8]) -> Result<OpenFile, NoMemory>
    ensures name { IfOk result (λ file. file.name.items ≡ name.now) }
    ensures left { IfOk result (λ file. left_in file.access ≡ Some bytes.now) }
    ensures text { IfOk result (λ file. text_in file.access ≡ None) }
{
    let name = Vec::from_slice(alloc, name)?;
    let bytes = Vec::from_slice(alloc, bytes)?;
    let source = Source { bytes, place: 0 };
    let access = Access::ForReading(source);
    Ok(OpenFile { name, access })
}

/// A file of this name that was opened for writing, and to which nothing was written.
pub fn create_file(alloc: Global, name: &[u8]) -> Result<OpenFile, NoMemory>
    ensures name { IfOk result (λ file. file.name.items ≡ name.now) }
    ensures left { IfOk result (λ file. left_in file.access ≡ None) }
    ensures text { IfOk result (λ file. text_in file.access ≡ Some []) }
{
    let name = Vec::from_slice(alloc, name)?;
    let access = Access::ForWriting(Vec::new(alloc));
    Ok(OpenFile { name, access })
}

/// Lets writing to the file of a name begin, and says whether it has no bytes then.
pub fn begin_file(
    alloc: Global,
    files: &mut Vec<MemFile>,
    name: &[u8],
    append: bool,
) -> Result<bool, NoMemory>
    ensures held { OnOk result (held_in files.new.items name.now ≡ Some (begun append (held_in files.old.items name.now))) }
    ensures other { OnOk result ((n : List ℕ) → n ≢ name.now → held_in files.new.items n ≡ held_in files.old.items n) }
    ensures empty { IfOk result (λ empty. empty ≡ (length (begun append (held_in files.old.items name.now)) == 0)) }
    ensures err { OnErr result (files.new.items ≡ files.old.items) }
{
    if append {
        if let Some(bytes) = find_bytes(files, name) {
            return Ok(bytes.is_empty());
        }
    }
    let name = Vec::from_slice(alloc, name)?;
    let bytes = Vec::new(alloc);
    files.insert(0, MemFile { name, bytes })?;
    Ok(true)
}

/// The bytes under a name.
pub fn find_bytes<'a>(files: &'a [MemFile], name: &[u8]) -> Option<&'a [u8]>
    ensures { MatchOption result (held_in files.now name.now ≡ None) (λ bytes. held_in files.now name.now ≡ Some bytes.now) }
{
    let place = find_place(files, name)?;
    Some(files[place].bytes.as_slice())
}

/// The place of the first file of a name.
fn find_place(files: &[MemFile], name: &[u8]) -> Option<usize>
    ensures { MatchOption result (held_in files.now name.now ≡ None) (λ place. IsPlaceOf name.now place files.now) }
{
    for (place, file) in files.iter().enumerate() {
        if file.name.as_slice() == name {
            return Some(place);
        }
    }
    None
}

/// Appends a piece to both texts, or to none of them where there is no memory.
fn append_to_both(first: &mut Vec<u8>, second: &mut Vec<u8>, piece: &[u8]) -> Result<(), NoMemory>
    ensures first { OnOk result (first.new.items ≡ first.old.items ++ piece.now) }
    ensures second { OnOk result (second.new.items ≡ second.old.items ++ piece.now) }
    ensures err { OnErr result (first.new.items ≡ first.old.items × second.new.items ≡ second.old.items) }
{
    first.reserve(piece.len())?;
    second.extend_from_slice(piece)?;
    first.extend_from_slice(piece)?;
    Ok(())
}
