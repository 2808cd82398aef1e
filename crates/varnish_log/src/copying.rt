//! Copying a log to a log file, piece by piece.

ghost use Rattle.std.specs.Prelude.{◌≡◌, ◌+◌, ◌^◌, ◌<◌, ◌≤◌, ◌∷◌, [], ℕ, List, length, take, IfOk};
ghost use Rattle.log_model.specs.Halts.{IfFault, OnShort};
ghost use Rattle.vio.specs.Calls.{Called};
ghost use Rattle.varnish_log.specs.Parts.{capacity};
ghost use Rattle.varnish_log.specs.Taken.{AreTaken};
ghost use Rattle.varnish_log.specs.Copied.{CopiedThen, IsEnd, IsLog, IsNoLog, IsPlace, IsStarved, IsStopped};
ghost use Rattle.varnish_log.specs.inside.Copying.{IsCopiedPiece, so_far};

use crate::first::{Looks, form_of, kept_of, read_first};
use crate::form::{Asked, How, LogForm};
use crate::loss::{Counts, Loss};
use crate::parts::CAPACITY;
use crate::taking::{Stop, take_parts};
use log_model::{Halt, NoMemory};
use raw_records::TagCache;
use std::alloc::Global;
use vio::{World, WorldFault, write_all};
use vsl_file::read_behind;

/// How many bytes are copied at most: as many as a number has room for.
const MOST_BYTES: u64 = u64::MAX - 2 * CAPACITY as u64;

/// What came of copying a log to its end.
#[derive(Clone, Copy, Debug, PartialEq, Eq)]
pub struct Copied {
    /// What came, and what was left out or cut of it.
    pub counts: Counts,
    /// How many bytes were left at the end: of a record or a line that it cut. They were left out.
    pub left: usize,
}

/// Why copying stopped before the end.
#[derive(Clone, Copy, Debug, PartialEq, Eq)]
pub enum CopyFault {
    /// No part of a log begins at this place: of a binary log the byte, counted from the first record's, of a text the line,
    /// counted from 1.
    Damaged { at: u64 },
    /// Copying is strict, and of the part at this place something would be left out or cut.
    Lost { loss: Loss, at: u64 },
    /// A read failed, and the world counted it.
    ReadFault,
    /// A write failed, and the world counted it.
    WriteFault,
}

/// Why a log wasn't copied, or not to its end.
#[derive(Clone, Copy, Debug, PartialEq, Eq)]
pub enum LogFault {
    /// It is none of this form.
    NotALog {
        /// What it looks like.
        looks: Looks,
    },
    /// A read failed before its first four bytes had come, and the world counted it.
    Unread,
    /// Copying stopped behind them.
    Stopped(CopyFault),
}

/// The handles between which a log is copied.
#[derive(Clone, Copy)]
struct Ends {
    input: u32,
    output: u32,
}

/// How far a log was copied.
#[derive(Clone, Copy)]
struct Progress {
    /// How many bytes came.
    came: u64,
    /// How many of them are held at the beginning of the buffer.
    held: usize,
    counts: Counts,
}

/// What was taken of a buffer's first bytes.
#[derive(Clone, Copy)]
struct Whole {
    /// How many bytes are left.
    left: usize,
    counts: Counts,
    stop: Stop,
}

/// Takes what is whole of the first bytes of a buffer, and moves the rest to its beginning.
fn take_whole(
    alloc: Global,
    how: How,
    tags: &mut TagCache,
    buffer: &mut [u8],
    size: usize,
    counts: Counts,
    text: &mut Vec<u8>,
) -> Result<Whole, NoMemory>
    requires size { size ≤ length buffer.old }
    requires few { size ≤ capacity }
    ensures taken { IfOk result
        (λ w. AreTaken how w.stop (take size buffer.old)
        (take w.left buffer.new) text.old.items text.new.items counts w.counts) }
    ensures within { IfOk result (λ w. w.left ≤ size) }
    ensures size { length buffer.new ≡ length buffer.old }
{
    let (bytes, _) = buffer.split_at(size);
    let mut counts = counts;
    let rest = take_parts(alloc, how, tags, bytes, &mut counts, text)?;
    let left = rest.bytes.len();
    let stop = rest.stop;
    buffer.copy_within(size - left..size, 0);
    Ok(Whole { left, counts, stop })
}

/// The place behind what was taken, before which so many bytes came.
fn place_of(form: LogForm, came: u64, counts: Counts) -> u64
    ensures { (all : ℕ) (rest : List ℕ) → came + length rest ≡ all →
        IsPlace form result all rest counts }
{
    match form {
        LogForm::Binary(_) => came,
        LogForm::Text => counts.parts.saturating_add(1),
    }
}

/// Copies a piece: reads more than is held, writes the units of what is whole, and holds the rest. At the end of the input
/// no more came.
fn copy_piece<W: World>(
    alloc: Global,
    world: &mut W,
    how: How,
    ends: Ends,
    tags: &mut TagCache,
    buffer: &mut [u8],
    at: Progress,
) -> Result<Progress, Halt<CopyFault>>
    requires size { length buffer.old ≡ capacity }
    requires held { at.held < capacity }
    requires came { (at.held ≤ at.came) × (at.came + capacity < 2 ^ 64) }
    ensures piece { IfOk result
        (λ next. Called (IsCopiedPiece how ends (so_far at buffer.old) (so_far next buffer.new))
        (W.seen world.old) (W.seen world.new)) }
    ensures within { IfOk result (λ next. (next.held ≤ next.came) × (next.held < capacity) ×
        (at.came ≤ next.came) × (next.came ≤ at.came + capacity)) }
    ensures fault { IfFault result
        (λ fault. Called (IsStopped how ends.input ends.output fault (so_far at buffer.old))
        (W.seen world.old) (W.seen world.new)) }
    ensures short { OnShort result
        (Called (IsStarved how ends.input ends.output (so_far at buffer.old)) (W.seen world.old)
        (W.seen world.new)) }
    ensures size { length buffer.new ≡ length buffer.old }
{
    let Ok(n) = read_behind(buffer, at.held, ends.input, world) else {
        return Err(Halt::Fault(CopyFault::ReadFault));
    };
    let mut text = Vec::new(alloc);
    let whole = take_whole(alloc, how, tags, buffer, at.held + n, at.counts, &mut text)?;
    match write_all(world, ends.output, text.as_slice()) {
        Ok(()) => {}
        Err(WorldFault::Failed) => return Err(Halt::Fault(CopyFault::WriteFault)),
        Err(WorldFault::NoMemory) => return Err(Halt::NoMemory),
    }
    let Whole { left, counts, stop } = whole;
    let came = at.came + n as u64;
    let place = place_of(how.form, came - left as u64, counts);
    match stop {
        Stop::GoesOn => Ok(Progress {
            came,
            held: left,
            counts,
        }),
        Stop::Damaged => Err(Halt::Fault(CopyFault::Damaged { at: place })),
        Stop::Lost(loss) => Err(Halt::Fault(CopyFault::Lost { loss, at: place })),
    }
}

/// Copies the parts of a log, of which the first bytes came, to units of a log file, until its end.
fn copy_parts<W: World>(
    alloc: Global,
    world: &mut W,
    how: How,
    ends: Ends,
    first: &[u8],
) -> Result<Copied, Halt<CopyFault>>
    requires { length first.now ≤ 4 }
    ensures copied { IfOk result
        (λ copied. Called (CopiedThen how ends.input ends.output first.now
        (IsEnd how ends.input ends.output copied)) (W.seen world.old) (W.seen world.new)) }
    ensures fault { IfFault result
        (λ fault. Called (CopiedThen how ends.input ends.output first.now
        (IsStopped how ends.input ends.output fault)) (W.seen world.old) (W.seen world.new)) }
    ensures short { OnShort result
        (Called (CopiedThen how ends.input ends.output first.now
        (IsStarved how ends.input ends.output)) (W.seen world.old) (W.seen world.new)) }
{
    let mut buffer = [0; CAPACITY];
    let (head, _) = buffer.split_at_mut(first.len());
    head.copy_from_slice(first);
    let mut tags = TagCache::new();
    let mut at = Progress {
        came: first.len() as u64,
        held: first.len(),
        counts: Counts::none(),
    };
    while at.came < MOST_BYTES {
        match copy_piece(alloc, world, how, ends, &mut tags, &mut buffer, at) {
            Ok(next) if next.came == at.came => {
                return Ok(Copied {
                    counts: next.counts,
                    left: next.held,
                });
            }
            Ok(next) => at = next,
            Err(halt) => return Err(halt),
        }
    }
    Err(Halt::NoMemory)
}

/// Copies a log to units of a log file, until its end.
pub fn copy_log<W: World>(
    alloc: Global,
    world: &mut W,
    asked: Asked,
    input: u32,
    output: u32,
) -> Result<Copied, Halt<LogFault>>
    ensures copied { IfOk result
        (λ copied. Called (IsLog asked input
        (λ how first. CopiedThen how input output first (IsEnd how input output copied)))
        (W.seen world.old) (W.seen world.new)) }
    ensures fault { IfFault result
        (λ fault. Called (IsNoLog asked input output fault) (W.seen world.old) (W.seen world.new)) }
    ensures short { OnShort result
        (Called (IsLog asked input
        (λ how first. CopiedThen how input output first (IsStarved how input output)))
        (W.seen world.old) (W.seen world.new)) }
{
    let mut first = [0; 4];
    let Ok(size) = read_first(world, input, &mut first) else {
        return Err(Halt::Fault(LogFault::Unread));
    };
    let (first, _) = first.split_at(size);
    let form = match form_of(asked.text, first) {
        Ok(form) => form,
        Err(looks) => return Err(Halt::Fault(LogFault::NotALog { looks })),
    };
    let how = How {
        form,
        strict: asked.strict,
    };
    let ends = Ends { input, output };
    match copy_parts(alloc, world, how, ends, kept_of(form, first)) {
        Ok(copied) => Ok(copied),
        Err(Halt::Fault(fault)) => Err(Halt::Fault(LogFault::Stopped(fault))),
        Err(Halt::NoMemory) => Err(Halt::NoMemory),
    }
}
