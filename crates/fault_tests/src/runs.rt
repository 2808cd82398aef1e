//! Runs in which calls fail, and what each has to answer and to leave.

use crate::comparing::{holds, same};
use crate::tables::{Content, Input, NAMES, Order, Tool};
use crate::watched::{Call, Deed, STDERR, WatchedWorld, moved_of};
use acceptance_support::{
    Ending, Hold, HoldingGate, Kept, Step, Took, are_first_lines, has_parts_of, is_fault_of,
    message_of, run_words, status_of, took_of,
};
use std::alloc::Global;
use std::process::Abort;
use std::sync::Wait;
use std::thread::Threads;
use varnish_tools::{OpenGate, Outcome};
use vio::{ERRORS, OUTPUT};

/// More calls than a run makes.
const MOST_CALLS: usize = 1000;

/// The reader begins once eleven units of a feed of twelve are in the ring, which overrun it.
const LATE: &[Hold] = &[Hold {
    step: Step::Read(0),
    until: &[Step::Put(0, 11)],
}];

/// What a run left: its outcome, what was written to its sink and to standard error, and the calls that were made.
#[derive(Drop)]
struct Left {
    outcome: Outcome,
    text: Vec<u8>,
    errors: Vec<u8>,
    calls: Vec<Call>,
}

/// A tool's run over an input, and what it leaves where no call fails.
#[derive(Clone, Copy)]
struct Row<'a> {
    input: &'a Input,
    tool: &'a Tool,
    whole: &'a Left,
    /// How many calls it makes then, but those of its last message.
    work: usize,
}

/// Adds bytes to a text.
fn add(rt: &impl Abort, text: &mut Vec<u8>, more: &[u8]) {
    text.extend_from_slice(more).expect(rt, "memory");
}

/// The bytes that fill the log of such a request.
const FILLING: [u8; 200] = [b'a'; 200];

/// A listing of twelve requests of as many sessions, each a unit of 64 words, of VXIDs behind this one: one word for the
/// unit, 7 for Begin, 53 for the log and 3 for End.
fn long_requests(rt: &impl Abort, alloc: Global, before: u32) -> Vec<u8> {
    let mut listing = Vec::new(alloc);
    for unit in 1..=12u8 {
        let vxid = before.saturating_add(u32::from(unit));
        let session = vxid.saturating_add(1000);
        let begin = format!(in alloc;
            "{vxid:>10} Begin          c req {session} rxreq\n{vxid:>10} VCL_Log        c "
        );
        add(rt, &mut listing, begin.expect(rt, "memory").as_bytes());
        add(rt, &mut listing, &FILLING);
        let end = format!(in alloc; "\n{vxid:>10} End            c \n");
        add(rt, &mut listing, end.expect(rt, "memory").as_bytes());
    }
    listing
}

/// The bytes of a file.
fn bytes_of(rt: &impl Abort, alloc: Global, content: &Content) -> Vec<u8> {
    match content {
        Content::Bytes(bytes) => Vec::from_slice(alloc, *bytes).expect(rt, "memory"),
        Content::LongRequests(before) => long_requests(rt, alloc, *before),
    }
}

/// The bytes of the file of this name of an input; none where it has no such file.
fn file_of(rt: &impl Abort, alloc: Global, input: &Input, name: &str) -> Vec<u8> {
    for (known, content) in input.files {
        if *known == name {
            return bytes_of(rt, alloc, content);
        }
    }
    Vec::new(alloc)
}

/// A world with the files of an input and what a tool's sink has, in which calls of these numbers fail.
fn world_for(
    rt: &impl Abort,
    alloc: Global,
    input: &Input,
    tool: &Tool,
    failing: &[usize],
) -> WatchedWorld {
    let mut world = WatchedWorld::new(rt, alloc, NAMES);
    if !tool.there.is_empty() {
        world.file(rt, tool.sink, tool.there);
    }
    for (name, content) in input.files {
        world.file(rt, *name, &bytes_of(rt, alloc, content));
    }
    world.memory.piece(input.piece);
    for call in failing {
        world.memory.fail(*call as u64).expect(rt, "memory");
    }
    world
}

/// The words of a tool's run over an input.
fn words_for(rt: &impl Abort, alloc: Global, input: &Input, tool: &Tool) -> Vec<&'static str> {
    let mut words = Vec::new(alloc);
    for part in [input.before, tool.words, input.behind] {
        words.extend_from_slice(part).expect(rt, "memory");
    }
    words
}

/// Runs words at a gate that holds the reader until it comes late.
fn run_late<R: Abort + Threads + Wait + Sync>(
    rt: &R,
    alloc: Global,
    words: &[&str],
    world: &mut WatchedWorld,
) -> Outcome {
    let gate = HoldingGate::new(LATE);
    let outcome = run_words(rt, alloc, words, world, &gate);
    holds(rt, !gate.has_failed(rt), "a step was held to the last turn");
    outcome.expect(rt, "memory")
}

/// Runs a tool over an input, at a gate that holds the reader where it is to come late.
fn run_in<R: Abort + Threads + Wait + Sync>(
    rt: &R,
    alloc: Global,
    input: &Input,
    tool: &Tool,
    world: &mut WatchedWorld,
) -> Outcome {
    let words = words_for(rt, alloc, input, tool);
    if input.order == Order::Late {
        return run_late(rt, alloc, &words, world);
    }
    run_words(rt, alloc, &words, world, &OpenGate).expect(rt, "memory")
}

/// What a sink has.
fn text_in(rt: &impl Abort, alloc: Global, world: &mut WatchedWorld, sink: &str) -> Vec<u8> {
    if sink != "-" {
        return world.held(rt, alloc, sink);
    }
    Vec::from_slice(alloc, world.memory.content(OUTPUT)).expect(rt, "memory")
}

/// What a run leaves in which calls of these numbers fail, counted from 1.
fn left_of<R: Abort + Threads + Wait + Sync>(
    rt: &R,
    alloc: Global,
    input: &Input,
    tool: &Tool,
    failing: &[usize],
) -> Left {
    let mut world = world_for(rt, alloc, input, tool, failing);
    let outcome = run_in(rt, alloc, input, tool, &mut world);
    let calls = world.calls(rt, alloc);
    let errors = Vec::from_slice(alloc, world.memory.content(ERRORS)).expect(rt, "memory");
    let text = text_in(rt, alloc, &mut world, tool.sink);
    Left {
        outcome,
        text,
        errors,
        calls,
    }
}

/// How many calls a run makes where none fails.
pub fn count_calls<R: Abort + Threads + Wait + Sync>(
    rt: &R,
    alloc: Global,
    input: &Input,
    tool: &Tool,
) -> usize {
    left_of(rt, alloc, input, tool, &[]).calls.len()
}

/// What an input is called with a tool, and which of its calls fail.
fn name_of(
    rt: &impl Abort,
    alloc: Global,
    input: &Input,
    tool: &Tool,
    failing: &[usize],
) -> String {
    let last = failing.last().copied().unwrap_or(0);
    let twice = failing.len();
    let name = format!(in alloc; "{}, {}, {twice} up to {last}", input.name, tool.name);
    name.expect(rt, "memory")
}

/// The message of an ending.
fn message_for(rt: &impl Abort, alloc: Global, ending: Ending) -> Vec<u8> {
    message_of(alloc, ending).expect(rt, "memory")
}

/// Nothing was written but to the sink, behind what was there, and to standard error.
fn expect_sink(rt: &impl Abort, tool: &Tool, left: &Left, what: &str) {
    holds(rt, left.text.as_slice().starts_with(tool.there), what);
    for call in left.calls.iter() {
        let is_known = call.object == tool.sink || call.object == STDERR;
        holds(rt, is_known || call.deed != Deed::Write, what);
    }
}

/// A run without a failing call tells its overruns, and ends as it must, with its message.
fn expect_whole(rt: &impl Abort, alloc: Global, input: &Input, tool: &Tool, left: &Left) {
    let what = name_of(rt, alloc, input, tool, &[]);
    let message = message_for(rt, alloc, input.ending);
    holds(rt, is_fault_of(&left.outcome.fault, input.ending), &what);
    same(rt, left.outcome.status, status_of(input.ending), &what);
    expect_sink(rt, tool, left, &what);
    let told = if tool.groups { input.overruns } else { b"" };
    holds(rt, left.errors.as_slice().starts_with(told), &what);
    holds(rt, left.errors.as_slice().ends_with(&message), &what);
    let is_done = matches!(input.ending, Ending::Done);
    holds(rt, !is_done || left.text.len() > tool.there.len(), &what);
    if input.order != Order::Late {
        let size = told.len().saturating_add(message.len());
        same(rt, left.errors.len(), size, &what);
    }
}

/// How many calls it takes to move so many bytes, each at most so many.
fn count_pieces(bytes: usize, piece: usize) -> usize {
    let mut rest = bytes;
    let mut pieces: usize = 0;
    for _ in 0..bytes {
        if rest == 0 {
            break;
        }
        rest = rest.saturating_sub(piece);
        pieces = pieces.saturating_add(1);
    }
    pieces
}

/// How a message is written behind a call that failed: so many of its bytes, by so many calls. A second failing call cuts it
/// before its first byte; the message of what ended the run by itself is cut where its own call failed.
fn written_behind(row: &Row<'_>, at: usize, twice: bool, message: &[u8]) -> (usize, usize) {
    if at >= row.work {
        return (0, 0);
    }
    if twice {
        return (0, 1);
    }
    (message.len(), count_pieces(message.len(), row.input.piece))
}

/// Behind a call that failed nothing was called but to write its message.
fn expect_message(
    rt: &impl Abort,
    row: &Row<'_>,
    left: &Left,
    at: usize,
    written: (usize, usize),
    message: &[u8],
    what: &str,
) {
    let (bytes, calls) = written;
    let first = left.calls.get(..at).unwrap_or(&[]);
    let said = moved_of(first, Deed::Write, STDERR);
    same(rt, left.errors.get(said..), message.get(..bytes), what);
    let behind = at.saturating_add(1);
    same(rt, left.calls.len(), behind.saturating_add(calls), what);
    for call in left.calls.iter().skip(behind) {
        same(rt, call.deed, Deed::Write, what);
        same(rt, call.object, STDERR, what);
    }
    if row.input.order == Order::Same {
        let told = left.errors.get(..said);
        same(rt, told, row.whole.errors.get(..said), what);
    }
}

/// What a run on threads wrote has parts of what the whole one wrote, and of raw lines the first of each feed.
fn expect_parts(rt: &impl Abort, alloc: Global, row: &Row<'_>, left: &Left, what: &str) {
    let kept = row.tool.kept;
    if row.input.order == Order::Late && matches!(kept, Kept::Whole | Kept::Counters) {
        return;
    }
    let has_parts = has_parts_of(alloc, kept, &left.text, &row.whole.text);
    holds(rt, has_parts.expect(rt, "memory"), what);
    if row.input.order == Order::Threads && matches!(kept, Kept::FeedLines) {
        let a = file_of(rt, alloc, row.input, "a");
        let b = file_of(rt, alloc, row.input, "b");
        holds(rt, are_first_lines(&left.text, &a, &b), what);
    }
}

/// What was written is that of the calls before the one that failed: of the same calls as in the whole run, or else of
/// parts of what that wrote.
fn expect_text(rt: &impl Abort, alloc: Global, row: &Row<'_>, left: &Left, at: usize, what: &str) {
    let first = left.calls.get(..at).expect(rt, "the calls before");
    let size = moved_of(first, Deed::Write, row.tool.sink);
    let there = row.tool.there.len();
    same(rt, left.text.len(), there.saturating_add(size), what);
    if row.input.order == Order::Same {
        same(rt, Some(first), row.whole.calls.get(..at), what);
        holds(rt, row.whole.text.as_slice().starts_with(&left.text), what);
        return;
    }
    expect_parts(rt, alloc, row, left, what);
}

/// Whether the run had begun with these calls, of which the last one failed: a log was read, something was written, or an
/// overrun was told.
fn has_begun(row: &Row<'_>, calls: &[Call], at: usize) -> bool {
    for (place, call) in calls.iter().enumerate() {
        let is_of_run = match call.deed {
            Deed::Open => false,
            Deed::Create => false,
            Deed::Read => row.input.is_log && call.object == row.input.log,
            Deed::Write => call.object == row.tool.sink || place == at && at < row.work,
        };
        if is_of_run {
            return true;
        }
    }
    false
}

/// What a run took that a call ended: nothing before it began; of a log the units whose bytes were read.
fn expect_taken(rt: &impl Abort, row: &Row<'_>, left: &Left, at: usize, what: &str) {
    let calls = left.calls.get(..at.saturating_add(1)).unwrap_or(&[]);
    let took = took_of(&left.outcome.run);
    if !row.tool.records || !has_begun(row, calls, at) {
        same(rt, took, Took::Nothing, what);
    } else if row.input.is_log {
        let read = moved_of(calls, Deed::Read, row.input.log);
        let ends = row.input.ends.iter();
        let units = ends.filter(|end| **end <= read).count();
        same(rt, took, Took::Counted(units as u64, 1), what);
    } else if row.input.order != Order::Same && row.tool.groups {
        same(rt, took, Took::Closed, what);
    }
}

/// Compares all that a run left whose call of this number failed, counted from 1, and perhaps the one behind it.
fn expect_cut(rt: &impl Abort, alloc: Global, row: &Row<'_>, left: &Left, failing: &[usize]) {
    let what = name_of(rt, alloc, row.input, row.tool, failing);
    let at = failing.first().copied().unwrap_or(1).saturating_sub(1);
    let call = *left.calls.get(at).expect(rt, "the call that failed");
    holds(rt, call.moved.is_none(), &what);
    let ending = if at < row.work {
        call.ending()
    } else {
        row.input.ending
    };
    holds(rt, is_fault_of(&left.outcome.fault, ending), &what);
    same(rt, left.outcome.status, status_of(ending), &what);
    expect_sink(rt, row.tool, left, &what);
    let message = message_for(rt, alloc, ending);
    let written = written_behind(row, at, failing.len() > 1, &message);
    expect_message(rt, row, left, at, written, &message, &what);
    expect_text(rt, alloc, row, left, at, &what);
    expect_taken(rt, row, left, at, &what);
}

/// An input of feeds on threads as one in a stated order, in a ring that overruns nobody.
fn stated_input(input: &Input) -> Input {
    match input.order {
        Order::Same => *input,
        Order::Threads => Input {
            before: &["--feed", "a", "--feed", "b", "--feed-first"],
            ..*input
        },
        Order::Late => Input {
            before: &["--feed", "a", "--feed-first"],
            order: Order::Same,
            overruns: b"",
            ..*input
        },
    }
}

/// What a tool leaves of an input where no call fails; of feeds on threads in the order in which they are named, in a ring
/// that overruns nobody.
fn stated_whole<R: Abort + Threads + Wait + Sync>(
    rt: &R,
    alloc: Global,
    input: &Input,
    tool: &Tool,
) -> Left {
    let stated = stated_input(input);
    let left = left_of(rt, alloc, &stated, tool, &[]);
    expect_whole(rt, alloc, &stated, tool, &left);
    left
}

/// Lets these calls of a row's run fail: whether it makes the first of them. Where it doesn't, it ends as the whole one.
fn expect_failing<R: Abort + Threads + Wait + Sync>(
    rt: &R,
    alloc: Global,
    row: &Row<'_>,
    failing: &[usize],
) -> bool {
    let left = left_of(rt, alloc, row.input, row.tool, failing);
    if left.calls.len() < failing.first().copied().unwrap_or(1) {
        expect_whole(rt, alloc, row.input, row.tool, &left);
        return false;
    }
    expect_cut(rt, alloc, row, &left, failing);
    true
}

/// How many calls a run of an input makes but those of its last message, of those of the whole one.
fn count_work(rt: &impl Abort, alloc: Global, input: &Input, whole: &Left) -> usize {
    let message = message_for(rt, alloc, input.ending);
    let said = count_pieces(message.len(), input.piece);
    match input.order {
        Order::Same => whole.calls.len().saturating_sub(said),
        _ => usize::MAX,
    }
}

/// Lets each call of a run fail in turn, alone and with the one behind it, until a run has no fault.
pub fn expect_faults<R: Abort + Threads + Wait + Sync>(
    rt: &R,
    alloc: Global,
    input: &Input,
    tool: &Tool,
) {
    let whole = stated_whole(rt, alloc, input, tool);
    let work = count_work(rt, alloc, input, &whole);
    let row = Row {
        input,
        tool,
        whole: &whole,
        work,
    };
    for failing in 1..=MOST_CALLS {
        if !expect_failing(rt, alloc, &row, &[failing]) {
            holds(rt, failing > 1, tool.name);
            return;
        }
        expect_failing(rt, alloc, &row, &[failing, failing.saturating_add(1)]);
    }
    holds(rt, false, "a run without a fault");
}
