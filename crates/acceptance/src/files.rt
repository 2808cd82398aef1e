//! Log files that are cut, changed and large.

use crate::comparing::same;
use acceptance_support::{
    Answer, CHANGES, ChangedBytes, Ending, FETCH, FETCH_GROUPS, FETCH_TO_FILE, HEADER, Log,
    OLD_CHANGES, OLD_FETCH, OLD_FETCH_TO_FILE, ONE_PING, OPEN_GROUPS, OPEN_TO_FILE, PING_TO_FILE,
    differs, taken, world_with,
};
use std::alloc::Global;
use std::process::Abort;
use std::sync::Wait;
use std::thread::Threads;
use vio::World;
use vsl_file::{FileFault, FileReader, FileStep, put_header, put_unit};
use vsl_record::{Mark, Record, Unit};
use vsl_tags::Tag;

/// Adds bytes to a text.
fn add(rt: &impl Abort, text: &mut Vec<u8>, more: &[u8]) {
    text.extend_from_slice(more).expect(rt, "memory");
}

/// The text of a log of which these first units are whole, where it ends there or not.
fn put_text(rt: &impl Abort, log: &Log, units: usize, is_done: bool, text: &mut Vec<u8>) {
    text.clear();
    add(rt, text, log.head);
    let mut flush: &[u8] = b"";
    for (_, unit_text, unit_flush) in log.units.iter().take(units) {
        flush = *unit_flush;
        add(rt, text, *unit_text);
    }
    if is_done {
        add(rt, text, flush);
    }
}

/// What a log answers of which these first units are whole, and which then ends so. The text is a buffer.
fn answer_of_units<'a>(
    rt: &impl Abort,
    log: &Log,
    units: usize,
    ending: Ending,
    text: &'a mut Vec<u8>,
) -> Answer<'a> {
    put_text(rt, log, units, matches!(ending, Ending::Done), text);
    Answer {
        sink: log.sink.handle,
        ..taken(ending, units as u64, text)
    }
}

/// How many units are whole in the first `cut` bytes of a log, and how it ends there.
fn ending_of_cut(log: &Log, cut: usize) -> (usize, Ending) {
    let mut begin = HEADER.len();
    let mut units: usize = 0;
    for (end, _, _) in log.units {
        if *end <= cut {
            units = units.saturating_add(1);
            begin = *end;
        }
    }
    if cut < HEADER.len() {
        return (units, Ending::NotALog(cut as u64));
    }
    if cut != begin {
        return (units, Ending::Damaged(begin as u64));
    }
    (units, Ending::Done)
}

/// Reads a log whose bytes are these, in pieces of so many bytes, and compares all that comes out.
fn expect_answer<R: Abort + Threads + Wait + Sync>(
    rt: &R,
    alloc: Global,
    log: &Log,
    bytes: &[u8],
    piece: usize,
    want: &Answer<'_>,
    place: usize,
) {
    let mut world = world_with(alloc, bytes).expect(rt, "memory");
    world.piece(piece);
    let differs = differs(rt, alloc, log.words, &mut world, want).expect(rt, "memory");
    same(rt, (log.name, place, differs), (log.name, place, ""));
}

/// Cuts a log at every length, and reads it in small pieces and in large ones by turns.
fn expect_cuts<R: Abort + Threads + Wait + Sync>(rt: &R, alloc: Global, log: &Log) {
    let mut text = Vec::new(alloc);
    for cut in 0..=log.bytes.len() {
        let piece = if cut % 2 == 0 { 3 } else { 1000 };
        let (units, ending) = ending_of_cut(log, cut);
        let want = answer_of_units(rt, log, units, ending, &mut text);
        let (bytes, _) = log.bytes.split_at(cut);
        expect_answer(rt, alloc, log, bytes, piece, &want, cut);
    }
}

/// The logs that are cut.
const CUT: [Log; 8] = [
    ONE_PING,
    FETCH,
    FETCH_GROUPS,
    OPEN_GROUPS,
    PING_TO_FILE,
    OPEN_TO_FILE,
    OLD_FETCH,
    OLD_FETCH_TO_FILE,
];

#[test]
fn a_cut_file_prints_its_whole_units_and_a_whole_one_its_flush(rt: HostRuntime) {
    for log in &CUT {
        expect_cuts(&rt, rt.alloc(), log);
    }
}

#[test]
fn a_file_of_more_than_16_mebibytes_is_read_as_far_as_it_is_a_log(rt: HostRuntime) {
    let mut bytes = Vec::from_slice(rt.alloc(), ONE_PING.bytes).expect(&rt, "memory");
    bytes.resize(16_777_217, 0).expect(&rt, "memory");
    let (_, line, _) = ONE_PING.units[0];
    let want = taken(Ending::Damaged(32), 1, line);
    expect_answer(&rt, rt.alloc(), &ONE_PING, &bytes, usize::MAX, &want, 32);
}

/// The file of a table with this value at this place.
fn changed_to(
    rt: &impl Abort,
    alloc: Global,
    table: &ChangedBytes,
    place: usize,
    value: u8,
) -> Vec<u8> {
    let mut bytes = Vec::from_slice(alloc, table.bytes).expect(rt, "memory");
    if let Some(byte) = bytes.get_mut(place) {
        *byte = value;
    }
    bytes
}

/// How many units the file of these bytes has, at most 1,000, and why no more are there, if it isn't whole.
fn read_content(rt: &impl Abort, alloc: Global, bytes: &[u8]) -> (usize, Option<FileFault>) {
    let mut world = world_with(alloc, bytes).expect(rt, "memory");
    let handle = world.open("f").expect(rt, "a file");
    let mut reader = FileReader::new(alloc, handle).expect(rt, "memory");
    for units in 0..1000 {
        match reader.next(&mut world) {
            Ok(FileStep::Unit(_)) => {}
            Ok(FileStep::End) => return (units, None),
            Err(fault) => return (units, Some(fault)),
        }
    }
    (1000, None)
}

/// Whether the file stays whole with this value at this place.
fn is_whole(table: &ChangedBytes, place: usize, value: u8) -> bool {
    let first = table.first_whole.get(place).copied().unwrap_or(255);
    let last = table.last_whole.get(place).copied().unwrap_or(0);
    if first <= value && value <= last {
        return true;
    }
    for (at, first, last) in table.also_whole {
        if *at == place && *first <= value && value <= *last {
            return true;
        }
    }
    false
}

/// How many units the file has with this value at this place, and at which byte no unit begins, if it ends early.
fn early_end(table: &ChangedBytes, place: usize, value: u8) -> Option<(usize, u64)> {
    for (at, changed, units, wrong) in table.ends_early {
        if *at == place && *changed == value {
            return Some((*units, *wrong));
        }
    }
    None
}

/// How many units the file has with this value at this place, and why no more, if it isn't whole.
fn content_of_changed(table: &ChangedBytes, place: usize, value: u8) -> (usize, Option<FileFault>) {
    if is_whole(table, place, value) {
        return (2, None);
    }
    if let Some((units, at)) = early_end(table, place, value) {
        return (units, Some(FileFault::Damaged { at }));
    }
    if place < HEADER.len() {
        return (0, Some(FileFault::NotALog { at: place as u64 }));
    }
    // the first unit is whole where the second one was changed
    if place < table.first_end {
        return (0, Some(FileFault::Damaged { at: 8 }));
    }
    let at = table.first_end as u64;
    (1, Some(FileFault::Damaged { at }))
}

/// Reads the file with this value at this place.
fn expect_content(rt: &impl Abort, alloc: Global, table: &ChangedBytes, place: usize, value: u8) {
    let bytes = changed_to(rt, alloc, table, place, value);
    let (units, fault) = read_content(rt, alloc, &bytes);
    let (whole, wrong) = content_of_changed(table, place, value);
    let changed = (table.name, place, value);
    same(rt, (changed, units, fault), (changed, whole, wrong));
}

/// Each value once, at these places in turn.
fn expect_values(rt: &impl Abort, alloc: Global, table: &ChangedBytes, places: &[usize]) {
    for value in 0..=255u8 {
        let place = places.get(usize::from(value) % places.len().max(1));
        expect_content(rt, alloc, table, *place.expect(rt, "a place"), value);
    }
}

/// The values beside a range of values at a place, and its ends; of the range of all values nothing.
fn expect_ends(
    rt: &impl Abort,
    alloc: Global,
    table: &ChangedBytes,
    place: usize,
    first: u8,
    last: u8,
) {
    if first == 0 && last == 255 {
        return;
    }
    expect_content(rt, alloc, table, place, first.wrapping_sub(1));
    expect_content(rt, alloc, table, place, last.wrapping_add(1));
    if first < last {
        expect_content(rt, alloc, table, place, first);
        expect_content(rt, alloc, table, place, last);
    }
}

/// Of each kind of byte each value, at one of its places; at each place the values round the ends of those with which the
/// file stays whole; and what ends it early.
fn expect_changes(rt: &impl Abort, alloc: Global, table: &ChangedBytes) {
    for places in table.kinds {
        expect_values(rt, alloc, table, *places);
    }
    for (place, (first, last)) in table.first_whole.iter().zip(table.last_whole).enumerate() {
        expect_ends(rt, alloc, table, place, *first, *last);
    }
    for (place, first, last) in table.also_whole {
        expect_ends(rt, alloc, table, *place, *first, *last);
    }
    for (place, value, _, _) in table.ends_early {
        expect_content(rt, alloc, table, *place, *value);
    }
}

#[test]
fn a_changed_byte_is_seen_where_it_matters(rt: HostRuntime) {
    for table in &[CHANGES, OLD_CHANGES] {
        expect_changes(&rt, rt.alloc(), table);
    }
}

/// How a run ends over a file that isn't whole; nothing where it is.
fn ending_of_fault(fault: Option<FileFault>) -> Option<Ending> {
    match fault {
        Some(FileFault::NotALog { at }) => Some(Ending::NotALog(at)),
        Some(FileFault::Damaged { at }) => Some(Ending::Damaged(at)),
        _ => None,
    }
}

/// Changes a byte of a log of the request and its fetch to this value, and reads it in pieces of so many bytes. What is
/// whole then has another text or the same, and isn't looked at.
fn expect_change<R: Abort + Threads + Wait + Sync>(
    rt: &R,
    alloc: Global,
    log: &Log,
    table: &ChangedBytes,
    place: usize,
    value: u8,
    piece: usize,
) {
    let (units, fault) = content_of_changed(table, place, value);
    let Some(ending) = ending_of_fault(fault) else {
        return;
    };
    let mut text = Vec::new(alloc);
    let want = answer_of_units(rt, log, units, ending, &mut text);
    let bytes = changed_to(rt, alloc, table, place, value);
    expect_answer(rt, alloc, log, &bytes, piece, &want, place);
}

/// The value that a byte is changed to, and in pieces of how many bytes the log is then read: three by turns.
fn change_at(place: usize) -> (u8, usize) {
    match place % 3 {
        0 => (0, 3),
        1 => (128, 64),
        _ => (255, 1000),
    }
}

/// The logs of the request and its fetch, and what changes do to each.
const CHANGED: [(Log, ChangedBytes); 5] = [
    (FETCH, CHANGES),
    (FETCH_GROUPS, CHANGES),
    (FETCH_TO_FILE, CHANGES),
    (OLD_FETCH, OLD_CHANGES),
    (OLD_FETCH_TO_FILE, OLD_CHANGES),
];

#[test]
fn a_changed_file_prints_the_units_before_the_changed_one(rt: HostRuntime) {
    for (log, table) in &CHANGED {
        for place in 0..table.bytes.len() {
            let (value, piece) = change_at(place);
            expect_change(&rt, rt.alloc(), log, table, place, value, piece);
        }
    }
}

#[test]
fn a_reader_that_answered_a_fault_answers_that_one_came_before(rt: HostRuntime) {
    let mut world = world_with(rt.alloc(), b"VSLO").expect(&rt, "memory");
    let handle = world.open("f").expect(&rt, "a file");
    let mut reader = FileReader::new(rt.alloc(), handle).expect(&rt, "memory");
    for want in [
        FileFault::NotALog { at: 4 },
        FileFault::FailedBefore,
        FileFault::FailedBefore,
    ] {
        let fault = reader.next(&mut world).err();
        same(&rt, fault, Some(want));
    }
}

/// The unit of the ping.
fn ping(rt: &impl Abort, alloc: Global) -> Unit {
    let tag = Tag::from_number(3).expect(rt, "CLI is a tag");
    let one = Record::new(alloc, tag, Mark::Plain, b"Rd ping").expect(rt, "a record");
    let records = Vec::from_array(alloc, [one]).expect(rt, "memory");
    Unit::new(0, Mark::Plain, records).expect(rt, "a unit")
}

#[test]
fn a_header_and_a_unit_are_written_as_their_bytes(rt: HostRuntime) {
    let mut text = Vec::new(rt.alloc());
    put_header(&mut text).expect(&rt, "memory");
    put_unit(&ping(&rt, rt.alloc()), &mut text).expect(&rt, "memory");
    same(&rt, text.as_slice(), ONE_PING.bytes);
}
