//! Calls that are stopped between two of their steps.

ghost use Rattle.std.specs.Prelude.{◌≡◌};

use crate::support::{open_pair, open_trio, same, unit_of};
use log_ring::{Pause, ReaderPass, Ring, WriterPass};
use ring_layout::{PutFault, Sought, Step};
use std::alloc::Global;
use std::process::Abort;
use vsl_record::Unit;

/// Puts a unit so many times before one step.
#[derive(Drop)]
struct PutsAt<'a> {
    ring: &'a Ring,
    writer: WriterPass,
    unit: &'a Unit,
    when: u64,
    times: u64,
    puts: u64,
    ghost ours: { writer.ring ≡ ring.now },
}

impl Pause for PutsAt<'_> {
    fn at(&mut self, step: u64) {
        if step == self.when {
            for _ in 0..self.times {
                if self.writer.try_put(self.ring, self.unit).is_ok() {
                    self.puts = self.puts.wrapping_add(1);
                }
            }
        }
    }
}

/// What a cursor at the first of the ring's units answers, where so many more are put before one step.
fn stopped_at(rt: &impl Abort, alloc: Global, when: u64, times: u64) -> Step {
    let unit = unit_of(rt, alloc, 1, 64);
    let (ring, mut writer, mut reader) = open_pair(rt, alloc);
    same(rt, writer.try_put(&ring, &unit), Ok(()));
    let mut pause = PutsAt {
        ring: &ring,
        writer,
        unit: &unit,
        when,
        times,
        puts: 0,
    };
    let answer = reader.next_with(&ring, &mut pause);
    same(rt, pause.puts, times);
    answer
}

/// How many units are put at once, and what the cursor answers.
const PUT_AT_ONCE: [(u64, Step); 3] = [
    (4, Step::Took),
    (5, Step::Lost { at: 0, seen: 6 }),
    (8, Step::Lost { at: 0, seen: 10 }),
];

#[test]
fn a_cursor_answers_alike_wherever_it_is_stopped(rt: HostRuntime) {
    for (times, answer) in PUT_AT_ONCE {
        for when in 0..66 {
            let met = stopped_at(&rt, rt.alloc(), when, times);
            same(&rt, (times, when, met), (times, when, answer));
        }
    }
}

/// Tries to put a unit, and reads, before each step.
#[derive(Drop)]
struct TriesAt<'a> {
    ring: &'a Ring,
    writer: WriterPass,
    reader: ReaderPass,
    unit: &'a Unit,
    calls: u64,
    busy: u64,
    waits: u64,
    took_at: u64,
    ghost ours: { writer.ring ≡ ring.now },
    ghost theirs: { reader.ring ≡ ring.now },
}

impl Pause for TriesAt<'_> {
    fn at(&mut self, step: u64) {
        self.calls = self.calls.wrapping_add(1);
        if self.writer.try_put(self.ring, self.unit) == Err(PutFault::Busy) {
            self.busy = self.busy.wrapping_add(1);
        }
        match self.reader.next(self.ring) {
            Step::NotYet { place: 0 } => self.waits = self.waits.wrapping_add(1),
            Step::Took => self.took_at = step,
            _ => {}
        }
    }
}

/// A unit of so many words is put, and seen at its last one.
fn expect_seen(rt: &impl Abort, alloc: Global, words: u8) {
    let unit = unit_of(rt, alloc, 1, words);
    let (ring, mut first, second, reader) = open_trio(rt, alloc);
    let mut pause = TriesAt {
        ring: &ring,
        writer: second,
        reader,
        unit: &unit,
        calls: 0,
        busy: 0,
        waits: 0,
        took_at: 0,
    };
    same(rt, first.try_put_with(&ring, &unit, &mut pause), Ok(()));
    let size = u64::from(words);
    same(rt, pause.calls, size + 4);
    same(rt, pause.busy, size + 4);
    same(rt, pause.waits, size + 3);
    same(rt, pause.took_at, size + 3);
}

#[test]
fn a_unit_is_seen_once_its_last_word_is_stored(rt: HostRuntime) {
    for words in 4u8..64 {
        expect_seen(&rt, rt.alloc(), words);
    }
}

#[test]
fn a_cursor_that_seeks_is_overrun_again(rt: HostRuntime) {
    let alloc = rt.alloc();
    let unit = unit_of(&rt, alloc, 1, 64);
    let (ring, mut writer, mut reader) = open_pair(&rt, alloc);
    for _ in 0..9 {
        same(&rt, writer.try_put(&ring, &unit), Ok(()));
    }
    same(&rt, reader.next(&ring), Step::Lost { at: 0, seen: 10 });
    assert!(&rt; reader.is_lost());
    let mut pause = PutsAt {
        ring: &ring,
        writer,
        unit: &unit,
        when: 2,
        times: 7,
        puts: 0,
    };
    same(
        &rt,
        reader.seek_with(&ring, &mut pause),
        Sought::Lost { at: 6, seen: 18 },
    );
    same(&rt, pause.puts, 7);
}
