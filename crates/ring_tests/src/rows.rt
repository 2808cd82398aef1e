//! Rows of calls, each with its answer, which both rings give.

use crate::both::{AnyRing, Plain, Shared};
use crate::support::{same, unit_of};
use ring_layout::{PutFault, Sought, Step};
use std::alloc::Global;
use std::process::Abort;

/// Calls, and what they answer. Units have numbers from 1.
#[derive(Clone, Copy)]
enum Row {
    /// Units of 64 words are put: those of these numbers, the last too.
    Fills(u8, u8),
    /// The same, and the cursor takes each at once.
    Follows(u8, u8),
    /// A unit is put: its number, and how many words it has.
    Puts(u8, u8),
    /// The same, and the cursor takes it at once.
    Passes(u8, u8),
    /// A unit of so many words is longer than a segment.
    Refuses(u8),
    /// The writer leaves.
    Leaves,
    /// The cursor takes the units of these numbers, the last too.
    Takes(u8, u8),
    /// No unit is at the cursor's place.
    Waits(u64),
    /// No unit comes any more.
    Ended,
    /// The cursor is overrun at this segment, by this counter.
    Overrun(u64, u64),
    /// The cursor goes on at this segment, which starts at this place, behind so many units.
    Seeks(u64, u64, u64),
}

use Row::{Ended, Fills, Follows, Leaves, Overrun, Passes, Puts, Refuses, Seeks, Takes, Waits};

/// The unit of this number is put, which has so many words.
fn put<T: AnyRing>(rt: &impl Abort, alloc: Global, ring: &mut T, number: u8, words: u8) {
    let unit = unit_of(rt, alloc, u64::from(number), words);
    same(rt, (number, ring.put(&unit)), (number, Ok(())));
}

/// The cursor takes the unit of this number.
fn take<T: AnyRing>(rt: &impl Abort, ring: &mut T, number: u8) {
    let before = u64::from(number).saturating_sub(1);
    same(rt, ring.next(), (Step::Took, u64::from(number), before));
    same(rt, ring.is_lost(), false);
}

/// The cursor meets something else.
fn meet<T: AnyRing>(rt: &impl Abort, ring: &mut T, step: Step, is_lost: bool) {
    same(rt, ring.next(), (step, 0, 0));
    same(rt, ring.is_lost(), is_lost);
}

/// Units of 64 words are put, and the cursor takes each at once, if it follows.
fn put_all<T: AnyRing>(
    rt: &impl Abort,
    alloc: Global,
    ring: &mut T,
    first: u8,
    last: u8,
    follows: bool,
) {
    for number in first..=last {
        put(rt, alloc, ring, number, 64);
        if follows {
            take(rt, ring, number);
        }
    }
}

/// The cursor takes the units of these numbers.
fn take_all<T: AnyRing>(rt: &impl Abort, ring: &mut T, first: u8, last: u8) {
    for number in first..=last {
        take(rt, ring, number);
    }
}

/// A unit of so many words is put and taken at once.
fn pass<T: AnyRing>(rt: &impl Abort, alloc: Global, ring: &mut T, number: u8, words: u8) {
    put(rt, alloc, ring, number, words);
    take(rt, ring, number);
}

/// A unit of so many words is refused.
fn refuse<T: AnyRing>(rt: &impl Abort, alloc: Global, ring: &mut T, words: u8) {
    let unit = unit_of(rt, alloc, 99, words);
    let fault = PutFault::TooLong {
        words: u64::from(words),
    };
    same(rt, ring.put(&unit), Err(fault));
}

/// The cursor goes on.
fn seek<T: AnyRing>(rt: &impl Abort, ring: &mut T, segment: u64, place: u64, number: u64) {
    let at = Sought::At {
        segment,
        place,
        number,
    };
    same(rt, ring.seek(), Some(at));
    same(rt, ring.is_lost(), false);
}

/// One row.
fn run_row<T: AnyRing>(rt: &impl Abort, alloc: Global, ring: &mut T, row: Row) {
    match row {
        Fills(first, last) => put_all(rt, alloc, ring, first, last, false),
        Follows(first, last) => put_all(rt, alloc, ring, first, last, true),
        Puts(number, words) => put(rt, alloc, ring, number, words),
        Passes(number, words) => pass(rt, alloc, ring, number, words),
        Refuses(words) => refuse(rt, alloc, ring, words),
        Leaves => ring.leave(),
        Takes(first, last) => take_all(rt, ring, first, last),
        Waits(place) => meet(rt, ring, Step::NotYet { place }, false),
        Ended => meet(rt, ring, Step::Ended, false),
        Overrun(at, seen) => meet(rt, ring, Step::Lost { at, seen }, true),
        Seeks(segment, place, number) => seek(rt, ring, segment, place, number),
    }
}

/// All rows, over a new ring.
fn run<T: AnyRing>(rt: &impl Abort, alloc: Global, rows: &[Row]) {
    let mut ring = T::new(rt, alloc);
    for row in rows {
        run_row(rt, alloc, &mut ring, *row);
    }
}

/// All rows, over each of the rings.
fn run_both(rt: &impl Abort, alloc: Global, rows: &[Row]) {
    run::<Plain>(rt, alloc, rows);
    run::<Shared>(rt, alloc, rows);
}

#[test]
fn a_new_cursor_waits_at_the_first_place(rt: HostRuntime) {
    run_both(&rt, rt.alloc(), &[Waits(0), Passes(1, 4), Waits(4)]);
}

const LONGER_THAN_A_SEGMENT: [Row; 4] = [Refuses(65), Waits(0), Passes(1, 64), Waits(64)];

#[test]
fn a_unit_longer_than_a_segment_is_refused(rt: HostRuntime) {
    run_both(&rt, rt.alloc(), &LONGER_THAN_A_SEGMENT);
}

const FIVE_BEHIND: [Row; 4] = [Follows(1, 2), Fills(3, 7), Puts(8, 12), Takes(3, 8)];

#[test]
fn a_cursor_five_segments_behind_takes_its_unit(rt: HostRuntime) {
    run_both(&rt, rt.alloc(), &FIVE_BEHIND);
}

const SIX_BEHIND: [Row; 9] = [
    Follows(1, 2),
    Fills(3, 7),
    Puts(8, 12),
    Puts(9, 60),
    Overrun(2, 8),
    Overrun(2, 8),
    Seeks(4, 256, 4),
    Takes(5, 9),
    Waits(572),
];

#[test]
fn a_cursor_six_segments_behind_is_overrun(rt: HostRuntime) {
    run_both(&rt, rt.alloc(), &SIX_BEHIND);
}

const BEFORE_THE_LAST_WORD: [Row; 4] = [Follows(1, 6), Passes(7, 63), Passes(8, 63), Waits(510)];

const AT_THE_LAST_WORD: [Row; 4] = [Follows(1, 6), Passes(7, 63), Passes(8, 64), Waits(511)];

const PAST_THE_LAST_WORD: [Row; 3] = [Follows(1, 7), Passes(8, 64), Waits(576)];

#[test]
fn a_unit_stays_where_its_lap_has_a_word_more(rt: HostRuntime) {
    let alloc = rt.alloc();
    run_both(&rt, alloc, &BEFORE_THE_LAST_WORD);
    run_both(&rt, alloc, &AT_THE_LAST_WORD);
    run_both(&rt, alloc, &PAST_THE_LAST_WORD);
}

const BY_ITS_TAIL: [Row; 5] = [
    Puts(1, 60),
    Fills(2, 7),
    Overrun(0, 6),
    Seeks(2, 188, 3),
    Takes(4, 7),
];

const BY_A_WRAP: [Row; 7] = [
    Fills(1, 7),
    Puts(8, 12),
    Puts(9, 60),
    Fills(10, 13),
    Overrun(0, 12),
    Seeks(8, 512, 8),
    Takes(9, 13),
];

const FIRST_OF_TWO: [Row; 4] = [Fills(1, 11), Overrun(0, 12), Seeks(8, 512, 7), Takes(8, 11)];

const LAST_OF_TWO: [Row; 4] = [Fills(1, 12), Overrun(0, 13), Seeks(9, 576, 8), Takes(9, 12)];

#[test]
fn a_seek_finds_each_segment_that_a_unit_entered(rt: HostRuntime) {
    let alloc = rt.alloc();
    run_both(&rt, alloc, &BY_ITS_TAIL);
    run_both(&rt, alloc, &BY_A_WRAP);
    run_both(&rt, alloc, &FIRST_OF_TWO);
    run_both(&rt, alloc, &LAST_OF_TWO);
}

const NO_UNIT: [Row; 3] = [Leaves, Ended, Ended];

const LEFT_BEHIND: [Row; 6] = [
    Fills(1, 6),
    Leaves,
    Overrun(0, 6),
    Seeks(2, 128, 2),
    Takes(3, 6),
    Ended,
];

#[test]
fn a_cursor_ends_behind_the_last_unit(rt: HostRuntime) {
    let alloc = rt.alloc();
    run_both(&rt, alloc, &NO_UNIT);
    run_both(&rt, alloc, &LEFT_BEHIND);
}
