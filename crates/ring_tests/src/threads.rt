//! Two writers and a reader on threads of their own.

ghost use Rattle.std.specs.Prelude.{◌≡◌, ◌<◌};
ghost use Rattle.vsl_record.specs.Unit.{LogUnit};
ghost use Rattle.vsl_record.specs.Views.{Spells};

use crate::support::{filling, open_trio, same, unit_of};
use log_ring::{LeftWriter, ReaderPass, Ring, WriterPass, close};
use ring_layout::{Sought, Step};
use std::alloc::Global;
use std::process::Abort;
use std::sync::Wait;
use std::thread::{Threads, join};
use vsl_record::{Unit, UnitView};

/// How many units each writer puts. Together they have 33,412 words.
const UNITS: u64 = 500;

/// A lap is left with 448 to 511 words of units, so that 65 to 74 of them wrap.
const WRAPS: (u64, u64) = (65, 74);

/// How many words the unit of this number has.
fn words_of(number: u64) -> u8 {
    4 + (number % 61) as u8
}

/// Units whose VXIDs are twice their numbers, and this more.
fn units_from(rt: &impl Abort, alloc: Global, first: u64) -> Vec<Unit>
    requires { first < 2 }
{
    let mut units = Vec::new(alloc);
    for number in 0..UNITS {
        let unit = unit_of(rt, alloc, 2 * number + first, words_of(number));
        units.push(unit).expect(rt, "memory");
    }
    units
}

/// Puts these units, and leaves.
fn put_all<R: Wait>(rt: &R, ring: &Ring, mut writer: WriterPass, units: &[Unit]) -> LeftWriter
    requires { writer.ring ≡ ring.now }
    ensures { result.ring ≡ ring.now }
{
    for unit in units {
        if writer.put(rt, ring, unit).is_err() {
            break;
        }
    }
    writer.leave(ring)
}

/// Puts these units by two writers, each on a thread of its own.
fn put_both<R: Threads + Wait + Sync>(
    rt: &R,
    ring: &Ring,
    one: WriterPass,
    two: WriterPass,
    even: &[Unit],
    odd: &[Unit],
) -> (LeftWriter, LeftWriter)
    requires one { one.ring ≡ ring.now }
    requires two { two.ring ≡ ring.now }
    ensures one { result.0.ring ≡ ring.now }
    ensures two { result.1.ring ≡ ring.now }
{
    join(
        rt,
        || put_all(rt, ring, one, even),
        || put_all(rt, ring, two, odd),
    )
}

/// What a reader saw.
#[derive(Clone, Copy)]
struct Seen {
    taken: u64,
    /// How many units the seeks told as missed.
    missed: u64,
    /// The next number that may come of each writer.
    next: [u64; 2],
    /// Whether each writer's numbers grew, and each unit had its payload.
    as_put: bool,
}

/// Whether the unit has the payload that was put with its VXID.
fn is_as_put(unit: UnitView<'_>) -> bool
    requires { (u : LogUnit) × Spells unit u }
{
    if unit.len() != 1 {
        return false;
    }
    let vxid = unit.vxid();
    let payload = unit.item(0).payload();
    let byte = filling(vxid);
    payload.len() + 16 == 4 * words_of(vxid / 2) as usize && payload.iter().all(|b| *b == byte)
}

impl Seen {
    /// One unit more.
    fn add(&mut self, unit: UnitView<'_>)
        requires { (u : LogUnit) × Spells unit u }
    {
        let vxid = unit.vxid();
        let (number, writer) = (vxid / 2, (vxid % 2) as usize);
        self.as_put &= is_as_put(unit) && number >= self.next[writer];
        self.next[writer] = number + 1;
        self.taken = self.taken.wrapping_add(1);
    }
}

/// Reads to the end.
fn read_all<R: Wait>(rt: &R, ring: &Ring, mut reader: ReaderPass) -> (Seen, ReaderPass)
    requires { reader.ring ≡ ring.now }
    ensures { result.1.ring ≡ ring.now }
{
    let mut seen = Seen {
        taken: 0,
        missed: 0,
        next: [0, 0],
        as_put: true,
    };
    for _ in rt.forever() {
        match reader.next(ring) {
            Step::Took => seen.add(reader.unit()),
            Step::NotYet { .. } => {}
            Step::Ended => return (seen, reader),
            Step::Lost { .. } => {
                let due = reader.next_number();
                if let Sought::At { number, .. } = reader.seek(ring) {
                    seen.missed = seen.missed.wrapping_add(number.wrapping_sub(due));
                }
            }
        }
    }
    unreachable!()
}

#[test]
fn a_reader_takes_units_of_two_writers_in_their_orders(rt: HostRuntime) {
    let alloc = rt.alloc();
    let (ring, one, two, reader) = open_trio(&rt, alloc);
    let (even, odd) = (units_from(&rt, alloc, 0), units_from(&rt, alloc, 1));
    let (lefts, (seen, reader)) = join(
        &rt,
        ||
            requires one { one.ring ≡ ring }
            requires two { two.ring ≡ ring }
        { put_both(&rt, &ring, one, two, even.as_slice(), odd.as_slice()) },
        || read_all(&rt, &ring, reader),
    );
    same(&rt, seen.as_put, true);
    // The last unit of the log is one writer's last, and no cursor ends before it.
    same(&rt, seen.next[0].max(seen.next[1]), UNITS);
    // Each unit that was put was taken, or told as missed.
    same(&rt, seen.taken.wrapping_add(seen.missed), 2 * UNITS);
    let wraps = lefts.0.wraps().saturating_add(lefts.1.wraps());
    same(&rt, WRAPS.0 <= wraps && wraps <= WRAPS.1, true);
    let writers = Vec::from_array(alloc, [lefts.0, lefts.1]).expect(&rt, "memory");
    let readers = Vec::from_array(alloc, [reader]).expect(&rt, "memory");
    let _closed = close(ring, writers, readers);
}
