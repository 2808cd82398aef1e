//! Where units lie in a ring, and what a listing has.

ghost use Rattle.std.specs.Prelude.{◌≡◌};

use crate::support::same;
use ring_layout::{Placed, Shape, place_after, segment_of};
use std::alloc::Global;
use std::process::Abort;
use traffic_feed::{ListFault, Listing, read_listing};
use vsl_record::{Unit, Vxid};

/// The last tail that a ring has, less ten: 2^62 - 10.
const LATE_TAIL: u64 = 4_611_686_018_427_387_894;

/// Two lines of a listing, each a record of a transaction of its own.
const TWO_LINES: &[u8] = b"1 CLI - a\n2 CLI - b\n";

/// The same, and a line that is no record's.
const BAD_THIRD: &[u8] = b"1 CLI - a\n2 CLI - b\nx\n";

/// Segments of 64 words, the fewest.
fn least_shape(rt: &impl Abort) -> Shape
    ensures { result ≡ 64 }
{
    Shape::new(64).expect(rt, "64 words are a segment")
}

/// A listing over such segments.
fn listing_of(rt: &impl Abort, alloc: Global, bytes: &[u8]) -> Result<Listing, ListFault> {
    read_listing(alloc, bytes, 255, least_shape(rt))
}

/// The unit has this VXID, and is of one record with this payload.
fn expect_unit(rt: &impl Abort, unit: &Unit, vxid: Vxid, payload: &[u8]) {
    let records = unit.records();
    same(rt, (unit.vxid(), records.len()), (vxid, 1));
    for i in 0..records.len() {
        same(rt, records.get(i).payload(), payload);
    }
}

#[test]
fn a_unit_lies_in_one_lap(rt: HostRuntime) {
    let shape = least_shape(&rt);
    let stays = Placed {
        start: 447,
        tail: 511,
        wraps: false,
    };
    same(&rt, place_after(shape, 447, 64), Some(stays));
    same(&rt, segment_of(shape, 511), 7);
    let wraps = Placed {
        start: 512,
        tail: 576,
        wraps: true,
    };
    same(&rt, place_after(shape, 448, 64), Some(wraps));
    same(&rt, segment_of(shape, 576), 9);
}

#[test]
fn no_unit_lies_behind_the_last_tail(rt: HostRuntime) {
    let shape = least_shape(&rt);
    let last = Placed {
        start: LATE_TAIL,
        tail: 4_611_686_018_427_387_898,
        wraps: false,
    };
    same(&rt, place_after(shape, LATE_TAIL, 64), None);
    same(&rt, place_after(shape, LATE_TAIL, 4), Some(last));
}

/// The VXIDs and payloads of the two lines.
const UNITS: [(Vxid, &[u8]); 2] = [(1, b"a"), (2, b"b")];

#[test]
fn two_lines_are_two_units(rt: HostRuntime) {
    let listing = listing_of(&rt, rt.alloc(), TWO_LINES).expect(&rt, "a listing");
    let units = listing.units.as_slice();
    same(&rt, (listing.cuts, units.len()), (0, 2));
    for (unit, (vxid, payload)) in units.iter().zip(UNITS) {
        expect_unit(&rt, unit, vxid, payload);
    }
}

#[test]
fn a_bad_line_is_told(rt: HostRuntime) {
    let refused = listing_of(&rt, rt.alloc(), BAD_THIRD).err();
    same(&rt, refused, Some(ListFault::BadLine { line: 3 }));
}
