//! Workers run at the same time, and beside the reading.

use crate::comparing::{holds, same};
use crate::support::{expect_done, expect_held, run_feeds, run_over, world_of};
use acceptance_support::{Hold, HoldingGate, Step, lines_of};
use std::alloc::Global;
use std::process::Abort;
use std::sync::Wait;
use std::thread::Threads;

/// The words that print each record by itself.
const RAW: &[&str] = &["varnishlog", "-g", "raw"];

/// Two feeds of two units, each of a record of a VXID of its own.
const TWO_FEEDS: [[&[u8]; 2]; 2] = [
    [
        b"         2 VCL_Log        c a\n",
        b"         4 VCL_Log        c b\n",
    ],
    [
        b"         6 VCL_Log        c d\n",
        b"         8 VCL_Log        c e\n",
    ],
];

/// The reader waits for the second put of worker 1, and that for the reader's second call and for worker 0; the second
/// put of worker 0 waits for worker 1. So no thread may be held until another has ended.
const TOGETHER: &[Hold] = &[
    Hold {
        step: Step::Read(0),
        until: &[Step::Put(1, 1)],
    },
    Hold {
        step: Step::Put(1, 1),
        until: &[Step::Read(1), Step::Put(0, 0)],
    },
    Hold {
        step: Step::Put(0, 1),
        until: &[Step::Put(1, 0)],
    },
];

/// The first unit is in the ring before the reader's first call, and the second one is put after that call has
/// returned.
const ONE_AHEAD: &[Hold] = &[
    Hold {
        step: Step::Read(0),
        until: &[Step::Put(0, 1)],
    },
    Hold {
        step: Step::Put(0, 1),
        until: &[Step::Read(1)],
    },
];

/// The same, but that the second unit is put without waiting. Whether there is a second call is looked at.
const NOT_AHEAD: &[Hold] = &[
    Hold {
        step: Step::Read(0),
        until: &[Step::Put(0, 1)],
    },
    Hold {
        step: Step::Read(1),
        until: &[],
    },
];

/// The listing of a feed whose units have these lines.
fn listing_of(rt: &impl Abort, alloc: Global, lines: [&[u8]; 2]) -> Vec<u8> {
    let mut listing = Vec::new(alloc);
    for line in lines {
        listing.extend_from_slice(line).expect(rt, "memory");
    }
    listing
}

/// The lines of a text, sorted, as a text.
fn sorted(rt: &impl Abort, alloc: Global, text: &[u8]) -> Vec<u8> {
    let mut lines = lines_of(alloc, text).expect(rt, "memory");
    lines.sort_unstable();
    let mut all = Vec::new(alloc);
    for line in lines {
        all.extend_from_slice(line).expect(rt, "memory");
    }
    all
}

/// The lines of both feeds.
const LINES: &[u8] =
    b"         2 VCL_Log        c a\n         4 VCL_Log        c b\n         6 VCL_Log        c d\n         8 VCL_Log        c e\n";

#[test]
fn workers_run_together_beside_the_reading(rt: HostRuntime) {
    let alloc = rt.alloc();
    let [one, two] = TWO_FEEDS;
    let listings = [listing_of(&rt, alloc, one), listing_of(&rt, alloc, two)];
    let gate = HoldingGate::new(TOGETHER);
    let left = run_feeds(&rt, alloc, &listings, &[], RAW, &gate);
    expect_held(&rt, &gate);
    expect_done(&rt, &left, "two feeds", 2);
    let lines = sorted(&rt, alloc, &left.output);
    same(&rt, lines.as_slice(), LINES, "two feeds");
}

/// A run over one feed in which the second unit is put once the reader has called twice.
fn expect_one_ahead<R: Threads + Wait + Sync + Abort>(rt: &R, alloc: Global, listings: &[Vec<u8>]) {
    let gate = HoldingGate::new(ONE_AHEAD);
    let left = run_feeds(rt, alloc, listings, &[], RAW, &gate);
    expect_held(rt, &gate);
    expect_done(rt, &left, "a feed", 1);
    let listing = listings.first().expect(rt, "a listing");
    same(rt, left.output.as_slice(), listing.as_slice(), "a feed");
}

/// A run over one feed whose first write fails: an open, two reads, and the write of the first unit. So that comes before
/// the reader's second call.
fn expect_failed_write<R: Threads + Wait + Sync + Abort>(
    rt: &R,
    alloc: Global,
    listings: &[Vec<u8>],
) {
    let mut world = world_of(rt, alloc, listings);
    world.fail(4).expect(rt, "memory");
    let gate = HoldingGate::new(NOT_AHEAD);
    let left = run_over(rt, alloc, &mut world, 1, &[], RAW, &gate);
    expect_held(rt, &gate);
    same(
        rt,
        (left.status, left.output.len()),
        (1, 0),
        "a failed write",
    );
    let is_called = gate.was_entered(rt, Step::Read(1));
    holds(rt, !is_called, "a call after the failed write");
}

#[test]
fn the_tool_prints_before_the_last_unit_is_put(rt: HostRuntime) {
    let [lines, _] = TWO_FEEDS;
    let listings = [listing_of(&rt, rt.alloc(), lines)];
    expect_one_ahead(&rt, rt.alloc(), &listings);
    expect_failed_write(&rt, rt.alloc(), &listings);
}
