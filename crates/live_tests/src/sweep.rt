//! What comes of feeds whatever the schedule is: runs over feeds of some dozens of units, over rings that no reader is
//! overrun in, compared with the same job in a stated order.

use crate::comparing::{holds, same};
use crate::support::{expect_done, lines_from, requests_of, run_feeds};
use acceptance_support::{Kept, UnevenGate, have_same_parts};
use std::alloc::Global;
use std::process::Abort;
use std::sync::Wait;
use std::thread::Threads;
use varnish_tools::{Gate, OpenGate};

/// A ring, and how many requests each of one to four feeds has. Together they have fewer words than six segments, so
/// that no reader is overrun: of four requests the first has 56, and each other one 38.
struct RingCase {
    words: &'static [&'static str],
    stated: &'static [&'static str],
    requests: [u8; 4],
}

const RINGS: [RingCase; 3] = [
    RingCase {
        words: &["--ring", "64"],
        stated: &["--ring", "64", "--feed-first"],
        requests: [8, 4, 2, 2],
    },
    RingCase {
        words: &["--ring", "1024"],
        stated: &["--ring", "1024", "--feed-first"],
        requests: [24, 24, 24, 24],
    },
    RingCase {
        words: &[],
        stated: &["--feed-first"],
        requests: [24, 24, 24, 24],
    },
];

/// A tool, and what its text keeps whatever the schedule is.
struct ToolCase {
    what: &'static str,
    words: &'static [&'static str],
    kept: Kept,
}

const RAW_LINES: ToolCase = ToolCase {
    what: "raw",
    words: &["varnishlog", "-g", "raw"],
    kept: Kept::FeedLines,
};

const TRANSACTIONS: ToolCase = ToolCase {
    what: "transactions",
    words: &["varnishlog", "-g", "vxid"],
    kept: Kept::Groups,
};

const REQUESTS: ToolCase = ToolCase {
    what: "requests",
    words: &["varnishlog", "-g", "request"],
    kept: Kept::Groups,
};

const SESSIONS: ToolCase = ToolCase {
    what: "sessions",
    words: &["varnishlog", "-g", "session"],
    kept: Kept::Groups,
};

const ACCESS_LINES: ToolCase = ToolCase {
    what: "access lines",
    words: &["varnishncsa"],
    kept: Kept::Lines,
};

const REPORT: ToolCase = ToolCase {
    what: "a report",
    words: &["varnishtop", "-1"],
    kept: Kept::Whole,
};

const COUNTERS: ToolCase = ToolCase {
    what: "counters",
    words: &["varnishstat", "-1"],
    kept: Kept::Counters,
};

/// Whether each feed's lines come in their order.
fn are_in_order(
    rt: &impl Abort,
    alloc: Global,
    listings: &[Vec<u8>],
    live: &[u8],
    stated: &[u8],
) -> bool {
    for (feed, listing) in listings.iter().enumerate() {
        if lines_from(rt, alloc, live, feed).as_slice() != listing.as_slice() {
            return false;
        }
    }
    live.len() == stated.len()
}

/// Whether a live run's text is that of a stated order, but for what its schedule may change.
fn is_as_stated(
    rt: &impl Abort,
    alloc: Global,
    kept: Kept,
    listings: &[Vec<u8>],
    live: &[u8],
    stated: &[u8],
) -> bool {
    if listings.len() == 1 {
        return live == stated;
    }
    if matches!(kept, Kept::FeedLines) {
        return are_in_order(rt, alloc, listings, live, stated);
    }
    have_same_parts(alloc, kept, live, stated).expect(rt, "memory")
}

/// What a tool prints of these listings in a stated order.
fn print_stated<R: Threads + Wait + Sync + Abort>(
    rt: &R,
    alloc: Global,
    ring: &RingCase,
    listings: &[Vec<u8>],
    tool: &ToolCase,
) -> Vec<u8> {
    let stated = run_feeds(rt, alloc, listings, ring.stated, tool.words, &OpenGate);
    same(rt, stated.status, 0, tool.what);
    let is_told = stated.errors.is_empty() && !stated.output.is_empty();
    holds(rt, is_told, tool.what);
    stated.output
}

/// Runs a tool over these listings on threads, and compares what it prints with what a stated order prints.
fn expect_as_stated<R: Threads + Wait + Sync + Abort, G: Gate>(
    rt: &R,
    alloc: Global,
    ring: &RingCase,
    listings: &[Vec<u8>],
    tool: &ToolCase,
    stated: &[u8],
    gate: &G,
) {
    let left = run_feeds(rt, alloc, listings, ring.words, tool.words, gate);
    let feeds = listings.len();
    expect_done(rt, &left, tool.what, feeds);
    let is_same = is_as_stated(rt, alloc, tool.kept, listings, &left.output, stated);
    same(rt, (feeds, is_same), (feeds, true), tool.what);
}

/// Runs a tool twice over so many feeds in a ring, with a gate that holds nobody and one that delays all.
fn expect_ring<R: Threads + Wait + Sync + Abort>(
    rt: &R,
    alloc: Global,
    ring: &RingCase,
    feeds: u8,
    requests: u8,
    tool: &ToolCase,
) {
    let listings = requests_of(rt, alloc, feeds, requests);
    let stated = print_stated(rt, alloc, ring, &listings, tool);
    expect_as_stated(rt, alloc, ring, &listings, tool, &stated, &OpenGate);
    let gate = UnevenGate {
        seed: u64::from(feeds),
    };
    expect_as_stated(rt, alloc, ring, &listings, tool, &stated, &gate);
}

/// Runs a tool over one to four feeds in each ring: 24 runs.
fn expect_rings<R: Threads + Wait + Sync + Abort>(rt: &R, alloc: Global, tool: &ToolCase) {
    for ring in &RINGS {
        for (before, requests) in ring.requests.iter().enumerate() {
            expect_ring(rt, alloc, ring, before as u8 + 1, *requests, tool);
        }
    }
}

#[test]
fn raw_lines_come_in_the_order_of_each_feed(rt: HostRuntime) {
    expect_rings(&rt, rt.alloc(), &RAW_LINES);
}

#[test]
fn transactions_are_those_of_a_stated_order(rt: HostRuntime) {
    expect_rings(&rt, rt.alloc(), &TRANSACTIONS);
}

#[test]
fn requests_are_those_of_a_stated_order(rt: HostRuntime) {
    expect_rings(&rt, rt.alloc(), &REQUESTS);
}

#[test]
fn sessions_are_those_of_a_stated_order(rt: HostRuntime) {
    expect_rings(&rt, rt.alloc(), &SESSIONS);
}

#[test]
fn access_lines_are_those_of_a_stated_order(rt: HostRuntime) {
    expect_rings(&rt, rt.alloc(), &ACCESS_LINES);
}

#[test]
fn a_report_is_that_of_a_stated_order(rt: HostRuntime) {
    expect_rings(&rt, rt.alloc(), &REPORT);
}

#[test]
fn counters_are_those_of_a_stated_order_but_for_waits_and_laps(rt: HostRuntime) {
    expect_rings(&rt, rt.alloc(), &COUNTERS);
}
