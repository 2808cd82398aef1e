//! Feeds that overrun the reader of a small ring.

use crate::comparing::{holds, same};
use crate::support::{Left, expect_held, lines_from, requests_of, run_feeds};
use acceptance_support::{
    Hold, HoldingGate, Step, UnevenGate, count_ends, ends_line, lines_of, read_missed,
    read_overrun, twelve_units,
};
use std::alloc::Global;
use std::process::Abort;
use std::sync::Wait;
use std::thread::Threads;
use varnish_tools::OpenGate;

/// The words for the smallest ring.
const SMALLEST: &[&str] = &["--ring", "64"];

/// How many requests a feed has: their units have more than 1,500 words, and such a ring has 512.
const REQUESTS: u8 = 60;

/// The reader begins once a hundred units of the first feed are in the ring, which have more words than the ring.
const LATE: &[Hold] = &[Hold {
    step: Step::Read(0),
    until: &[Step::Put(0, 100)],
}];

/// The reader begins once eleven units of a feed of twelve are in the ring; the last one is put once it has gone on
/// behind its overrun, in its second call.
const BEHIND_ELEVEN: &[Hold] = &[
    Hold {
        step: Step::Read(0),
        until: &[Step::Put(0, 11)],
    },
    Hold {
        step: Step::Put(0, 11),
        until: &[Step::Read(2)],
    },
];

/// What is told of overruns: how many there were, and how many units they cost.
#[derive(Clone, Copy)]
struct Told {
    overruns: usize,
    missed: u64,
    /// Behind which segment the next one comes, and whether what the last one cost isn't told yet.
    least: u64,
    lost: bool,
}

impl Told {
    /// A line more of standard error. An overrun is six segments or more behind the writers, and comes where the reader
    /// went on behind the one before, or later. Where the reader goes on it tells what it missed.
    fn add(&mut self, rt: &impl Abort, line: &[u8], what: &str) {
        if let Some(units) = read_missed(line) {
            same(rt, (units, self.lost), (units, true), what);
            self.missed = self.missed.saturating_add(units);
            self.lost = false;
            return;
        }
        let (at, seen) = read_overrun(line).expect(rt, "an overrun");
        let is_in_order = self.least <= at && at.saturating_add(6) <= seen;
        same(rt, (at, seen, is_in_order), (at, seen, true), what);
        self.least = seen.saturating_sub(4);
        self.overruns = self.overruns.saturating_add(1);
        self.lost = true;
    }
}

/// What standard error tells of overruns, where it has nothing else. The reader goes on behind the last one.
fn told_overruns(rt: &impl Abort, errors: &[u8], what: &str) -> Told {
    let mut told = Told {
        overruns: 0,
        missed: 0,
        least: 0,
        lost: false,
    };
    for line in errors.split_inclusive(ends_line) {
        told.add(rt, line, what);
    }
    holds(rt, !told.lost, what);
    told
}

/// How often lines are left out of a listing's before one that is there. All that are there stand in the listing's
/// order.
fn gaps_in(rt: &impl Abort, alloc: Global, lines: &[u8], listing: &[u8]) -> usize {
    let all = lines_of(alloc, listing).expect(rt, "memory");
    let mut at: usize = 0;
    let mut gaps: usize = 0;
    for line in lines.split_inclusive(ends_line) {
        let passed = all.iter().skip(at).position(|next| *next == line);
        let passed = passed.expect(rt, "a line of the feed, in its order");
        if passed > 0 {
            gaps = gaps.saturating_add(1);
        }
        at = at.saturating_add(passed).saturating_add(1);
    }
    gaps
}

/// How many bytes of the feeds' listings are printed, and how many gaps they have.
fn printed_of(
    rt: &impl Abort,
    alloc: Global,
    listings: &[Vec<u8>],
    output: &[u8],
) -> (usize, usize) {
    let mut gaps: usize = 0;
    let mut printed: usize = 0;
    for (feed, listing) in listings.iter().enumerate() {
        let lines = lines_from(rt, alloc, output, feed);
        gaps = gaps.saturating_add(gaps_in(rt, alloc, &lines, listing));
        printed = printed.saturating_add(lines.len());
    }
    (printed, gaps)
}

/// How many bytes the listings have, and how many units.
fn size_of(listings: &[Vec<u8>]) -> (usize, u64) {
    let mut size: usize = 0;
    let mut units: u64 = 0;
    for listing in listings {
        size = size.saturating_add(listing.len());
        units = units.saturating_add(count_ends(listing));
    }
    (size, units)
}

/// Compares raw lines and the overruns that were told. Of one feed each gap is of an overrun or more, and what was
/// printed and what was missed are all units that were put.
fn expect_told(
    rt: &impl Abort,
    alloc: Global,
    listings: &[Vec<u8>],
    left: &Left,
    held: bool,
    what: &str,
) {
    same(rt, (left.status, left.closed), (0, true), what);
    let Told {
        overruns,
        missed,
        ..
    } = told_overruns(rt, &left.errors, what);
    let (printed, gaps) = printed_of(rt, alloc, listings, &left.output);
    let (size, units) = size_of(listings);
    let taken = count_ends(&left.output);
    same(rt, taken.saturating_add(missed), units, what);
    same(rt, printed, left.output.len(), what);
    same(rt, overruns == 0, printed == size, what);
    holds(rt, !held || overruns > 0, what);
    let are_of_overruns = gaps <= overruns && (gaps > 0) == (overruns > 0);
    holds(rt, listings.len() > 1 || are_of_overruns, what);
}

/// The words that print each record by itself.
const RAW: &[&str] = &["varnishlog", "-g", "raw"];

/// Runs a tool over feeds whose reader begins late.
fn run_late<R: Threads + Wait + Sync + Abort>(
    rt: &R,
    alloc: Global,
    listings: &[Vec<u8>],
    tool: &[&str],
) -> Left {
    let gate = HoldingGate::new(LATE);
    let left = run_feeds(rt, alloc, listings, SMALLEST, tool, &gate);
    expect_held(rt, &gate);
    left
}

/// Runs `varnishlog -g raw` over so many feeds, at a gate that holds nobody, two that delay all, and one that holds the
/// reader.
fn expect_overruns<R: Threads + Wait + Sync + Abort>(rt: &R, alloc: Global, feeds: u8) {
    let listings = requests_of(rt, alloc, feeds, REQUESTS);
    let left = run_feeds(rt, alloc, &listings, SMALLEST, RAW, &OpenGate);
    expect_told(rt, alloc, &listings, &left, false, "nobody held");
    for seed in 1..=2 {
        let left = run_feeds(rt, alloc, &listings, SMALLEST, RAW, &UnevenGate { seed });
        expect_told(rt, alloc, &listings, &left, false, "all delayed");
    }
    let left = run_late(rt, alloc, &listings, RAW);
    expect_told(rt, alloc, &listings, &left, true, "the reader held");
}

#[test]
fn lines_between_overruns_are_those_of_the_feeds(rt: HostRuntime) {
    for feeds in 1..=4 {
        expect_overruns(&rt, rt.alloc(), feeds);
    }
}

/// The words of tools that print groups, and reports.
const OTHERS: [&[&str]; 4] = [
    &["varnishlog"],
    &["varnishlog", "-g", "session"],
    &["varnishncsa"],
    &["varnishtop", "-1"],
];

/// A run of a tool whose reader begins late tells an overrun or more, and prints something.
fn expect_told_and_printed<R: Threads + Wait + Sync + Abort>(
    rt: &R,
    alloc: Global,
    listings: &[Vec<u8>],
    tool: &[&str],
) {
    let left = run_late(rt, alloc, listings, tool);
    same(rt, (left.status, left.closed), (0, true), "a closed ring");
    holds(rt, !left.output.is_empty(), "something is printed");
    let told = told_overruns(rt, &left.errors, "of groups and reports");
    holds(rt, told.overruns > 0, "an overrun");
}

#[test]
fn overruns_of_groups_and_reports_are_told(rt: HostRuntime) {
    for feeds in 1..=4 {
        let listings = requests_of(&rt, rt.alloc(), feeds, REQUESTS);
        for tool in OTHERS {
            expect_told_and_printed(&rt, rt.alloc(), &listings, tool);
        }
    }
}

/// The lines of a listing behind the first seven.
fn lines_behind_seven(rt: &impl Abort, alloc: Global, listing: &[u8]) -> Vec<u8> {
    let mut want = Vec::new(alloc);
    for line in listing.split_inclusive(ends_line).skip(7) {
        want.extend_from_slice(line).expect(rt, "memory");
    }
    want
}

/// The tail is 768 in segment 12 when the reader is at 0; it goes on in segment 8, where the eighth unit starts.
const TOLD: &[u8] = b"vtools: log overrun at segment 0, counter 12\nvtools: missed 7 units\n";

#[test]
fn a_reader_that_is_overrun_goes_on_four_segments_behind(rt: HostRuntime) {
    let alloc = rt.alloc();
    let listings = [twelve_units(alloc).expect(&rt, "memory")];
    let gate = HoldingGate::new(BEHIND_ELEVEN);
    let left = run_feeds(&rt, alloc, &listings, SMALLEST, RAW, &gate);
    expect_held(&rt, &gate);
    same(&rt, left.status, 0, "a feed");
    same(&rt, left.errors.as_slice(), TOLD, "a feed");
    let [listing] = &listings;
    let want = lines_behind_seven(&rt, alloc, listing);
    holds(&rt, left.output == want, "a feed");
}
