//! Live runs over a world in memory, and what they leave.

use crate::comparing::{holds, same};
use acceptance_support::{HoldingGate, lines_of_feed, listings_of};
use std::alloc::Global;
use std::process::Abort;
use std::sync::Wait;
use std::thread::Threads;
use varnish_tools::{Gate, RunRecord, run_tools};
use vio::{ERRORS, MemWorld, OUTPUT};

/// The names of feeds, in the order of the words.
pub const NAMES: [&str; 4] = ["a", "b", "c", "d"];

/// What a run left: the status, whether its record has a closed ring, and what was written to standard output and
/// standard error.
#[derive(Drop)]
pub struct Left {
    pub status: u8,
    pub closed: bool,
    pub output: Vec<u8>,
    pub errors: Vec<u8>,
}

/// The listings of so many feeds, each with so many requests.
pub fn requests_of(rt: &impl Abort, alloc: Global, feeds: u8, requests: u8) -> Vec<Vec<u8>> {
    listings_of(alloc, feeds, requests).expect(rt, "memory")
}

/// The raw lines of a feed, of those of all.
pub fn lines_from(rt: &impl Abort, alloc: Global, text: &[u8], feed: usize) -> Vec<u8> {
    lines_of_feed(alloc, text, feed).expect(rt, "memory")
}

/// A world in which the feeds have these listings.
pub fn world_of(rt: &impl Abort, alloc: Global, listings: &[Vec<u8>]) -> MemWorld {
    let mut world = MemWorld::new(alloc).expect(rt, "memory");
    for (name, listing) in NAMES.iter().zip(listings.iter()) {
        world.file(*name, listing.as_slice()).expect(rt, "memory");
    }
    world
}

/// Adds a word to a command line.
fn add(rt: &impl Abort, alloc: Global, words: &mut Vec<String>, word: &str) {
    let word = String::from_str(alloc, word).expect(rt, "memory");
    words.push(word).expect(rt, "memory");
}

/// The words of a command line that names so many feeds, with these words behind them.
fn words_of(
    rt: &impl Abort,
    alloc: Global,
    feeds: usize,
    before: &[&str],
    tool: &[&str],
) -> Vec<String> {
    let mut words = Vec::new(alloc);
    for name in NAMES.iter().take(feeds) {
        add(rt, alloc, &mut words, "--feed");
        add(rt, alloc, &mut words, *name);
    }
    for word in before.iter().chain(tool.iter()) {
        add(rt, alloc, &mut words, *word);
    }
    words
}

/// A copy of bytes.
fn copied(rt: &impl Abort, alloc: Global, bytes: &[u8]) -> Vec<u8> {
    Vec::from_slice(alloc, bytes).expect(rt, "memory")
}

/// Runs a tool over so many feeds of a world.
pub fn run_over<R: Threads + Wait + Sync + Abort, G: Gate>(
    rt: &R,
    alloc: Global,
    world: &mut MemWorld,
    feeds: usize,
    before: &[&str],
    tool: &[&str],
    gate: &G,
) -> Left {
    let words = words_of(rt, alloc, feeds, before, tool);
    let outcome = run_tools(rt, alloc, &words, world, gate).expect(rt, "memory");
    Left {
        status: outcome.status,
        closed: matches!(outcome.run, RunRecord::Closed(_)),
        output: copied(rt, alloc, world.content(OUTPUT)),
        errors: copied(rt, alloc, world.content(ERRORS)),
    }
}

/// Runs a tool over feeds with these listings.
pub fn run_feeds<R: Threads + Wait + Sync + Abort, G: Gate>(
    rt: &R,
    alloc: Global,
    listings: &[Vec<u8>],
    before: &[&str],
    tool: &[&str],
    gate: &G,
) -> Left {
    let mut world = world_of(rt, alloc, listings);
    run_over(rt, alloc, &mut world, listings.len(), before, tool, gate)
}

/// A run over threads ended without a fault and a message. `what` and `number` tell it from others.
pub fn expect_done(rt: &impl Abort, left: &Left, what: &str, number: usize) {
    let is_done = left.status == 0 && left.closed && left.errors.is_empty();
    same(rt, (number, is_done), (number, true), what);
}

/// No step was held to its last turn.
pub fn expect_held<R: Abort + Wait>(rt: &R, gate: &HoldingGate) {
    holds(rt, !gate.has_failed(rt), "a step was held to the last turn");
}
