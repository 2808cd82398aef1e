//! Runs that end before all was met.

use crate::comparing::{holds, same};
use crate::support::{expect_done, lines_from, requests_of, run_feeds};
use acceptance_support::{ends_line, feed_of, groups_of};
use std::alloc::Global;
use std::process::Abort;
use std::sync::Wait;
use std::thread::Threads;
use varnish_tools::OpenGate;

/// Runs a tool that keeps one over so many feeds: the listings, and what is printed.
fn keep_one<R: Threads + Wait + Sync + Abort>(
    rt: &R,
    alloc: Global,
    feeds: u8,
    before: &[&str],
    grouping: &str,
) -> (Vec<Vec<u8>>, Vec<u8>) {
    let listings = requests_of(rt, alloc, feeds, 24);
    let tool = ["varnishlog", "-g", grouping, "-k", "1"];
    let left = run_feeds(rt, alloc, &listings, before, &tool, &OpenGate);
    expect_done(rt, &left, grouping, feeds as usize);
    (listings, left.output)
}

/// A text is the first line of its feed.
fn expect_first_line(rt: &impl Abort, alloc: Global, listings: &[Vec<u8>], text: &[u8]) {
    let mut lines = text.split_inclusive(ends_line);
    let line = lines.next().expect(rt, "a line");
    holds(rt, lines.next().is_none(), "one line");
    let feed = feed_of(line);
    let listing = listings.get(feed).expect(rt, "a feed");
    let all = lines_from(rt, alloc, listing, feed);
    holds(
        rt,
        all.as_slice().starts_with(line),
        "the feed's first line",
    );
}

#[test]
fn the_first_line_that_is_kept_ends_a_run(rt: HostRuntime) {
    for feeds in 1..=4 {
        let (listings, text) = keep_one(&rt, rt.alloc(), feeds, &[], "raw");
        expect_first_line(&rt, rt.alloc(), &listings, &text);
    }
}

#[test]
fn the_first_request_that_is_kept_ends_a_run(rt: HostRuntime) {
    let ring = &["--ring", "1024"];
    for feeds in 1..=4 {
        let (_, text) = keep_one(&rt, rt.alloc(), feeds, ring, "request");
        let groups = groups_of(rt.alloc(), &text).expect(&rt, "memory");
        same(&rt, (feeds, groups.len()), (feeds, 1), "groups");
    }
}
