//! Counters: what passes add to them, what is printed of them, and traffic that is made.

ghost use Rattle.std.specs.Prelude.{◌<◌};

use crate::support::same;
use counter_segments::{AddFault, Counters, Values, close, load};
use log_model::Text;
use ring_layout::Shape;
use std::alloc::Global;
use std::process::Abort;
use traffic_feed::{Listing, generate};
use vsl_record::Vxid;
use vsl_stat::{Globs, stat_json, stat_list, stat_text};

/// The most that a pass adds to a counter, 2^56.
const CEILING: u64 = 72_057_594_037_927_936;

/// The numbers of the counters of hits and of misses.
const CACHE_HIT: u32 = 2;

const CACHE_MISS: u32 = 5;

/// What counters with one pass come to that adds three hits and a miss.
fn three_hits(rt: &impl Abort, alloc: Global) -> Values {
    let mut open = Counters::new(alloc, 1).expect(rt, "memory");
    let mut pass = open.passes.pop().expect(rt, "a pass");
    same(rt, pass.add(&open.counters, CACHE_HIT, 3), Ok(()));
    same(rt, pass.add(&open.counters, CACHE_MISS, 1), Ok(()));
    let passes = Vec::from_array(alloc, [pass]).expect(rt, "memory");
    close(alloc, open.counters, passes).expect(rt, "memory")
}

/// The glob of this text.
fn glob(rt: &impl Abort, alloc: Global, text: &str) -> Globs {
    let text = Text::new(alloc, text).expect(rt, "memory");
    Globs::new(Vec::from_array(alloc, [text]).expect(rt, "memory"))
}

#[test]
fn a_pass_adds_2_to_the_56_and_no_more(rt: HostRuntime) {
    let alloc = rt.alloc();
    let mut open = Counters::new(alloc, 1).expect(&rt, "memory");
    let mut pass = open.passes.pop().expect(&rt, "a pass");
    same(&rt, pass.add(&open.counters, CACHE_HIT, CEILING), Ok(()));
    let refused = Err(AddFault::Ceiling);
    same(&rt, pass.add(&open.counters, CACHE_HIT, 1), refused);
    same(&rt, load(&open.counters, &mut pass, CACHE_HIT), CEILING);
    let passes = Vec::from_array(alloc, [pass]).expect(&rt, "memory");
    let values = close(alloc, open.counters, passes).expect(&rt, "memory");
    same(&rt, values.get(CACHE_HIT), CEILING);
    same(&rt, values.get(CACHE_MISS), 0);
}

#[test]
fn a_pass_is_told_what_another_added(rt: HostRuntime) {
    let alloc = rt.alloc();
    let mut open = Counters::new(alloc, 2).expect(&rt, "memory");
    let mut first = open.passes.pop().expect(&rt, "a pass");
    let mut second = open.passes.pop().expect(&rt, "a pass");
    same(&rt, first.add(&open.counters, CACHE_HIT, 2), Ok(()));
    same(&rt, second.add(&open.counters, CACHE_HIT, 3), Ok(()));
    same(&rt, load(&open.counters, &mut first, CACHE_HIT), 5);
    same(&rt, load(&open.counters, &mut second, CACHE_HIT), 5);
    same(&rt, load(&open.counters, &mut second, CACHE_MISS), 0);
    same(&rt, second.add(&open.counters, CACHE_MISS, CEILING), Ok(()));
    same(&rt, first.add(&open.counters, CACHE_MISS, 7), Ok(()));
    let sum = CEILING + 7;
    same(&rt, load(&open.counters, &mut first, CACHE_MISS), sum);
    let passes = Vec::from_array(alloc, [first, second]).expect(&rt, "memory");
    let values = close(alloc, open.counters, passes).expect(&rt, "memory");
    same(&rt, values.get(CACHE_HIT), 5);
}

/// A request that is made, with segments of so many words.
fn made(rt: &impl Abort, alloc: Global, words: u32) -> Listing {
    let shape = Shape::new(words).expect(rt, "so many words are a segment");
    generate(alloc, 1, 7, 255, shape).expect(rt, "memory")
}

/// So many batches were cut, and the units have these VXIDs and so many words.
fn expect_listing(rt: &impl Abort, listing: &Listing, cuts: u64, units: &[(Vxid, usize)]) {
    let all = listing.units.as_slice();
    same(rt, (listing.cuts, all.len()), (cuts, units.len()));
    for (unit, want) in all.iter().zip(units.iter()) {
        same(rt, (unit.vxid(), unit.words()), *want);
    }
}

#[test]
fn a_request_is_made_of_two_units(rt: HostRuntime) {
    let listing = made(&rt, rt.alloc(), 65536);
    expect_listing(&rt, &listing, 0, &[(2, 88), (1, 35)]);
}

#[test]
fn a_request_is_cut_before_its_second_timestamp(rt: HostRuntime) {
    let listing = made(&rt, rt.alloc(), 64);
    expect_listing(&rt, &listing, 1, &[(2, 63), (2, 26), (1, 35)]);
}

#[test]
fn a_glob_lists_the_misses(rt: HostRuntime) {
    let alloc = rt.alloc();
    let mut out = Vec::new(alloc);
    let globs = glob(&rt, alloc, "MAIN.cache_m*");
    same(&rt, stat_list(&globs, &mut out), Ok(()));
    same(&rt, out.as_slice(), b"MAIN.cache_miss\n".as_slice());
}

/// A line of `varnishstat -1`.
const MISSES: &[u8] = b"MAIN.cache_miss                           1 Cache misses\n";

#[test]
fn a_counter_is_printed_as_a_line(rt: HostRuntime) {
    let alloc = rt.alloc();
    let mut out = Vec::new(alloc);
    let values = three_hits(&rt, alloc);
    let globs = glob(&rt, alloc, "MAIN.cache_miss");
    same(&rt, stat_text(&values, &globs, &mut out), Ok(()));
    same(&rt, out.as_slice(), MISSES);
}

/// What `varnishstat -j` prints.
const HITS: &[u8] =
    b"{\"counters\":{\"MAIN.cache_hit\":{\"description\":\"Cache hits\",\"flag\":\"c\",\"format\":\"i\",\"value\":3}},\"version\":1}\n";

#[test]
fn a_counter_is_printed_as_json(rt: HostRuntime) {
    let alloc = rt.alloc();
    let mut out = Vec::new(alloc);
    let values = three_hits(&rt, alloc);
    let globs = glob(&rt, alloc, "MAIN.cache_hit");
    same(&rt, stat_json(alloc, &values, &globs, &mut out), Ok(()));
    same(&rt, out.as_slice(), HITS);
}
