//! Consumers: several of one pass, of which one is done before the others.

ghost use Rattle.std.specs.Prelude.{◌≡◌, ◌<◌, length};
ghost use Rattle.vsl_dispatch.specs.Entries.{entries_of};

use crate::support::{all_shown, member_of, same, unit_of};
use query_eval::{Chosen, Truths};
use std::alloc::Global;
use std::process::Abort;
use txn_rows::{Group, Kind, Members};
use vsl_dispatch::{Consumer, Dispatcher, Go, Received};
use vsl_select::Selection;
use vsl_tags::named::{BEGIN, END};
use vsl_top::TopConsumer;

/// A group of one transaction with a Begin of this payload.
fn group_of(rt: &impl Abort, alloc: Global, payload: &[u8]) -> Group {
    let given = [(BEGIN, payload)];
    let shape = (2, Kind::Request, 1, given.as_slice());
    let mut members = Members::new(alloc);
    let member = member_of(rt, alloc, &shape);
    members.push(member).expect(rt, "memory");
    Group { members }
}

/// A consumer that counts all records of so many groups, of which this is shown.
fn top<'s>(
    rt: &impl Abort,
    alloc: Global,
    shown: &'s Selection,
    keep: Option<u32>,
) -> TopConsumer<'s> {
    TopConsumer::new(alloc, shown, false, keep).expect(rt, "memory")
}

/// A group with a Begin of this payload, and whether each of two queries holds for it.
fn chosen(rt: &impl Abort, alloc: Global, payload: &[u8], first: bool, second: bool) -> Chosen
    ensures { length result.holds ≡ 2 }
{
    let group = group_of(rt, alloc, payload);
    let mut holds = Truths::new(alloc);
    holds.push(first).expect(rt, "memory");
    holds.push(second).expect(rt, "memory");
    Chosen { group, holds }
}

/// Gives a group to those of two consumers whose query holds.
fn give(
    rt: &impl Abort,
    alloc: Global,
    dispatch: &mut Dispatcher<TopConsumer<'_>>,
    payload: &[u8],
    first: bool,
    second: bool,
)
    requires two { length (entries_of dispatch.old) ≡ 2 }
    ensures two { length (entries_of dispatch.new) ≡ 2 }
{
    let given = chosen(rt, alloc, payload, first, second);
    dispatch.give(&given).expect(rt, "memory");
}

fn expect_text(
    rt: &impl Abort,
    dispatch: &mut Dispatcher<TopConsumer<'_>>,
    place: usize,
    want: &[u8],
)
    requires two { length (entries_of dispatch.old) ≡ 2 }
    requires place { place < 2 }
    ensures two { length (entries_of dispatch.new) ≡ 2 }
{
    let text = dispatch.text(place);
    same(rt, text.as_slice(), want);
}

/// The reports of the consumers below.
const FIRST: &[u8] = b"         1 Begin          req 1 rxreq\n";

const BOTH: &[u8] =
    b"         1 Begin          req 1 rxreq\n         1 Begin          req 3 rxreq\n";

#[test]
fn one_that_is_done_leaves_the_other_going(rt: HostRuntime) {
    let alloc = rt.alloc();
    let shown = all_shown(&rt, alloc);
    let one = top(&rt, alloc, &shown, Some(1));
    let all = top(&rt, alloc, &shown, None);
    let both = Vec::from_array(alloc, [one, all]).expect(&rt, "memory");
    let mut dispatch = Dispatcher::new(alloc, both).expect(&rt, "memory");
    same(&rt, dispatch.live(), 2);
    give(&rt, alloc, &mut dispatch, b"req 1 rxreq", true, true);
    same(&rt, dispatch.live(), 1);
    give(&rt, alloc, &mut dispatch, b"req 3 rxreq", true, true);
    same(&rt, dispatch.live(), 1);
    expect_text(&rt, &mut dispatch, 0, FIRST);
    expect_text(&rt, &mut dispatch, 0, b"");
    expect_text(&rt, &mut dispatch, 1, b"");
    dispatch.finish().expect(&rt, "memory");
    same(&rt, dispatch.live(), 0);
    expect_text(&rt, &mut dispatch, 1, BOTH);
    expect_text(&rt, &mut dispatch, 1, b"");
}

#[test]
fn one_that_is_stopped_takes_no_more_and_is_not_ended(rt: HostRuntime) {
    let alloc = rt.alloc();
    let shown = all_shown(&rt, alloc);
    let stopped = top(&rt, alloc, &shown, None);
    let all = top(&rt, alloc, &shown, None);
    let both = Vec::from_array(alloc, [stopped, all]).expect(&rt, "memory");
    let mut dispatch = Dispatcher::new(alloc, both).expect(&rt, "memory");
    give(&rt, alloc, &mut dispatch, b"req 1 rxreq", true, true);
    dispatch.stop(0);
    same(&rt, dispatch.live(), 1);
    give(&rt, alloc, &mut dispatch, b"req 3 rxreq", true, true);
    dispatch.finish().expect(&rt, "memory");
    same(&rt, dispatch.live(), 0);
    expect_text(&rt, &mut dispatch, 0, b"");
    expect_text(&rt, &mut dispatch, 1, BOTH);
}

#[test]
fn each_receives_what_its_query_holds_for(rt: HostRuntime) {
    let alloc = rt.alloc();
    let shown = all_shown(&rt, alloc);
    let first = top(&rt, alloc, &shown, None);
    let second = top(&rt, alloc, &shown, Some(2));
    let both = Vec::from_array(alloc, [first, second]).expect(&rt, "memory");
    let mut dispatch = Dispatcher::new(alloc, both).expect(&rt, "memory");
    give(&rt, alloc, &mut dispatch, b"a", true, false);
    give(&rt, alloc, &mut dispatch, b"b", false, true);
    give(&rt, alloc, &mut dispatch, b"b", true, true);
    same(&rt, dispatch.live(), 1);
    expect_text(&rt, &mut dispatch, 1, b"         2 Begin          b\n");
    dispatch.finish().expect(&rt, "memory");
    let both = b"         1 Begin          a\n         1 Begin          b\n";
    expect_text(&rt, &mut dispatch, 0, both);
}

/// Whether a consumer of so many groups takes the records of a unit at once, what it says of a group, and its report.
fn expect_taken(
    rt: &impl Abort,
    alloc: Global,
    keep: Option<u32>,
    at_once: bool,
    went: Go,
    report: &[u8],
) {
    let unit = unit_of(rt, alloc, 0, &[(END, b"")]);
    let shown = all_shown(rt, alloc);
    let mut consumer = top(rt, alloc, &shown, keep);
    same(rt, consumer.records(&unit), Ok(at_once));
    same(rt, consumer.group(&group_of(rt, alloc, b"a")), Ok(went));
    let mut text = Vec::new(alloc);
    consumer.report(&mut text).expect(rt, "memory");
    same(rt, text.as_slice(), report);
}

#[test]
fn records_of_a_unit_are_taken_at_once_by_one_that_keeps_all(rt: HostRuntime) {
    let alloc = rt.alloc();
    let all = b"         1 Begin          a\n         1 End            \n";
    expect_taken(&rt, alloc, None, true, Go::More, all);
    let one = b"         1 Begin          a\n";
    expect_taken(&rt, alloc, Some(1), false, Go::Done, one);
}

#[test]
fn groups_are_counted_where_a_limit_is_given(rt: HostRuntime) {
    let (mut all, mut two) = (Received::new(None), Received::new(Some(2)));
    same(&rt, (all.count, two.count), (0, 0));
    let more = (Ok(Go::More), Ok(Go::More));
    same(&rt, (all.add_one(), two.add_one()), more);
    let done = (Ok(Go::More), Ok(Go::Done));
    same(&rt, (all.add_one(), two.add_one()), done);
    same(&rt, (all.count, two.count), (0, 2));
}
