//! Groups over trees: the answers of queries, and the marks of what is still pending.

ghost use Rattle.std.specs.Prelude.{◌≡◌, ◌<◌, length};
ghost use Rattle.vsl_record.specs.Unit.{vxid_end};
ghost use Rattle.txn_groups.specs.Groups.{groups_state};

use crate::support::{same, unit_of};
use query_eval::{Answer, Chosen};
use query_parser::{Query, parse_query};
use std::alloc::Global;
use std::process::Abort;
use txn_groups::Groups;
use txn_rows::{GroupOptions, Grouping};
use vsl_record::{Unit, Vxid};
use vsl_tags::named::BEGIN;
use vsl_tags::tag_called;

/// At most so many are pending, by transaction.
fn options_for(limit: u32) -> GroupOptions {
    GroupOptions {
        grouping: Grouping::Vxid,
        limit,
        timeout: 120,
    }
}

/// The one query that asks whether a response has status 200.
fn queries_of(rt: &impl Abort, alloc: Global) -> Vec<Query>
    ensures { length result.items ≡ 1 }
{
    let query = parse_query(alloc, b"RespStatus == 200", false).expect(rt, "a query");
    Vec::from_array(alloc, [query]).expect(rt, "memory")
}

/// A request that begins and gets a response with this status, and has not ended.
fn answered(rt: &impl Abort, alloc: Global, vxid: Vxid, status: &[u8]) -> Unit
    requires { vxid < vxid_end }
{
    let tag = tag_called(b"RespStatus").expect(rt, "a tag");
    let begin: &[u8] = b"req 1 rxreq";
    unit_of(rt, alloc, vxid, &[(BEGIN, begin), (tag.number(), status)])
}

/// Of each group its first VXID, and whether the first query holds for it.
fn told(rt: &impl Abort, alloc: Global, chosen: &[Chosen]) -> Vec<(Vxid, bool)> {
    let mut told = Vec::new(alloc);
    for one in chosen {
        let first = one.group.members.as_slice().first().expect(rt, "a member");
        let holds = one.holds.as_slice().first().expect(rt, "an answer");
        told.push((first.vxid, *holds)).expect(rt, "memory");
    }
    told
}

/// These groups came, with these answers.
fn expect_told(rt: &impl Abort, alloc: Global, chosen: &[Chosen], want: &[(Vxid, bool)]) {
    same(rt, told(rt, alloc, chosen).as_slice(), want);
}

/// Gives groups the unit of a request that got this status.
fn step(
    rt: &impl Abort,
    alloc: Global,
    groups: &mut Groups<'_>,
    vxid: Vxid,
    status: &[u8],
    out: &mut Vec<Chosen>,
)
    requires { vxid < vxid_end }
    ensures { (groups_state groups.new).queries ≡ (groups_state groups.old).queries }
{
    let unit = answered(rt, alloc, vxid, status);
    groups.step(&unit, out).expect(rt, "memory");
}

#[test]
fn groups_have_the_answers_of_queries(rt: HostRuntime) {
    let alloc = rt.alloc();
    let queries = queries_of(&rt, alloc);
    let mut groups = Groups::new(alloc, options_for(1), &queries).expect(&rt, "memory");
    let mut out = Vec::new(alloc);
    step(&rt, alloc, &mut groups, 2, b"200", &mut out);
    same(&rt, out.len(), 0);
    step(&rt, alloc, &mut groups, 4, b"404", &mut out);
    expect_told(&rt, alloc, &out, &[(2, true)]);
    same(&rt, groups.rows(), 1);
    groups.flush(&mut out).expect(&rt, "memory");
    expect_told(&rt, alloc, &out, &[(2, true), (4, false)]);
    same(&rt, groups.unfinished(), 0);
}

/// Whether the first query holds for the newest pending transaction of a VXID alone, by the marks that are kept of it.
fn is_marked(
    rt: &impl Abort,
    alloc: Global,
    groups: &Groups<'_>,
    queries: &[Query],
    vxid: Vxid,
) -> Option<bool>
    requires { 0 < length (groups_state groups.now).queries }
{
    let query = queries.first()?;
    let marks = groups.marks(vxid, 0)?;
    let mut answer = Answer::new(alloc, query).expect(rt, "memory");
    answer.member(query, 1, marks);
    Some(answer.value(query))
}

#[test]
fn marks_are_kept_while_a_transaction_is_open(rt: HostRuntime) {
    let alloc = rt.alloc();
    let queries = queries_of(&rt, alloc);
    let mut groups = Groups::new(alloc, options_for(10), &queries).expect(&rt, "memory");
    let mut out = Vec::new(alloc);
    step(&rt, alloc, &mut groups, 2, b"200", &mut out);
    same(&rt, is_marked(&rt, alloc, &groups, &queries, 3), None);
    same(&rt, is_marked(&rt, alloc, &groups, &queries, 2), Some(true));
    step(&rt, alloc, &mut groups, 4, b"404", &mut out);
    same(
        &rt,
        is_marked(&rt, alloc, &groups, &queries, 4),
        Some(false),
    );
    same(&rt, out.len(), 0);
}
