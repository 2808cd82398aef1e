//! Tables: what is force-completed, by the limit and on demand.

use crate::support::{same, unit_of};
use std::alloc::Global;
use std::process::Abort;
use txn_rows::{Cause, Group, GroupOptions, Grouping, Table};
use vsl_record::{Unit, Vxid};
use vsl_tags::named::{BEGIN, END};

/// A unit in which the transaction 2 begins.
fn begun(rt: &impl Abort, alloc: Global) -> Unit {
    unit_of(rt, alloc, 2, &[(BEGIN, b"req 1 rxreq")])
}

/// The VXID of the first member of each group, and how many records it has.
fn firsts(rt: &impl Abort, alloc: Global, groups: &[Group]) -> Vec<(Vxid, usize)> {
    let mut firsts = Vec::new(alloc);
    for group in groups {
        let first = group.members.as_slice().first().expect(rt, "a member");
        let size = first.records.view().len();
        firsts.push((first.vxid, size)).expect(rt, "memory");
    }
    firsts
}

/// The groups begin with these members.
fn expect_firsts(rt: &impl Abort, alloc: Global, groups: &[Group], want: &[(Vxid, usize)]) {
    same(rt, firsts(rt, alloc, groups).as_slice(), want);
}

/// A table by transaction that holds at most one.
fn small_table(rt: &impl Abort, alloc: Global) -> Table {
    let options = GroupOptions {
        grouping: Grouping::Vxid,
        limit: 1,
        timeout: 120,
    };
    Table::new(alloc, options).expect(rt, "memory")
}

/// Gives a table a unit.
fn step(rt: &impl Abort, table: &mut Table, unit: &Unit, groups: &mut Vec<Group>) {
    table.step(unit, groups).expect(rt, "memory");
}

/// Ends the oldest open transaction of a table, if it has one.
fn force(rt: &impl Abort, table: &mut Table, groups: &mut Vec<Group>) {
    table.force(Cause::Timeout, groups).expect(rt, "memory");
}

#[test]
fn a_table_over_its_limit_ends_the_oldest(rt: HostRuntime) {
    let alloc = rt.alloc();
    let mut table = small_table(&rt, alloc);
    let mut groups = Vec::new(alloc);
    step(&rt, &mut table, &begun(&rt, alloc), &mut groups);
    same(&rt, groups.len(), 0);
    let unit = unit_of(&rt, alloc, 4, &[(BEGIN, b"req 1 rxreq"), (END, b"")]);
    step(&rt, &mut table, &unit, &mut groups);
    expect_firsts(&rt, alloc, &groups, &[(2, 3), (4, 2)]);
}

#[test]
fn a_table_ends_what_is_open_on_demand(rt: HostRuntime) {
    let alloc = rt.alloc();
    let mut table = small_table(&rt, alloc);
    let mut groups = Vec::new(alloc);
    table.flush(&mut groups).expect(&rt, "memory");
    force(&rt, &mut table, &mut groups);
    same(&rt, groups.len(), 0);
    step(&rt, &mut table, &begun(&rt, alloc), &mut groups);
    same(&rt, table.unfinished(), 1);
    force(&rt, &mut table, &mut groups);
    expect_firsts(&rt, alloc, &groups, &[(2, 3)]);
    same(&rt, table.rows(), 0);
}
