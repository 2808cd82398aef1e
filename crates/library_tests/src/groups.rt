//! Claims, tables and texts: what no command line reaches.

use crate::support::{Shape, all_shown, member_of, record_of, same, unit_of};
use std::alloc::Global;
use std::process::Abort;
use txn_rows::{Claim, Group, GroupOptions, Grouping, Kind, Members, Reason, Table, read_claim};
use vsl_record::Vxid;
use vsl_select::{Viewer, group_text, raw_line};
use vsl_tags::named::{BEGIN, END};

/// A payload, and the kind, the VXID and the reason that it tells.
const CLAIMS: [(&[u8], Kind, Vxid, Reason); 6] = [
    (b"req 1 rxreq", Kind::Request, 1, Reason::Rxreq),
    (b"bereq 2 fetch", Kind::BeReq, 2, Reason::Other),
    (b"sess 0 HTTP/1", Kind::Session, 0, Reason::Other),
    (b"req 0000000002 esi x", Kind::Request, 2, Reason::Esi),
    (
        b" req\t4611686018427387903",
        Kind::Request,
        4_611_686_018_427_387_903,
        Reason::Other,
    ),
    (b"\treq\t \t7\trxreq\t", Kind::Request, 7, Reason::Rxreq),
];

#[test]
fn a_begin_claims_a_kind_a_vxid_and_a_reason(rt: HostRuntime) {
    for (payload, kind, vxid, reason) in CLAIMS {
        let want = Claim { kind, vxid, reason };
        same(&rt, read_claim(payload), Some(want));
    }
}

/// What stands in a text before another is added.
const BEFORE: &[u8] = b"before\n";

/// Adds the text of groups to another text, and compares it.
fn expect_text(rt: &impl Abort, alloc: Global, groups: &[Group], verbose: bool, want: &[u8]) {
    let selection = all_shown(rt, alloc);
    let mut viewer = Viewer::new(alloc, &selection).expect(rt, "memory");
    let mut text = Vec::from_slice(alloc, BEFORE).expect(rt, "memory");
    for group in groups {
        group_text(group, &mut viewer, verbose, &mut text).expect(rt, "memory");
    }
    same(rt, text.as_slice().strip_prefix(BEFORE), Some(want));
}

/// Gives a table with this grouping a request that begins, and flushes it: what is pending then, and the texts before
/// and after.
fn expect_table(
    rt: &impl Abort,
    alloc: Global,
    grouping: Grouping,
    pending: usize,
    stepped: &[u8],
    want: &[u8],
) {
    let options = GroupOptions {
        grouping,
        limit: 1000,
        timeout: 120,
    };
    let mut table = Table::new(alloc, options).expect(rt, "memory");
    let mut groups = Vec::new(alloc);
    let unit = unit_of(rt, alloc, 9, &[(BEGIN, b"req 1 rxreq")]);
    table.step(&unit, &mut groups).expect(rt, "memory");
    expect_text(rt, alloc, &groups, false, stepped);
    same(rt, (table.rows(), table.unfinished()), (pending, pending));
    table.flush(&mut groups).expect(rt, "memory");
    expect_text(rt, alloc, &groups, false, want);
    same(rt, table.rows(), 0);
}

/// The group of that request, once it is flushed.
const FLUSHED: &[u8] =
    b"*   << Request  >> 9         \n-   Begin          req 1 rxreq\n-   VSL            flush\n-   End            synth\n\n";

#[test]
fn a_table_keeps_what_is_pending(rt: HostRuntime) {
    expect_table(&rt, rt.alloc(), Grouping::Vxid, 1, b"", FLUSHED);
}

#[test]
fn a_table_keeps_no_raw_record(rt: HostRuntime) {
    let line = b"         9 Begin          c req 1 rxreq\n";
    expect_table(&rt, rt.alloc(), Grouping::Raw, 0, line, line);
}

/// Whether records are written as with `-v`, the transactions of a group, and its text.
const GROUPS: [(bool, &[Shape<'_>], &[u8]); 5] = [
    (
        false,
        &[
            (2, Kind::Request, 1, &[(END, b"")]),
            (3, Kind::BeReq, 2, &[(BEGIN, b"bereq 2 fetch")]),
        ],
        b"*   << Request  >> 2         \n-   End            \n**  << BeReq    >> 3         \n--  Begin          bereq 2 fetch\n\n",
    ),
    (
        false,
        &[(7, Kind::Unknown, 3, &[(END, b"")])],
        b"*** << Unknown  >> 7         \n--- End            \n\n",
    ),
    (
        false,
        &[(4294967295, Kind::Session, 12, &[(END, b"")])],
        b"*12* << Session  >> 4294967295\n-12- End            \n\n",
    ),
    (
        true,
        &[(3, Kind::BeReq, 1, &[(BEGIN, b"bereq 2 fetch")])],
        b"*   << BeReq    >> 3         \n-            3 Begin          c bereq 2 fetch\n\n",
    ),
    (false, &[(5, Kind::Session, 1, &[])], b""),
];

/// The group of these transactions.
fn group_of(rt: &impl Abort, alloc: Global, shapes: &[Shape<'_>]) -> Group {
    let mut members = Members::new(alloc);
    for shape in shapes {
        let member = member_of(rt, alloc, shape);
        members.push(member).expect(rt, "memory");
    }
    Group { members }
}

#[test]
fn a_group_has_its_text(rt: HostRuntime) {
    let alloc = rt.alloc();
    for (verbose, shapes, want) in GROUPS {
        let group = group_of(&rt, alloc, shapes);
        let groups = Vec::from_array(alloc, [group]).expect(&rt, "memory");
        expect_text(&rt, alloc, &groups, verbose, want);
    }
}

/// The line of the record below.
const LINE: &[u8] = b"         2 Begin          c req 1 rxreq\n";

#[test]
fn a_raw_line_is_added_and_all_is_shown(rt: HostRuntime) {
    let alloc = rt.alloc();
    let begin = record_of(&rt, alloc, BEGIN, b"req 1 rxreq");
    let mut out = Vec::from_slice(alloc, BEFORE).expect(&rt, "memory");
    same(&rt, raw_line(2, &begin.view(), &mut out), Ok(()));
    same(&rt, out.as_slice().strip_prefix(BEFORE), Some(LINE));
    let selection = all_shown(&rt, alloc);
    let mut viewer = Viewer::new(alloc, &selection).expect(&rt, "memory");
    same(&rt, viewer.shows(&begin.view()), Ok(true));
    let member = member_of(&rt, alloc, &(5, Kind::Session, 1, &[]));
    same(&rt, selection.shows_member(&member), true);
}
