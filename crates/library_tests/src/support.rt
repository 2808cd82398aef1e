//! What is compared, records and units of a client, and what shows all.
//!
//! Want of memory ends a test: what takes memory takes the handle too, and answers the value itself.

ghost use Rattle.std.specs.Prelude.{◌≡◌, ◌<◌};
ghost use Rattle.std.specs.List.{All};
ghost use Rattle.vsl_record.specs.Unit.{vxid_end};

use std::alloc::Global;
use std::fmt::Debug;
use std::process::Abort;
use txn_rows::{Kind, Member, Reason};
use vsl_record::{Mark, Record, Records, Unit, UnitFault, Vxid};
use vsl_select::{Selection, Sides};
use vsl_tags::Tag;

/// The two are the same. Each comparison of a test is this call, because each `assert_eq!` is a proof of its own.
pub fn same<T: PartialEq + Debug + Drop>(rt: &impl Abort, left: T, right: T) {
    assert_eq!(rt; left, right);
}

/// The number of a tag, and a payload.
pub type Rec<'a> = (u8, &'a [u8]);

/// A transaction of a group: its VXID, kind, level and records.
pub type Shape<'a> = (Vxid, Kind, u32, &'a [Rec<'a>]);

/// A client's record.
pub fn record_of(rt: &impl Abort, alloc: Global, tag: u8, payload: &[u8]) -> Record
    ensures { result.mark ≡ Mark.Client }
{
    let tag = Tag::from_number(tag).expect(rt, "a tag");
    Record::new(alloc, tag, Mark::Client, payload).expect(rt, "a record")
}

/// A client's records.
fn records_of(rt: &impl Abort, alloc: Global, given: &[Rec<'_>]) -> Vec<Record>
    ensures { All (λ r. r.mark ≡ Mark.Client) result.items }
{
    let mut records = Vec::new(alloc);
    for one in given {
        let (tag, payload) = *one;
        let rec = record_of(rt, alloc, tag, payload);
        records.push(rec).expect(rt, "memory");
    }
    records
}

/// What a client's records are as a unit.
pub fn made_unit(
    rt: &impl Abort,
    alloc: Global,
    vxid: Vxid,
    given: &[Rec<'_>],
) -> Result<Unit, UnitFault>
    requires { vxid < vxid_end }
{
    Unit::new(vxid, Mark::Client, records_of(rt, alloc, given))
}

/// The unit of a client's records.
pub fn unit_of(rt: &impl Abort, alloc: Global, vxid: Vxid, given: &[Rec<'_>]) -> Unit
    requires { vxid < vxid_end }
{
    made_unit(rt, alloc, vxid, given).expect(rt, "a unit")
}

/// A transaction of a group, of a client's records.
pub fn member_of(rt: &impl Abort, alloc: Global, shape: &Shape<'_>) -> Member {
    let (vxid, kind, level, given) = *shape;
    let mut records = Records::new(alloc);
    for (tag, payload) in given {
        let one = record_of(rt, alloc, *tag, *payload);
        records.push(&one.view()).expect(rt, "memory");
    }
    Member {
        vxid,
        kind,
        reason: Reason::Other,
        level,
        parent: 0,
        records,
    }
}

/// No side.
pub fn no_sides() -> Sides {
    Sides {
        backend: false,
        client: false,
        esi: false,
    }
}

/// A selection that shows all.
pub fn all_shown(rt: &impl Abort, alloc: Global) -> Selection {
    Selection::new(alloc, no_sides(), Vec::new(alloc), false).expect(rt, "a selection")
}
