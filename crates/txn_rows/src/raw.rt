//! Records and transactions that are groups by themselves.

ghost use Rattle.std.specs.Prelude.{◌≡◌, [], ◌∷◌, ◌++◌, IfOk, OnOk, OnErr};
ghost use Rattle.txn_rows.specs.Grouping.{raw_group};
ghost use Rattle.txn_rows.specs.Whole.{first_claim, kind_claimed, reason_claimed, whole_group};

use crate::claim::{Claim, read_claim};
use crate::group::{Group, Kind, Member, Members, Reason};
use log_model::NoMemory;
use std::alloc::Global;
use vsl_record::{RecordView, Records, RecordsView, Vxid};

/// A record as a group by itself.
pub fn raw_group(alloc: Global, vxid: Vxid, rec: &RecordView<'_>) -> Result<Group, NoMemory>
    ensures { IfOk result (λ group. group ≡ raw_group vxid rec.now) }
{
    let mut records = Records::new(alloc);
    records.push(rec)?;
    let member = Member {
        vxid,
        kind: Kind::Record,
        reason: Reason::Other,
        level: 0,
        parent: 0,
        records,
    };
    group_alone(alloc, member)
}

/// Adds a record as a group by itself.
pub(crate) fn take_raw(
    alloc: Global,
    vxid: Vxid,
    rec: &RecordView<'_>,
    out: &mut Vec<Group>,
) -> Result<(), NoMemory>
    ensures ok { OnOk result (out.new.items ≡ out.old.items ++ raw_group vxid rec.now ∷ []) }
    ensures err { OnErr result (out.new.items ≡ out.old.items) }
{
    let group = raw_group(alloc, vxid, rec)?;
    out.push(group)?;
    Ok(())
}

/// What the first of records claims.
fn first_claim(records: &RecordsView<'_>) -> Option<Claim>
    ensures { result ≡ first_claim records.now }
{
    if records.is_empty() {
        return None;
    }
    read_claim(records.get(0).payload())
}

/// What a transaction is, by what its Begin claims, and why it began.
fn kind_of(claim: Option<Claim>) -> (Kind, Reason)
    ensures { result ≡ (kind_claimed claim, reason_claimed claim) }
{
    match claim {
        Some(claim) => (claim.kind, claim.reason),
        None => (Kind::Unknown, Reason::Other),
    }
}

/// A transaction of which these are all records as a group by itself.
pub fn whole_group(alloc: Global, vxid: Vxid, records: &RecordsView<'_>) -> Result<Group, NoMemory>
    ensures { IfOk result (λ group. group ≡ whole_group vxid records.now) }
{
    let (kind, reason) = kind_of(first_claim(records));
    let mut own = Records::new(alloc);
    own.append(records)?;
    let member = Member {
        vxid,
        kind,
        reason,
        level: 1,
        parent: 0,
        records: own,
    };
    group_alone(alloc, member)
}

/// A group of one member.
fn group_alone(alloc: Global, member: Member) -> Result<Group, NoMemory>
    ensures { IfOk result (λ group. group ≡ record { members = member ∷ [] }) }
{
    let mut members = Members::new(alloc);
    members.push(member)?;
    Ok(Group { members })
}
