//! Taking one record of a transaction.

ghost use Rattle.std.specs.Prelude.{◌≡◌, ◌<◌, ◌≤◌, if◌then◌else◌, length, take, IfOk, IfSome, OnOk, OnErr};
ghost use Rattle.vsl_record.specs.declared.record_type.Record.{Record};
ghost use Rattle.txn_rows.specs.Grouping.{gives_parent, with_parent_named, with_child_named, with_log_time, with_claim, with_all_told, after_end, after_timeouts, has_risen, grouped, step, steps};
ghost use Rattle.txn_rows.specs.Store.{Went, WentBy, AddsPart, IsOrdered};
ghost use Rattle.txn_rows.specs.Claim.{own_claim};
ghost use Rattle.txn_rows.specs.inside.Told.{Tells};

use crate::claim::{Claim, read_claim};
use crate::forcing::{force_all, keep_within};
use crate::group::{Cause, GroupOptions, Grouping, Kind, Reason};
use crate::run::{open_place, run_of, take_run};
use crate::store::Store;
use crate::time::time_told;
use crate::which::Which;
use log_model::NoMemory;
use vsl_record::{RecordView, RecordsView, Vxid};
use vsl_tags::Tag;

/// What a record tells of its transaction's links, or of the time.
#[derive(Clone, Copy)]
pub(crate) enum Told {
    /// A Begin, and what it claims.
    Begin(Option<Claim>),
    /// A Link, and what it claims.
    Link(Option<Claim>),
    /// A Timestamp, and its time.
    Time(Option<u128>),
    /// No record of these.
    Nothing,
}

/// What a record tells.
fn read_told(rec: &RecordView<'_>) -> Told
    ensures { Tells rec.now result }
{
    let payload = rec.payload();
    if rec.tag() == Tag::BEGIN {
        Told::Begin(read_claim(payload))
    } else if rec.tag() == Tag::LINK {
        Told::Link(read_claim(payload))
    } else if rec.tag() == Tag::TIMESTAMP {
        Told::Time(time_told(payload))
    } else {
        Told::Nothing
    }
}

/// What a record claims of its own transaction: what a Begin does.
fn own_claim(told: Told) -> Option<Claim>
    ensures { (rec : Record) → Tells rec told → result ≡ own_claim rec }
{
    match told {
        Told::Begin(claim) => claim,
        _ => None,
    }
}

/// Whether a claim gives a parent.
fn gives_parent(grouping: Grouping, claim: Claim) -> bool
    ensures { result ≡ gives_parent grouping claim }
{
    if claim.vxid == 0 || claim.kind == Kind::Session {
        return false;
    }
    match grouping {
        Grouping::Raw | Grouping::Vxid => false,
        Grouping::Request => !(claim.kind == Kind::Request && claim.reason == Reason::Rxreq),
        Grouping::Session => true,
    }
}

/// The claim of a Begin or a Link may link two transactions: a Begin names the parent of its transaction, a Link a
/// child. The newest transaction of the VXID is at `at`.
fn take_claim<S: Store>(
    grouping: Grouping,
    store: &mut S,
    at: usize,
    vxid: Vxid,
    begins: bool,
    claim: Option<Claim>,
) -> Result<(), NoMemory>
    requires { S.newest_at store.old vxid at }
    ensures { (key : S.Key) → S.holds key store.old →
        OnOk result (Went (S.holds key) S.state
        (if begins then with_parent_named grouping vxid claim (S.state store.old)
        else with_child_named grouping vxid claim (S.state store.old)) store.new) }
{
    let Some(claim) = claim else {
        return Ok(());
    };
    if !gives_parent(grouping, claim) {
        return Ok(());
    }
    let other = store.other_row(claim.vxid)?;
    if begins {
        return store.link(at, vxid, other, claim.vxid);
    }
    store.link(other, claim.vxid, at, vxid)
}

/// What a record told may link its transaction, the newest transaction of which is at this place, or raise the log time.
fn follow<S: Store>(
    grouping: Grouping,
    store: &mut S,
    at: usize,
    vxid: Vxid,
    told: Told,
) -> Result<(), NoMemory>
    requires { S.newest_at store.old vxid at }
    ensures { (rec : Record) → Tells rec told → (key : S.Key) →
        IsOrdered (S.holds key) S.state store.old →
        OnOk result (Went (S.holds key) S.state
        (with_log_time rec (with_claim grouping vxid rec (S.state store.old))) store.new) }
{
    match told {
        Told::Begin(claim) => take_claim(grouping, store, at, vxid, true, claim),
        Told::Link(claim) => take_claim(grouping, store, at, vxid, false, claim),
        Told::Time(time) => {
            store.raise(time);
            Ok(())
        }
        Told::Nothing => Ok(()),
    }
}

/// A record goes to its transaction, and may tell the kind, a link and the time.
fn tell<S: Store>(
    grouping: Grouping,
    store: &mut S,
    vxid: Vxid,
    rec: &RecordView<'_>,
    at_hand: &RecordsView<'_>,
) -> Result<(), NoMemory>
    ensures { (key : S.Key) → IsOrdered (S.holds key) S.state store.old →
        OnOk result (Went (S.holds key) S.state
        (with_all_told grouping vxid rec.now (S.state store.old)) store.new) }
{
    let told = read_told(rec);
    let at = store.open_row(vxid)?;
    store.add_to(at, vxid, rec, own_claim(told), at_hand)?;
    follow(grouping, store, at, vxid, told)
}

/// An End ends its transaction.
fn take_end<S: Store>(
    grouping: Grouping,
    store: &mut S,
    vxid: Vxid,
    tag: Tag,
    out: &mut Vec<S::Left>,
) -> Result<(), NoMemory>
    ensures ok { (rec : Record) → rec.tag ≡ tag → (key : S.Key) → S.holds key store.old →
        OnOk result (WentBy (S.holds key) S.state (S.hand key) grouping
        (after_end vxid rec (S.state store.old)) store.new out.old.items out.new.items) }
    ensures err { OnErr result (out.new.items ≡ out.old.items) }
{
    if tag != Tag::END {
        return Ok(());
    }
    match store.newest(vxid) {
        Some(at) => store.end_row(grouping, at, vxid, out),
        None => Ok(()),
    }
}

/// Whether a log time was raised.
fn has_risen(old: Option<u128>, now: Option<u128>) -> bool
    ensures { result ≡ has_risen old now }
{
    match (old, now) {
        (Some(old), Some(now)) => old < now,
        (None, Some(_)) => true,
        _ => false,
    }
}

/// After a rise of the log time, force-completes the transactions that are late.
fn take_timeouts<S: Store>(
    options: GroupOptions,
    store: &mut S,
    before: Option<u128>,
    out: &mut Vec<S::Left>,
) -> Result<(), NoMemory>
    ensures ok { (key : S.Key) → IsOrdered (S.holds key) S.state store.old →
        OnOk result (WentBy (S.holds key) S.state (S.hand key) options.grouping
        (after_timeouts options.timeout before
        (S.state store.old)) store.new out.old.items out.new.items) }
    ensures err { (key : S.Key) → IsOrdered (S.holds key) S.state store.old →
        OnErr result (AddsPart (S.hand key) options.grouping
        (after_timeouts options.timeout before (S.state store.old)) out.old.items out.new.items) }
{
    let now = store.time();
    if !has_risen(before, now) {
        return Ok(());
    }
    let late = Which::Late {
        seconds: options.timeout,
        now,
    };
    force_all(store, options.grouping, late, Cause::Timeout, out)
}

/// Takes a record that may tell more than itself, and adds the groups that it completes.
fn take_telling<S: Store>(
    options: GroupOptions,
    store: &mut S,
    vxid: Vxid,
    rec: &RecordView<'_>,
    at_hand: &RecordsView<'_>,
    out: &mut Vec<S::Left>,
) -> Result<(), NoMemory>
    ensures ok { (key : S.Key) → IsOrdered (S.holds key) S.state store.old →
        OnOk result (WentBy (S.holds key) S.state (S.hand key) options.grouping
        (grouped options vxid rec.now (S.state store.old)) store.new out.old.items out.new.items) }
    ensures err { (key : S.Key) → IsOrdered (S.holds key) S.state store.old →
        OnErr result (AddsPart (S.hand key) options.grouping
        (grouped options vxid rec.now (S.state store.old)) out.old.items out.new.items) }
{
    let before = store.time();
    let tag = rec.tag();
    tell(options.grouping, store, vxid, rec, at_hand)?;
    take_end(options.grouping, store, vxid, tag, out)?;
    take_timeouts(options, store, before, out)?;
    keep_within(store, options.grouping, options.limit, out)
}

/// Takes one record, and adds the groups that it completes.
fn take_one<S: Store>(
    options: GroupOptions,
    store: &mut S,
    vxid: Vxid,
    rec: &RecordView<'_>,
    at_hand: &RecordsView<'_>,
    out: &mut Vec<S::Left>,
) -> Result<(), NoMemory>
    ensures ok { (key : S.Key) → IsOrdered (S.holds key) S.state store.old →
        OnOk result (WentBy (S.holds key) S.state (S.hand key) options.grouping
        (step options vxid rec.now (S.state store.old)) store.new out.old.items out.new.items) }
    ensures err { (key : S.Key) → IsOrdered (S.holds key) S.state store.old →
        OnErr result (AddsPart (S.hand key) options.grouping
        (step options vxid rec.now (S.state store.old)) out.old.items out.new.items) }
{
    if options.grouping == Grouping::Raw {
        return store.hand_alone(vxid, rec, out);
    }
    take_telling(options, store, vxid, rec, at_hand, out)
}

/// Takes some records of one VXID, from the first on, and adds the groups that they complete: where it is open,
/// all that disturb nothing at once, and else one. It answers how many. It is told and tells the place of
/// the newest transaction of the VXID, where that is known: most records go where the one before went. Room for all of them
/// is made where they begin a unit, and so never for more than the units have.
pub(crate) fn take_some<S: Store>(
    options: GroupOptions,
    store: &mut S,
    vxid: Vxid,
    known: Option<usize>,
    begin: bool,
    records: &RecordsView<'_>,
    out: &mut Vec<S::Left>,
) -> Result<(usize, Option<usize>), NoMemory>
    requires known { IfSome known (λ at. S.newest_at store.old vxid at) }
    requires some { 0 < length records.now }
    ensures ok { (key : S.Key) → IsOrdered (S.holds key) S.state store.old →
        IfOk result (λ x. WentBy (S.holds key) S.state (S.hand key) options.grouping
        (steps options vxid (take x.0 records.now)
        (S.state store.old)) store.new out.old.items out.new.items) }
    ensures count { IfOk result (λ x. (0 < x.0) × (x.0 ≤ length records.now)) }
    ensures known { IfOk result (λ x. IfSome x.1 (λ at. S.newest_at store.new vxid at)) }
    ensures err { (key : S.Key) → IsOrdered (S.holds key) S.state store.old →
        OnErr result (AddsPart (S.hand key) options.grouping
        (steps options vxid records.now (S.state store.old)) out.old.items out.new.items) }
{
    let (count, time) = run_of(options, store, records);
    if count > 0 {
        if let Some(at) = open_place(store, options.limit, vxid, known) {
            let (run, _) = records.split_at(count);
            take_run(store, at, vxid, &run, time)?;
            return Ok((count, Some(at)));
        }
    }
    let (at_hand, _) = records.split_at(if begin { records.len() } else { 0 });
    take_one(options, store, vxid, &records.get(0), &at_hand, out)?;
    Ok((1, None))
}
