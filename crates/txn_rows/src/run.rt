//! Runs of records that disturb nothing: they are taken at once.

ghost use Rattle.std.specs.Prelude.{◌≡◌, ◌<◌, ◌≤◌, ℕ, true, false, length, take, slice_index_or, IfSome, OnOk};
ghost use Rattle.std.specs.List.{list_all};
ghost use Rattle.vsl_record.specs.declared.record_type.Record.{Record};
ghost use Rattle.txn_rows.specs.Transaction.{is_open};
ghost use Rattle.txn_rows.specs.Grouping.{is_raw};
ghost use Rattle.txn_rows.specs.Store.{Went, IsOrdered};
ghost use Rattle.txn_rows.specs.inside.Told.{is_plain, is_plain_record};
ghost use Rattle.txn_rows.specs.inside.Quiet.{joins_run, is_by, IsQuiet, AreQuiet, IsRun, after_run};

use crate::group::{GroupOptions, Grouping};
use crate::pending::raised;
use crate::store::Store;
use crate::time::time_told;
use log_model::NoMemory;
use vsl_record::{RecordsView, Vxid};
use vsl_tags::Tag;

/// Whether a record of this tag tells nothing but itself: it is no Begin, Link, Timestamp or End.
fn is_plain(tag: Tag) -> bool
    ensures { result ≡ is_plain tag }
{
    tag != Tag::BEGIN && tag != Tag::LINK && tag != Tag::TIMESTAMP && tag != Tag::END
}

/// How many records, from the first on, tell nothing but themselves.
fn plain_run(records: &RecordsView<'_>) -> usize
    ensures inside { result ≤ length records.now }
    ensures plain { list_all is_plain_record (take result records.now) ≡ true }
{
    for i in 0..records.len() {
        if !is_plain(records.tag(i)) {
            return i;
        }
    }
    records.len()
}

/// Whether a record of this tag neither begins nor ends a transaction, and links no two.
fn joins_run(grouping: Grouping, tag: Tag) -> bool
    ensures { result ≡ joins_run grouping tag }
{
    tag != Tag::BEGIN && tag != Tag::END && (tag != Tag::LINK || grouping == Grouping::Vxid)
}

/// Whether there is a record at this place that may join a run.
fn goes_on(grouping: Grouping, records: &RecordsView<'_>, at: usize) -> bool {
    at < records.len() && joins_run(grouping, records.tag(at))
}

/// Whether a time that was told, if one was, is no later than a log time that is known.
fn is_by(last: Option<u128>, told: Option<u128>) -> bool
    ensures { result ≡ is_by last told }
{
    match (last, told) {
        (None, _) => false,
        (Some(_), None) => true,
        (Some(last), Some(time)) => time <= last,
    }
}

/// The log time behind a record that disturbs nothing, where none is late up to a log time. It is told that before.
#[inline(always)]
pub(crate) fn time_behind(
    grouping: Grouping,
    records: &RecordsView<'_>,
    at: usize,
    last: Option<u128>,
    time: Option<u128>,
) -> Option<Option<u128>>
    requires { at < length records.now }
    ensures { (rec : Record) → IfSome result (λ now.
        IsQuiet grouping last time now (slice_index_or records.now at rec)) }
{
    let tag = records.tag(at);
    if tag != Tag::TIMESTAMP {
        return if joins_run(grouping, tag) {
            Some(time)
        } else {
            None
        };
    }
    let told = time_told(records.get(at).payload());
    if !is_by(last, told) {
        return None;
    }
    Some(raised(told, time))
}

/// How many records, from the first on, disturb nothing, where none is late up to a log time, and the log time behind
/// them. It is told so many of them that tell nothing but themselves, and the log time before.
fn quiet_run(
    grouping: Grouping,
    records: &RecordsView<'_>,
    plain: usize,
    last: Option<u128>,
    before: Option<u128>,
) -> (usize, Option<u128>)
    requires inside { plain ≤ length records.now }
    requires quiet { AreQuiet grouping last before before (take plain records.now) }
    ensures inside { result.0 ≤ length records.now }
    ensures quiet { AreQuiet grouping last before result.1 (take result.0 records.now) }
{
    let mut time = before;
    for i in plain..records.len() {
        let Some(now) = time_behind(grouping, records, i, last, time) else {
            return (i, time);
        };
        time = now;
    }
    (records.len(), time)
}

/// How many records, from the first on, disturb nothing, and the log time behind them. In raw grouping each is a group.
/// Whether a transaction is late is asked only where a record may tell the time.
pub(crate) fn run_of<S: Store>(
    options: GroupOptions,
    store: &mut S,
    records: &RecordsView<'_>,
) -> (usize, Option<u128>)
    ensures inside { result.0 ≤ length records.now }
    ensures grouped { 0 < result.0 → is_raw options.grouping ≡ false }
    ensures quiet { (key : S.Key) → IsOrdered (S.holds key) S.state store.old →
        IsRun options (S.state store.old) result.1 (take result.0 records.now) }
    ensures went { (key : S.Key) → S.holds key store.old →
        Went (S.holds key) S.state (S.state store.old) store.new }
    ensures newest { (v at : ℕ) → S.newest_at store.old v at → S.newest_at store.new v at }
{
    let before = store.time();
    if options.grouping == Grouping::Raw {
        return (0, before);
    }
    let plain = plain_run(records);
    if !goes_on(options.grouping, records, plain) {
        return (plain, before);
    }
    let last = store.last_in_time(options.timeout);
    quiet_run(options.grouping, records, plain, last, before)
}

/// The place of the newest transaction of a VXID. It is searched where it isn't known.
fn place_of<S: Store>(store: &S, vxid: Vxid, known: Option<usize>) -> Option<usize>
    requires { IfSome known (λ at. S.newest_at store.now vxid at) }
    ensures { IfSome result (λ at. S.newest_at store.now vxid at) }
{
    match known {
        Some(at) => Some(at),
        None => store.newest(vxid),
    }
}

/// The place of the newest transaction of a VXID, where it has not ended and no more than the limit are pending.
pub(crate) fn open_place<S: Store>(
    store: &S,
    limit: u32,
    vxid: Vxid,
    known: Option<usize>,
) -> Option<usize>
    requires { IfSome known (λ at. S.newest_at store.now vxid at) }
    ensures newest { IfSome result (λ at. S.newest_at store.now vxid at) }
    ensures open { (key : S.Key) → S.holds key store.now →
        IfSome result (λ _. is_open vxid (S.state store.now).pending ≡ true) }
    ensures few { (key : S.Key) → S.holds key store.now →
        IfSome result (λ _. length (S.state store.now).pending ≤ limit) }
{
    if store.rows() > limit as usize {
        return None;
    }
    let at = place_of(store, vxid, known)?;
    if !store.is_open(at, vxid) {
        return None;
    }
    Some(at)
}

/// Adds a run to the newest transaction of its VXID. It is told the log time behind the run.
pub(crate) fn take_run<S: Store>(
    store: &mut S,
    at: usize,
    vxid: Vxid,
    run: &RecordsView<'_>,
    time: Option<u128>,
) -> Result<(), NoMemory>
    requires { S.newest_at store.old vxid at }
    ensures went { (key : S.Key) (options : GroupOptions) →
        IsOrdered (S.holds key) S.state store.old →
        IsRun options (S.state store.old) time run.now →
        OnOk result (Went (S.holds key) S.state
        (after_run vxid run.now (S.state store.old)) store.new) }
    ensures newest { OnOk result (S.newest_at store.new vxid at) }
{
    store.add_run(at, vxid, run)?;
    store.raise(time);
    Ok(())
}
