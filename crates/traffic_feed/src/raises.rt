//! By how much a record raises a counter.

ghost use Rattle.std.specs.Prelude.{◌≡◌, ◌^◌, ◌<◌, ◌==◌, codes, slice_get};
ghost use Rattle.std.specs.Option.{option_copied};
ghost use Rattle.counter_segments.specs.Sums.{counter_count};
ghost use Rattle.traffic_feed.specs.Counted.{EachTag, EachRequest, EachFetch, EachCall, EachField, causes, field_value, is_fetch, is_request, raise};
ghost use Rattle.traffic_feed.specs.inside.Raises.{raise_at};

use txn_rows::{Claim, Kind, Reason, read_claim};
use vsl_decimal::{field, whole_number};
use vsl_record::RecordView;
use vsl_tags::Tag;
use vsl_tags::named::{
    BACKEND_OPEN, FETCH_ERROR, HIT, HIT_MISS, HIT_PASS, REQ_ACCT, SESS_OPEN, VCL_CALL,
};

/// By how much a record raises a counter, as the table of varnish-counters(7), `MAIN.`, goes by number here. Units, cuts, waits and
/// wraps raise the last four, and records don't.
pub(crate) fn raised(which: u32, rec: &RecordView<'_>) -> u64
    requires { which < counter_count }
    ensures raised { result ≡ raise_at (slice_get causes which) rec.now }
    ensures small { result < 2 ^ 32 }
{
    match which {
        0 => tagged(SESS_OPEN, rec),
        1 => request_begun(rec),
        2 => tagged(HIT, rec),
        3 => tagged(HIT_PASS, rec),
        4 => tagged(HIT_MISS, rec),
        5 => called(b"MISS", rec),
        6 => tagged(BACKEND_OPEN, rec),
        7 => fetch_begun(rec),
        8 => tagged(FETCH_ERROR, rec),
        9 => called(b"PIPE", rec),
        10 => called(b"PASS", rec),
        11 => called(b"SYNTH", rec),
        12 => accounted(1, rec),
        13 => accounted(2, rec),
        14 => accounted(4, rec),
        15 => accounted(5, rec),
        16 => 1,
        _ => 0,
    }
}

/// Whether a record is of the tag with this number.
fn has_tag(tag: u8, rec: &RecordView<'_>) -> bool
    ensures { result ≡ (rec.now.tag == tag) }
{
    rec.tag().number() == tag
}

/// One for a record of the tag with this number.
fn tagged(tag: u8, rec: &RecordView<'_>) -> u64
    ensures raised { result ≡ raise (EachTag tag) rec.now }
    ensures small { result < 2 ^ 32 }
{
    if has_tag(tag, rec) { 1 } else { 0 }
}

/// Whether a Begin is that of a client's request.
fn is_request(claim: Option<Claim>) -> bool
    ensures { result ≡ is_request claim }
{
    match claim {
        Some(claim) => {
            matches!(claim.kind, Kind::Request) && matches!(claim.reason, Reason::Rxreq)
        }
        None => false,
    }
}

/// Whether a Begin is that of a request to a backend.
fn is_fetch(claim: Option<Claim>) -> bool
    ensures { result ≡ is_fetch claim }
{
    match claim {
        Some(claim) => matches!(claim.kind, Kind::BeReq),
        None => false,
    }
}

/// One for the Begin of a client's request.
fn request_begun(rec: &RecordView<'_>) -> u64
    ensures raised { result ≡ raise EachRequest rec.now }
    ensures small { result < 2 ^ 32 }
{
    if rec.tag() == Tag::BEGIN && is_request(read_claim(rec.payload())) {
        1
    } else {
        0
    }
}

/// One for the Begin of a request to a backend.
fn fetch_begun(rec: &RecordView<'_>) -> u64
    ensures raised { result ≡ raise EachFetch rec.now }
    ensures small { result < 2 ^ 32 }
{
    if rec.tag() == Tag::BEGIN && is_fetch(read_claim(rec.payload())) {
        1
    } else {
        0
    }
}

/// One for a VCL_call of a name, without regard to case.
fn called(name: &[u8], rec: &RecordView<'_>) -> u64
    ensures raised { result ≡ raise (EachCall name.now) rec.now }
    ensures small { result < 2 ^ 32 }
{
    if has_tag(VCL_CALL, rec) && rec.payload().eq_ignore_ascii_case(name) {
        1
    } else {
        0
    }
}

/// The value of a field of a ReqAcct.
fn accounted(n: u32, rec: &RecordView<'_>) -> u64
    ensures raised { result ≡ raise (EachField n) rec.now }
    ensures small { result < 2 ^ 32 }
{
    if has_tag(REQ_ACCT, rec) {
        value_of(field(rec.payload(), n))
    } else {
        0
    }
}

/// The value of a field, where there is one.
fn value_of(text: Option<&[u8]>) -> u64
    ensures value { result ≡ field_value (option_copied text.entry) }
    ensures small { result < 2 ^ 32 }
{
    match text {
        Some(text) => read_value(text),
        None => 0,
    }
}

/// The value of a field, or 0 where it doesn't count.
fn read_value(text: &[u8]) -> u64
    ensures value { result ≡ field_value (Some text.now) }
    ensures small { result < 2 ^ 32 }
{
    if text.len() > 10 {
        return 0;
    }
    u64::from(whole_number(text, 0, u32::MAX).unwrap_or(0))
}
