//! The values of formatters.
#![tactic(auto, using(log_model::proofs::PrefixLemmas::adding, crate::proofs::TextLemmas::puts_quoted))]

ghost use Rattle.std.specs.Prelude.{◌≡◌, [], ◌≤◌, ◌*◌, take, drop, option_map, option_and_then, unwrap_or, codes, IfOk, IfSome};
ghost use Rattle.std.specs.Fmt.{signed_decimal};
ghost use Rattle.std.specs.Option.{option_copied};
ghost use Rattle.log_model.specs.Adding.{Puts};
ghost use Rattle.vsl_decimal.specs.Decimal.{decimal_of, integral_part, scale};
ghost use Rattle.vsl_decimal.specs.Field.{field_of};
ghost use Rattle.ncsa_format.specs.Civil.{stamp_parts, time_text};
ghost use Rattle.ncsa_format.specs.Value.{before_colon, decoded, hit_or_miss, host_of, is_word, last_second, micros_of, printed_time, query_place, unless_zero, user_of, value_of};
ghost use Rattle.ncsa_format.specs.Line.{printed, quoted};
ghost use Rattle.ncsa_format.specs.declared.formatter.Formatter.TheVariants as formatters;
ghost use Rattle.ncsa_format.specs.declared.formatter.TimeForm.TheVariants as forms;

use crate::chosen::{headed, responded, stamped, text_for};
use crate::civil::{LAST_SECOND, put_number, put_parts, put_time};
use crate::cut::{cut, place_of};
use crate::formatter::{Formatter, TimeForm, TimePart};
use crate::member::{
    acct_field, address_of, handling_of, header_of, logged, method_of, protocol_of, record_part,
    start_of, time_taken, url_of,
};
use crate::quoted::{put_plain, put_printed, put_quoted};
use base64::DecodeAllocError;
use base64::engine::general_purpose::STANDARD;
use itoa::Buffer;
use log_model::NoMemory;
use std::alloc::Global;
use txn_rows::Member;
use vsl_decimal::{field, integral, read_decimal};
use vsl_tags::named::{
    BEREQ_HEADER, BERESP_HEADER, BERESP_STATUS, REQ_HEADER, RESP_HEADER, RESP_STATUS,
};

/// The form of `%t`, as `[02/Jan/2023:03:04:05 +0000]`.
static STAMP: [TimePart; 11] = [
    TimePart::Byte(b'['),
    TimePart::Day,
    TimePart::Byte(b'/'),
    TimePart::MonthName,
    TimePart::Byte(b'/'),
    TimePart::Year,
    TimePart::Byte(b':'),
    TimePart::Clock,
    TimePart::Byte(b' '),
    TimePart::Zone,
    TimePart::Byte(b']'),
];

/// Whether the first field of a header is `Basic`.
fn is_basic(header: &[u8]) -> bool
    ensures { result ≡ is_word (codes "basic") (field_of header.now 1) }
{
    match field(header, 1) {
        Some(scheme) => scheme.eq_ignore_ascii_case(b"basic"),
        None => false,
    }
}

/// The bytes of a text in base64.
fn decoded(alloc: Global, text: &[u8]) -> Result<Option<Vec<u8>>, NoMemory>
    ensures { IfOk result (λ bytes. option_map (λ b. b.items) bytes ≡ decoded text.now) }
{
    match STANDARD.decode(alloc, text) {
        Ok(bytes) => Ok(Some(bytes)),
        Err(DecodeAllocError::OutOfMemory) => Err(NoMemory),
        Err(_) => Ok(None),
    }
}

/// What stands before the first colon.
fn before_colon(mut bytes: Vec<u8>) -> Option<Vec<u8>>
    ensures { option_map (λ b. b.items) result ≡ before_colon bytes.items }
{
    let at = place_of(&bytes, b':')?;
    bytes.truncate(at);
    Some(bytes)
}

/// The user of an Authorization header.
fn user_of(alloc: Global, header: &[u8]) -> Result<Option<Vec<u8>>, NoMemory>
    ensures { IfOk result (λ user. option_map (λ u. u.items) user ≡ user_of header.now) }
{
    if !is_basic(header) {
        return Ok(None);
    }
    let Some(credentials) = field(header, 2) else {
        return Ok(None);
    };
    match decoded(alloc, credentials)? {
        Some(bytes) => Ok(before_colon(bytes)),
        None => Ok(None),
    }
}

/// Adds the user of an Authorization header.
fn put_user(alloc: Global, out: &mut Vec<u8>, header: Option<&[u8]>) -> Result<(), NoMemory>
    ensures { Puts result out.old.items out.new.items
        (printed (option_and_then user_of (option_copied header.entry))) }
{
    let Some(header) = header else {
        return put_printed(out, None);
    };
    match user_of(alloc, header)? {
        Some(user) => put_printed(out, Some(&user)),
        None => put_printed(out, None),
    }
}

/// The time that a text tells, where it is printed, in units of 10^-18 seconds.
fn printed_time(text: Option<&[u8]>) -> Option<u128>
    ensures time { result ≡ option_and_then printed_time
        (option_and_then decimal_of (option_copied text.entry)) }
    ensures within { IfSome result (λ time. time ≤ last_second * scale) }
{
    let time = read_decimal(text?)?;
    if time.scaled < 0 {
        return None;
    }
    let time = time.scaled as u128;
    if time > u128::from(LAST_SECOND) * 1_000_000_000_000_000_000 {
        return None;
    }
    Some(time)
}

/// Adds the time that a text tells, as `%t` prints it.
fn put_stamp(out: &mut Vec<u8>, text: Option<&[u8]>) -> Result<(), NoMemory>
    ensures { Puts result out.old.items out.new.items
        (printed (option_map (time_text (forms.Text stamp_parts))
        (option_and_then printed_time (option_and_then decimal_of (option_copied text.entry))))) }
{
    match printed_time(text) {
        Some(time) => put_parts(out, (time / 1_000_000_000_000_000_000) as u64, &STAMP),
        None => put_printed(out, None),
    }
}

/// Adds the time that a text tells, in a form.
fn put_time_in(out: &mut Vec<u8>, text: Option<&[u8]>, form: &TimeForm) -> Result<(), NoMemory>
    ensures { Puts result out.old.items out.new.items
        (printed (option_map (time_text form.now)
        (option_and_then printed_time (option_and_then decimal_of (option_copied text.entry))))) }
{
    match printed_time(text) {
        Some(time) => put_time(out, time, form),
        None => put_printed(out, None),
    }
}

/// Adds a number that may be below zero, where there is one.
fn put_signed(out: &mut Vec<u8>, n: Option<i128>) -> Result<(), NoMemory>
    ensures { Puts result out.old.items out.new.items (printed (option_map signed_decimal n)) }
{
    let Some(n) = n else {
        return put_printed(out, None);
    };
    let mut buffer = Buffer::new();
    put_quoted(out, buffer.format(n).as_bytes())
}

/// The whole microseconds of a time that a text tells, cut toward zero.
fn micros_in(text: Option<&[u8]>) -> Option<i128>
    ensures { result ≡ option_map micros_of
        (option_and_then decimal_of (option_copied text.entry)) }
{
    let time = read_decimal(text?)?;
    Some(time.scaled / 1_000_000_000_000)
}

/// The whole seconds of a time that a text tells.
fn seconds_in(text: Option<&[u8]>) -> Option<i128>
    ensures { result ≡ option_map integral_part
        (option_and_then decimal_of (option_copied text.entry)) }
{
    let time = read_decimal(text?)?;
    Some(integral(time))
}

/// A URL up to its query.
#[tactic(auto, using(crate::proofs::CutLemmas::front_is))]
fn path_of(url: Option<&[u8]>) -> Option<&[u8]>
    ensures { option_copied result ≡ option_map (λ u. take (query_place u) u)
        (option_copied url.entry) }
{
    let (path, _) = cut(url?, b'?');
    Some(path)
}

/// The query of a URL, with its question mark; empty where there is none.
#[tactic(auto, using(crate::proofs::CutLemmas::behind_is))]
fn query_of(url: Option<&[u8]>) -> &[u8]
    ensures { result.now ≡ unwrap_or
        (option_map (λ u. drop (query_place u) u) (option_copied url.entry)) [] }
{
    match url {
        Some(url) => {
            let (_, query) = cut(url, b'?');
            query
        }
        None => b"",
    }
}

/// A text, or another where it is missing.
fn text_or<'a>(text: Option<&'a [u8]>, other: &'a [u8]) -> &'a [u8]
    ensures { result.now ≡ unwrap_or (option_copied text.entry) other.now }
{
    text.unwrap_or(other)
}

/// Adds the host of a request line.
fn put_host(out: &mut Vec<u8>, host: Option<&[u8]>) -> Result<(), NoMemory>
    ensures { Puts result out.old.items out.new.items
        (quoted (host_of (option_copied host.entry))) }
{
    let Some(host) = host else {
        return put_plain(out, b"http://localhost");
    };
    if host.starts_with(b"http://") {
        return put_quoted(out, host);
    }
    put_plain(out, b"http://")?;
    put_quoted(out, host)
}

/// Adds a request line: the method, the host, the URL and the protocol.
fn put_request_line(out: &mut Vec<u8>, member: &Member) -> Result<(), NoMemory>
    ensures { Puts result out.old.items out.new.items
        (printed (value_of formatters.RequestLine member.now)) }
{
    put_quoted(out, text_or(method_of(member), b"-"))?;
    put_plain(out, b" ")?;
    put_host(out, header_of(member, b"Host"))?;
    put_quoted(out, text_or(url_of(member), b""))?;
    put_plain(out, b" ")?;
    put_quoted(out, protocol_of(member))
}

/// A number of bytes, where it isn't zero.
fn unless_zero(text: Option<&[u8]>) -> Option<&[u8]>
    ensures { option_copied result ≡ option_and_then unless_zero (option_copied text.entry) }
{
    let text = text?;
    if text == b"0".as_slice() {
        None
    } else {
        Some(text)
    }
}

/// Every handling but a hit is a miss.
fn hit_or_miss(word: Option<&[u8]>) -> Option<&[u8]>
    ensures { option_copied result ≡ option_map hit_or_miss (option_copied word.entry) }
{
    let word = word?;
    if word == b"hit".as_slice() {
        Some(word)
    } else {
        Some(b"miss")
    }
}

/// Adds the value of a formatter for a transaction, or a part of it.
pub(crate) fn put_value(
    alloc: Global,
    out: &mut Vec<u8>,
    formatter: &Formatter,
    member: &Member,
) -> Result<(), NoMemory>
    ensures { Puts result out.old.items out.new.items
        (printed (value_of formatter.now member.now)) }
{
    match formatter {
        Formatter::Host => put_printed(out, address_of(member)),
        Formatter::LogName => put_printed(out, None),
        Formatter::User => put_user(alloc, out, header_of(member, b"Authorization")),
        Formatter::Stamp => put_stamp(out, start_of(member)),
        Formatter::Time(form) => put_time_in(out, start_of(member), form),
        Formatter::RequestLine => put_request_line(out, member),
        Formatter::Method => put_printed(out, method_of(member)),
        Formatter::Path => put_printed(out, path_of(url_of(member))),
        Formatter::Query => put_quoted(out, query_of(url_of(member))),
        Formatter::Protocol => put_quoted(out, protocol_of(member)),
        Formatter::Status => put_printed(out, responded(member, RESP_STATUS, BERESP_STATUS)),
        Formatter::Bytes => put_printed(out, unless_zero(acct_field(member, 5))),
        Formatter::Received => put_printed(out, acct_field(member, 3)),
        Formatter::Sent => put_printed(out, acct_field(member, 6)),
        Formatter::RequestHeader(name) => put_printed(
            out,
            headed(member, REQ_HEADER, BEREQ_HEADER, name),
        ),
        Formatter::ResponseHeader(name) => put_printed(
            out,
            headed(member, RESP_HEADER, BERESP_HEADER, name),
        ),
        Formatter::Micros => put_signed(out, micros_in(time_taken(member))),
        Formatter::Seconds => put_signed(out, seconds_in(time_taken(member))),
        Formatter::FirstByte => put_printed(out, stamped(member, b"Process", b"Beresp", 2)),
        Formatter::HitMiss => put_printed(out, hit_or_miss(handling_of(member))),
        Formatter::Handling => put_printed(out, handling_of(member)),
        Formatter::Mark => put_quoted(out, text_for(member.kind, b"c", b"b")),
        Formatter::Vxid => put_number(out, member.vxid),
        Formatter::LogKey(key) => put_printed(out, logged(member, key)),
        Formatter::TagPart { tag, prefix, field } => {
            put_printed(out, record_part(member, tag.number(), prefix, *field))
        }
    }
}
