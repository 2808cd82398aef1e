//! What the records of a transaction tell.

ghost use Rattle.std.specs.Prelude.{◌≡◌, codes};
ghost use Rattle.std.specs.Option.{option_copied};
ghost use Rattle.vsl_tags.specs.declared.named.TheConstants.{BEREQ_ACCT, BEREQ_HEADER, REQ_ACCT, REQ_HEADER, VCL_LOG};
ghost use Rattle.vsl_decimal.specs.Prefix.{value_after};
ghost use Rattle.ncsa_format.specs.Value as values;
ghost use Rattle.ncsa_format.specs.declared.formatter.Formatter.TheVariants as formatters;
ghost use Rattle.ncsa_format.specs.Value.{field_in, first_of, handling, in_tag, method_of, part_with, protocol_of, requested, stamped, url_of, whole};

use crate::chosen::{field_in, first_of, is_backend, last_of, requested, stamped};
use crate::formatter::Label;
use crate::wanted::Wanted;
use txn_rows::Member;
use vsl_tags::named::{
    BACKEND_OPEN, BEREQ_ACCT, BEREQ_HEADER, BEREQ_METHOD, BEREQ_PROTOCOL, BEREQ_URL, REQ_ACCT,
    REQ_HEADER, REQ_METHOD, REQ_PROTOCOL, REQ_START, REQ_URL, VCL_CALL, VCL_LOG,
};

/// The address of the client, or of the backend.
pub(crate) fn address_of(member: &Member) -> Option<&[u8]>
    ensures { option_copied result ≡ values.value_of formatters.Host member.now }
{
    if is_backend(member.kind) {
        field_in(first_of(member, BACKEND_OPEN, Wanted::Whole), 3)
    } else {
        field_in(first_of(member, REQ_START, Wanted::Whole), 1)
    }
}

/// A header of the request with this name: the first of a client's, the last of a backend's.
pub(crate) fn header_of<'a>(member: &'a Member, name: &[u8]) -> Option<&'a [u8]>
    ensures { option_copied result ≡ requested REQ_HEADER BEREQ_HEADER
        (value_after name.now) member.now }
{
    requested(member, REQ_HEADER, BEREQ_HEADER, Wanted::After(name))
}

/// The method, as `GET`.
pub(crate) fn method_of(member: &Member) -> Option<&[u8]>
    ensures { option_copied result ≡ method_of member.now }
{
    requested(member, REQ_METHOD, BEREQ_METHOD, Wanted::Whole)
}

/// The URL.
pub(crate) fn url_of(member: &Member) -> Option<&[u8]>
    ensures { option_copied result ≡ url_of member.now }
{
    requested(member, REQ_URL, BEREQ_URL, Wanted::Whole)
}

/// The protocol, `HTTP/1.0` where it is missing.
pub(crate) fn protocol_of(member: &Member) -> &[u8]
    ensures { result.now ≡ protocol_of member.now }
{
    requested(member, REQ_PROTOCOL, BEREQ_PROTOCOL, Wanted::Whole).unwrap_or(b"HTTP/1.0")
}

/// A field of how many bytes went to and fro.
pub(crate) fn acct_field(member: &Member, n: u32) -> Option<&[u8]>
    ensures { option_copied result ≡ field_in n (requested REQ_ACCT BEREQ_ACCT whole member.now) }
{
    field_in(requested(member, REQ_ACCT, BEREQ_ACCT, Wanted::Whole), n)
}

/// When it started.
pub(crate) fn start_of(member: &Member) -> Option<&[u8]>
    ensures { option_copied result ≡ field_in 1 (stamped (codes "Start") (codes "Start") member.now) }
{
    stamped(member, b"Start", b"Start", 1)
}

/// How long it took.
pub(crate) fn time_taken(member: &Member) -> Option<&[u8]>
    ensures { option_copied result ≡ field_in 2 (stamped (codes "Resp") (codes "BerespBody") member.now) }
{
    stamped(member, b"Resp", b"BerespBody", 2)
}

/// How a client's request was handled.
pub(crate) fn handling_of(member: &Member) -> Option<&[u8]>
    ensures { option_copied result ≡ handling member.now }
{
    if is_backend(member.kind) {
        None
    } else {
        last_of(member, VCL_CALL, Wanted::Handling)
    }
}

/// What VCL logged under a key: the first.
pub(crate) fn logged<'a>(member: &'a Member, key: &Label) -> Option<&'a [u8]>
    ensures { option_copied result ≡ first_of
        (in_tag VCL_LOG (value_after key.now)) member.now.records }
{
    first_of(member, VCL_LOG, Wanted::After(key.as_slice()))
}

/// A part of a record: the first of a tag that has it.
pub(crate) fn record_part<'a>(
    member: &'a Member,
    tag: u8,
    prefix: &Option<Label>,
    number: Option<u32>,
) -> Option<&'a [u8]>
    ensures { option_copied result ≡ first_of
        (in_tag tag (part_with prefix.now number)) member.now.records }
{
    first_of(member, tag, Wanted::Part(prefix, number))
}
