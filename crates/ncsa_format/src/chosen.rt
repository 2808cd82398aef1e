//! Which record of a transaction counts.

ghost use Rattle.std.specs.Prelude.{◌≡◌, if◌then◌else◌};
ghost use Rattle.std.specs.Option.{option_copied};
ghost use Rattle.vsl_decimal.specs.Prefix.{value_after};
ghost use Rattle.ncsa_format.specs.Value.{field_in, first_of, headed, in_tag, is_backend, last_of, requested, responded, stamped, whole};
ghost use Rattle.ncsa_format.specs.inside.Wanted.{part_of};

use crate::formatter::Label;
use crate::wanted::Wanted;
use txn_rows::{Kind, Member};
use vsl_decimal::field;
use vsl_tags::named::TIMESTAMP;

/// What the first record of a tag that gives something gives.
pub(crate) fn first_of<'a>(member: &'a Member, tag: u8, wanted: Wanted) -> Option<&'a [u8]>
    ensures { option_copied result ≡ first_of
        (in_tag tag (part_of wanted.entry)) member.now.records }
{
    let records = member.records.view();
    for i in 0..records.len() {
        let rec = records.get(i);
        if rec.tag().number() == tag {
            if let Some(part) = wanted.of(rec.payload()) {
                return Some(part);
            }
        }
    }
    None
}

/// What the last record of a tag that gives something gives.
pub(crate) fn last_of<'a>(member: &'a Member, tag: u8, wanted: Wanted) -> Option<&'a [u8]>
    ensures { option_copied result ≡ last_of
        (in_tag tag (part_of wanted.entry)) member.now.records }
{
    let records = member.records.view();
    for i in (0..records.len()).rev() {
        let rec = records.get(i);
        if rec.tag().number() == tag {
            if let Some(part) = wanted.of(rec.payload()) {
                return Some(part);
            }
        }
    }
    None
}

/// Whether a kind is a fetch from a backend.
pub(crate) fn is_backend(kind: Kind) -> bool
    ensures { result ≡ is_backend kind }
{
    match kind {
        Kind::BeReq => true,
        Kind::Request | Kind::Session | Kind::Unknown | Kind::Record => false,
    }
}

/// Of a request: the first record of a client's, the last of a backend's.
pub(crate) fn requested<'a>(
    member: &'a Member,
    client: u8,
    backend: u8,
    wanted: Wanted,
) -> Option<&'a [u8]>
    ensures { option_copied result ≡ requested client backend (part_of wanted.entry) member.now }
{
    if is_backend(member.kind) {
        last_of(member, backend, wanted)
    } else {
        first_of(member, client, wanted)
    }
}

/// Of a response: the last record of a client's, the first of a backend's.
pub(crate) fn responded(member: &Member, client: u8, backend: u8) -> Option<&[u8]>
    ensures { option_copied result ≡ responded client backend whole member.now }
{
    if is_backend(member.kind) {
        first_of(member, backend, Wanted::Whole)
    } else {
        last_of(member, client, Wanted::Whole)
    }
}

/// Of a header that is named: the last record, of a client's and of a backend's.
pub(crate) fn headed<'a>(
    member: &'a Member,
    client: u8,
    backend: u8,
    name: &Label,
) -> Option<&'a [u8]>
    ensures { option_copied result ≡ headed client backend (value_after name.now) member.now }
{
    let wanted = Wanted::After(name.as_slice());
    if is_backend(member.kind) {
        last_of(member, backend, wanted)
    } else {
        last_of(member, client, wanted)
    }
}

/// A field of a text.
pub(crate) fn field_in(text: Option<&[u8]>, n: u32) -> Option<&[u8]>
    ensures { option_copied result ≡ field_in n (option_copied text.entry) }
{
    field(text?, n)
}

/// A text for clients, or one for backends.
pub(crate) fn text_for<'a>(kind: Kind, client: &'a [u8], backend: &'a [u8]) -> &'a [u8]
    ensures { result.now ≡ (if is_backend kind then backend.now else client.now) }
{
    if is_backend(kind) { backend } else { client }
}

/// A field of a Timestamp: of the last record with a label, which is another for a client than for a backend.
pub(crate) fn stamped<'a>(
    member: &'a Member,
    client: &[u8],
    backend: &[u8],
    n: u32,
) -> Option<&'a [u8]>
    ensures { option_copied result ≡ field_in n (stamped client.now backend.now member.now) }
{
    let label = text_for(member.kind, client, backend);
    field_in(last_of(member, TIMESTAMP, Wanted::After(label)), n)
}
