//! What of a record's payload a formatter asks for.

ghost use Rattle.std.specs.Prelude.{◌≡◌};
ghost use Rattle.std.specs.Option.{option_copied};
ghost use Rattle.ncsa_format.specs.Value.{handling_of, part_with};
ghost use Rattle.ncsa_format.specs.inside.Wanted.{part_of};

use crate::formatter::Label;
use vsl_decimal::{after_prefix, field};

/// What of a payload is wanted.
#[derive(Clone, Copy)]
pub(crate) enum Wanted<'a> {
    /// All of it.
    Whole,
    /// What follows a prefix.
    After(&'a [u8]),
    /// The word for how a request was handled.
    Handling,
    /// A field, where one is named, of what follows a prefix, where one is named.
    Part(&'a Option<Label>, Option<u32>),
}

/// The word for how a request was handled, where a call tells it.
#[inline(never)]
fn handling_of(call: &[u8]) -> Option<&'static [u8]>
    ensures { option_copied result ≡ handling_of call.now }
{
    if call.eq_ignore_ascii_case(b"hit") {
        Some(b"hit")
    } else if call.eq_ignore_ascii_case(b"miss") {
        Some(b"miss")
    } else if call.eq_ignore_ascii_case(b"pass") {
        Some(b"pass")
    } else if call.eq_ignore_ascii_case(b"pipe") {
        Some(b"pipe")
    } else if call.eq_ignore_ascii_case(b"synth") {
        Some(b"synth")
    } else {
        None
    }
}

/// What of a payload has this prefix and field, where they are named.
#[inline(never)]
fn part_with<'p>(payload: &'p [u8], prefix: &Option<Label>, number: Option<u32>) -> Option<&'p [u8]>
    ensures { option_copied result ≡ part_with prefix.now number payload.now }
{
    let behind = match prefix {
        Some(prefix) => after_prefix(payload, prefix.as_slice())?,
        None => payload,
    };
    match number {
        Some(n) => field(behind, n),
        None => Some(behind),
    }
}

impl<'a> Wanted<'a> {
    /// What of a payload it is, where that is there. It is asked of each record of a tag, and most have another prefix: so what refuses them stands in
    /// the loops over records, and what is seldom asked does not.
    #[inline(always)]
    pub(crate) fn of<'p>(self, payload: &'p [u8]) -> Option<&'p [u8]>
        ensures { option_copied result ≡ part_of self.entry payload.now }
    {
        match self {
            Wanted::Whole => Some(payload),
            Wanted::After(prefix) => after_prefix(payload, prefix),
            Wanted::Handling => handling_of(payload),
            Wanted::Part(prefix, number) => part_with(payload, prefix, number),
        }
    }
}
