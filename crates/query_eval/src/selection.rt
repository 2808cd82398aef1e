//! Which records are selected, and what of them is asked.

ghost use Rattle.std.specs.Prelude.{◌≡◌};
ghost use Rattle.std.specs.Option.{option_copied};
ghost use Rattle.query_eval.specs.Meaning.{behind_prefix, field_at, meets_level, subject};

use query_parser::{Bound, Criterion, Level, Literal};
use vsl_decimal::{after_prefix, field};

/// Whether a member's level meets that of a criterion, where it has one.
pub(crate) fn meets_level(level: Option<Level>, of: u32) -> bool
    ensures { result ≡ meets_level level of }
{
    let Some(level) = level else {
        return true;
    };
    match level.bound {
        Bound::Exactly => of == level.number,
        Bound::AtLeast => level.number <= of,
        Bound::AtMost => of <= level.number,
    }
}

/// What of a payload is asked, where it has the prefix and the field.
pub(crate) fn subject<'a>(criterion: &Criterion, payload: &'a [u8]) -> Option<&'a [u8]>
    ensures { option_copied result ≡ subject criterion.now payload.now }
{
    field_at(criterion.field, behind_prefix(&criterion.prefix, payload)?)
}

/// The payload from behind its prefix on, where a prefix is asked for.
fn behind_prefix<'a>(prefix: &Option<Literal>, payload: &'a [u8]) -> Option<&'a [u8]>
    ensures { option_copied result ≡ behind_prefix prefix.now payload.now }
{
    match prefix {
        Some(prefix) => after_prefix(payload, prefix.as_slice()),
        None => Some(payload),
    }
}

/// The text, or the field of it that is asked for.
fn field_at(number: Option<u32>, text: &[u8]) -> Option<&[u8]>
    ensures { option_copied result ≡ field_at number text.now }
{
    match number {
        Some(number) => field(text, number),
        None => Some(text),
    }
}
