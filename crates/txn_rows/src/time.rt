//! Reading a Timestamp.

ghost use Rattle.std.specs.Prelude.{◌≡◌, ℕ, ℤ, pos, Option, option_map};
ghost use Rattle.vsl_decimal.specs.Decimal.{decimal_of};
ghost use Rattle.txn_rows.specs.Claim.{named};
ghost use Rattle.txn_rows.specs.Time.{time_of, at_least_zero};

use crate::first_field::first_field;
use vsl_decimal::{Decimal, read_decimal};

/// Reads the payload of a Timestamp, `label: absolute`, as `Start: 1736940645.123456 0.000000 0.000000`: the
/// absolute time, in seconds. Further fields are ignored. Where the first field does not end with a colon, or
/// the second is no decimal, or one below zero, there is none.
///
/// Source: vsl(7), "Timestamp".
pub fn read_time(payload: &[u8]) -> Option<Decimal>
    ensures { option_map (λ time. time.scaled) result ≡ option_map pos (time_of payload.now) }
{
    let (label, behind) = first_field(payload)?;
    if !label.ends_with(b":") {
        return None;
    }
    let (text, _) = first_field(behind)?;
    let time = read_decimal(text)?;
    if time.scaled < 0 {
        return None;
    }
    Some(time)
}

/// The time that the payload of a Timestamp tells, in units of 10^-18 seconds.
pub(crate) fn time_told(payload: &[u8]) -> Option<u128>
    ensures { result ≡ time_of payload.now }
{
    let time = read_time(payload)?;
    Some(time.scaled as u128)
}
