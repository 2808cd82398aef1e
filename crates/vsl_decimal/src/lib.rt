//! Decimals, fields and prefixes: how the query language reads a record's payload.
//!
//! A payload is bytes. A numeric comparison reads a decimal out of it, a criterion reads one of its fields,
//! which are its longest parts without white space, counted from 1, or what follows `Header:`. Every answer is a
//! number or a part of the bytes that were lent, so nothing here takes memory.
//!
//! Start with `specs/Decimal.antt`. Source: vsl-query(7), "Record selection criteria" and "Operand".
#![tactic(auto)]

ghost use Rattle.std.specs.Prelude.{◌≡◌, ◌≢◌, ◌∷◌, ℕ, List, IfSome, IfNone};
ghost use Rattle.std.specs.Option.{option_copied};
ghost use Rattle.vsl_decimal.specs.Field.{field_of, is_space};

mod blanks;
mod laws;
mod number;
mod prefix;
mod whole;

pub use blanks::trim;
pub use laws::{decimals_are_spelled, one_value, values_follow_prefixes};
pub use number::{Decimal, compare, integral, read_decimal};
pub use prefix::after_prefix;
pub use whole::{whole_number, wide_number};

/// The n-th field of the text, from 1, as `2` for the second field of `req 1 rxreq`, which is `1`.
/// There is none where the text has fewer fields, or n is 0.
pub fn field(text: &[u8], n: u32) -> Option<&[u8]>
    ensures { option_copied result ≡ field_of text.now n }
{
    if n == 0 {
        return None;
    }
    text.split(|b| is_white(*b))
        .filter(|part| !part.is_empty())
        .nth(n as usize - 1)
}

/// Whether a byte is white space.
fn is_white(b: u8) -> bool
    ensures { result ≡ is_space b }
{
    (9 <= b && b <= 13) || b == 32
}

/// What follows the byte, where the text begins with it.
fn after_byte(text: &[u8], byte: u8) -> Option<&[u8]>
    ensures some { IfSome result (λ rest. text.now ≡ byte ∷ rest.now) }
    ensures none { IfNone result ((rest : List ℕ) → text.now ≢ byte ∷ rest) }
{
    let (first, rest) = text.split_first()?;
    if *first == byte { Some(rest) } else { None }
}
