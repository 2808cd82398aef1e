//! Numbers: how they are read, compared and cut.

ghost use Rattle.std.specs.Prelude.{◌≡◌, ◌≢◌, ◌≤◌, ◌<◌, ◌^◌, ◌++◌, List, ℕ, ℤ, pos, neg_ℤ, if◌then◌else◌, IfSome, IfNone, Some, option_map};
ghost use Rattle.std.specs.Ordering.{int_cmp};
ghost use Rattle.vsl_decimal.specs.Decimal.{IsDigits, Spells, decimal_of, scaled_fraction, integral_part};
ghost use Rattle.vsl_decimal.specs.inside.Digits.{BeginsWithDigits, NoDigitFirst, SpellsFraction, SpellsSize};

use crate::after_byte;
use std::cmp::Ordering;

/// The most digits that a part of a number has.
const MOST_DIGITS: usize = 18;

/// The scaled value of one.
const SCALE: u64 = 1_000_000_000_000_000_000;

/// An exact number.
#[derive(Clone, Copy, Debug, PartialEq, Eq)]
pub struct Decimal {
    /// The number times 10^18, as 1_500_000_000_000_000_000 for `1.5`.
    pub scaled: i128,
}

/// Digits at the beginning of a text.
#[derive(Clone, Copy)]
struct Digits<'a> {
    /// The number that the digits write.
    value: u64,
    /// How many digits there are.
    count: usize,
    /// What follows the digits.
    rest: &'a [u8],
}

/// Reads a number: an optional minus sign, 1 to 18 digits, and, if a period follows, 1 to 18 more.
/// The number is the whole text: white space, exponents, a plus sign and a bare period are refused.
///
/// Source: vsl-query(7), "Operand". The bound of 18 digits is this project's choice.
pub fn read_decimal(text: &[u8]) -> Option<Decimal>
    ensures read { IfSome result (λ d. Spells text.now d.scaled) }
    ensures refused { IfNone result ((value : ℤ) → ¬ (Spells text.now value)) }
    ensures value { option_map (λ d. d.scaled) result ≡ decimal_of text.now }
{
    match after_byte(text, b'-') {
        Some(size) => Some(with_sign(true, read_size(size)?)),
        None => Some(with_sign(false, read_size(text)?)),
    }
}

/// The number of this size and sign.
fn with_sign(negative: bool, size: u128) -> Decimal
    requires { size < 2 ^ 127 }
    ensures { result.scaled ≡ (if negative then neg_ℤ (pos size) else pos size) }
{
    let scaled = size as i128;
    if negative {
        Decimal { scaled: -scaled }
    } else {
        Decimal { scaled }
    }
}

/// Reads a number with no sign.
fn read_size(text: &[u8]) -> Option<u128>
    ensures read { IfSome result (λ size. SpellsSize text.now size) }
    ensures within { IfSome result (λ size. size < 2 ^ 127) }
    ensures refused { IfNone result ((size : ℕ) → ¬ (SpellsSize text.now size)) }
{
    let whole = read_digits(text)?;
    let fraction = read_fraction(whole.rest)?;
    Some(u128::from(whole.value) * u128::from(SCALE) + u128::from(fraction))
}

/// Reads nothing, or a period and digits.
fn read_fraction(text: &[u8]) -> Option<u64>
    ensures read { IfSome result (λ value. SpellsFraction text.now value) }
    ensures within { IfSome result (λ value. value < 10 ^ 18) }
    ensures refused { IfNone result ((value : ℕ) → ¬ (SpellsFraction text.now value)) }
{
    if text.is_empty() {
        return Some(0);
    }
    read_all_digits(after_byte(text, b'.')?)
}

/// Reads the digits of a fraction, which are the whole text.
#[tactic(auto, using(crate::proofs::DecimalLemmas::not_all_digits, crate::proofs::DecimalLemmas::begins_below, crate::proofs::DecimalLemmas::fraction_below))]
fn read_all_digits(text: &[u8]) -> Option<u64>
    ensures read { IfSome result
        (λ value. IsDigits text.now × (scaled_fraction (Some text.now) ≡ value)) }
    ensures within { IfSome result (λ value. value < 10 ^ 18) }
    ensures refused { IfNone result (¬ (IsDigits text.now)) }
{
    let digits = read_digits(text)?;
    if !digits.rest.is_empty() {
        return None;
    }
    Some(digits.value * 10_u64.pow((MOST_DIGITS - digits.count) as u32))
}

/// Reads the digits at the beginning of the text: all that stand there, 1 to 18.
#[inline(always)]
#[tactic(auto, using(crate::proofs::DecimalLemmas::are_read_below))]
fn read_digits(text: &[u8]) -> Option<Digits<'_>>
    ensures read { IfSome result
        (λ found. BeginsWithDigits text.now found.value found.count found.rest.now) }
    ensures refused { IfNone result ((digits rest : List ℕ) → IsDigits digits → NoDigitFirst rest →
        text.now ≢ digits ++ rest) }
{
    let mut value = 0;
    let mut count = 0;
    while count < text.len() && text[count].is_ascii_digit() {
        if count == MOST_DIGITS {
            return None;
        }
        value = value * 10 + u64::from(text[count] - b'0');
        count += 1;
    }
    if count == 0 {
        return None;
    }
    let (_, rest) = text.split_at(count);
    Some(Digits { value, count, rest })
}

/// The order of two numbers.
pub fn compare(a: Decimal, b: Decimal) -> Ordering
    ensures { result ≡ int_cmp a.scaled b.scaled }
{
    a.scaled.cmp(&b.scaled)
}

/// The integral part, cut toward zero, as 200 of `200.9` and 0 of `-0.5`.
pub fn integral(a: Decimal) -> i128
    ensures { result ≡ integral_part a.scaled }
{
    a.scaled / i128::from(SCALE)
}
