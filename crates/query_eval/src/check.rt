//! What is asked of a text.

ghost use Rattle.std.specs.Prelude.{◌≡◌, false, IfOk, OnOk, IsOk, IfSome, None};
ghost use Rattle.std.specs.Ordering.{int_cmp};
ghost use Rattle.std.specs.Str.{bytes_eq};
ghost use Rattle.vsl_decimal.specs.Decimal.{decimal_of};
ghost use Rattle.vsl_decimal.specs.Prefix.{trimmed};
ghost use Rattle.vsl_pattern.specs.Patterns.{is_match, pattern_text, pattern_caseless};
ghost use Rattle.query_eval.specs.Meaning.{compared, compares, folded, is_so, number_satisfies, satisfies};
ghost use Rattle.query_eval.specs.Asking.{IsMatchingOf, IsReady, has_pattern};

use query_parser::{Check, Comparison};
use std::alloc::{AllocError, Global};
use std::cmp::Ordering;
use vsl_decimal::{Decimal, compare, integral, read_decimal, trim};
use vsl_pattern::{Matching, Pattern};

/// Whether the text satisfies what is asked. What asks a pattern is made with its first text, and kept for the next ones.
pub(crate) fn satisfies<'c>(
    alloc: Global,
    check: &'c Check,
    matching: &mut Option<Matching<'c>>,
    text: &[u8],
) -> Result<bool, AllocError>
    requires ready { IsReady check.now matching.old }
    ensures answer { IfOk result (λ b. b ≡ satisfies check.now text.now) }
    ensures answered { has_pattern check.now ≡ false → IsOk result }
    ensures ready { IsReady check.now matching.new }
{
    match check {
        Check::Selected => Ok(true),
        Check::Number {
            comparison,
            operand,
            whole,
        } => Ok(number_satisfies(*comparison, *operand, *whole, text)),
        Check::Text {
            equal,
            caseless,
            operand,
        } => Ok(is_same(*caseless, text, operand.as_slice()) == *equal),
        Check::Pattern { matches, pattern } => {
            Ok(is_match(alloc, pattern, matching, text)? == *matches)
        }
    }
}

/// Whether the text is a number that satisfies the comparison with the operand.
fn number_satisfies(comparison: Comparison, operand: Decimal, whole: bool, text: &[u8]) -> bool
    ensures { result ≡ number_satisfies comparison operand.scaled whole
        (decimal_of (trimmed text.now)) }
{
    match read_decimal(trim(text)) {
        Some(number) => compares(comparison, order(whole, number, operand)),
        None => false,
    }
}

/// The order of two numbers, or of their integral parts.
fn order(whole: bool, a: Decimal, b: Decimal) -> Ordering
    ensures { result ≡ int_cmp (compared whole a.scaled) (compared whole b.scaled) }
{
    if whole {
        integral(a).cmp(&integral(b))
    } else {
        compare(a, b)
    }
}

/// Whether an order of two numbers satisfies the comparison.
fn compares(comparison: Comparison, order: Ordering) -> bool
    ensures { result ≡ compares comparison order }
{
    match comparison {
        Comparison::Equal => order.is_eq(),
        Comparison::NotEqual => order.is_ne(),
        Comparison::Less => order.is_lt(),
        Comparison::LessOrEqual => order.is_le(),
        Comparison::Greater => order.is_gt(),
        Comparison::GreaterOrEqual => order.is_ge(),
    }
}

/// Whether two texts have the same bytes, or the same but for the case of ASCII letters.
fn is_same(caseless: bool, a: &[u8], b: &[u8]) -> bool
    ensures { result ≡ bytes_eq (folded caseless a.now) (folded caseless b.now) }
{
    if caseless {
        a.eq_ignore_ascii_case(b)
    } else {
        a == b
    }
}

/// Whether the pattern matches somewhere in the text. What asks it is made where there is none yet.
fn is_match<'p>(
    alloc: Global,
    pattern: &'p Pattern,
    matching: &mut Option<Matching<'p>>,
    text: &[u8],
) -> Result<bool, AllocError>
    requires ready { IfSome matching.old (IsMatchingOf pattern.now) }
    ensures answer { IfOk result
        (λ b. b ≡ is_match (pattern_caseless pattern.now) (pattern_text pattern.now) text.now) }
    ensures ready { IfSome matching.new (IsMatchingOf pattern.now) }
{
    if let Some(made) = matching {
        return Ok(made.is_match(text));
    }
    let mut made = pattern.matching(alloc)?;
    let found = made.is_match(text);
    *matching = Some(made);
    Ok(found)
}
