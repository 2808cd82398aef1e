//! Reading a criterion.

ghost use Rattle.std.specs.Prelude.{◌≡◌, ◌+◌, ◌^◌, ◌<◌, ◌≤◌, ◌↔◌, ℕ, [], ◌∷◌, true, false, None, length, IfOk, IfSome, IfNone, OnOk, IfErr};
ghost use Rattle.std.specs.List.{list_all};
ghost use Rattle.vsl_tags.specs.Tags.{IsTag};
ghost use Rattle.vsl_tags.specs.TagSet.{HasTag, IsSelected, first_fault, matches_any};
ghost use Rattle.query_grammar.specs.declared.lex.Lex.TheVariants.{Begin};
ghost use Rattle.query_grammar.specs.Bytes.{is_name_byte};
ghost use Rattle.query_grammar.specs.Lexical.{whole_from};
ghost use Rattle.query_grammar.specs.Judging.{criterion_fault, field_fault, field_value, level_fault, name_fault, names_fault, tags_fault};
ghost use Rattle.query_grammar.specs.Judging as judged;
ghost use Rattle.query_parser.specs.declared.criterion.Kind.TheVariants as kinds;
ghost use Rattle.query_parser.specs.Answers.{IsAnswer};
ghost use Rattle.query_parser.specs.Meant.{IsCriterion};
ghost use Rattle.query_parser.specs.inside.Pieces.{before_field, begins_with_comma, bound_at, bracket, field_number, first_level, is_of, leading, level_at, level_rest, prefix_at, without_first};

use crate::fault::QueryFault;
use crate::literal::Literal;
use crate::test::{Bound, Criterion, Level};
use query_grammar::Lex;
use std::alloc::{AllocError, Global};
use std::str;
use vsl_tags::TagSet;

/// The greatest level and field.
const MOST: u32 = 9_999;

/// The fault of a criterion, or of the first bytes of one, that begins at this place. It takes no memory.
#[tactic(auto, using(crate::proofs::CriterionFaults::answer_first))]
pub(crate) fn judge_criterion(place: usize, text: &[u8]) -> Result<(), QueryFault>
    ensures ok { OnOk result (criterion_fault matches_any place text.now ≡ None) }
    ensures refused { IfErr result (λ f. IsAnswer f (criterion_fault matches_any place text.now)) }
{
    // No text is so long; this keeps the places below within range.
    if place.checked_add(text.len()).is_none() {
        return Err(QueryFault::NoMemory);
    }
    judge_tags(place, text)?;
    judge_level(place, text)?;
    judge_field(place, text)
}

/// The first fault of the names, which stand behind the level.
#[tactic(auto, using(crate::proofs::CriterionFaults::tags_is))]
fn judge_tags(place: usize, text: &[u8]) -> Result<(), QueryFault>
    requires { place + length text.now < 2 ^ 64 }
    ensures ok { OnOk result (tags_fault matches_any place text.now ≡ None) }
    ensures refused { IfErr result (λ f. IsAnswer f (tags_fault matches_any place text.now)) }
{
    let (_, names) = split_level(text);
    judge_names(place + (text.len() - names.len()), names)
}

/// The first fault of names with commas between them.
fn judge_names(place: usize, text: &[u8]) -> Result<(), QueryFault>
    requires { place + length text.now < 2 ^ 64 }
    ensures ok { OnOk result (names_fault matches_any place place [] text.now ≡ None) }
    ensures refused { IfErr result (λ f. IsAnswer f (names_fault matches_any place place [] text.now)) }
{
    let mut at = place;
    let mut rest = text;
    loop {
        let count = count_leading(Kind::Name, rest);
        let (name, after) = rest.split_at(count);
        judge_name(at, name)?;
        let Some(more) = skip_comma(after) else {
            return Ok(());
        };
        at += count + 1;
        rest = more;
    }
}

/// What stands behind a comma, where the bytes begin with one.
fn skip_comma(text: &[u8]) -> Option<&[u8]>
    ensures some { IfSome result (λ rest. text.now ≡ 44 ∷ rest.now) }
    ensures none { IfNone result (begins_with_comma text.now ≡ false) }
{
    match text {
        [b',', rest @ ..] => Some(rest),
        _ => None,
    }
}

/// The fault of a name, or of the first bytes of one.
fn judge_name(at: usize, name: &[u8]) -> Result<(), QueryFault>
    requires { list_all is_name_byte name.now ≡ true }
    ensures ok { OnOk result (name_fault matches_any at name.now ≡ None) }
    ensures refused { IfErr result (λ f. IsAnswer f (name_fault matches_any at name.now)) }
{
    if name.is_empty() {
        return Ok(());
    }
    if is_tag(name) {
        Ok(())
    } else {
        Err(QueryFault::UnknownTag { at: at as u64 })
    }
}

/// Whether a name is that of a tag or matches one.
fn is_tag(name: &[u8]) -> bool
    requires some { 0 < length name.now }
    requires named { list_all is_name_byte name.now ≡ true }
    ensures { result ≡ matches_any name.now }
{
    let Ok(name) = str::from_utf8(name) else {
        unreachable!();
    };
    TagSet::from_list(name).is_ok()
}

/// The fault of a level.
fn judge_level(place: usize, text: &[u8]) -> Result<(), QueryFault>
    requires { place + length text.now < 2 ^ 64 }
    ensures ok { OnOk result (level_fault place text.now ≡ None) }
    ensures refused { IfErr result (λ f. IsAnswer f (level_fault place text.now)) }
{
    let [b'{', level @ ..] = text else {
        return Ok(());
    };
    if number(level) > MOST {
        return Err(QueryFault::Number {
            at: (place + 1) as u64,
        });
    }
    Ok(())
}

/// The fault of a field.
#[tactic(auto, using(crate::proofs::CriterionFaults::field_some, crate::proofs::CriterionFaults::field_none))]
fn judge_field(place: usize, text: &[u8]) -> Result<(), QueryFault>
    requires { place + length text.now < 2 ^ 64 }
    ensures ok { OnOk result (field_fault place (Some Begin) text.now ≡ None) }
    ensures refused { IfErr result (λ f. IsAnswer f (field_fault place (Some Begin) text.now)) }
{
    let Some(count) = find_bracket(text) else {
        return Ok(());
    };
    let (_, field) = text.split_at(count + 1);
    judge_field_value(place + count + 1, field)
}

/// The fault of the number of a field.
fn judge_field_value(at: usize, text: &[u8]) -> Result<(), QueryFault>
    ensures ok { OnOk result (field_value at text.now ≡ None) }
    ensures refused { IfErr result (λ f. IsAnswer f (field_value at text.now)) }
{
    if text.is_empty() {
        return Ok(());
    }
    let value = number(text);
    if value == 0 || value > MOST {
        return Err(QueryFault::Number { at: at as u64 });
    }
    Ok(())
}

/// Reads a criterion without a fault.
pub(crate) fn read_criterion(alloc: Global, text: &[u8]) -> Result<Criterion, AllocError>
    requires whole { whole_from Begin text.now ≡ true }
    requires fine { (place : ℕ) → criterion_fault matches_any place text.now ≡ None }
    ensures { IfOk result (λ c. IsCriterion text.now c) }
{
    let (front, field) = split_field(text);
    let (level, rest) = split_level(front);
    let (names, prefix) = rest.split_at(count_leading(Kind::Names, rest));
    Ok(Criterion {
        level,
        tags: read_tags(names),
        prefix: read_prefix(alloc, prefix)?,
        field,
    })
}

/// What stands before the field, and the field.
fn split_field(text: &[u8]) -> (&[u8], Option<u32>)
    ensures front { result.0.now ≡ before_field (bracket text.now) text.now }
    ensures field { result.1 ≡ field_number (bracket text.now) text.now }
{
    let Some(count) = find_bracket(text) else {
        return (text, None);
    };
    let (front, _) = text.split_at(count);
    let (_, digits) = text.split_at(count + 1);
    (front, Some(number(digits)))
}

/// The level, and what stands behind it.
fn split_level(text: &[u8]) -> (Option<Level>, &[u8])
    ensures level { result.0 ≡ first_level text.now }
    ensures rest { result.1.now ≡ level_rest text.now }
    ensures within { length result.1.now ≤ length text.now }
{
    let [b'{', level @ ..] = text else {
        return (None, text);
    };
    let (_, brace) = level.split_at(count_leading(Kind::InLevel, level));
    (Some(read_level(level)), skip_first(brace))
}

/// The level whose digits come first.
fn read_level(text: &[u8]) -> Level
    ensures { result ≡ level_at text.now }
{
    let (_, sign) = text.split_at(count_leading(Kind::Digits, text));
    Level {
        number: number(text),
        bound: read_bound(sign),
    }
}

/// The bound that the byte behind a level's digits means.
fn read_bound(sign: &[u8]) -> Bound
    ensures { result ≡ bound_at sign.now }
{
    match sign {
        [b'+', ..] => Bound::AtLeast,
        [b'-', ..] => Bound::AtMost,
        _ => Bound::Exactly,
    }
}

/// The bytes without the first.
fn skip_first(text: &[u8]) -> &[u8]
    ensures rest { result.now ≡ without_first text.now }
    ensures within { length result.now ≤ length text.now }
{
    match text {
        [] => text,
        [_, rest @ ..] => rest,
    }
}

/// The tags of a taglist without a fault.
fn read_tags(names: &[u8]) -> TagSet
    requires named { list_all (is_of kinds.Names) names.now ≡ true }
    requires fine { first_fault names.now ≡ None }
    ensures { (tag : ℕ) → IsTag tag → HasTag result tag ↔ IsSelected names.now tag }
{
    let Ok(names) = str::from_utf8(names) else {
        unreachable!();
    };
    let Ok(tags) = TagSet::from_list(names) else {
        unreachable!();
    };
    tags
}

/// The prefix behind its colon.
fn read_prefix(alloc: Global, text: &[u8]) -> Result<Option<Literal>, AllocError>
    ensures { IfOk result (λ p. p ≡ prefix_at text.now) }
{
    let [_, prefix @ ..] = text else {
        return Ok(None);
    };
    let prefix = Literal::read(alloc, prefix)?;
    Ok(Some(prefix))
}

/// How many bytes stand before the bracket that opens a field.
fn find_bracket(text: &[u8]) -> Option<usize>
    ensures found { result ≡ bracket text.now }
    ensures within { IfSome result (λ n. n < length text.now) }
{
    let mut state = Lex::Begin;
    let mut count = 0;
    for byte in text {
        let Some(next) = state.next(*byte) else {
            return None;
        };
        if let Lex::FieldOpen = next {
            return Some(count);
        }
        state = next;
        count += 1;
    }
    None
}

/// The number at the beginning of bytes. Past 9,999 it may be cut off.
fn number(text: &[u8]) -> u32
    ensures { result ≡ judged.number 0 text.now }
{
    let mut value = 0;
    for byte in text {
        if !Kind::Digits.has(*byte) {
            return value;
        }
        if value > MOST {
            return value;
        }
        value = 10 * value + u32::from(*byte - b'0');
    }
    value
}

/// Bytes of one kind.
#[derive(Clone, Copy)]
enum Kind {
    /// Digits.
    Digits,
    /// The bytes of a name.
    Name,
    /// The bytes of names and the commas between them.
    Names,
    /// Any bytes but the brace that closes a level.
    InLevel,
}

impl Kind {
    /// Whether a byte is of this kind.
    fn has(self, byte: u8) -> bool
        ensures { result ≡ is_of self byte }
    {
        match self {
            Kind::Digits => b'0' <= byte && byte <= b'9',
            Kind::Name => Lex::NameNext.next(byte).is_some(),
            Kind::Names => Lex::NameNext.next(byte).is_some() || byte == b',',
            Kind::InLevel => byte != b'}',
        }
    }
}

/// How many of the first bytes are of a kind.
fn count_leading(kind: Kind, text: &[u8]) -> usize
    ensures count { result ≡ leading (is_of kind) text.now }
    ensures within { result ≤ length text.now }
{
    let mut count = 0;
    for byte in text {
        if !kind.has(*byte) {
            return count;
        }
        count += 1;
    }
    count
}
