//! A rule for records, as it is read and asked.

ghost use Rattle.std.specs.Prelude.{◌≡◌, ◌≢◌, Bool, Some, None, IfOk, OnOk, IfErr, IfSome, IfNone};
ghost use Rattle.std.specs.List.{list_all};
ghost use Rattle.std.specs.Option.{option_copied};
ghost use Rattle.vsl_select.specs.Shown.{is_list_byte, names_tag, pattern_fault, rule_fault, split_parts, tags_fault, unless_empty};
ghost use Rattle.vsl_select.specs.inside.Reading.{AreTagsOf, IsPatternOf, IsRead};

use crate::rule_text::{RuleText, SelectFault};
use log_model::Halt;
use std::alloc::Global;
use vsl_pattern::{NoGoodPattern, Pattern};
use vsl_tags::{Tag, TagSet};

/// A rule that was read. Where it has no taglist it names every tag, and where it has no pattern every payload is well.
#[derive(Debug, Drop)]
pub(crate) struct Rule {
    pub text: RuleText,
    pub tags: Option<TagSet>,
    pub pattern: Option<Pattern>,
}

/// Whether a byte may stand in a taglist.
fn is_list_byte(b: u8) -> bool
    ensures { result ≡ is_list_byte b }
{
    b.is_ascii_alphanumeric() || b == b'_' || b == b'*' || b == b','
}

/// Whether a text has only bytes of taglists.
fn is_list(text: &[u8]) -> bool
    ensures { result ≡ list_all is_list_byte text.now }
{
    text.iter().all(|b| is_list_byte(*b))
}

/// The taglist before the first colon, which may be empty, and the pattern behind it.
fn split_at_colon(text: &str) -> Option<(&str, &str)>
    ensures cut { IfSome result (λ parts. ((split_parts text.now).tags ≡ unless_empty parts.0.now) ×
        ((split_parts text.now).pattern ≡ Some parts.1.now)) }
    ensures none { IfNone result (((split_parts text.now).tags ≡ None) ×
        ((split_parts text.now).pattern ≡ Some text.now)) }
{
    let (list, pattern) = text.split_once(':')?;
    if is_list(list.as_bytes()) {
        Some((list, pattern))
    } else {
        None
    }
}

/// The taglist and the pattern of what `-I` and `-X` are given, as `ReqHeader:^Host`.
fn parts_of(text: &str) -> (Option<&str>, &str)
    ensures tags { option_copied result.0 ≡ (split_parts text.now).tags }
    ensures pattern { (split_parts text.now).pattern ≡ Some result.1.now }
{
    match split_at_colon(text) {
        Some((list, pattern)) => {
            if list.is_empty() {
                (None, pattern)
            } else {
                (Some(list), pattern)
            }
        }
        None => (None, text),
    }
}

/// The tags that a taglist names, where there is one. The text is that of the word at this place.
fn read_tags(list: Option<&str>, word: u32) -> Result<Option<TagSet>, SelectFault>
    ensures tags { IfOk result (λ tags. AreTagsOf (option_copied list.entry) tags) }
    ensures good { OnOk result (tags_fault word (option_copied list.entry) ≡ None) }
    ensures refused { IfErr result
        (λ fault. tags_fault word (option_copied list.entry) ≡ Some fault) }
{
    let Some(list) = list else {
        return Ok(None);
    };
    match TagSet::from_list(list) {
        Ok(tags) => Ok(Some(tags)),
        Err(_) => Err(SelectFault::BadTags { word }),
    }
}

/// The pattern of a text, where there is one. The text is that of the word at this place.
fn read_pattern(
    alloc: Global,
    text: Option<&str>,
    caseless: bool,
    word: u32,
) -> Result<Option<Pattern>, SelectFault>
    ensures pattern { IfOk result
        (λ pattern. IsPatternOf caseless (option_copied text.entry) pattern) }
    ensures good { OnOk result (pattern_fault caseless word (option_copied text.entry) ≡ None) }
    ensures refused { IfErr result (λ fault. fault ≢ SelectFault.NoMemory →
        pattern_fault caseless word (option_copied text.entry) ≡ Some fault) }
{
    let Some(text) = text else {
        return Ok(None);
    };
    match Pattern::new(alloc, text.as_bytes(), caseless) {
        Ok(pattern) => Ok(Some(pattern)),
        Err(Halt::Fault(NoGoodPattern)) => Err(SelectFault::BadPattern { word }),
        Err(Halt::NoMemory) => Err(SelectFault::NoMemory),
    }
}

impl Rule {
    /// Reads a rule.
    pub fn new(alloc: Global, text: RuleText, caseless: bool) -> Result<Rule, SelectFault>
        ensures text { IfOk result (λ rule. rule.text ≡ text) }
        ensures read { IfOk result (λ rule. IsRead caseless rule) }
        ensures good { OnOk result (rule_fault caseless text ≡ None) }
        ensures refused { IfErr result (λ fault. fault ≢ SelectFault.NoMemory →
            rule_fault caseless text ≡ Some fault) }
    {
        let word = text.word;
        let (list, pattern) = if text.regex {
            let (list, pattern) = parts_of(text.text.as_str());
            (list, Some(pattern))
        } else {
            (Some(text.text.as_str()), None)
        };
        let tags = read_tags(list, word)?;
        let pattern = read_pattern(alloc, pattern, caseless, word)?;
        Ok(Rule {
            text,
            tags,
            pattern,
        })
    }

    /// Whether the rule names the tag.
    pub fn names(&self, tag: Tag) -> bool
        ensures { (caseless : Bool) → IsRead caseless self.now →
            result ≡ names_tag self.now.text tag }
    {
        match &self.tags {
            Some(tags) => tags.has(tag),
            None => true,
        }
    }
}
