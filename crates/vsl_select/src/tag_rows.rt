//! What the rules say of each tag's records before a payload is looked at.

ghost use Rattle.std.specs.Prelude.{◌≡◌, ◌&&◌, not, ℕ, Bool, map, reverse};
ghost use Rattle.std.specs.List.{All, list_any};
ghost use Rattle.vsl_tags.specs.Tags.{IsTag};
ghost use Rattle.vsl_select.specs.Shown.{first_says, names_tag, shows_others};
ghost use Rattle.vsl_select.specs.inside.Reading.{IsRead};
ghost use Rattle.vsl_select.specs.inside.Rows.{IsRowOf, row_at};

use crate::rule::Rule;
use vsl_tags::Tag;

/// The highest number of a tag.
const LAST: u8 = 92;

/// A place for each tag, and one for 0.
pub(crate) const PLACES: usize = LAST as usize + 1;

/// What the rules of a selection say of a tag's records, whatever their payloads are.
#[derive(Clone, Copy, Debug)]
pub(crate) struct TagRow {
    /// Whether a rule of `-I` or `-X` names the tag, so that its records are asked.
    pub asked: bool,
    /// Whether its records are shown where no rule of `-I` or `-X` matches them.
    pub shown: bool,
}

/// Whether a rule of `-I` or `-X` names the tag.
fn is_asked(rules: &[Rule], tag: Tag) -> bool
    ensures { (caseless : Bool) → All (IsRead caseless) rules.now →
        result ≡ list_any (λ r. r.regex && names_tag r tag) (map (λ r. r.text) rules.now) }
{
    for rule in rules {
        if rule.text.regex && rule.names(tag) {
            return true;
        }
    }
    false
}

/// What the last of `-i` and `-x` that names the tag says.
fn last_named(rules: &[Rule], tag: Tag) -> Option<bool>
    ensures { (caseless : Bool) → All (IsRead caseless) rules.now →
        result ≡ first_says (λ r. not r.regex && names_tag r tag)
        (reverse (map (λ r. r.text) rules.now)) }
{
    let mut said = None;
    for rule in rules {
        if !rule.text.regex && rule.names(tag) {
            said = Some(rule.text.include);
        }
    }
    said
}

/// The row of a tag.
fn row_of(rules: &[Rule], others: bool, tag: Tag) -> TagRow
    requires others { others ≡ shows_others (map (λ r. r.text) rules.now) }
    ensures { (caseless : Bool) → All (IsRead caseless) rules.now →
        IsRowOf (map (λ r. r.text) rules.now) tag result }
{
    TagRow {
        asked: is_asked(rules, tag),
        shown: last_named(rules, tag).unwrap_or(others),
    }
}

/// The rows of all tags, by their numbers. `others` is whether a record for which no rule decides is shown.
pub(crate) fn rows_of(rules: &[Rule], others: bool) -> [TagRow; PLACES]
    requires others { others ≡ shows_others (map (λ r. r.text) rules.now) }
    ensures { (caseless : Bool) → All (IsRead caseless) rules.now → (tag : ℕ) → IsTag tag →
        IsRowOf (map (λ r. r.text) rules.now) tag (row_at result tag) }
{
    let nothing = TagRow {
        asked: false,
        shown: false,
    };
    let mut rows = [nothing; PLACES];
    for number in 1..=LAST {
        let Some(tag) = Tag::from_number(number) else {
            unreachable!()
        };
        rows[usize::from(number)] = row_of(rules, others, tag);
    }
    rows
}
