//! A selection that is asked of one record after the other.

ghost use Rattle.std.specs.Prelude.{◌≡◌, ◌&&◌, Bool, map, IfOk, IfSome};
ghost use Rattle.std.specs.List.{All};
ghost use Rattle.std.specs.Option.{ForSome};
ghost use Rattle.vsl_pattern.specs.Patterns.{is_match, pattern_text, pattern_caseless};
ghost use Rattle.vsl_select.specs.Shown.{first_says, is_matched};
ghost use Rattle.vsl_select.specs.inside.Reading.{IsRead};
ghost use Rattle.vsl_select.specs.inside.Rows.{IsKept, IsMatchingOf};

use crate::rule::Rule;
use crate::selection::Selection;
use log_model::NoMemory;
use std::alloc::{AllocError, Global};
use std::marker::Model;
use txn_rows::Member;
use vsl_pattern::{Matching, Pattern};
use vsl_record::{RecordView, Records};

/// A rule of a selection, and what asks its pattern, once that was made.
#[derive(Drop)]
struct AskedRule<'s> {
    rule: &'s Rule,
    matching: Option<Matching<'s>>,
    ghost kept: { IsKept rule.now.pattern matching },
}

/// Whether the pattern matches somewhere in the text. What asks it is made where there is none yet.
fn is_match<'p>(
    alloc: Global,
    pattern: &'p Pattern,
    matching: &mut Option<Matching<'p>>,
    text: &[u8],
) -> Result<bool, AllocError>
    requires ready { IfSome matching.old (IsMatchingOf pattern.now) }
    ensures answer { IfOk result
        (λ b. b ≡ is_match (pattern_caseless pattern.now) (pattern_text pattern.now) text.now) }
    ensures ready { IfSome matching.new (IsMatchingOf pattern.now) }
{
    if let Some(made) = matching {
        return Ok(made.is_match(text));
    }
    let mut made = pattern.matching(alloc)?;
    let found = made.is_match(text);
    *matching = Some(made);
    Ok(found)
}

impl<'s> AskedRule<'s> {
    /// A rule for which nothing was made.
    fn new(rule: &'s Rule) -> AskedRule<'s>
        ensures { result.rule.now ≡ rule.now }
    {
        AskedRule {
            rule,
            matching: None,
        }
    }

    /// Whether the rule is `-I` or `-X` and matches the record. Its tag is asked first, and a payload is looked at only
    /// where there is a pattern.
    fn fits(&mut self, alloc: Global, rec: &RecordView<'_>) -> Result<bool, NoMemory>
        ensures rule { self.new.rule.now ≡ self.old.rule.now }
        ensures fits { (caseless : Bool) → IsRead caseless self.old.rule.now →
            IfOk result (λ b. b ≡ (self.old.rule.now.text.regex &&
            is_matched caseless rec.now self.old.rule.now.text)) }
    {
        let rule = self.rule;
        if !rule.text.regex {
            return Ok(false);
        }
        if !rule.names(rec.tag()) {
            return Ok(false);
        }
        match &rule.pattern {
            Some(pattern) => Ok(is_match(alloc, pattern, &mut self.matching, rec.payload())?),
            None => Ok(true),
        }
    }
}

/// Rules for which nothing was made.
fn asked_of<'s>(alloc: Global, rules: &'s [Rule]) -> Result<Vec<AskedRule<'s>>, NoMemory>
    ensures { IfOk result (λ all. map (λ a. a.rule.now) all.items ≡ rules.now) }
{
    let mut all = Vec::new(alloc);
    for rule in rules {
        if all.push(AskedRule::new(rule)).is_err() {
            return Err(NoMemory);
        }
    }
    Ok(all)
}

/// What the first of `-I` and `-X` that matches the record says. It is kept out of line, since what asks a pattern takes
/// much of the stack.
#[inline(never)]
fn first_match(
    alloc: Global,
    all: &mut [AskedRule<'_>],
    rec: &RecordView<'_>,
) -> Result<Option<bool>, NoMemory>
    ensures rules { map (λ a. a.rule.now) all.new ≡ map (λ a. a.rule.now) all.old }
    ensures said { (caseless : Bool) → All (IsRead caseless) (map (λ a. a.rule.now) all.old) →
        IfOk result (λ said. said ≡ first_says
        (λ r. r.regex && is_matched caseless rec.now r)
        (map (λ r. r.text) (map (λ a. a.rule.now) all.old))) }
{
    for i in 0..all.len() {
        if all[i].fits(alloc, rec)? {
            return Ok(Some(all[i].rule.text.include));
        }
    }
    Ok(None)
}

/// A selection that is asked of records, one after the other. It borrows the selection. What asks a pattern is made once
/// for each rule, with the first record that is asked, and kept. Contracts see what the selection shows.
#[derive(Drop)]
pub struct Viewer<'s> {
    alloc: Global,
    selection: &'s Selection,
    rules: Vec<AskedRule<'s>>,
}

impl<'s> Model for Viewer<'s> {
    ghost use Rattle.std.specs.Prelude.{map};
    ghost use Rattle.vsl_select.specs.Showing.{Showing};
    ghost use Rattle.vsl_select.specs.inside.Rows.{AreRulesOf};

    ghost Value = { Showing };

    ghost view = { λ v. v.selection.now };

    ghost invariant = { λ v. AreRulesOf v.selection.now (map (λ a. a.rule.now) v.rules.items) };
}

impl<'s> Viewer<'s> {
    ghost use Rattle.std.specs.Prelude.{false, IsOk};
    ghost use Rattle.std.specs.List.{filter, list_any};
    ghost use Rattle.vsl_select.specs.Shown.{is_shown_alone, is_shown_record};

    /// Nothing was asked yet.
    pub fn new(alloc: Global, selection: &'s Selection) -> Result<Viewer<'s>, NoMemory>
        ensures { IfOk result (λ v. v ≡ selection.now) }
    {
        Ok(Viewer {
            alloc,
            selection,
            rules: asked_of(alloc, selection.rules())?,
        })
    }

    /// The selection.
    #[inline]
    pub fn selection(&self) -> &'s Selection
        ensures { result.now ≡ self.now }
    {
        self.selection
    }

    /// Whether the record is shown, in a transaction that is. It takes memory for a pattern, with the first record of the
    /// rule's tags; without `-I` and `-X` it takes none.
    #[inline]
    pub fn shows(&mut self, rec: &RecordView<'_>) -> Result<bool, NoMemory>
        ensures shown { IfOk result (λ b. b ≡ is_shown_record self.old rec.now) }
        ensures answered { list_any (λ r. r.regex) self.old.rules ≡ false → IsOk result }
        ensures same { self.new ≡ self.old }
    {
        let row = self.selection.row(rec.tag());
        if !row.asked {
            return Ok(row.shown);
        }
        let said = first_match(self.alloc, &mut self.rules, rec)?;
        Ok(said.unwrap_or(row.shown))
    }

    /// Whether the record is shown by itself, as under raw grouping.
    #[inline]
    pub fn shows_alone(&mut self, rec: &RecordView<'_>) -> Result<bool, NoMemory>
        ensures shown { IfOk result (λ b. b ≡ is_shown_alone self.old rec.now) }
        ensures same { self.new ≡ self.old }
    {
        if !self.selection.shows_mark(rec.mark()) {
            return Ok(false);
        }
        self.shows(rec)
    }

    /// Copies of the shown records of a transaction.
    pub fn shown_records(&mut self, member: &Member) -> Result<Records, NoMemory>
        ensures shown { IfOk result (λ records.
            records ≡ filter (is_shown_record self.old) member.now.records) }
        ensures same { self.new ≡ self.old }
    {
        let mut shown = Records::new(self.alloc);
        let records = member.records.view();
        for i in 0..records.len() {
            let rec = records.get(i);
            if self.shows(&rec)? {
                shown.push(&rec)?;
            }
        }
        Ok(shown)
    }
}
