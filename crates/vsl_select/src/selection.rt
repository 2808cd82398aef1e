//! What is shown.

ghost use Rattle.std.specs.Prelude.{◌≡◌, ◌≢◌, ◌==◌, ◌&&◌, ◌||◌, not, true, false, List, Some, map, reverse, length, unwrap_or, IfOk, OnOk, IfErr, IsOk};
ghost use Rattle.std.specs.List.{All, filter, list_any};
ghost use Rattle.std.specs.Option.{option_or};
ghost use Rattle.vsl_record.specs.declared.record_type.Record.{Record};
ghost use Rattle.txn_rows.specs.declared.group.Group.{Group};
ghost use Rattle.vsl_select.specs.Showing.{Showing};
ghost use Rattle.vsl_select.specs.Shown.{first_says, has_sides, is_esi, is_shown_alone, is_shown_mark, is_shown_member, is_shown_record, rules_fault, shown, shows_client, shows_everything, shows_mark, shows_others};
ghost use Rattle.vsl_select.specs.inside.Reading.{IsRead};
ghost use Rattle.vsl_select.specs.inside.Rows.{AreRulesOf, IsRowOf};

use crate::file_units::first_mark;
use crate::rule::Rule;
use crate::rule_text::{RuleText, SelectFault, Sides};
use crate::tag_rows::{PLACES, TagRow, rows_of};
use std::alloc::Global;
use std::marker::Model;
use txn_rows::{Kind, Member, Reason};
use vsl_record::Mark;
use vsl_tags::Tag;

/// Which transactions and records are shown. Contracts see the sides and the rules that it was made of.
#[derive(Debug, Drop)]
pub struct Selection {
    alloc: Global,
    sides: Sides,
    caseless: bool,
    rules: Vec<Rule>,
    /// What the rules say of each tag's records, by the tag's number.
    rows: [TagRow; PLACES],
    ghost read: { ∥ All (IsRead caseless) rules.items ∥₁ },
}

impl Model for Selection {
    ghost use Rattle.std.specs.Prelude.{ℕ, map};
    ghost use Rattle.vsl_tags.specs.Tags.{IsTag};
    ghost use Rattle.vsl_select.specs.Showing.{Showing};
    ghost use Rattle.vsl_select.specs.inside.Rows.{IsRowOf, row_at};

    ghost Value = { Showing };

    ghost view = { λ s. record {
      sides = s.sides;
      rules = map (λ r. r.text) s.rules.items;
      caseless = s.caseless;
    } };

    ghost invariant = { λ s. (tag : ℕ) → IsTag tag →
        IsRowOf (map (λ r. r.text) s.rules.items) tag (row_at s.rows tag) };
}

/// Whether what is a client's is shown.
fn shows_client(sides: Sides) -> bool
    ensures { result ≡ shows_client sides }
{
    sides.client || sides.esi
}

/// Whether a record by itself of this mark is shown with `-b`, `-c` or `-E`.
fn shows_mark(sides: Sides, mark: Mark) -> bool
    ensures { result ≡ shows_mark sides mark }
{
    match mark {
        Mark::Client => shows_client(sides),
        Mark::Backend => sides.backend,
        Mark::Plain => false,
    }
}

/// Whether a request that began for this reason is shown with `-b`, `-c` or `-E`.
fn shows_request(sides: Sides, reason: Reason) -> bool
    ensures { result ≡ (shows_client sides && (sides.esi || not (is_esi reason))) }
{
    match reason {
        Reason::Esi => sides.esi,
        Reason::Rxreq => shows_client(sides),
        Reason::Other => shows_client(sides),
    }
}

/// Reads rules in their order, up to the first that is refused.
fn read_rules(alloc: Global, rules: Vec<RuleText>, caseless: bool) -> Result<Vec<Rule>, SelectFault>
    ensures read { IfOk result (λ read. All (IsRead caseless) read.items) }
    ensures texts { IfOk result (λ read. map (λ r. r.text) read.items ≡ rules.items) }
    ensures good { OnOk result (rules_fault caseless rules.items ≡ None) }
    ensures refused { IfErr result (λ fault. fault ≢ SelectFault.NoMemory →
        rules_fault caseless rules.items ≡ Some fault) }
{
    let mut read = Vec::new(alloc);
    for text in rules {
        let rule = Rule::new(alloc, text, caseless)?;
        if read.push(rule).is_err() {
            return Err(SelectFault::NoMemory);
        }
    }
    Ok(read)
}

/// Whether the first of `-I` and `-X` includes.
fn first_pattern_includes(rules: &[Rule]) -> bool
    ensures { result ≡ unwrap_or (first_says (λ r. r.regex) (map (λ r. r.text) rules.now)) false }
{
    match rules.iter().find(|rule| rule.text.regex) {
        Some(rule) => rule.text.include,
        None => false,
    }
}

/// Whether the first of `-i` and `-x` includes.
fn first_list_includes(rules: &[Rule]) -> bool
    ensures { result ≡ unwrap_or
        (first_says (λ r. not r.regex) (map (λ r. r.text) rules.now)) false }
{
    match rules.iter().find(|rule| !rule.text.regex) {
        Some(rule) => rule.text.include,
        None => false,
    }
}

/// Whether a record for which no rule decides is shown.
fn shows_others(rules: &[Rule]) -> bool
    ensures { result ≡ shows_others (map (λ r. r.text) rules.now) }
{
    !first_list_includes(rules) && !first_pattern_includes(rules)
}

impl Selection {
    /// What these sides and rules show. The rules are read in order, and the first that is refused is the answer: for its taglist,
    /// or else for its pattern. Where no side is set, all transactions are shown, and where there is no rule, all records.
    ///
    /// Source: varnishlog(1), `-b`, `-c`, `-E`, `-i`, `-x`, `-I`, `-X` and `-C`.
    pub fn new(
        alloc: Global,
        sides: Sides,
        rules: Vec<RuleText>,
        caseless: bool,
    ) -> Result<Selection, SelectFault>
        ensures made { IfOk result
            (λ s. s ≡ record { sides = sides; rules = rules.items; caseless = caseless }) }
        ensures good { OnOk result (rules_fault caseless rules.items ≡ None) }
        ensures refused { IfErr result (λ fault. fault ≢ SelectFault.NoMemory →
            rules_fault caseless rules.items ≡ Some fault) }
    {
        let rules = read_rules(alloc, rules, caseless)?;
        let rows = rows_of(&rules, shows_others(&rules));
        Ok(Selection {
            alloc,
            sides,
            caseless,
            rules,
            rows,
        })
    }

    /// Whether nothing is hidden.
    pub fn shows_everything(&self) -> bool
        ensures told { result ≡ shows_everything self.now }
        ensures all { result ≡ true → (group : Group) → shown self.now group ≡ group }
        ensures alone { result ≡ true → (records : List Record) →
            filter (is_shown_alone self.now) records ≡ records }
    {
        !self.has_sides() && self.rules.is_empty()
    }

    /// Whether every record of a shown transaction is shown.
    pub fn shows_every_record(&self) -> bool
        ensures told { result ≡ (length self.now.rules == 0) }
        ensures all { result ≡ true → (records : List Record) →
            filter (is_shown_record self.now) records ≡ records }
    {
        self.rules.is_empty()
    }

    /// Whether some transactions are hidden.
    fn has_sides(&self) -> bool
        ensures { result ≡ has_sides self.now.sides }
    {
        self.sides.backend || self.sides.client || self.sides.esi
    }

    /// Whether the transaction is shown.
    pub fn shows_member(&self, member: &Member) -> bool
        ensures { result ≡ is_shown_member self.now.sides member.now }
    {
        if !self.has_sides() {
            return true;
        }
        match member.kind {
            Kind::Request => shows_request(self.sides, member.reason),
            Kind::BeReq => self.sides.backend,
            Kind::Record => shows_mark(self.sides, first_mark(&member.records.view())),
            Kind::Session => false,
            Kind::Unknown => false,
        }
    }

    /// Whether records by themselves of this mark are shown.
    #[inline]
    pub fn shows_mark(&self, mark: Mark) -> bool
        ensures { result ≡ is_shown_mark self.now.sides mark }
    {
        !self.has_sides() || shows_mark(self.sides, mark)
    }

    /// The rules, as they were read.
    pub(crate) fn rules(&self) -> &[Rule]
        ensures { AreRulesOf self.now result.now }
    {
        &self.rules
    }

    /// The row of a tag.
    #[inline]
    pub(crate) fn row(&self, tag: Tag) -> TagRow
        ensures { IsRowOf self.now.rules tag result }
    {
        self.rows[usize::from(tag.number())]
    }
}
