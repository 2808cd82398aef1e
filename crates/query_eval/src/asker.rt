//! Asking a query of one group, or one record, after the other.

ghost use Rattle.std.specs.Prelude.{◌≡◌, ◌||◌, Bool, List, length, map, IfOk, OnOk};
ghost use Rattle.std.specs.List.{list_any};
ghost use Rattle.query_parser.specs.declared.test.Test.{Test};
ghost use Rattle.query_eval.specs.Meaning.{group_satisfies, record_marks};
ghost use Rattle.query_eval.specs.Marks.{tests_in, tests_of};
ghost use Rattle.query_eval.specs.inside.Kept.{IsKept};
ghost use Rattle.query_eval.specs.inside.Truths.{joined};

use crate::asking::group_satisfies;
use crate::marking::Marking;
use crate::marks::Marks;
use crate::tests::first_test;
use crate::truths::{Steps, truth_of};
use log_model::NoMemory;
use query_grammar::StepOver;
use query_parser::{Query, Test};
use std::alloc::{AllocError, Global};
use txn_rows::Group;
use vsl_pattern::Matching;

/// A test of a query, and what asks its pattern, once that was made.
#[derive(Drop)]
struct Asked<'q> {
    test: &'q Test,
    matching: Option<Matching<'q>>,
    ghost ready: { IsKept test.now matching },
}

impl<'q> Asked<'q> {
    /// A test for which nothing was made.
    fn new(test: &'q Test) -> Asked<'q>
        ensures { result.test.now ≡ test.now }
    {
        Asked {
            test,
            matching: None,
        }
    }

    /// Whether some record of the group satisfies the test.
    fn ask(&mut self, alloc: Global, group: &Group) -> Result<bool, AllocError>
        ensures test { self.new.test.now ≡ self.old.test.now }
        ensures answer { IfOk result (λ b. b ≡ group_satisfies group.now self.old.test.now) }
    {
        group_satisfies(alloc, self.test, &mut self.matching, group)
    }

    /// Whether one of the records satisfies the test, its level left aside.
    fn sees<M: Marking>(&mut self, alloc: Global, marking: &M) -> Result<bool, AllocError>
        ensures test { self.new.test.now ≡ self.old.test.now }
        ensures answer { IfOk result
            (λ b. b ≡ list_any (record_marks self.old.test.now) (M.records marking.now)) }
    {
        marking.marks(alloc, self.test, &mut self.matching)
    }

    /// Makes a mark true that isn't yet, where one of the records satisfies the test, its level left aside.
    fn mark<M: Marking>(
        &mut self,
        alloc: Global,
        mark: &mut bool,
        marking: &M,
    ) -> Result<(), AllocError>
        ensures test { self.new.test.now ≡ self.old.test.now }
        ensures mark { OnOk result
            (mark.new ≡ (mark.old || list_any (record_marks self.old.test.now)
            (M.records marking.now))) }
    {
        if *mark {
            return Ok(());
        }
        *mark = self.sees(alloc, marking)?;
        Ok(())
    }
}

/// The tests among the steps of a query, for which nothing was made.
fn asked_of<'q>(alloc: Global, steps: &'q [StepOver<Test>]) -> Result<Vec<Asked<'q>>, AllocError>
    ensures { IfOk result (λ all. map (λ a. a.test.now) all.items ≡ tests_in steps.now) }
{
    let mut all = Vec::new(alloc);
    let mut left = steps;
    'left: while let Some((test, more)) = first_test(left) {
        all.push(Asked::new(test))?;
        left = more;
    }
    Ok(all)
}

/// Asks all tests of a group.
fn ask_all(
    alloc: Global,
    all: &mut [Asked<'_>],
    group: &Group,
    truths: &mut Vec<bool>,
) -> Result<(), AllocError>
    ensures tests { map (λ a. a.test.now) all.new ≡ map (λ a. a.test.now) all.old }
    ensures truths { OnOk result (truths.new.items ≡
        map (group_satisfies group.now) (map (λ a. a.test.now) all.old)) }
{
    truths.clear();
    for asked in all.iter_mut() {
        truths.push(asked.ask(alloc, group)?)?;
    }
    Ok(())
}

/// Asks the tests whose marks aren't true yet, one after the other.
fn mark_all<M: Marking>(
    alloc: Global,
    all: &mut [Asked<'_>],
    marks: &mut [bool],
    marking: &M,
) -> Result<(), AllocError>
    ensures tests { map (λ a. a.test.now) all.new ≡ map (λ a. a.test.now) all.old }
    ensures len { length marks.new ≡ length marks.old }
    ensures marks { OnOk result (marks.new ≡
        joined marks.old (map (λ test. list_any (record_marks test) (M.records marking.now))
        (map (λ a. a.test.now) all.old))) }
{
    for i in 0..all.len() {
        if marks.len() <= i {
            return Ok(());
        }
        all[i].mark(alloc, &mut marks[i], marking)?;
    }
    Ok(())
}

/// Whether one of the records satisfies some test.
fn sees_any<M: Marking>(
    alloc: Global,
    all: &mut [Asked<'_>],
    marking: &M,
) -> Result<bool, AllocError>
    ensures tests { map (λ a. a.test.now) all.new ≡ map (λ a. a.test.now) all.old }
    ensures answer { IfOk result
        (λ b. b ≡ list_any (λ truth. truth)
        (map (λ test. list_any (record_marks test) (M.records marking.now))
        (map (λ a. a.test.now) all.old))) }
{
    for i in 0..all.len() {
        if all[i].sees(alloc, marking)? {
            return Ok(true);
        }
    }
    Ok(false)
}

/// A query that is asked of groups, or of records, one after the other. It borrows the query. What asks its patterns is
/// made once and kept, and so is the memory for the truths of its tests.
#[derive(Drop)]
pub struct Asker<'q> {
    alloc: Global,
    query: &'q Query,
    tests: Vec<Asked<'q>>,
    truths: Vec<bool>,
    ghost same: { (f : Test → Bool) →
        map f (map (λ a. a.test.now) tests.items) ≡ map f (tests_of query.now) },
}

impl<'q> Asker<'q> {
    ghost use Rattle.std.specs.Prelude.{◌++◌, true, false, IsOk};
    ghost use Rattle.vsl_record.specs.declared.record_type.Record.{Record};
    ghost use Rattle.query_eval.specs.Asker.{asker_query};
    ghost use Rattle.query_eval.specs.Meaning.{is_held};
    ghost use Rattle.query_eval.specs.Marks.{marks_of};

    /// Nothing was asked yet.
    pub fn new(alloc: Global, query: &'q Query) -> Result<Asker<'q>, AllocError>
        ensures { IfOk result (λ a. asker_query a ≡ query.now) }
    {
        Ok(Asker {
            alloc,
            query,
            tests: asked_of(alloc, &query.steps)?,
            truths: Vec::new(alloc),
        })
    }

    /// The query that is asked.
    pub fn query(&self) -> &'q Query
        ensures { result.now ≡ asker_query self.now }
    {
        self.query
    }

    /// Whether the query holds for every group, and has no steps.
    pub fn always(&self) -> bool
        ensures { result ≡ (asker_query self.now).always }
    {
        self.query.always
    }

    /// Whether the query holds for the group. It takes memory for the truths of tests, and for a pattern where a record is
    /// asked, the first time.
    ///
    /// Source: vsl-query(7), "Query Expressions".
    pub fn holds(&mut self, group: &Group) -> Result<bool, AllocError>
        ensures answer { IfOk result (λ b. b ≡ is_held (asker_query self.old) group.now) }
        ensures always { (asker_query self.old).always ≡ true → IsOk result }
        ensures same { asker_query self.new ≡ asker_query self.old }
    {
        if self.query.always {
            return Ok(true);
        }
        ask_all(self.alloc, &mut self.tests, group, &mut self.truths)?;
        Ok(truth_of(Steps::new(&self.query.steps, &self.truths)))
    }

    /// Whether one of the records satisfies some test of the query, its level left aside. Where none does, what marks are
    /// of the records before stays what it is.
    pub fn sees<M: Marking>(&mut self, marking: &M) -> Result<bool, NoMemory>
        ensures answer { IfOk result
            (λ b. b ≡ list_any (λ test. list_any (record_marks test) (M.records marking.now))
            (tests_of (asker_query self.old))) }
        ensures unseen { (records : List Record) →
            IfOk result (λ b. b ≡ false →
            marks_of (asker_query self.old) (records ++ M.records marking.now) ≡ marks_of
            (asker_query self.old) records) }
        ensures same { asker_query self.new ≡ asker_query self.old }
    {
        Ok(sees_any(self.alloc, &mut self.tests, marking)?)
    }

    /// Adds a record, or records, to marks of the query: goes over them for each test that isn't true yet, up to the first
    /// one that satisfies it. Where each mark is true already, no record is looked at. It takes memory for a pattern where
    /// a record is asked, the first time.
    pub fn add<M: Marking>(&mut self, marks: &mut Marks, marking: &M) -> Result<(), NoMemory>
        ensures marks { (records : List Record) →
            marks.old ≡ marks_of (asker_query self.old) records →
            OnOk result (marks.new ≡ marks_of (asker_query self.old)
            (records ++ M.records marking.now)) }
        ensures same { asker_query self.new ≡ asker_query self.old }
    {
        mark_all(
            self.alloc,
            &mut self.tests,
            marks.truths.as_mut_slice(),
            marking,
        )?;
        Ok(())
    }
}
