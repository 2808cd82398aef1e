//! Asking the queries.

ghost use Rattle.std.specs.Prelude.{◌≡◌, ◌==◌, ◌++◌, [], false, List, length, map, IfOk, OnOk};
ghost use Rattle.std.specs.List.{list_all};
ghost use Rattle.vsl_record.specs.declared.record_type.Record.{Record};
ghost use Rattle.query_eval.specs.Asker.{asker_query};
ghost use Rattle.query_eval.specs.Meaning.{is_held};
ghost use Rattle.txn_groups.specs.inside.Marked.{queries_of, marks_for, AreMarked, AreMarksOf};
ghost use Rattle.txn_groups.specs.inside.Walked.{visited_group};
ghost use Rattle.txn_groups.specs.inside.Taken.{AreStanding};

use crate::answers::answer_at;
use crate::askers::Askers;
use crate::marks::RowMarks;
use crate::node::Node;
use crate::walk::Visit;
use log_model::NoMemory;
use query_eval::{Asker, Marking, Marks, Truths};
use query_parser::Query;
use std::alloc::Global;
use txn_rows::Group;

/// Whether no query has a step, and so no test.
fn are_testless(queries: &[Query]) -> bool
    ensures { result ≡ list_all (λ query. length query.steps.items == 0) queries.now }
{
    queries.iter().all(|query| query.steps.is_empty())
}

/// The marks of no records.
fn no_marks(alloc: Global, askers: &[Asker<'_>]) -> Result<Vec<Marks>, NoMemory>
    ensures { IfOk result (λ all. all.items ≡ marks_for (map asker_query askers.now) []) }
{
    let mut all = Vec::with_capacity(alloc, askers.len())?;
    for i in 0..askers.len() {
        all.push(Marks::new(alloc, askers[i].query())?)?;
    }
    Ok(all)
}

/// Whether each query holds for a group.
fn ask_each(alloc: Global, askers: &mut [Asker<'_>], group: &Group) -> Result<Truths, NoMemory>
    ensures answers { IfOk result
        (λ truths. truths ≡ map (λ query. is_held query group.now) (map asker_query askers.old)) }
    ensures same { map asker_query askers.new ≡ map asker_query askers.old }
{
    let mut truths = Truths::new(alloc);
    for i in 0..askers.len() {
        truths.push(askers[i].holds(group)?)?;
    }
    Ok(truths)
}

/// Whether one of the records satisfies some test of some query, its level left aside. Where none does, what marks are of
/// the records before stays what it is.
fn see_any<M: Marking>(askers: &mut [Asker<'_>], marking: &M) -> Result<bool, NoMemory>
    ensures unseen { (records : List Record) →
        IfOk result (λ b. b ≡ false →
        marks_for (map asker_query askers.old) (records ++ M.records marking.now) ≡ marks_for
        (map asker_query askers.old) records) }
    ensures same { map asker_query askers.new ≡ map asker_query askers.old }
{
    for i in 0..askers.len() {
        if askers[i].sees(marking)? {
            return Ok(true);
        }
    }
    Ok(false)
}

/// Adds a record, or records, to the marks of each.
fn add_to_each<M: Marking>(
    askers: &mut [Asker<'_>],
    marks: &mut Vec<Marks>,
    marking: &M,
) -> Result<(), NoMemory>
    ensures marks { (records : List Record) →
        marks.old.items ≡ marks_for (map asker_query askers.old) records →
        OnOk result (marks.new.items ≡ marks_for (map asker_query askers.old)
        (records ++ M.records marking.now)) }
    ensures same { map asker_query askers.new ≡ map asker_query askers.old }
{
    for i in 0..askers.len() {
        if marks.len() <= i {
            return Ok(());
        }
        askers[i].add(&mut marks[i], marking)?;
    }
    Ok(())
}

impl<'q> Askers<'q> {
    /// Nothing was asked yet.
    pub(crate) fn new(alloc: Global, queries: &'q [Query]) -> Result<Askers<'q>, NoMemory>
        ensures { IfOk result (λ askers. queries_of askers ≡ queries.now) }
    {
        let mut all = Vec::with_capacity(alloc, queries.len())?;
        for i in 0..queries.len() {
            all.push(Asker::new(alloc, &queries[i])?)?;
        }
        Ok(Askers {
            alloc,
            all,
            testless: are_testless(queries),
        })
    }

    /// Whether each query holds for the group of the nodes of visits, by the marks that they keep.
    pub(crate) fn answers(&self, nodes: &[Node], visits: &[Visit]) -> Result<Truths, NoMemory>
        ensures { AreStanding nodes.now visits.now → AreMarked (queries_of self.now) nodes.now →
            IfOk result (λ truths. truths ≡ map
            (λ query. is_held query (visited_group nodes.now visits.now)) (queries_of self.now)) }
    {
        let mut truths = Truths::new(self.alloc);
        for i in 0..self.all.len() {
            let holds = answer_at(self.alloc, self.all[i].query(), i, nodes, visits)?;
            truths.push(holds)?;
        }
        Ok(truths)
    }

    /// Whether each query holds for a group.
    pub(crate) fn holds(&mut self, group: &Group) -> Result<Truths, NoMemory>
        ensures answers { IfOk result
            (λ truths. truths ≡ map (λ query. is_held query group.now) (queries_of self.old)) }
        ensures same { queries_of self.new ≡ queries_of self.old }
    {
        ask_each(self.alloc, &mut self.all, group)
    }

    /// The marks of no records, of each query.
    pub(crate) fn no_marks(&self) -> Result<RowMarks, NoMemory>
        ensures { IfOk result (λ marks. marks ≡ marks_for (queries_of self.now) []) }
    {
        let all = no_marks(self.alloc, &self.all)?;
        Ok(RowMarks { all })
    }

    /// Adds a record, or records, to the marks of those before. Where no query has a test, nothing is done; and where there
    /// are no marks, none are made as long as no record satisfies a test.
    pub(crate) fn add<M: Marking>(
        &mut self,
        marks: &mut RowMarks,
        marking: &M,
    ) -> Result<(), NoMemory>
        ensures marks { (records : List Record) →
            AreMarksOf (queries_of self.old) records marks.old →
            OnOk result (AreMarksOf (queries_of self.old)
            (records ++ M.records marking.now) marks.new) }
        ensures same { queries_of self.new ≡ queries_of self.old }
    {
        if self.testless {
            return Ok(());
        }
        if marks.all.is_empty() {
            if !see_any(&mut self.all, marking)? {
                return Ok(());
            }
            *marks = self.no_marks()?;
        }
        add_to_each(&mut self.all, &mut marks.all, marking)
    }
}
