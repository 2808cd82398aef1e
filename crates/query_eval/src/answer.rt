//! Whether a query holds for a group, by the marks of its members.

ghost use Rattle.std.specs.Prelude.{◌≡◌, ◌||◌, ◌&&◌, [], ◌∷◌, ◌++◌, List, length, IfOk};
ghost use Rattle.txn_rows.specs.declared.group.Group.{Group};
ghost use Rattle.txn_rows.specs.declared.group.Member.{Member};
ghost use Rattle.query_eval.specs.Meaning.{is_held, meets_level};
ghost use Rattle.query_eval.specs.Marks.{answer_of, is_held_by, marks_of, tests_in};
ghost use Rattle.query_eval.specs.inside.Truths.{joined, marked_of};

use crate::marks::Marks;
use crate::selection::meets_level;
use crate::tests::{TestTruths, first_test, none_true};
use crate::truths::{Steps, truth_of};
use log_model::NoMemory;
use query_grammar::StepOver;
use query_parser::{Query, Test};
use std::alloc::Global;
use std::marker::Model;

/// For each test of a query, in order, whether some member so far meets its level and has its mark. Contracts see the
/// list of truths.
#[derive(Drop)]
pub struct Answer {
    truths: TestTruths,
}

impl Model for Answer {
    ghost use Rattle.std.specs.Prelude.{List, Bool};

    ghost Value = { List Bool };

    ghost view = { λ a. a.truths.items };
}

impl Answer {
    /// The answer of no members.
    pub fn new(alloc: Global, query: &Query) -> Result<Answer, NoMemory>
        ensures { IfOk result (λ a. a ≡ answer_of query.now []) }
    {
        Ok(Answer {
            truths: none_true(alloc, &query.steps)?,
        })
    }

    /// Adds a member of this level, with the marks of its records. It takes no memory.
    pub fn member(&mut self, query: &Query, level: u32, marks: &Marks)
        ensures { (members : List Member) (member : Member) →
            self.old ≡ answer_of query.now members →
            level ≡ member.level → marks.now ≡ marks_of query.now member.records →
            self.new ≡ answer_of query.now (members ++ member ∷ []) }
    {
        join_marks(
            self.truths.as_mut_slice(),
            &query.steps,
            level,
            marks.truths.as_slice(),
        );
    }

    /// Whether the query holds for the group of the members so far. It takes no memory.
    ///
    /// Source: vsl-query(7), "Query Expressions".
    pub fn value(&self, query: &Query) -> bool
        ensures truths { result ≡ is_held_by query.now self.now }
        ensures group { (group : Group) → self.now ≡ answer_of query.now group.members →
            result ≡ is_held query.now group }
    {
        query.always || truth_of(Steps::new(&query.steps, self.truths.as_slice()))
    }
}

/// Makes those of the truths true whose test's level is met, and has its mark.
fn join_marks(truths: &mut [bool], steps: &[StepOver<Test>], level: u32, marks: &[bool])
    ensures len { length truths.new ≡ length truths.old }
    ensures truths { truths.new ≡ joined truths.old
        (marked_of level (tests_in steps.now) marks.now) }
{
    let mut left = steps;
    for i in 0..truths.len() {
        let Some((test, more)) = first_test(left) else {
            return;
        };
        if marks.len() <= i {
            return;
        }
        truths[i] = is_satisfied(truths[i], test, level, marks[i]);
        left = more;
    }
}

/// Whether a test was satisfied before, or is by a member of this level with this mark.
fn is_satisfied(before: bool, test: &Test, level: u32, mark: bool) -> bool
    ensures { result ≡ (before || (meets_level test.now.criterion.level level && mark)) }
{
    before || (meets_level(test.criterion.level, level) && mark)
}
