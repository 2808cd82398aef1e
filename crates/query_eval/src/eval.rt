//! Asking a query of a group.

ghost use Rattle.std.specs.Prelude.{◌≡◌, ◌≢◌, ◌∷◌, [], true, false, IfOk, IsOk, IfSome, IfNone};
ghost use Rattle.query_grammar.specs.declared.step.StepOver.TheVariants as kinds;
ghost use Rattle.query_parser.specs.declared.test.Test.{Test as AsTest};
ghost use Rattle.query_eval.specs.Meaning.{is_held};
ghost use Rattle.query_eval.specs.Asking.{has_pattern};

use crate::asker::Asker;
use crate::asking::group_satisfies;
use query_grammar::StepOver;
use query_parser::{Query, Test};
use std::alloc::{AllocError, Global};
use txn_rows::Group;

/// Whether the query holds for the group. It takes memory for several tests and their truths, and for a pattern where a
/// record is asked; the query that holds for every group, and one test without a pattern, take none.
///
/// Source: vsl-query(7), "Query Expressions".
pub fn holds(alloc: Global, query: &Query, group: &Group) -> Result<bool, AllocError>
    ensures answer { IfOk result (λ b. b ≡ is_held query.now group.now) }
    ensures always { query.now.always ≡ true → IsOk result }
    ensures one { (test : AsTest) → query.now.steps.items ≡ kinds.Test test ∷ [] →
        has_pattern test.check ≡ false → IsOk result }
{
    if query.always {
        return Ok(true);
    }
    if let Some(test) = only_test(&query.steps) {
        let mut matching = None;
        return group_satisfies(alloc, test, &mut matching, group);
    }
    let mut asker = Asker::new(alloc, query)?;
    asker.holds(group)
}

/// The test of a query that is one test.
fn only_test(steps: &[StepOver<Test>]) -> Option<&Test>
    ensures some { IfSome result (λ test. steps.now ≡ kinds.Test test.now ∷ []) }
    ensures none { IfNone result ((test : AsTest) → steps.now ≢ kinds.Test test ∷ []) }
{
    match steps {
        [StepOver::Test(test)] => Some(test),
        _ => None,
    }
}
