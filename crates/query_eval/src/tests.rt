//! The tests among the steps of a query.

ghost use Rattle.std.specs.Prelude.{◌≡◌, ◌<◌, ◌∷◌, [], map, length, false, IfOk, IfSome, IfNone};
ghost use Rattle.query_eval.specs.Marks.{tests_in};

use query_grammar::StepOver;
use query_parser::Test;
use smallvec::SmallVec;
use std::alloc::{AllocError, Global};

/// Whether tests are true, in their order. Those of at most 16 take no memory.
pub(crate) type TestTruths = SmallVec<bool, 16>;

/// The first test among steps, and the steps behind it.
pub(crate) fn first_test(steps: &[StepOver<Test>]) -> Option<(&Test, &[StepOver<Test>])>
    ensures some { IfSome result (λ x. tests_in steps.now ≡ x.0.now ∷ tests_in x.1.now) }
    ensures none { IfNone result (tests_in steps.now ≡ []) }
    ensures fewer { IfSome result (λ x. length x.1.now < length steps.now) }
{
    let mut left = steps;
    'left: while let Some((step, more)) = left.split_first() {
        if let StepOver::Test(test) = step {
            return Some((test, more));
        }
        left = more;
    }
    None
}

/// For each test among steps that it isn't true.
pub(crate) fn none_true(alloc: Global, steps: &[StepOver<Test>]) -> Result<TestTruths, AllocError>
    ensures { IfOk result (λ truths. truths.items ≡ map (λ _. false) (tests_in steps.now)) }
{
    let mut truths = SmallVec::new(alloc);
    let mut left = steps;
    'left: while let Some((_, more)) = first_test(left) {
        truths.push(false)?;
        left = more;
    }
    Ok(truths)
}
