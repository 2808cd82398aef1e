//! What the steps of a query leave, where their tests have truths.

ghost use Rattle.std.specs.Prelude.{◌≡◌, ◌∷◌, [], ◌+◌, ◌^◌, ◌<◌, ◌≤◌, Bool, false, List, length, IfSome, IfNone};
ghost use Rattle.query_eval.specs.Marks.{truth_of, with_truths};
ghost use Rattle.query_eval.specs.inside.Truths.{behind_decided, AreLeft};

use query_grammar::StepOver;
use query_parser::Test;
use std::marker::Model;

/// The steps that are left, with the truths of their tests. Contracts see steps of truths.
#[derive(Drop)]
pub(crate) struct Steps<'a> {
    steps: &'a [StepOver<Test>],
    truths: &'a [bool],
}

impl<'a> Model for Steps<'a> {
    ghost use Rattle.std.specs.Prelude.{List, Bool};
    ghost use Rattle.query_grammar.specs.declared.step.StepOver.{StepOver};
    ghost use Rattle.query_eval.specs.Marks.{with_truths};

    ghost Value = { List (StepOver Bool) };

    ghost view = { λ s. with_truths s.steps.now s.truths.now };
}

impl<'a> Steps<'a> {
    /// These steps, where their tests have these truths, in order.
    pub(crate) fn new(steps: &'a [StepOver<Test>], truths: &'a [bool]) -> Steps<'a>
        ensures { result ≡ with_truths steps.now truths.now }
    {
        Steps { steps, truths }
    }

    /// How many steps there are.
    #[tactic(auto, using(crate::proofs::TruthLemmas::length_with))]
    fn len(&self) -> usize
        ensures { result ≡ length self.now }
    {
        self.steps.len()
    }

    /// The same steps.
    fn again(&self) -> Steps<'a>
        ensures { result ≡ self.now }
    {
        Steps::new(self.steps, self.truths)
    }

    /// Takes the next step.
    fn next(&mut self) -> Option<StepOver<bool>>
        ensures some { IfSome result (λ step. self.old ≡ step ∷ self.new) }
        ensures none { IfNone result (self.old ≡ []) }
    {
        let [step, more @ ..] = self.steps else {
            return None;
        };
        self.steps = more;
        match step {
            StepOver::Test(_) => match self.truths {
                [truth, others @ ..] => {
                    self.truths = others;
                    Some(StepOver::Test(*truth))
                }
                [] => Some(StepOver::Test(false)),
            },
            StepOver::Not => Some(StepOver::Not),
            StepOver::And => Some(StepOver::And),
            StepOver::Or => Some(StepOver::Or),
        }
    }
}

/// What is behind the operator whose first operand has this truth, where that alone decides it. The first test of the
/// other operand was taken from the steps.
fn behind_decided(mut steps: Steps<'_>, truth: bool) -> Option<Steps<'_>>
    ensures { result ≡ behind_decided truth 0 steps.entry }
{
    // no more truths than steps are left
    let _most = steps.len();
    let mut above: usize = 0;
    'steps: while let Some(step) = steps.next() {
        match step {
            StepOver::Test(_) => above += 1,
            StepOver::Not => {}
            StepOver::And => {
                if above == 0 {
                    return if truth { None } else { Some(steps) };
                }
                above -= 1;
            }
            StepOver::Or => {
                if above == 0 {
                    return if truth { Some(steps) } else { None };
                }
                above -= 1;
            }
        }
    }
    None
}

/// The last of the truths that steps left, false where there is none, and how many there are. None below the last one
/// decides its operator.
#[derive(Drop)]
struct Left {
    last: bool,
    count: usize,
}

impl Left {
    /// What is behind the operator whose first operand is the last truth, where that alone decides it.
    fn behind<'a>(&self, steps: &Steps<'a>) -> Option<Steps<'a>>
        ensures some { IfSome result (λ behind. (0 < self.now.count) ×
            (behind_decided self.now.last 0 steps.now ≡ Some behind)) }
        ensures none { IfNone result (0 < self.now.count →
            behind_decided self.now.last 0 steps.now ≡ None) }
    {
        if self.count == 0 {
            return None;
        }
        behind_decided(steps.again(), self.last)
    }

    /// Takes a step; where it is the test with which the other operand of a decided operator begins, it passes over that
    /// operand and the operator.
    fn take(&mut self, step: StepOver<bool>, steps: &mut Steps<'_>)
        requires { self.old.count + 1 < 2 ^ 64 }
        ensures left { (left : List Bool) →
            AreLeft self.old.last self.old.count (step ∷ steps.old) left →
            AreLeft self.new.last self.new.count steps.new left }
        ensures count { self.new.count ≤ self.old.count + 1 }
        ensures fewer { length steps.new ≤ length steps.old }
        ensures passed { self.new.count + length steps.new ≤ self.old.count + length steps.old + 1 }
    {
        match step {
            StepOver::Test(truth) => {
                if let Some(behind) = self.behind(steps) {
                    *steps = behind;
                    return;
                }
                self.last = truth;
                self.count += 1;
            }
            StepOver::Not => {
                if self.count == 0 {
                    return;
                }
                self.last = !self.last;
            }
            StepOver::And => self.join(),
            StepOver::Or => self.join(),
        }
    }

    /// Takes the operator that the truth below the last one doesn't decide. Where there aren't two, none is left.
    fn join(&mut self)
        ensures two { 1 < self.old.count → (self.new.last ≡ self.old.last) ×
            (self.new.count + 1 ≡ self.old.count) }
        ensures fewer { self.old.count ≤ 1 → (self.new.last ≡ false) × (self.new.count ≡ 0) }
    {
        if self.count <= 1 {
            self.last = false;
            self.count = 0;
            return;
        }
        self.count -= 1;
    }
}

/// The truth that steps leave. It takes no memory: behind an operand that decides its operator the other one is passed
/// over, and so of the truths below the last one it is enough to know how many they are.
pub(crate) fn truth_of(mut steps: Steps<'_>) -> bool
    ensures { result ≡ truth_of steps.entry }
{
    // no more truths than steps are left
    let _most = steps.len();
    let mut left = Left {
        last: false,
        count: 0,
    };
    'steps: while let Some(step) = steps.next() {
        left.take(step, &mut steps);
    }
    left.last
}
