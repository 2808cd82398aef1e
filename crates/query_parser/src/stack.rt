//! What waits, the last first.

ghost use Rattle.std.specs.Prelude.{◌≡◌, ◌∷◌, [], OnOk, MatchOption, IfOk};
ghost use Rattle.std.specs.List.{count_by, list_any};
ghost use Rattle.query_grammar.specs.Moves.{is_mark, is_open, open_count, can_close, tightened, loosened};
ghost use Rattle.query_parser.specs.inside.Stages.{both_of};

use crate::test::Test;
use query_grammar::{StepOver, Waiting};
use std::alloc::{AllocError, Global};
use std::marker::Model;

/// What waits for the unary behind it. Contracts see a list, the last that came first.
#[derive(Drop)]
pub(crate) struct Stack {
    marks: Vec<Waiting>,
}

impl Model for Stack {
    ghost use Rattle.std.specs.Prelude.{List, reverse};
    ghost use Rattle.query_grammar.specs.declared.mode.Waiting.{Waiting};

    ghost Value = { List Waiting };

    ghost view = { λ p. reverse p.marks.items };
}

impl Stack {
    /// Nothing waits.
    pub(crate) fn new(alloc: Global) -> Stack
        ensures { result ≡ [] }
    {
        Stack {
            marks: Vec::new(alloc),
        }
    }

    /// One more waits.
    pub(crate) fn push(&mut self, mark: Waiting) -> Result<(), AllocError>
        ensures ok { OnOk result (self.new ≡ mark ∷ self.old) }
    {
        self.marks.push(mark)?;
        Ok(())
    }

    /// The last waits no more.
    pub(crate) fn pop(&mut self) -> Option<Waiting>
        ensures { MatchOption result ((self.old ≡ []) × (self.new ≡ [])) (λ mark. self.old ≡ mark ∷ self.new) }
    {
        self.marks.pop()
    }

    /// How many parentheses and `not`s are open.
    pub(crate) fn count_open(&self) -> usize
        ensures { result ≡ open_count self.now }
    {
        count_open_marks(&self.marks)
    }

    /// Whether a parenthesis is open.
    pub(crate) fn can_close(&self) -> bool
        ensures { result ≡ can_close self.now }
    {
        has_parenthesis(&self.marks)
    }
}

/// Whether it counts toward the depth.
fn counts(mark: Waiting) -> bool
    ensures { result ≡ is_open mark }
{
    match mark {
        Waiting::Open | Waiting::Not => true,
        Waiting::And | Waiting::Or => false,
    }
}

/// How many count toward the depth.
fn count_open_marks(marks: &[Waiting]) -> usize
    ensures { result ≡ count_by is_open marks.now }
{
    marks.iter().filter(|mark| counts(**mark)).count()
}

/// Whether it is a parenthesis.
fn is_parenthesis(mark: Waiting) -> bool
    ensures { result ≡ is_mark mark }
{
    match mark {
        Waiting::Open => true,
        Waiting::Not | Waiting::And | Waiting::Or => false,
    }
}

/// Whether one of them is a parenthesis.
fn has_parenthesis(marks: &[Waiting]) -> bool
    ensures { result ≡ list_any is_mark marks.now }
{
    marks.iter().any(|mark| is_parenthesis(*mark))
}

/// Ends the `not`s and the `and` before a unary.
pub(crate) fn tighten(
    mut waiting: Stack,
    mut steps: Vec<StepOver<Test>>,
) -> Result<(Stack, Vec<StepOver<Test>>), AllocError>
    ensures { IfOk result (λ x. both_of x ≡ tightened waiting steps.items) }
{
    while let Some(mark) = waiting.pop() {
        match mark {
            Waiting::Not => steps.push(StepOver::Not)?,
            Waiting::And => steps.push(StepOver::And)?,
            Waiting::Or | Waiting::Open => {
                waiting.push(mark)?;
                return Ok((waiting, steps));
            }
        }
    }
    Ok((waiting, steps))
}

/// Ends all that waits up to an open parenthesis.
pub(crate) fn loosen(
    mut waiting: Stack,
    mut steps: Vec<StepOver<Test>>,
) -> Result<(Stack, Vec<StepOver<Test>>), AllocError>
    ensures { IfOk result (λ x. both_of x ≡ loosened waiting steps.items) }
{
    while let Some(mark) = waiting.pop() {
        match mark {
            Waiting::Not => steps.push(StepOver::Not)?,
            Waiting::And => steps.push(StepOver::And)?,
            Waiting::Or => steps.push(StepOver::Or)?,
            Waiting::Open => {
                waiting.push(mark)?;
                return Ok((waiting, steps));
            }
        }
    }
    Ok((waiting, steps))
}
