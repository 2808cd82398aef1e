//! A line that is being read.

ghost use Rattle.std.specs.Prelude.{◌≡◌, ◌∷◌, ◌++◌, ◌+◌, ◌-◌, ◌≤◌, ◌<◌, ◌^◌, ℕ, Bool, List, [], Some, None, true, length, take, drop, nat_lt, if◌then◌else◌, IfOk, IfSome, IfNone};
ghost use Rattle.vsl_tags.specs.TagSet.{matches_any};
ghost use Rattle.query_grammar.specs.declared.lex.Lex.TheVariants.{Begin};
ghost use Rattle.query_grammar.specs.declared.step.StepOver.TheVariants as kinds;
ghost use Rattle.query_grammar.specs.declared.mode.Mode.TheVariants.{BeforeUnary, AfterCriterion, BeforeOperand};
ghost use Rattle.query_grammar.specs.Step.{Step, TestParts};
ghost use Rattle.query_grammar.specs.Lexical.{whole_from, is_one_of, words};
ghost use Rattle.query_grammar.specs.Moves.{tightened, loosened, rested, waits_for, closes, last, open_count};
ghost use Rattle.query_grammar.specs.Scanner.{Deep, run, begin, whole, whole_after_unary, or_syntax, token_done, token_taken, unless_fault, finish_in};
ghost use Rattle.query_grammar.specs.Judging.{criterion_fault};
ghost use Rattle.query_grammar.specs.Grammar.{OperatorToken, CloseMark};
ghost use Rattle.query_grammar.specs.Steps.{test_step};
ghost use Rattle.query_grammar.specs.declared.mode.Waiting.TheVariants as waits;
ghost use Rattle.query_grammar.specs.Munches.{Munches};
ghost use Rattle.query_parser.specs.Answers.{IsAnswer};
ghost use Rattle.query_parser.specs.Meant.{IsMeant};
ghost use Rattle.query_parser.specs.Parsed.{most_open};
ghost use Rattle.query_parser.specs.Operators.{operator_text};
ghost use Rattle.query_parser.specs.inside.Stages.{mode_of, kept_of, at_spot, spot_of, HasWhole, join_token};
ghost use Rattle.query_parser.specs.inside.Follows.{rules, AreMeant, Follows, Takes, Gives};

use crate::check::read_check;
use crate::criterion::{judge_criterion, read_criterion};
use crate::fault::QueryFault;
use crate::operator::{Operator, read_operator};
use crate::stack::{Stack, loosen, tighten};
use crate::test::{Check, Test};
use crate::token::{
    Join, Unary, is_blank_byte, is_over, is_whole, is_word, join_of, mark_len, operand_len,
    unary_len, unary_of,
};
use query_grammar::{Lex, Part, StepOver, Waiting};
use std::alloc::{AllocError, Global};

/// How many parentheses and `not`s may be open at once.
const MOST_OPEN: usize = 64;

/// What is to stand next.
#[derive(Clone, Copy)]
enum Stage<'a> {
    /// A unary.
    Unary,
    /// An operator, or what may stand behind a unary.
    Operator {
        /// The criterion that was read.
        criterion: &'a [u8],
    },
    /// An operand.
    Operand {
        /// The criterion that was read.
        criterion: &'a [u8],
        /// The operator behind it.
        operator: Operator,
    },
    /// `and`, `or`, a closing parenthesis or the line's end.
    Join,
}

/// What is known of a line up to a token of it.
#[derive(Drop)]
struct Draft<'a> {
    stage: Stage<'a>,
    /// Where the last token began that stood where a unary begins; so it is where a test began.
    place: usize,
    waiting: Stack,
    steps: Vec<StepOver<Test>>,
}

impl<'a> Draft<'a> {
    /// Before a line.
    fn new(alloc: Global) -> Draft<'a>
        ensures spot { spot_of result [] [] ≡ begin }
        ensures steps { result.steps.items ≡ [] }
        ensures whole { HasWhole result.stage }
    {
        Draft {
            stage: Stage::Unary,
            place: 0,
            waiting: Stack::new(alloc),
            steps: Vec::new(alloc),
        }
    }

    /// How many of the bytes are a token that may stand here, or begin one.
    fn token_len(&self, rest: &[u8]) -> usize
        ensures within { result ≤ length rest.now }
        ensures munches { (written : List Step) → Munches (mode_of self.now.stage) (kept_of self.now written) [] (take result rest.now) (drop result rest.now) }
    {
        match self.stage {
            Stage::Unary => unary_len(rest),
            Stage::Operator { .. } => mark_len(true, self.waiting.can_close(), rest),
            Stage::Operand { .. } => operand_len(rest),
            Stage::Join => mark_len(false, self.waiting.can_close(), rest),
        }
    }

    /// Before a unary that a mark waits for.
    fn wait(
        mark: Waiting,
        place: usize,
        mut waiting: Stack,
        steps: Vec<StepOver<Test>>,
    ) -> Result<Draft<'a>, AllocError>
        ensures spot { (caseless : Bool) (written : List Step) → AreMeant caseless written steps.items →
            IfOk result (λ d. Follows caseless (at_spot (waits_for mark (waiting, written)) place) d) }
        ensures whole { IfOk result (λ d. HasWhole d.stage) }
    {
        waiting.push(mark)?;
        Ok(Draft {
            stage: Stage::Unary,
            place,
            waiting,
            steps,
        })
    }

    /// Opens a parenthesis or a `not`.
    fn open(self, mark: Waiting, from: usize) -> Result<Draft<'a>, QueryFault>
        ensures spot { (caseless : Bool) (written : List Step) → AreMeant caseless written self.entry.steps.items →
            Takes caseless result (unless_fault (if nat_lt (open_count self.entry.waiting) most_open then None else Some (Deep from)) (at_spot (waits_for mark (self.entry.waiting, written)) from)) }
        ensures whole { IfOk result (λ d. HasWhole d.stage) }
    {
        if self.waiting.count_open() >= MOST_OPEN {
            return Err(QueryFault::Deep { at: from as u64 });
        }
        Ok(Draft::wait(mark, from, self.waiting, self.steps)?)
    }

    /// A token where a unary begins.
    fn unary(mut self, end: usize, word: &'a [u8], rest: &[u8]) -> Result<Draft<'a>, QueryFault>
        requires stage { self.stage ≡ Stage.Unary }
        requires end { length word.now ≤ end }
        ensures spot { (caseless : Bool) (written : List Step) → AreMeant caseless written self.entry.steps.items →
            Takes caseless result (token_done (rules caseless) end (spot_of self.entry written word.now) (whole BeforeUnary word.now rest.now)) }
        ensures whole { IfOk result (λ d. HasWhole d.stage) }
    {
        let from = end - word.len();
        match unary_of(word, rest) {
            Some(Unary::Open) => self.open(Waiting::Open, from),
            Some(Unary::Not) => self.open(Waiting::Not, from),
            Some(Unary::Criterion) => {
                self.stage = Stage::Operator { criterion: word };
                self.place = from;
                Ok(self)
            }
            None => Err(refused_unary(end, word)),
        }
    }

    /// The test is whole.
    fn tested(self, test: Test) -> Result<Draft<'a>, AllocError>
        ensures spot { (caseless : Bool) (parts : TestParts) (written : List Step) → AreMeant caseless written self.entry.steps.items → IsMeant caseless parts test →
            IfOk result (λ d. Follows caseless (at_spot (rested (tightened self.entry.waiting (written ++ kinds.Test parts ∷ []))) self.entry.place) d) }
        ensures stage { IfOk result (λ d. d.stage ≡ Stage.Join) }
    {
        let Draft {
            stage: _,
            place,
            waiting,
            mut steps,
        } = self;
        steps.push(StepOver::Test(test))?;
        let (waiting, steps) = tighten(waiting, steps)?;
        Ok(Draft {
            stage: Stage::Join,
            place,
            waiting,
            steps,
        })
    }

    /// The test is a criterion alone.
    fn selected(self, alloc: Global, criterion: &[u8]) -> Result<Draft<'a>, QueryFault>
        requires whole { whole_from Begin criterion.now ≡ true }
        ensures spot { (caseless : Bool) (written : List Step) → AreMeant caseless written self.entry.steps.items →
            Takes caseless result (unless_fault (criterion_fault matches_any self.entry.place criterion.now) (at_spot (rested (tightened self.entry.waiting (written ++ test_step criterion.now [] [] ∷ []))) self.entry.place)) }
        ensures stage { IfOk result (λ d. d.stage ≡ Stage.Join) }
    {
        judge_criterion(self.place, criterion)?;
        let test = Test {
            criterion: read_criterion(alloc, criterion)?,
            check: Check::Selected,
        };
        Ok(self.tested(test)?)
    }

    /// Closes a parenthesis.
    fn close(self, end: usize) -> Result<Draft<'a>, QueryFault>
        requires stage { self.stage ≡ Stage.Join }
        ensures spot { (caseless : Bool) (written : List Step) (word : List ℕ) → AreMeant caseless written self.entry.steps.items →
            Takes caseless result (token_taken (rules caseless) end (spot_of self.entry written word) CloseMark (closes (loosened self.entry.waiting written))) }
        ensures whole { IfOk result (λ d. HasWhole d.stage) }
    {
        let place = self.place;
        let (mut waiting, steps) = loosen(self.waiting, self.steps)?;
        if let None = waiting.pop() {
            return Err(QueryFault::Syntax { at: end as u64 });
        }
        let (waiting, steps) = tighten(waiting, steps)?;
        Ok(Draft {
            stage: Stage::Join,
            place,
            waiting,
            steps,
        })
    }

    /// `or`.
    fn or(self) -> Result<Draft<'a>, AllocError>
        ensures spot { (caseless : Bool) (written : List Step) → AreMeant caseless written self.entry.steps.items →
            IfOk result (λ d. Follows caseless (at_spot (waits_for waits.Or (loosened self.entry.waiting written)) self.entry.place) d) }
        ensures whole { IfOk result (λ d. HasWhole d.stage) }
    {
        let place = self.place;
        let (waiting, steps) = loosen(self.waiting, self.steps)?;
        Draft::wait(Waiting::Or, place, waiting, steps)
    }

    /// A token behind a unary.
    fn join(self, end: usize, token: Option<Join>) -> Result<Draft<'a>, QueryFault>
        requires stage { self.stage ≡ Stage.Join }
        ensures spot { (caseless : Bool) (written : List Step) (word : List ℕ) → AreMeant caseless written self.entry.steps.items →
            Takes caseless result (token_done (rules caseless) end (spot_of self.entry written word) (join_token token)) }
        ensures whole { IfOk result (λ d. HasWhole d.stage) }
    {
        match token {
            Some(Join::And) => Ok(Draft::wait(Waiting::And, self.place, self.waiting, self.steps)?),
            Some(Join::Or) => Ok(self.or()?),
            Some(Join::Close) => self.close(end),
            None => Err(QueryFault::Syntax { at: end as u64 }),
        }
    }

    /// A token behind a criterion.
    fn behind_criterion(
        mut self,
        alloc: Global,
        end: usize,
        criterion: &'a [u8],
        word: &[u8],
        rest: &[u8],
    ) -> Result<Draft<'a>, QueryFault>
        requires stage { self.stage ≡ Stage.Operator criterion }
        requires whole { whole_from Begin criterion.now ≡ true }
        ensures spot { (caseless : Bool) (written : List Step) → AreMeant caseless written self.entry.steps.items →
            Takes caseless result (token_done (rules caseless) end (spot_of self.entry written word.now) (whole AfterCriterion word.now rest.now)) }
        ensures whole { IfOk result (λ d. HasWhole d.stage) }
    {
        if let Some(operator) = operator_of(word, rest) {
            self.stage = Stage::Operand {
                criterion,
                operator,
            };
            return Ok(self);
        }
        let join = join_of(word, rest);
        self.selected(alloc, criterion)?.join(end, join)
    }

    /// A token where an operand begins.
    fn operand(
        self,
        alloc: Global,
        caseless: bool,
        end: usize,
        criterion: &'a [u8],
        operator: Operator,
        word: &[u8],
    ) -> Result<Draft<'a>, QueryFault>
        requires stage { self.stage ≡ Stage.Operand criterion operator }
        requires whole { whole_from Begin criterion.now ≡ true }
        requires end { length word.now ≤ end }
        ensures spot { (written : List Step) (rest : List ℕ) → AreMeant caseless written self.entry.steps.items →
            Takes caseless result (token_done (rules caseless) end (spot_of self.entry written word.now) (whole BeforeOperand word.now rest)) }
        ensures whole { IfOk result (λ d. HasWhole d.stage) }
    {
        judge_criterion(self.place, criterion)?;
        if !is_whole(Lex::TextNext(Part::Operand), word) {
            return Err(QueryFault::Syntax { at: end as u64 });
        }
        let check = read_check(alloc, caseless, operator, end - word.len(), word)?;
        let criterion = read_criterion(alloc, criterion)?;
        Ok(self.tested(Test { criterion, check })?)
    }

    /// A token.
    fn token(
        self,
        alloc: Global,
        caseless: bool,
        end: usize,
        word: &'a [u8],
        rest: &[u8],
    ) -> Result<Draft<'a>, QueryFault>
        requires whole { HasWhole self.stage }
        requires end { length word.now ≤ end }
        ensures spot { (written : List Step) → AreMeant caseless written self.entry.steps.items →
            Takes caseless result (token_done (rules caseless) end (spot_of self.entry written word.now) (whole (mode_of self.entry.stage) word.now rest.now)) }
        ensures whole { IfOk result (λ d. HasWhole d.stage) }
    {
        match self.stage {
            Stage::Unary => self.unary(end, word, rest),
            Stage::Operator { criterion } => {
                self.behind_criterion(alloc, end, criterion, word, rest)
            }
            Stage::Operand {
                criterion,
                operator,
            } => self.operand(alloc, caseless, end, criterion, operator, word),
            Stage::Join => self.join(end, join_of(word, rest)),
        }
    }

    /// The end of the line behind a unary.
    fn end(self, at: usize) -> Result<Vec<StepOver<Test>>, QueryFault>
        requires stage { self.stage ≡ Stage.Join }
        ensures { (caseless : Bool) (written : List Step) → AreMeant caseless written self.entry.steps.items →
            Gives caseless result (finish_in (rules caseless) at (spot_of self.entry written []) []) }
    {
        let (mut waiting, steps) = loosen(self.waiting, self.steps)?;
        if let Some(_) = waiting.pop() {
            return Err(QueryFault::Syntax { at: at as u64 });
        }
        Ok(steps)
    }

    /// The end of the line.
    fn finish(self, alloc: Global, at: usize) -> Result<Vec<StepOver<Test>>, QueryFault>
        requires { HasWhole self.stage }
        ensures { (caseless : Bool) (written : List Step) → AreMeant caseless written self.entry.steps.items →
            Gives caseless result (finish_in (rules caseless) at (spot_of self.entry written []) []) }
    {
        match self.stage {
            Stage::Operator { criterion } => self.selected(alloc, criterion)?.end(at),
            Stage::Join => self.end(at),
            Stage::Operand { criterion, .. } => {
                judge_criterion(self.place, criterion)?;
                Err(QueryFault::Syntax { at: at as u64 })
            }
            Stage::Unary => Err(QueryFault::Syntax { at: at as u64 }),
        }
    }
}

/// Why bytes are refused where a unary begins.
fn refused_unary(end: usize, word: &[u8]) -> QueryFault
    requires { length word.now ≤ end }
    ensures { IsAnswer result (Some (or_syntax end (if is_one_of words word.now then None else criterion_fault matches_any (end - length word.now) word.now))) }
{
    if is_word(word) {
        return QueryFault::Syntax { at: end as u64 };
    }
    match judge_criterion(end - word.len(), word) {
        Ok(()) => QueryFault::Syntax { at: end as u64 },
        Err(fault) => fault,
    }
}

/// The operator that the bytes are before these bytes.
fn operator_of(word: &[u8], rest: &[u8]) -> Option<Operator>
    ensures found { IfSome result (λ operator. operator_text operator ≡ word.now) }
    ensures some { IfSome result (λ operator. whole AfterCriterion word.now rest.now ≡ Some (OperatorToken word.now)) }
    ensures none { IfNone result (whole AfterCriterion word.now rest.now ≡ whole_after_unary word.now rest.now) }
{
    let operator = read_operator(word)?;
    if is_over(word, rest) {
        Some(operator)
    } else {
        None
    }
}

/// Reads a line that begins at a place.
pub(crate) fn read_line(
    alloc: Global,
    caseless: bool,
    from: usize,
    line: &[u8],
) -> Result<Vec<StepOver<Test>>, QueryFault>
    requires { from + length line.now < 2 ^ 64 }
    ensures { Gives caseless result (run (rules caseless) from begin line.now) }
{
    let mut draft = Draft::new(alloc);
    let mut at = from;
    let mut rest = line;
    while let [byte, after @ ..] = rest {
        if is_blank_byte(*byte) {
            at += 1;
            rest = after;
            continue;
        }
        let (word, behind) = rest.split_at(draft.token_len(rest));
        at += word.len();
        draft = draft.token(alloc, caseless, at, word, behind)?;
        rest = behind;
    }
    draft.finish(alloc, at)
}
