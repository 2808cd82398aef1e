//! Reading what is asked of a selected record.

ghost use Rattle.std.specs.Prelude.{◌≡◌, ℕ, None, IfOk, OnOk, IfErr};
ghost use Rattle.query_grammar.specs.Judging.{operand_fault};
ghost use Rattle.query_parser.specs.Answers.{IsAnswer};
ghost use Rattle.query_parser.specs.Meant.{IsCheck, is_integer};
ghost use Rattle.query_parser.specs.Operators.{operator_text};
ghost use Rattle.query_parser.specs.Parsed.{is_decimal};
ghost use Rattle.vsl_pattern.specs.Patterns.{is_good_pattern};

use crate::fault::QueryFault;
use crate::literal::Literal;
use crate::operator::Operator;
use crate::test::Check;
use log_model::Halt;
use std::alloc::Global;
use vsl_decimal::read_decimal;
use vsl_pattern::{NoGoodPattern, Pattern};

/// Reads what an operator and an operand, which begins at this byte, ask.
pub(crate) fn read_check(
    alloc: Global,
    caseless: bool,
    operator: Operator,
    at: usize,
    operand: &[u8],
) -> Result<Check, QueryFault>
    ensures check { IfOk result (λ c. IsCheck caseless (operator_text operator) operand.now c) }
    ensures fine { OnOk result ((place : ℕ) → operand_fault is_decimal (is_good_pattern caseless) place (operator_text operator) operand.now ≡ None) }
    ensures refused { IfErr result (λ f. IsAnswer f (operand_fault is_decimal (is_good_pattern caseless) at (operator_text operator) operand.now)) }
{
    let text = Literal::read(alloc, operand)?;
    match operator {
        Operator::Number(comparison) => match read_decimal(text.as_slice()) {
            Some(operand) => {
                let whole = is_whole(text.as_slice());
                Ok(Check::Number {
                    comparison,
                    operand,
                    whole,
                })
            }
            None => Err(QueryFault::Number { at: at as u64 }),
        },
        Operator::Text(equal) => Ok(Check::Text {
            equal,
            caseless,
            operand: text,
        }),
        Operator::Pattern(matches) => match Pattern::new(alloc, text.as_slice(), caseless) {
            Ok(pattern) => Ok(Check::Pattern { matches, pattern }),
            Err(Halt::Fault(NoGoodPattern)) => Err(QueryFault::Pattern { at: at as u64 }),
            Err(Halt::NoMemory) => Err(QueryFault::NoMemory),
        },
    }
}

/// Whether a number has no period.
fn is_whole(text: &[u8]) -> bool
    ensures { result ≡ is_integer text.now }
{
    !text.contains(&b'.')
}
