//! Reading a query's text.

ghost use Rattle.std.specs.Prelude.{◌≡◌, ◌==◌, ◌+◌, ◌≤◌, ◌<◌, ◌^◌, None, length, List, Option, IfOk, IfErr};
ghost use Rattle.std.specs.List.{position};
ghost use Rattle.query_grammar.specs.Step.{Step};
ghost use Rattle.query_grammar.specs.Lines.{is_passed, lines_of, read_lines};
ghost use Rattle.query_parser.specs.Parsed.{IsParsed, IsRefused};
ghost use Rattle.query_parser.specs.inside.Follows.{rules, Gives};
ghost use Rattle.query_parser.specs.inside.Reading.{line_added, IfMeant, Adds, line_length};

use crate::draft::read_line;
use crate::fault::QueryFault;
use crate::query::{Query, joined};
use crate::test::Test;
use crate::token::is_blank_byte;
use query_grammar::StepOver;
use std::alloc::Global;
use std::str;

/// Reads a query's text: its lines, but for blank ones and those that begin with `#`, are queries that are joined by `or`.
/// With `caseless`, patterns and comparisons of texts don't count the case of letters.
///
/// The fault is the first of the text, at its byte. Faults of a test are answered in the order tag, numbers and pattern by
/// their places, and then syntax. Source: vsl-query(7); where faults stand is this project's choice.
pub fn parse_query(alloc: Global, text: &[u8], caseless: bool) -> Result<Query, QueryFault>
    ensures parsed { IfOk result (λ query. IsParsed caseless text.now query) }
    ensures refused { IfErr result (λ fault. IsRefused caseless text.now fault) }
{
    if let Err(error) = str::from_utf8(text) {
        return Err(QueryFault::Syntax {
            at: error.valid_up_to() as u64,
        });
    }
    Ok(Query {
        always: false,
        steps: read_text(alloc, caseless, text)?,
    })
}

/// Reads the lines of a text.
fn read_text(alloc: Global, caseless: bool, text: &[u8]) -> Result<Vec<StepOver<Test>>, QueryFault>
    ensures { Gives caseless result (read_lines (rules caseless) 0 None (lines_of text.now)) }
{
    let (first, mut behind) = text.split_at(line_len(text));
    let mut steps = add_line(alloc, caseless, 0, None, first)?;
    while let [_, after @ ..] = behind {
        let from = text.len() - after.len();
        let (line, rest) = after.split_at(line_len(after));
        steps = add_line(alloc, caseless, from, steps, line)?;
        behind = rest;
    }
    steps.ok_or(QueryFault::Syntax {
        at: text.len() as u64,
    })
}

/// The steps so far, and those of one line more.
fn add_line(
    alloc: Global,
    caseless: bool,
    from: usize,
    steps: Option<Vec<StepOver<Test>>>,
    line: &[u8],
) -> Result<Option<Vec<StepOver<Test>>>, QueryFault>
    requires { from + length line.now < 2 ^ 64 }
    ensures { (before : Option (List Step)) → IfMeant caseless before steps → Adds caseless result (line_added caseless from before line.now) }
{
    if is_passed_over(line) {
        return Ok(steps);
    }
    let more = read_line(alloc, caseless, from, line)?;
    match steps {
        None => Ok(Some(more)),
        Some(earlier) => Ok(Some(joined(earlier, more)?)),
    }
}

/// Whether a line has blanks alone, or a `#` behind blanks.
fn is_passed_over(line: &[u8]) -> bool
    ensures { result ≡ is_passed line.now }
{
    let mut rest = line;
    while let [byte, after @ ..] = rest {
        if !is_blank_byte(*byte) {
            return *byte == b'#';
        }
        rest = after;
    }
    true
}

/// Where the first line feed stands.
fn line_feed(text: &[u8]) -> Option<usize>
    ensures { result ≡ position (λ c. c == 10) text.now }
{
    text.iter().position(|byte| *byte == b'\n')
}

/// How many bytes stand before the first line feed.
fn line_len(text: &[u8]) -> usize
    ensures length { result ≡ line_length text.now }
    ensures within { result ≤ length text.now }
{
    line_feed(text).unwrap_or(text.len())
}
