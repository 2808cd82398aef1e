//! Taking the queries of a job.

ghost use Rattle.std.specs.Prelude.{◌≡◌, ◌⊎◌, [], ◌∷◌, Some, IfOk};
ghost use Rattle.log_model.specs.Halts.{IfFault};
ghost use Rattle.log_model.specs.declared.fault.Halt.TheVariants as halts;
ghost use Rattle.vio.specs.declared.fault.NamedFault.{NamedFault};
ghost use Rattle.vio.specs.Calls.{Called};
ghost use Rattle.vio.specs.Steps.{TookSteps};
ghost use Rattle.query_grammar.specs.Scanner.{Fault};
ghost use Rattle.query_grammar.specs.Tree as tree;
ghost use Rattle.query_parser.specs.declared.test.Test.{Test};
ghost use Rattle.query_parser.specs.Parsed.{HasTree, IsParsed, first_fault};
ghost use Rattle.job_steps.specs.Queries.{Ask, joined};
ghost use Rattle.job_steps.specs.Steps.{Passes, Stops, TakeQuery, named_answer, opens, opens_of, queries_from, query_answer};
ghost use Rattle.job_steps.specs.inside.Tasks.{HasAsk, QueryMeans, QueriesAsk};

use crate::fault::ToolFault;
use log_model::{Halt, NoMemory, Text};
use query_parser::{Query, QueryFault, parse_query};
use std::alloc::Global;
use tool_words::{Job, QueryText};
use vio::{NamedFault, World, read_named};

/// The most bytes of a query's file that are read.
const QUERY_LIMIT: u64 = 65_536;

/// How it is answered that the file of a query isn't read.
fn file_halt(alloc: Global, name: &str, halt: Halt<NamedFault>) -> Halt<ToolFault>
    ensures fault { (why : NamedFault) → halt ≡ halts.Fault why →
        (result ≡ halts.Fault (named_answer 65536 name.now why)) ⊎ (result ≡ halts.NoMemory) }
    ensures memory { halt ≡ halts.NoMemory → result ≡ halts.NoMemory }
{
    let Ok(name) = Text::new(alloc, name) else {
        return Halt::NoMemory;
    };
    match halt {
        Halt::Fault(NamedFault::NoOpen) => Halt::Fault(ToolFault::NoOpen { name }),
        Halt::Fault(NamedFault::Failed) => Halt::Fault(ToolFault::ReadFault { name }),
        Halt::Fault(NamedFault::TooLarge) => Halt::Fault(ToolFault::TooLarge {
            name,
            limit: QUERY_LIMIT,
        }),
        Halt::NoMemory => Halt::NoMemory,
    }
}

/// The query of a text, which is that of the query of this index.
fn parse_text(
    alloc: Global,
    text: &[u8],
    caseless: bool,
    index: u32,
) -> Result<Query, Halt<ToolFault>>
    ensures parsed { IfOk result (λ query. IsParsed caseless text.now query) }
    ensures refused { IfFault result (λ fault. (why : Fault) ×
        (first_fault caseless text.now ≡ Some why) ×
        (fault ≡ ToolFault.BadQuery index (query_answer why))) }
{
    match parse_query(alloc, text, caseless) {
        Ok(query) => Ok(query),
        Err(QueryFault::NoMemory) => Err(Halt::NoMemory),
        Err(fault) => Err(Halt::Fault(ToolFault::BadQuery {
            query: index,
            fault,
        })),
    }
}

/// Takes the query of this index: a text as it is, or a file, which is read whole before it is parsed.
fn take_query<W: World>(
    alloc: Global,
    query: &QueryText,
    caseless: bool,
    index: u32,
    world: &mut W,
) -> Result<Query, Halt<ToolFault>>
    ensures took { Called (TookSteps Passes Stops (QueryMeans caseless)
        (opens (TakeQuery caseless index query.now))
        (TakeQuery caseless index query.now ∷ []) result) (W.seen world.old) (W.seen world.new) }
{
    if !query.file {
        return parse_text(alloc, query.text.as_bytes(), caseless, index);
    }
    match read_named(alloc, world, query.text.as_str(), QUERY_LIMIT) {
        Ok(bytes) => parse_text(alloc, &bytes, caseless, index),
        Err(halt) => Err(file_halt(alloc, query.text.as_str(), halt)),
    }
}

/// A query behind earlier ones, to which it is joined by `or`.
fn join(alloc: Global, earlier: Option<Query>, query: Query) -> Result<Query, NoMemory>
    ensures { (ask : Ask) (t : tree.Query Test) → HasAsk earlier ask → HasTree query t →
        IfOk result (λ all. HasTree all (joined ask t)) }
{
    match earlier {
        None => Ok(query),
        Some(earlier) => Ok(earlier.or(alloc, query)?),
    }
}

/// Takes the queries of a job in the order of the words, each whole before it is parsed, and joins them by `or`.
/// A query whose number is no `u32` is answered as want of memory.
pub fn take_queries<W: World>(
    alloc: Global,
    job: &Job,
    world: &mut W,
) -> Result<Query, Halt<ToolFault>>
    ensures took { let steps = queries_from job.now.caseless 0 job.now.queries in
        Called (TookSteps Passes Stops (QueriesAsk job.now.caseless) (opens_of steps) steps result)
        (W.seen world.old) (W.seen world.new) }
{
    let mut found = None;
    for (index, query) in job.queries.as_slice().iter().enumerate() {
        let Ok(index) = u32::try_from(index) else {
            return Err(Halt::NoMemory);
        };
        let query = take_query(alloc, query, job.caseless, index, world)?;
        found = Some(join(alloc, found, query)?);
    }
    match found {
        Some(query) => Ok(query),
        None => Ok(Query::all(alloc)),
    }
}
