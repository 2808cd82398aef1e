//! Queries.

ghost use Rattle.std.specs.Prelude.{◌≡◌, ◌∷◌, ◌++◌, [], ◌||◌, true, false, IfOk};
ghost use Rattle.query_grammar.specs.declared.step.StepOver.TheVariants as kinds;
ghost use Rattle.query_grammar.specs.Tree as tree;
ghost use Rattle.query_grammar.specs.Tree.{Either};
ghost use Rattle.query_parser.specs.declared.test.Test.{Test};
ghost use Rattle.query_parser.specs.Parsed.{HasTree};

use crate::test::Test;
use query_grammar::StepOver;
use std::alloc::{AllocError, Global};

/// A query: its tests and operators, each operator behind its operands, or none, which holds always.
#[derive(Debug, Drop)]
pub struct Query {
    /// Whether it holds for every group; then it has no steps.
    pub always: bool,
    /// The tests and operators.
    pub steps: Vec<StepOver<Test>>,
}

impl Query {
    /// The query that holds for every group. It takes no memory.
    pub fn all(alloc: Global) -> Query
        ensures always { result.always ≡ true }
        ensures steps { result.steps.items ≡ [] }
    {
        Query {
            always: true,
            steps: Vec::new(alloc),
        }
    }

    /// The query that holds where one of the two does.
    pub fn or(self, alloc: Global, other: Query) -> Result<Query, AllocError>
        ensures always { IfOk result (λ q. q.always ≡ (self.always || other.always)) }
        ensures steps { IfOk result (λ q. q.always ≡ true → q.steps.items ≡ []) }
        ensures tree { (a b : tree.Query Test) → HasTree self a → HasTree other b → IfOk result (λ q. HasTree q (Either a b)) }
    {
        if self.always || other.always {
            return Ok(Query::all(alloc));
        }
        Ok(Query {
            always: false,
            steps: joined(self.steps, other.steps)?,
        })
    }
}

/// The steps of two queries that are joined by `or`.
pub(crate) fn joined(
    mut steps: Vec<StepOver<Test>>,
    mut more: Vec<StepOver<Test>>,
) -> Result<Vec<StepOver<Test>>, AllocError>
    ensures { IfOk result (λ all. all.items ≡ steps.items ++ more.items ++ kinds.Or ∷ []) }
{
    steps.append(&mut more)?;
    steps.push(StepOver::Or)?;
    Ok(steps)
}
