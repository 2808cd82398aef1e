//! Queries, and what asks them.

ghost use Rattle.std.specs.Prelude.{◌≡◌, [], true, List, map};
ghost use Rattle.vsl_record.specs.declared.record_type.Record.{Record};
ghost use Rattle.query_eval.specs.Asker.{asker_query};
ghost use Rattle.query_eval.specs.Marks.{marks_of};

use query_eval::Asker;
use std::alloc::Global;

/// Queries, in their order, and what asks them.
#[derive(Drop)]
pub struct Askers<'q> {
    pub(crate) alloc: Global,
    pub(crate) all: Vec<Asker<'q>>,
    /// Whether no query has a test.
    pub(crate) testless: bool,
    ghost same: { testless ≡ true → (records : List Record) →
        map (λ query. marks_of query records) (map asker_query all.items) ≡ map
        (λ query. marks_of query []) (map asker_query all.items) },
}
