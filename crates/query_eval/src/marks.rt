//! Which tests of a query the records of a transaction satisfy, taken up as the records arrive.

ghost use Rattle.std.specs.Prelude.{◌≡◌, [], ◌∷◌, ◌++◌, List, IfOk, OnOk};
ghost use Rattle.vsl_record.specs.declared.record_type.Record.{Record};
ghost use Rattle.query_eval.specs.Marks.{marks_of};

use crate::asker::Asker;
use crate::tests::{TestTruths, none_true};
use log_model::NoMemory;
use query_parser::Query;
use std::alloc::Global;
use std::marker::Model;
use vsl_record::RecordView;

/// For each test of a query, in order, whether some record so far satisfies it. A criterion's level is left aside, since
/// that of a transaction isn't known yet. Contracts see the list of truths.
#[derive(Drop)]
pub struct Marks {
    alloc: Global,
    pub(crate) truths: TestTruths,
}

impl Model for Marks {
    ghost use Rattle.std.specs.Prelude.{List, Bool};

    ghost Value = { List Bool };

    ghost view = { λ m. m.truths.items };
}

impl Marks {
    /// The marks of no records.
    pub fn new(alloc: Global, query: &Query) -> Result<Marks, NoMemory>
        ensures { IfOk result (λ m. m ≡ marks_of query.now []) }
    {
        Ok(Marks {
            alloc,
            truths: none_true(alloc, &query.steps)?,
        })
    }

    /// Adds a record: asks it each test that isn't true yet. It takes memory for the tests, and for a pattern where the
    /// record is asked; `Asker::add` keeps both from record to record.
    pub fn add(&mut self, query: &Query, rec: &RecordView<'_>) -> Result<(), NoMemory>
        ensures { (records : List Record) → self.old ≡ marks_of query.now records →
            OnOk result (self.new ≡ marks_of query.now (records ++ rec.now ∷ [])) }
    {
        let mut asker = Asker::new(self.alloc, query)?;
        asker.add(self, rec)
    }
}
