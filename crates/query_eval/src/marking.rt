//! What marks tests: a record, or a run of records.

ghost use Rattle.std.specs.Prelude.{◌≡◌, [], ◌∷◌, List, IfOk};
ghost use Rattle.std.specs.List.{list_any};
ghost use Rattle.vsl_record.specs.declared.record_type.Record.{Record};
ghost use Rattle.query_eval.specs.Meaning.{record_marks};
ghost use Rattle.query_eval.specs.Asking.{IsReady};

use crate::asking::{record_marks, records_mark};
use query_parser::Test;
use std::alloc::{AllocError, Global};
use vsl_pattern::Matching;
use vsl_record::{RecordView, RecordsView};

/// A record of a transaction, or a run of its records, that arrive at once. Each test is asked of them by itself, so that
/// one test's loop over many records is as tight as can be.
pub trait Marking {
    /// The records.
    ghost records: { Self → List Record };

    /// Whether some record satisfies the test, its level left aside.
    fn marks<'t>(
        &self,
        alloc: Global,
        test: &'t Test,
        matching: &mut Option<Matching<'t>>,
    ) -> Result<bool, AllocError>
        requires ready { IsReady test.now.check matching.old }
        ensures answer { IfOk result
            (λ b. b ≡ list_any (record_marks test.now) (records self.now)) }
        ensures ready { IsReady test.now.check matching.new };
}

impl Marking for RecordView<'_> {
    ghost records = { λ rec. rec ∷ [] };

    fn marks<'t>(
        &self,
        alloc: Global,
        test: &'t Test,
        matching: &mut Option<Matching<'t>>,
    ) -> Result<bool, AllocError> {
        record_marks(alloc, test, matching, self)
    }
}

impl Marking for RecordsView<'_> {
    ghost records = { λ records. records };

    fn marks<'t>(
        &self,
        alloc: Global,
        test: &'t Test,
        matching: &mut Option<Matching<'t>>,
    ) -> Result<bool, AllocError> {
        records_mark(alloc, test, matching, self)
    }
}
