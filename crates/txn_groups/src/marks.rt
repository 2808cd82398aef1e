//! The marks of queries that nodes keep.

ghost use Rattle.std.specs.Prelude.{◌≡◌, [], IfSome, IfNone, slice_get, Some, None};

use query_eval::Marks;
use std::alloc::Global;
use std::marker::Model;

/// The marks of each of several queries, in their order; none before a record satisfied a test. Contracts see the list.
#[derive(Drop)]
pub struct RowMarks {
    pub(crate) all: Vec<Marks>,
}

impl Model for RowMarks {
    ghost use Rattle.std.specs.Prelude.{List, Bool};

    ghost Value = { List (List Bool) };

    ghost view = { λ m. m.all.items };
}

impl RowMarks {
    /// Those of no records. It takes no memory.
    pub(crate) fn new(alloc: Global) -> RowMarks
        ensures { result ≡ [] }
    {
        RowMarks {
            all: Vec::new(alloc),
        }
    }

    /// The marks of a query, by its place.
    pub(crate) fn get(&self, query: usize) -> Option<&Marks>
        ensures some { IfSome result (λ marks. slice_get self.now query ≡ Some marks.now) }
        ensures none { IfNone result (slice_get self.now query ≡ None) }
    {
        self.all.get(query)
    }
}
