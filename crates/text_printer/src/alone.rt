//! A query that is asked of records by themselves.

ghost use Rattle.std.specs.Prelude.{◌≡◌, IfOk};
ghost use Rattle.query_eval.specs.Asker.{asker_query};
ghost use Rattle.text_printer.specs.inside.Alone.{IsUnseen};

use log_model::NoMemory;
use query_eval::{Answer, Asker};
use query_parser::Query;
use std::alloc::Global;
use txn_rows::{Group, raw_group};
use vsl_record::{RecordView, Vxid};

/// A query that records by themselves are asked, as under raw grouping. It borrows the query.
#[derive(Drop)]
pub(crate) struct AskedAlone<'q> {
    alloc: Global,
    asker: Asker<'q>,
    /// Whether the query holds for a record that satisfies none of its tests.
    unseen: bool,
    ghost answered: { IsUnseen (asker_query asker) unseen },
}

/// What a query says of a group whose records satisfy none of its tests.
fn answer_unseen(alloc: Global, query: &Query) -> Result<bool, NoMemory>
    ensures { IfOk result (IsUnseen query.now) }
{
    let answer = Answer::new(alloc, query)?;
    Ok(answer.value(query))
}

impl<'q> AskedAlone<'q> {
    ghost use Rattle.std.specs.Prelude.{◌∷◌, [], option_to_list};
    ghost use Rattle.txn_rows.specs.Grouping.{raw_group};
    ghost use Rattle.text_printer.specs.Held.{held_groups};
    ghost use Rattle.text_printer.specs.inside.Asked.{alone_query};

    /// Nothing was asked yet.
    pub fn new(alloc: Global, query: &'q Query) -> Result<AskedAlone<'q>, NoMemory>
        ensures { IfOk result (λ a. alone_query a ≡ query.now) }
    {
        Ok(AskedAlone {
            alloc,
            asker: Asker::new(alloc, query)?,
            unseen: answer_unseen(alloc, query)?,
        })
    }

    /// Whether the query holds for every group.
    pub fn always(&self) -> bool
        ensures { result ≡ (alone_query self.now).always }
    {
        self.asker.always()
    }

    /// A record by itself as a group, where the query holds for it. The record is asked before a group is made: most satisfy
    /// no test.
    pub fn group_of(&mut self, vxid: Vxid, rec: &RecordView<'_>) -> Result<Option<Group>, NoMemory>
        ensures held { IfOk result (λ group. option_to_list group ≡ held_groups (alone_query self.old)
            (raw_group vxid rec.now ∷ [])) }
        ensures same { alone_query self.new ≡ alone_query self.old }
    {
        if !self.asker.sees(rec)? && !self.unseen {
            return Ok(None);
        }
        let group = raw_group(self.alloc, vxid, rec)?;
        if self.asker.holds(&group)? {
            return Ok(Some(group));
        }
        Ok(None)
    }
}
