//! Groups with the answers of queries.

ghost use Rattle.std.specs.Prelude.{◌≡◌, ◌≤◌, ◌<◌, ◌++◌, [], ◌∷◌, true, false, List, length, map, Some, IfOk, IfSome, IfNone, OnOk, OnErr, IsErr, slice_get};
ghost use Rattle.std.specs.Option.{option_map};
ghost use Rattle.txn_rows.specs.Transaction.{is_pending, newest};
ghost use Rattle.vsl_record.specs.Unit.{Log};
ghost use Rattle.txn_rows.specs.Grouping.{Taken, TakenUnit, Missed, all_taken, is_raw, no_state, unit_step, unfinished, force, flush};
ghost use Rattle.txn_partition.specs.Partition.{Regular, Calm, partition};
ghost use Rattle.query_parser.specs.declared.query.Query.{Query as AsQuery};
ghost use Rattle.query_eval.specs.Marks.{marks_of};
ghost use Rattle.txn_rows.specs.States.{IsSound};
ghost use Rattle.txn_groups.specs.inside.Trees.{IsTrees, state_of_trees};

use crate::trees::Trees;
use log_model::NoMemory;
use query_eval::{Chosen, Marks};
use query_parser::Query;
use std::alloc::Global;
use txn_rows::{Cause, GroupOptions, Grouping, Store, flush_all, force_oldest, take_unit};
use vsl_record::{Unit, Vxid};

/// The pending transactions of a log, and queries that each group that they complete is asked: their tests are asked
/// as the records arrive. Contracts see the table that they stand for, and the queries. From a failure for want of
/// memory on it answers that.
///
/// 2^64 transactions begun and a level above 2^32 - 1 count as want of memory.
#[derive(Drop)]
pub struct Groups<'q> {
    options: GroupOptions,
    queries: &'q [Query],
    store: Trees<'q>,
    failed: bool,
    ghost sound: { failed ≡ false →
        ∥ IsSound (IsTrees queries.now) state_of_trees options.limit store ∥₁ },
}

impl<'q> Groups<'q> {
    ghost use Rattle.txn_groups.specs.Groups.{GroupsStepped, GroupsFailed, HaveTaken, chosen, groups_state};

    /// Nothing is pending. Each group that is complete will be asked these queries.
    pub fn new(
        alloc: Global,
        options: GroupOptions,
        queries: &'q [Query],
    ) -> Result<Groups<'q>, NoMemory>
        ensures { IfOk result (λ g.
            groups_state g ≡ record {
              table =
                  record { options = options; state = no_state; failed = false };
              queries = queries.now;
            }) }
    {
        Ok(Groups {
            options,
            queries,
            store: Trees::new(alloc, queries)?,
            failed: false,
        })
    }

    /// Takes the records of a unit in order, and hands out the groups that they complete. No more transactions
    /// than the limit stay pending. With the last unit of a regular and calm log, but under raw grouping, the groups that
    /// were handed out are its partition.
    pub fn step(&mut self, unit: &Unit, out: &mut Vec<Chosen>) -> Result<(), NoMemory>
        ensures ok { OnOk result (GroupsStepped
            (unit_step (groups_state self.old).table.options unit.now
            (groups_state self.old).table.state) (groups_state self.old)
            (groups_state self.new) out.old.items out.new.items) }
        ensures limit { OnOk result
            (length (groups_state self.new).table.state.pending ≤
            (groups_state self.new).table.options.limit) }
        ensures taken { OnOk result ((taken : List Taken) →
            HaveTaken taken (groups_state self.old) out.old.items →
            HaveTaken (taken ++ TakenUnit unit.now ∷ []) (groups_state self.new) out.new.items) }
        ensures parted { OnOk result ((log : Log) →
            is_raw (groups_state self.old).table.options.grouping ≡ false →
            Regular (log ++ unit.now ∷ []) (groups_state self.old).table.options.grouping →
            Calm (log ++ unit.now ∷ []) (groups_state self.old).table.options →
            HaveTaken (all_taken log) (groups_state self.old) out.old.items →
            out.new.items ≡ map (chosen (groups_state self.old).queries)
            (partition (log ++ unit.now ∷ []) (groups_state self.old).table.options.grouping)) }
        ensures err { OnErr result
            (GroupsFailed (unit_step (groups_state self.old).table.options unit.now
            (groups_state self.old).table.state) (groups_state self.old)
            (groups_state self.new) out.old.items out.new.items) }
        ensures failed { (groups_state self.old).table.failed ≡ true →
            IsErr result × (out.new.items ≡ out.old.items) }
    {
        if self.failed {
            return Err(NoMemory);
        }
        self.failed = true;
        let taken = take_unit(self.options, &mut self.store, unit, out);
        self.failed = taken.is_err();
        taken
    }

    /// Force-completes the oldest transaction that has not ended, where there is one, and hands out the group that
    /// it completes.
    pub fn force(&mut self, cause: Cause, out: &mut Vec<Chosen>) -> Result<(), NoMemory>
        ensures ok { OnOk result (GroupsStepped (force cause (groups_state self.old).table.state)
            (groups_state self.old) (groups_state self.new) out.old.items out.new.items) }
        ensures err { OnErr result
            (GroupsFailed (force cause (groups_state self.old).table.state) (groups_state self.old)
            (groups_state self.new) out.old.items out.new.items) }
        ensures failed { (groups_state self.old).table.failed ≡ true →
            IsErr result × (out.new.items ≡ out.old.items) }
    {
        if self.failed {
            return Err(NoMemory);
        }
        self.failed = true;
        let forced = force_oldest(&mut self.store, self.options.grouping, cause, out);
        self.failed = forced.is_err();
        forced
    }

    /// Force-completes every transaction that has not ended, the oldest first, and hands out the groups that they
    /// complete. Nothing stays pending. It serves an overrun and the end of a log. At the end of a regular and calm log, but
    /// under raw grouping, it hands out nothing: the groups that were handed out are the partition already.
    pub fn flush(&mut self, out: &mut Vec<Chosen>) -> Result<(), NoMemory>
        ensures ok { OnOk result (GroupsStepped (flush (groups_state self.old).table.state)
            (groups_state self.old) (groups_state self.new) out.old.items out.new.items) }
        ensures none { OnOk result (length (groups_state self.new).table.state.pending ≡ 0) }
        ensures taken { OnOk result ((taken : List Taken) →
            HaveTaken taken (groups_state self.old) out.old.items →
            HaveTaken (taken ++ Missed ∷ []) (groups_state self.new) out.new.items) }
        ensures parted { OnOk result ((log : Log) →
            is_raw (groups_state self.old).table.options.grouping ≡ false →
            Regular log (groups_state self.old).table.options.grouping →
            Calm log (groups_state self.old).table.options →
            HaveTaken (all_taken log) (groups_state self.old) out.old.items →
            (out.new.items ≡ out.old.items) ×
            (out.new.items ≡ map (chosen (groups_state self.old).queries)
            (partition log (groups_state self.old).table.options.grouping))) }
        ensures err { OnErr result
            (GroupsFailed (flush (groups_state self.old).table.state) (groups_state self.old)
            (groups_state self.new) out.old.items out.new.items) }
        ensures failed { (groups_state self.old).table.failed ≡ true →
            IsErr result × (out.new.items ≡ out.old.items) }
    {
        if self.failed {
            return Err(NoMemory);
        }
        self.failed = true;
        let flushed = flush_all(&mut self.store, self.options.grouping, out);
        self.failed = flushed.is_err();
        flushed
    }

    /// How the records are grouped.
    pub fn grouping(&self) -> Grouping
        ensures { result ≡ (groups_state self.now).table.options.grouping }
    {
        self.options.grouping
    }

    /// How many transactions are pending.
    pub fn rows(&self) -> usize
        ensures { result ≡ length (groups_state self.now).table.state.pending }
    {
        if self.failed {
            return self.store.count();
        }
        self.store.rows()
    }

    /// How many pending transactions have not ended.
    pub fn unfinished(&self) -> usize
        ensures { result ≡ unfinished (groups_state self.now).table.state }
    {
        self.store.unfinished()
    }

    /// The marks of a query, by its place, that are kept with the newest pending transaction of a VXID: which of the
    /// query's tests its records satisfy.
    pub fn marks(&self, vxid: Vxid, query: usize) -> Option<&Marks>
        requires { query < length (groups_state self.now).queries }
        ensures some { (groups_state self.now).table.failed ≡ false → (q : AsQuery) →
            slice_get (groups_state self.now).queries query ≡ Some q →
            IfSome result (λ marks. option_map (λ t. marks_of q t.records)
            (newest vxid (groups_state self.now).table.state.pending) ≡ Some marks.now) }
        ensures none { (groups_state self.now).table.failed ≡ false →
            IfNone result (is_pending vxid (groups_state self.now).table.state.pending ≡ false) }
    {
        self.store.marks(vxid, query)
    }
}
