//! The store of nodes: pending transactions as trees, with an index.

ghost use Rattle.std.specs.Prelude.{◌≡◌, ℕ, false, Some, List, IfOk, IfSome, IfNone, slice_get};
ghost use Rattle.std.specs.Option.{option_map};
ghost use Rattle.txn_rows.specs.Transaction.{is_pending, newest};
ghost use Rattle.txn_rows.specs.Grouping.{no_state};
ghost use Rattle.txn_rows.specs.Store.{Went};
ghost use Rattle.query_parser.specs.declared.query.Query.{Query as AsQuery};
ghost use Rattle.query_eval.specs.Marks.{marks_of};
ghost use Rattle.txn_groups.specs.Groups.{chosen};
ghost use Rattle.txn_groups.specs.inside.Indexed.{newest_in};
ghost use Rattle.txn_groups.specs.inside.Trees.{IsTrees, state_of_trees};

use crate::add_to::{add_run, add_to};
use crate::askers::Askers;
use crate::end_row::end_row;
use crate::force_row::force_at;
use crate::link_row::link_row;
use crate::marking::{mark_at, mark_forced};
use crate::marks::RowMarks;
use crate::node::is_ended;
use crate::oldest::seek_oldest;
use crate::order::{count_live, count_open};
use crate::pending::{Pending, no_pending, open_row, other_row};
use crate::raise::raise;
use log_model::NoMemory;
use query_eval::{Chosen, Marks};
use query_parser::Query;
use std::alloc::Global;
use txn_rows::{Cause, Claim, Grouping, Store, Which, last_in_time, raw_group, whole_group};
use vsl_record::{RecordView, RecordsView, Vxid};

/// Pending transactions as trees of nodes, with an index.
#[derive(Drop)]
pub struct Trees<'q> {
    alloc: Global,
    pending: Pending,
    askers: Askers<'q>,
    /// The marks of no records, of each query.
    unmarked: RowMarks,
    /// No transaction before this serial number is pending and has not ended.
    low: u64,
}

impl<'q> Trees<'q> {
    /// Nothing is pending.
    pub fn new(alloc: Global, queries: &'q [Query]) -> Result<Trees<'q>, NoMemory>
        ensures { IfOk result (λ t. Went (IsTrees queries.now) state_of_trees no_state t) }
    {
        let askers = Askers::new(alloc, queries)?;
        let unmarked = askers.no_marks()?;
        Ok(Trees {
            alloc,
            pending: no_pending(alloc),
            askers,
            unmarked,
            low: 0,
        })
    }

    /// The marks of a query, by its place, that the newest pending transaction of a VXID keeps.
    pub(crate) fn marks(&self, vxid: Vxid, query: usize) -> Option<&Marks>
        ensures some { (queries : List AsQuery) (q : AsQuery) → IsTrees queries self.now →
            slice_get queries query ≡ Some q →
            IfSome result (λ marks. option_map (λ t. marks_of q t.records)
            (newest vxid (state_of_trees self.now).pending) ≡ Some marks.now) }
        ensures none { (queries : List AsQuery) (q : AsQuery) → IsTrees queries self.now →
            slice_get queries query ≡ Some q →
            IfNone result (is_pending vxid (state_of_trees self.now).pending ≡ false) }
    {
        let Some(at) = self.pending.index.newest(vxid) else {
            return None;
        };
        let Some(node) = self.pending.nodes.get(at) else {
            return None;
        };
        if let Some(marks) = node.marks.get(query) {
            return Some(marks);
        }
        self.unmarked.get(query)
    }
}

impl<'q> Store for Trees<'q> {
    type Left = Chosen;

    ghost Key = { List AsQuery };

    ghost holds = { IsTrees };

    ghost state = { state_of_trees };

    ghost hand = { chosen };

    ghost newest_at = { λ t vxid at. newest_in t.pending.index vxid ≡ Some at };

    fn time(&self) -> Option<u128> {
        self.pending.time
    }

    fn rows(&self) -> usize {
        self.pending.rows
    }

    fn count(&self) -> usize {
        count_live(&self.pending.nodes, &self.pending.order)
    }

    fn unfinished(&self) -> usize {
        count_open(&self.pending.nodes, &self.pending.order)
    }

    fn newest(&self, vxid: Vxid) -> Option<usize> {
        self.pending.index.newest(vxid)
    }

    fn is_open(&self, at: usize, vxid: Vxid) -> bool {
        !is_ended(&self.pending.nodes, at)
    }

    fn open_row(&mut self, vxid: Vxid) -> Result<usize, NoMemory> {
        open_row(self.alloc, &mut self.pending, vxid)
    }

    fn other_row(&mut self, vxid: Vxid) -> Result<usize, NoMemory> {
        other_row(self.alloc, &mut self.pending, vxid)
    }

    fn link(
        &mut self,
        below: usize,
        child: Vxid,
        above: usize,
        parent: Vxid,
    ) -> Result<(), NoMemory> {
        link_row(&mut self.pending, below, above);
        Ok(())
    }

    fn add_to(
        &mut self,
        at: usize,
        vxid: Vxid,
        rec: &RecordView<'_>,
        claim: Option<Claim>,
        at_hand: &RecordsView<'_>,
    ) -> Result<(), NoMemory> {
        mark_at(&mut self.pending.nodes, &mut self.askers, at, rec)?;
        add_to(&mut self.pending, at, rec, claim, at_hand)
    }

    fn add_run(&mut self, at: usize, vxid: Vxid, run: &RecordsView<'_>) -> Result<(), NoMemory> {
        mark_at(&mut self.pending.nodes, &mut self.askers, at, run)?;
        add_run(&mut self.pending, at, run)
    }

    fn raise(&mut self, told: Option<u128>) {
        raise(&mut self.pending, told);
    }

    #[inline(always)]
    fn last_in_time(&mut self, seconds: u32) -> Option<u128> {
        let Some(now) = self.pending.time else {
            return None;
        };
        let Some(at) = seek_oldest(&self.pending, &mut self.low) else {
            return Some(last_in_time(seconds, now));
        };
        let Some(time) = self.pending.nodes[at].time else {
            return None;
        };
        Some(last_in_time(seconds, time))
    }

    fn end_row(
        &mut self,
        grouping: Grouping,
        at: usize,
        vxid: Vxid,
        out: &mut Vec<Chosen>,
    ) -> Result<(), NoMemory> {
        end_row(
            self.alloc,
            grouping,
            &mut self.pending,
            at,
            &self.askers,
            out,
        )
    }

    fn force_one(
        &mut self,
        grouping: Grouping,
        which: Which,
        cause: Cause,
        out: &mut Vec<Chosen>,
    ) -> Result<bool, NoMemory> {
        let Some(at) = seek_oldest(&self.pending, &mut self.low) else {
            return Ok(false);
        };
        let node = &self.pending.nodes[at];
        if !which.is_met(node.ended, node.time) {
            return Ok(false);
        }
        mark_forced(
            self.alloc,
            &mut self.pending.nodes,
            &mut self.askers,
            at,
            cause,
        )?;
        force_at(
            self.alloc,
            grouping,
            &mut self.pending,
            at,
            cause,
            &self.askers,
            out,
        )?;
        Ok(true)
    }

    fn hand_whole(
        &mut self,
        vxid: Vxid,
        records: &RecordsView<'_>,
        out: &mut Vec<Chosen>,
    ) -> Result<(), NoMemory> {
        if self.pending.begun == u64::MAX {
            return Err(NoMemory);
        }
        let group = whole_group(self.alloc, vxid, records)?;
        let holds = self.askers.holds(&group)?;
        out.push(Chosen { group, holds })?;
        self.pending.begun += 1;
        Ok(())
    }

    fn hand_alone(
        &mut self,
        vxid: Vxid,
        rec: &RecordView<'_>,
        out: &mut Vec<Chosen>,
    ) -> Result<(), NoMemory> {
        let group = raw_group(self.alloc, vxid, rec)?;
        let holds = self.askers.holds(&group)?;
        out.push(Chosen { group, holds })?;
        Ok(())
    }
}
