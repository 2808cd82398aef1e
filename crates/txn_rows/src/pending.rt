//! Pending transactions in a list, in the order in which they began: each question is answered by a search.

ghost use Rattle.std.specs.Prelude.{◌≡◌, ◌≢◌, ℕ, ⊤, length, IfOk, OnOk};
ghost use Rattle.txn_rows.specs.Grouping.{no_state, with_new, raised};
ghost use Rattle.txn_rows.specs.Store.{Went};
ghost use Rattle.txn_rows.specs.Trees.{IsNewestRow};
ghost use Rattle.txn_rows.specs.States.{state_of, StandInTrees};

use crate::claim::Claim;
use crate::force::{count_unfinished, force_at, oldest_of};
use crate::group::{Cause, Group, Grouping};
use crate::join::link_rows;
use crate::leave::leave;
use crate::raw::{take_raw, whole_group};
use crate::rows::{Row, add_record, add_records, empty_row, newest_row, time_rows};
use crate::store::Store;
use crate::which::Which;
use log_model::NoMemory;
use std::alloc::Global;
use vsl_record::{RecordView, RecordsView, Vxid};

/// For how many transactions there is room at first.
const FIRST_ROWS: usize = 16;

/// The pending transactions, oldest first, and the log time.
#[derive(Drop)]
pub struct Pending {
    pub(crate) alloc: Global,
    pub(crate) rows: Vec<Row>,
    /// How many transactions began.
    pub(crate) begun: u64,
    /// The log time, in units of 10^-18 seconds.
    pub(crate) time: Option<u128>,
}

impl Pending {
    /// Nothing is pending.
    pub(crate) fn new(alloc: Global) -> Result<Pending, NoMemory>
        ensures { IfOk result (λ p. Went StandInTrees state_of no_state p) }
    {
        Ok(Pending {
            alloc,
            rows: Vec::with_capacity(alloc, FIRST_ROWS)?,
            begun: 0,
            time: None,
        })
    }
}

/// A transaction begins, the newest of all. Where no serial number is left, that counts as want of memory.
fn begin(pending: &mut Pending, vxid: Vxid) -> Result<(), NoMemory>
    ensures went { StandInTrees pending.old →
        OnOk result (Went StandInTrees state_of
        (with_new vxid (state_of pending.old)) pending.new) }
    ensures newest { OnOk result
        (IsNewestRow vxid (length pending.old.rows.items) pending.new.rows.items) }
    ensures keeps { OnOk result ((v at : ℕ) → v ≢ vxid → IsNewestRow v at pending.old.rows.items →
        IsNewestRow v at pending.new.rows.items) }
{
    if pending.begun == u64::MAX {
        return Err(NoMemory);
    }
    let row = empty_row(pending.alloc, pending.begun, vxid, pending.time);
    pending.rows.push(row)?;
    pending.begun += 1;
    Ok(())
}

/// The later of two times.
pub fn raised(told: Option<u128>, old: Option<u128>) -> Option<u128>
    ensures { result ≡ raised told old }
{
    match (told, old) {
        (Some(time), Some(old)) => { if old < time { Some(time) } else { Some(old) } }
        (Some(time), None) => Some(time),
        (None, old) => old,
    }
}

impl Store for Pending {
    type Left = Group;

    ghost Key = { ⊤ };

    ghost holds = { λ key p. StandInTrees p };

    ghost hand = { λ key group. group };

    ghost state = { state_of };

    ghost newest_at = { λ p vxid at. IsNewestRow vxid at p.rows.items };

    fn time(&self) -> Option<u128> {
        self.time
    }

    fn rows(&self) -> usize {
        self.rows.len()
    }

    fn count(&self) -> usize {
        self.rows.len()
    }

    fn unfinished(&self) -> usize {
        count_unfinished(&self.rows)
    }

    fn newest(&self, vxid: Vxid) -> Option<usize> {
        newest_row(&self.rows, vxid)
    }

    fn is_open(&self, at: usize, vxid: Vxid) -> bool {
        !self.rows[at].ended
    }

    fn open_row(&mut self, vxid: Vxid) -> Result<usize, NoMemory> {
        if let Some(at) = newest_row(&self.rows, vxid) {
            if !self.rows[at].ended {
                return Ok(at);
            }
        }
        let at = self.rows.len();
        begin(self, vxid)?;
        Ok(at)
    }

    fn other_row(&mut self, vxid: Vxid) -> Result<usize, NoMemory> {
        if let Some(at) = newest_row(&self.rows, vxid) {
            return Ok(at);
        }
        let at = self.rows.len();
        begin(self, vxid)?;
        Ok(at)
    }

    fn link(
        &mut self,
        below: usize,
        child: Vxid,
        above: usize,
        parent: Vxid,
    ) -> Result<(), NoMemory> {
        link_rows(self.alloc, &mut self.rows, below, child, above, parent)
    }

    fn add_to(
        &mut self,
        at: usize,
        vxid: Vxid,
        rec: &RecordView<'_>,
        claim: Option<Claim>,
        at_hand: &RecordsView<'_>,
    ) -> Result<(), NoMemory> {
        add_record(&mut self.rows[at], rec, claim, at_hand)?;
        Ok(())
    }

    fn add_run(&mut self, at: usize, vxid: Vxid, run: &RecordsView<'_>) -> Result<(), NoMemory> {
        add_records(&mut self.rows[at], run)
    }

    fn raise(&mut self, told: Option<u128>) {
        let now = raised(told, self.time);
        if self.time.is_some() {
            self.time = now;
            return;
        }
        time_rows(&mut self.rows, now);
        self.time = now;
    }

    fn last_in_time(&mut self, seconds: u32) -> Option<u128> {
        None
    }

    fn end_row(
        &mut self,
        grouping: Grouping,
        at: usize,
        vxid: Vxid,
        out: &mut Vec<Group>,
    ) -> Result<(), NoMemory> {
        self.rows[at].ended = true;
        let root = self.rows[at].root;
        leave(self.alloc, grouping, &mut self.rows, root, out)
    }

    fn force_one(
        &mut self,
        grouping: Grouping,
        which: Which,
        cause: Cause,
        out: &mut Vec<Group>,
    ) -> Result<bool, NoMemory> {
        let Some(at) = oldest_of(which, &self.rows) else {
            return Ok(false);
        };
        force_at(self.alloc, grouping, &mut self.rows, at, cause, out)?;
        Ok(true)
    }

    fn hand_whole(
        &mut self,
        vxid: Vxid,
        records: &RecordsView<'_>,
        out: &mut Vec<Group>,
    ) -> Result<(), NoMemory> {
        if self.begun == u64::MAX {
            return Err(NoMemory);
        }
        let group = whole_group(self.alloc, vxid, records)?;
        out.push(group)?;
        self.begun += 1;
        Ok(())
    }

    fn hand_alone(
        &mut self,
        vxid: Vxid,
        rec: &RecordView<'_>,
        out: &mut Vec<Group>,
    ) -> Result<(), NoMemory> {
        take_raw(self.alloc, vxid, rec, out)
    }
}
