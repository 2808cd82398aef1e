//! The table of pending transactions.

ghost use Rattle.std.specs.Prelude.{◌≡◌, ◌≤◌, true, false, length, IfOk, OnOk, OnErr, IsErr};
ghost use Rattle.txn_rows.specs.Grouping.{no_state, unit_step, unfinished, force, flush};
ghost use Rattle.txn_rows.specs.Table.{TableStepped, TableFailed, itself};

use crate::forcing::{flush_all, force_oldest};
use crate::group::{Cause, Group, GroupOptions, Grouping};
use crate::pending::Pending;
use crate::steps::take_unit;
use crate::store::Store;
use log_model::NoMemory;
use std::alloc::Global;
use std::marker::Model;
use vsl_record::Unit;

/// The pending transactions of a log, in the order in which they began: they stand in a list, and are
/// searched. Contracts see the options, the state, and whether it failed for want of memory; from then on it
/// answers that.
///
/// 2^64 transactions begun, a level above 2^32 - 1, and 2^64 children count as want of memory.
#[derive(Drop)]
pub struct Table {
    options: GroupOptions,
    store: Pending,
    failed: bool,
}

impl Model for Table {
    ghost use Rattle.std.specs.Prelude.{◌≡◌, false};
    ghost use Rattle.txn_rows.specs.TableState.{TableState};
    ghost use Rattle.txn_rows.specs.States.{state_of, StandInTrees, IsSound};

    ghost Value = { TableState };

    ghost view = { λ t. record {
      options = t.options;
      state = state_of t.store;
      failed = t.failed;
    } };

    ghost invariant = { λ t. t.failed ≡ false →
        IsSound StandInTrees state_of t.options.limit t.store };
}

impl Table {
    pub fn new(alloc: Global, options: GroupOptions) -> Result<Table, NoMemory>
        ensures { IfOk result (λ t.
            t ≡ record { options = options; state = no_state; failed = false }) }
    {
        Ok(Table {
            options,
            store: Pending::new(alloc)?,
            failed: false,
        })
    }

    /// Takes the records of a unit in order, and adds the groups that they complete. No more transactions
    /// than the limit stay pending.
    pub fn step(&mut self, unit: &Unit, out: &mut Vec<Group>) -> Result<(), NoMemory>
        ensures ok { OnOk result (TableStepped itself
            (unit_step self.old.options unit.now self.old.state) self.old self.new out.old.items
            out.new.items) }
        ensures limit { OnOk result (length self.new.state.pending ≤ self.new.options.limit) }
        ensures err { OnErr result
            (TableFailed itself (unit_step self.old.options unit.now self.old.state) self.old
            self.new out.old.items out.new.items) }
        ensures failed { self.old.failed ≡ true → IsErr result × (out.new.items ≡ out.old.items) }
    {
        if self.failed {
            return Err(NoMemory);
        }
        let taken = take_unit(self.options, &mut self.store, unit, out);
        self.failed = taken.is_err();
        taken
    }

    /// Force-completes the oldest transaction that has not ended, where there is one, and adds the group that it
    /// completes.
    pub fn force(&mut self, cause: Cause, out: &mut Vec<Group>) -> Result<(), NoMemory>
        ensures ok { OnOk result (TableStepped itself
            (force cause self.old.state) self.old self.new out.old.items out.new.items) }
        ensures err { OnErr result
            (TableFailed itself (force cause self.old.state) self.old self.new out.old.items
            out.new.items) }
        ensures failed { self.old.failed ≡ true → IsErr result × (out.new.items ≡ out.old.items) }
    {
        if self.failed {
            return Err(NoMemory);
        }
        let forced = force_oldest(&mut self.store, self.options.grouping, cause, out);
        self.failed = forced.is_err();
        forced
    }

    /// Force-completes every transaction that has not ended, the oldest first, and adds the groups that they
    /// complete. Nothing stays pending. It serves an overrun and the end of a log.
    pub fn flush(&mut self, out: &mut Vec<Group>) -> Result<(), NoMemory>
        ensures ok { OnOk result (TableStepped itself
            (flush self.old.state) self.old self.new out.old.items out.new.items) }
        ensures none { OnOk result (length self.new.state.pending ≡ 0) }
        ensures err { OnErr result
            (TableFailed itself (flush self.old.state) self.old self.new out.old.items
            out.new.items) }
        ensures failed { self.old.failed ≡ true → IsErr result × (out.new.items ≡ out.old.items) }
    {
        if self.failed {
            return Err(NoMemory);
        }
        let flushed = flush_all(&mut self.store, self.options.grouping, out);
        self.failed = flushed.is_err();
        flushed
    }

    /// How the records are grouped.
    pub fn grouping(&self) -> Grouping
        ensures { result ≡ self.now.options.grouping }
    {
        self.options.grouping
    }

    /// How many transactions are pending.
    pub fn rows(&self) -> usize
        ensures { result ≡ length self.now.state.pending }
    {
        self.store.count()
    }

    /// How many pending transactions have not ended.
    pub fn unfinished(&self) -> usize
        ensures { result ≡ unfinished self.now.state }
    {
        self.store.unfinished()
    }
}
