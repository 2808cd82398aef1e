//! The consumer of varnishtop.

ghost use Rattle.std.specs.Prelude.{◌≡◌, ◌++◌, [], true, false, ℕ, Bool, List, IfOk, OnOk, OnErr};
ghost use Rattle.txn_rows.specs.declared.group.Group.{Group};
ghost use Rattle.vsl_top.specs.Report.{top_output, top_text};
ghost use Rattle.vsl_top.specs.Counting.{IsTop, keep_of, output_of};

use crate::counts::Counts;
use crate::line::put_lines;
use log_model::NoMemory;
use std::alloc::Global;
use std::mem::replace;
use txn_rows::Group;
use vsl_dispatch::{Consumer, Go, Received};
use vsl_record::Unit;
use vsl_select::{Selection, Viewer};

/// Counts the shown records of groups, by tag and text, and writes a report once they have ended.
///
/// Source: varnishtop(1), `-1`, `-f` and `-k`.
#[derive(Drop)]
pub struct TopConsumer<'s> {
    alloc: Global,
    viewer: Viewer<'s>,
    first_field: bool,
    received: Received,
    counts: Counts,
    text: Vec<u8>,
}

impl<'s> TopConsumer<'s> {
    /// A consumer that received nothing. With `first_field`, a record's text is the first field of its payload, and empty where
    /// there is none; else it is the payload.
    pub fn new(
        alloc: Global,
        selection: &'s Selection,
        first_field: bool,
        keep: Option<u32>,
    ) -> Result<TopConsumer<'s>, NoMemory>
        ensures keep { IfOk result (λ c. keep_of c ≡ keep) }
        ensures output { IfOk result (λ c. output_of c ≡ top_output selection.now first_field) }
        ensures new { IfOk result (λ c. IsTop c [] false []) }
    {
        Ok(TopConsumer {
            alloc,
            viewer: Viewer::new(alloc, selection)?,
            first_field,
            received: Received::new(keep),
            counts: Counts::new(alloc)?,
            text: Vec::new(alloc),
        })
    }

    /// Adds the report of what was counted: a line for each different tag and text, the highest count first, then by the tag's
    /// name, then by the text. After want of memory the list is as it was.
    ///
    /// Source: varnishtop(1), `-1`.
    #[tactic(auto, using(log_model::proofs::PrefixLemmas::cut_back))]
    pub fn report(&self, out: &mut Vec<u8>) -> Result<(), NoMemory>
        ensures ok { OnOk result ((groups : List Group) (ended : Bool) (taken : List ℕ) →
            IsTop self.now groups ended taken →
            out.new.items ≡ out.old.items ++ output_of self.now groups true) }
        ensures err { OnErr result (out.new.items ≡ out.old.items) }
    {
        let length = out.len();
        let lines = self.counts.lines()?;
        let added = put_lines(&lines, out);
        if added.is_err() {
            out.truncate(length);
        }
        added
    }
}

impl<'s> Consumer for TopConsumer<'s> {
    ghost keep = { keep_of };

    ghost output = { output_of };

    ghost represents = { λ c groups ended taken. IsTop c groups ended taken };

    fn group(&mut self, group: &Group) -> Result<Go, NoMemory> {
        self.counts
            .add_group(&mut self.viewer, self.first_field, group)?;
        self.received.add_one()
    }

    fn records(&mut self, unit: &Unit) -> Result<bool, NoMemory> {
        if self.received.keep.is_some() {
            return Ok(false);
        }
        if self.viewer.selection().shows_everything() {
            self.counts.add_records(self.first_field, &unit.records())?;
            return Ok(true);
        }
        self.counts
            .add_alone(&mut self.viewer, self.first_field, &unit.records())?;
        Ok(true)
    }

    fn end(&mut self) -> Result<(), NoMemory> {
        let mut text = Vec::new(self.alloc);
        self.report(&mut text)?;
        self.text = text;
        Ok(())
    }

    fn take_text(&mut self) -> Vec<u8> {
        replace(&mut self.text, Vec::new(self.alloc))
    }

    fn text_len(&self) -> usize {
        self.text.len()
    }
}
