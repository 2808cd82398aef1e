//! The printer: items in, and out comes what a consumer writes of the groups that they complete and for which the
//! query holds.

ghost use Rattle.std.specs.Prelude.{◌≡◌, ℕ, List, [], ◌∷◌, false, true, IfOk, OnOk};
ghost use Rattle.txn_rows.specs.Grouping.{Taken, no_state};
ghost use Rattle.txn_groups.specs.Groups.{groups_state};
ghost use Rattle.text_printer.specs.inside.Asked.{alone_query};

use crate::alone::AskedAlone;
use crate::next::{Next, complete, give_all};
use fan_output::Texts;
use log_model::NoMemory;
use query_parser::Query;
use ring_layout::Item;
use std::alloc::Global;
use std::slice::from_ref;
use txn_groups::Groups;
use txn_rows::GroupOptions;
use vsl_dispatch::{Consumer, Entry};

/// Groups items, gives each group for which the query holds to a consumer when it is complete, and hands out what that
/// writes. It is one text: that at place 0. Contracts see the table of what is pending, the query, which it borrows, and the
/// place of the consumer, by which every list of items has a text that is due.
#[derive(Drop)]
pub struct Printer<'q, C> {
    alloc: Global,
    query: &'q Query,
    groups: Groups<'q>,
    alone: AskedAlone<'q>,
    entry: Entry<C>,
    ghost asked: { (groups_state groups).queries ≡ query.now ∷ [] },
    ghost asked_alone: { alone_query alone ≡ query.now },
}

impl<'q, C: Consumer> Printer<'q, C> {
    ghost use Rattle.text_printer.specs.Printer.{Represents, plan_of, printer_state};
    ghost use Rattle.text_printer.specs.inside.Next.{is_end, taken_with};

    /// A printer that was given nothing, and its consumer.
    pub fn new(
        alloc: Global,
        options: GroupOptions,
        query: &'q Query,
        consumer: C,
    ) -> Result<Printer<'q, C>, NoMemory>
        ensures { IfOk result (λ p.
            printer_state p ≡ record {
              table =
                  record { options = options; state = no_state; failed = false };
              query = query.now;
              entry = record { consumer = consumer; live = true };
            }) }
    {
        Ok(Printer {
            alloc,
            query,
            groups: Groups::new(alloc, options, from_ref(query))?,
            alone: AskedAlone::new(alloc, query)?,
            entry: Entry::new(consumer),
        })
    }

    /// Takes what comes next, and gives the consumer the groups that it completed and for which the query holds.
    fn take(&mut self, next: Next<'_>) -> Result<(), NoMemory>
        ensures plan { plan_of C.keep C.output (printer_state self.new) ≡
            plan_of C.keep C.output (printer_state self.old) }
        ensures takes { OnOk result ((taken : List Taken) (bytes : List ℕ) →
            Represents C.keep C.output C.represents (printer_state self.old) taken false bytes →
            Represents C.keep C.output C.represents (printer_state self.new)
            (taken_with taken next.entry) (is_end next.entry) bytes) }
    {
        let ended = next.is_end();
        let left = complete(
            self.alloc,
            &mut self.groups,
            &mut self.alone,
            &mut self.entry,
            next,
        )?;
        give_all(&mut self.entry, &left, ended)
    }
}

impl<'q, C: Consumer> Texts for Printer<'q, C> {
    ghost use Rattle.text_printer.specs.Printer.{HoldsAt, filled_at, text_at};
    ghost use Rattle.text_printer.specs.Laws.{text_grows};

    ghost text = { λ p i met all. text_at C.keep C.output p i met all };

    ghost filled = { λ p i met. filled_at C.keep C.output p i met };

    ghost holds = { λ p i met all taken.
        HoldsAt C.keep C.output C.represents p i met all taken };

    ghost count = { λ p. 1 };

    fn item(&mut self, item: &Item) -> Result<(), NoMemory> {
        match item {
            Item::Unit(unit) => self.take(Next::Unit(unit)),
            Item::Overrun { .. } => self.take(Next::Missed),
            Item::Missed { .. } => Ok(()),
        }
    }

    fn end(&mut self) -> Result<(), NoMemory> {
        self.take(Next::End)
    }

    fn take_text(&mut self, _place: usize) -> Vec<u8> {
        self.entry.text()
    }

    fn is_filled(&self, _place: usize) -> bool {
        !self.entry.is_live()
    }

    fn text_len(&self, _place: usize) -> usize {
        self.entry.text_len()
    }

    fn stop(&mut self, _place: usize) {
        self.entry.stop();
    }

    ghost grows = { λ p i met all taken held list more ended.
        text_grows C.keep C.output C.represents p i met all taken held list more ended };
}
