//! A place for one consumer, which takes groups, or was ended and is still there for its text.

ghost use Rattle.std.specs.Prelude.{◌≡◌, false, true, IfOk, OnOk};
ghost use Rattle.vsl_dispatch.specs.Entries.{Finished, Handed, IsSame, OfferedTo, TextTaken, new_entry};

use crate::consumer::{Consumer, Go};
use log_model::NoMemory;
use txn_rows::Group;
use vsl_record::Unit;

/// A place for a consumer, which takes groups, or was ended and is still there for its text.
#[derive(Drop)]
pub struct Entry<C> {
    pub consumer: C,
    /// Whether it takes groups.
    pub live: bool,
}

impl<C: Consumer> Entry<C> {
    /// The place of a consumer that takes groups.
    pub fn new(consumer: C) -> Entry<C>
        ensures { result ≡ new_entry consumer }
    {
        Entry {
            consumer,
            live: true,
        }
    }

    /// Whether the consumer takes groups.
    pub fn is_live(&self) -> bool
        ensures { result ≡ self.now.live }
    {
        self.live
    }

    /// Gives a group to the consumer, if it takes groups. With the last that it keeps it is ended, and takes no more.
    pub fn give(&mut self, group: &Group) -> Result<(), NoMemory>
        ensures same { IsSame C.keep C.output self.old.consumer self.new.consumer }
        ensures handed { OnOk result
            (Handed C.keep C.output C.represents group.now true self.old self.new) }
    {
        if !self.live {
            return Ok(());
        }
        if let Go::Done = self.consumer.group(group)? {
            self.consumer.end()?;
            self.live = false;
        }
        Ok(())
    }

    /// Offers the records of a unit, each as a group by itself, to the consumer, if it takes groups; whether it took them.
    pub fn records(&mut self, unit: &Unit) -> Result<bool, NoMemory>
        ensures same { IsSame C.keep C.output self.old.consumer self.new.consumer }
        ensures offered { IfOk result (λ took.
            OfferedTo C.keep C.output C.represents unit.now took self.old self.new) }
    {
        if !self.live {
            return Ok(false);
        }
        self.consumer.records(unit)
    }

    /// No group will follow: ends the consumer, if it takes groups.
    pub fn finish(&mut self) -> Result<(), NoMemory>
        ensures same { IsSame C.keep C.output self.old.consumer self.new.consumer }
        ensures finished { OnOk result
            (Finished C.keep C.output C.represents self.old self.new) }
    {
        if !self.live {
            return Ok(());
        }
        self.consumer.end()?;
        self.live = false;
        Ok(())
    }

    /// What the consumer wrote since its text was last taken, also where it takes no groups. It takes no memory.
    pub fn text(&mut self) -> Vec<u8>
        ensures same { IsSame C.keep C.output self.old.consumer self.new.consumer }
        ensures taken { TextTaken C.keep C.output C.represents result.items self.old self.new }
    {
        self.consumer.take_text()
    }

    /// How many bytes the consumer wrote since its text was last taken.
    pub fn text_len(&self) -> usize {
        self.consumer.text_len()
    }

    /// Gives it no more groups; its text stays to be taken. It takes no memory.
    pub fn stop(&mut self)
        ensures consumer { self.new.consumer ≡ self.old.consumer }
        ensures stopped { self.new.live ≡ false }
    {
        self.live = false;
    }
}
