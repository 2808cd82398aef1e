//! The dispatcher: groups in, and out come the texts of its consumers.

ghost use Rattle.std.specs.Prelude.{◌≡◌, ◌≢◌, ◌<◌, ℕ, Bool, true, false, List, [], ◌∷◌, ◌++◌, map, length, slice_get, Some, IfOk, OnOk, OnErr, IsErr};
ghost use Rattle.txn_rows.specs.declared.group.Group.{Group};
ghost use Rattle.vsl_dispatch.specs.Entries.{Handed, GivenBefore, Finished, FinishedBefore, TextTaken, count_live, entries_of, has_failed, new_entry};

use crate::consumer::Consumer;
use crate::entry::Entry;
use log_model::NoMemory;
use query_eval::Chosen;
use std::alloc::Global;

/// Consumers at their places. Contracts see the list of entries, and whether it failed for want of memory; from then on it
/// answers that.
#[derive(Drop)]
pub struct Dispatcher<C> {
    pub entries: Vec<Entry<C>>,
    failed: bool,
}

/// Boxed consumers at their places.
pub type Dispatch = Dispatcher<Box<dyn Consumer>>;

/// Gives a group to each entry whose query holds for it.
fn give_each<C: Consumer>(entries: &mut Vec<Entry<C>>, chosen: &Chosen) -> Result<(), NoMemory>
    requires each { length chosen.now.holds ≡ length entries.old.items }
    ensures length { length entries.new.items ≡ length entries.old.items }
    ensures handed { OnOk result ((i : ℕ) (holds : Bool) (old new : Entry C) →
        slice_get chosen.now.holds i ≡ Some holds → slice_get entries.old.items i ≡ Some old →
        slice_get entries.new.items i ≡ Some new →
        Handed C.keep C.output C.represents chosen.now.group holds old new) }
    ensures part { OnErr result
        ((at : ℕ) × GivenBefore C.keep C.output C.represents at chosen.now.group chosen.now.holds
        entries.old.items entries.new.items) }
{
    let holds = chosen.holds.as_slice();
    for i in 0..entries.len() {
        if holds[i] {
            entries[i].give(&chosen.group)?;
        }
    }
    Ok(())
}

/// Ends each entry.
fn finish_each<C: Consumer>(entries: &mut Vec<Entry<C>>) -> Result<(), NoMemory>
    ensures length { length entries.new.items ≡ length entries.old.items }
    ensures finished { OnOk result ((i : ℕ) (old new : Entry C) →
        slice_get entries.old.items i ≡ Some old → slice_get entries.new.items i ≡ Some new →
        Finished C.keep C.output C.represents old new) }
    ensures part { OnErr result
        ((at : ℕ) × FinishedBefore C.keep C.output C.represents at entries.old.items
        entries.new.items) }
{
    for i in 0..entries.len() {
        entries[i].finish()?;
    }
    Ok(())
}

impl<C: Consumer> Dispatcher<C> {
    /// Consumers that received nothing from this dispatcher.
    pub fn new(alloc: Global, consumers: Vec<C>) -> Result<Dispatcher<C>, NoMemory>
        ensures entries { IfOk result (λ d. entries_of d ≡ map new_entry consumers.items) }
        ensures sound { IfOk result (λ d. has_failed d ≡ false) }
    {
        let mut entries = Vec::with_capacity(alloc, consumers.len())?;
        for consumer in consumers {
            if entries.push(Entry::new(consumer)).is_err() {
                return Err(NoMemory);
            }
        }
        Ok(Dispatcher {
            entries,
            failed: false,
        })
    }

    /// Gives a group to each consumer that takes groups and whose query holds for it, in order. One that is done is ended, and
    /// takes no more; the others go on. Where there is no memory for one, those before it have received the group, and those
    /// behind it haven't.
    pub fn give(&mut self, chosen: &Chosen) -> Result<(), NoMemory>
        requires each { length chosen.now.holds ≡ length (entries_of self.old) }
        ensures length { length (entries_of self.new) ≡ length (entries_of self.old) }
        ensures handed { OnOk result ((i : ℕ) (holds : Bool) (old new : Entry C) →
            slice_get chosen.now.holds i ≡ Some holds →
            slice_get (entries_of self.old) i ≡ Some old →
            slice_get (entries_of self.new) i ≡ Some new →
            Handed C.keep C.output C.represents chosen.now.group holds old new) }
        ensures sound { OnOk result
            ((has_failed self.old ≡ false) × (has_failed self.new ≡ false)) }
        ensures part { has_failed self.old ≡ false →
            OnErr result ((at : ℕ) × GivenBefore C.keep C.output C.represents at chosen.now.group
            chosen.now.holds (entries_of self.old) (entries_of self.new)) }
        ensures err { OnErr result (has_failed self.new ≡ true) }
        ensures failed { has_failed self.old ≡ true →
            IsErr result × (entries_of self.new ≡ entries_of self.old) }
    {
        if self.failed {
            return Err(NoMemory);
        }
        self.failed = true;
        give_each(&mut self.entries, chosen)?;
        self.failed = false;
        Ok(())
    }

    /// What the consumer at this place wrote since its text was last taken, also where it takes no groups. It takes no memory.
    pub fn text(&mut self, place: usize) -> Vec<u8>
        requires { place < length (entries_of self.old) }
        ensures length { length (entries_of self.new) ≡ length (entries_of self.old) }
        ensures same { has_failed self.new ≡ has_failed self.old }
        ensures taken { (old new : Entry C) → slice_get (entries_of self.old) place ≡ Some old →
            slice_get (entries_of self.new) place ≡ Some new →
            TextTaken C.keep C.output C.represents result.items old new }
        ensures others { (i : ℕ) → i ≢ place →
            slice_get (entries_of self.new) i ≡ slice_get (entries_of self.old) i }
    {
        self.entries[place].text()
    }

    /// Gives the consumer at this place no more groups; what it wrote stays to be taken. It takes no memory.
    pub fn stop(&mut self, place: usize)
        requires { place < length (entries_of self.old) }
        ensures length { length (entries_of self.new) ≡ length (entries_of self.old) }
        ensures same { has_failed self.new ≡ has_failed self.old }
        ensures stopped { (old new : Entry C) → slice_get (entries_of self.old) place ≡ Some old →
            slice_get (entries_of self.new) place ≡ Some new →
            (new.consumer ≡ old.consumer) × (new.live ≡ false) }
        ensures others { (i : ℕ) → i ≢ place →
            slice_get (entries_of self.new) i ≡ slice_get (entries_of self.old) i }
    {
        self.entries[place].stop();
    }

    /// How many consumers take groups.
    pub fn live(&self) -> usize
        ensures { result ≡ count_live (entries_of self.now) }
    {
        self.entries.iter().filter(|entry| entry.is_live()).count()
    }

    /// No group will follow: ends each consumer that takes groups, in order. Where there is no memory for one, those before it
    /// are ended, and those behind it aren't.
    pub fn finish(&mut self) -> Result<(), NoMemory>
        ensures length { length (entries_of self.new) ≡ length (entries_of self.old) }
        ensures finished { OnOk result ((i : ℕ) (old new : Entry C) →
            slice_get (entries_of self.old) i ≡ Some old →
            slice_get (entries_of self.new) i ≡ Some new →
            Finished C.keep C.output C.represents old new) }
        ensures sound { OnOk result
            ((has_failed self.old ≡ false) × (has_failed self.new ≡ false)) }
        ensures part { has_failed self.old ≡ false →
            OnErr result ((at : ℕ) × FinishedBefore C.keep C.output C.represents at
            (entries_of self.old) (entries_of self.new)) }
        ensures err { OnErr result (has_failed self.new ≡ true) }
        ensures failed { has_failed self.old ≡ true →
            IsErr result × (entries_of self.new ≡ entries_of self.old) }
    {
        if self.failed {
            return Err(NoMemory);
        }
        self.failed = true;
        finish_each(&mut self.entries)?;
        self.failed = false;
        Ok(())
    }
}
