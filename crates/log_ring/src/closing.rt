//! A ring is closed when all its passes are given back.

ghost use Rattle.std.specs.Prelude.{◌≡◌, ◌<◌, [], map, vec_len, sum_by};
ghost use Rattle.std.specs.List.{AllByRecursion};
ghost use Rattle.log_model.specs.Interleaving.{IsInterleaving};
ghost use Rattle.vsl_record.specs.Words.{unit_words};
ghost use Rattle.ring_layout.specs.History.{AddUp};
ghost use Rattle.log_ring.specs.Writers.{entries_of, units_put, busy_of, AreWritersOf};
ghost use Rattle.log_ring.specs.Readers.{history_taken, AreReadersOf};
ghost use Rattle.log_ring.specs.Closed.{entries_from, IsDoneWith, HasReached, AgreesWith};
ghost use Rattle.log_ring.specs.inside.Steps.{IsJoined, IsJoinedWith};

use crate::reader::ReaderPass;
use crate::ring::{Ring, RingSeat};
use crate::rule::{Settling, Together};
use crate::writer::LeftWriter;
use std::marker::Model;

/// A ring that no thread shares any more. Contracts see its log, and what each reader took of it. It holds no byte of
/// them.
#[derive(Drop)]
pub struct ClosedRing {
    seat: RingSeat,
}

impl Model for ClosedRing {
    ghost use Rattle.std.specs.Prelude.{map};
    ghost use Rattle.log_ring.specs.Readers.{history_of};
    ghost use Rattle.log_ring.specs.Closed.{ClosedState};

    ghost Value = { ClosedState };

    ghost view = { λ c. record {
      log = c.seat.me.0.log;
      histories = map history_of c.seat.me.0.readers;
      busy = c.seat.me.0.busy;
    } };
}

/// One seat that stands for all writers, in their order.
fn join_writers(ring: &Ring, mut writers: Vec<LeftWriter>) -> RingSeat
    requires ours { AreWritersOf ring.now writers.items }
    requires some { 0 < vec_len writers }
    ensures { IsJoined ring.now writers.items [] [] result.table_id result.me }
{
    let words = &ring.table.shared;
    let Some(last) = writers.pop() else {
        unreachable!();
    };
    let mut all = last.into_seat();
    while let Some(writer) = writers.pop() {
        let mut seat = writer.into_seat();
        words.join_seat::<Together>(&mut seat, all);
        all = seat;
    }
    all
}

/// One seat that stands for all writers and readers, in their order.
fn join_readers(ring: &Ring, writers: Vec<LeftWriter>, mut readers: Vec<ReaderPass>) -> RingSeat
    requires ours { AreWritersOf ring.now writers.items }
    requires some { 0 < vec_len writers }
    requires theirs { AreReadersOf ring.now readers.items }
    ensures { IsJoinedWith ring.now writers.items readers.items [] result.table_id result.me }
{
    let words = &ring.table.shared;
    let mut all = join_writers(ring, writers);
    while let Some(reader) = readers.pop() {
        let mut seat = reader.into_seat();
        words.join_seat::<Together>(&mut seat, all);
        all = seat;
    }
    all
}

/// Closes a ring of which all writers left. The log is an interleaving of what they put, each in its order and at its
/// tail, and what each reader took is a history of that log. The log reached each tail that a writer found, and what
/// two readers took at one number is the same unit. Where what a reader took reaches the tail, the units that it took and
/// those that it missed, as its runs tell, add up to the log's length.
pub fn close(ring: Ring, writers: Vec<LeftWriter>, readers: Vec<ReaderPass>) -> ClosedRing
    requires ours { AreWritersOf ring writers.items }
    requires all { vec_len writers ≡ ring.writers }
    requires theirs { AreReadersOf ring readers.items }
    ensures log { IsInterleaving result.log (map units_put writers.items) }
    ensures entries { IsInterleaving (entries_from unit_words ring.seg 0 result.log)
        (map entries_of writers.items) }
    ensures busy { result.busy ≡ sum_by busy_of writers.items }
    ensures histories { result.histories ≡ map history_taken readers.items }
    ensures found { AllByRecursion (HasReached ring.seg result.log) writers.items }
    ensures readers { AllByRecursion (IsDoneWith ring.seg result.log) readers.items }
    ensures counted { AllByRecursion (AddUp result.log) result.histories }
    ensures alike { AllByRecursion
        (λ reader. AllByRecursion (AgreesWith reader) readers.items) readers.items }
{
    let mut seat = join_readers(&ring, writers, readers);
    ring.table.shared.load::<Settling>(&mut seat, 0);
    ClosedRing { seat }
}
