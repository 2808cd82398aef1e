//! What a worker does: it puts the units of a listing into the ring, and counts them.

ghost use Rattle.std.specs.Prelude.{◌≡◌, ◌+◌, ◌^◌, ◌<◌, ◌≤◌, ℕ, length, IfOk, IfErr, OnOk, OnErr};
ghost use Rattle.std.specs.List.{All};
ghost use Rattle.vsl_record.specs.Words.{unit_words};
ghost use Rattle.counter_segments.specs.Sums.{counter_count, own_sum, new_pass};
ghost use Rattle.log_ring.specs.Writers.{HasWaited, IsRefusedAtLast, new_writer};
ghost use Rattle.traffic_feed.specs.Batches.{IsWithin};
ghost use Rattle.traffic_feed.specs.Counted.{unit_share};
ghost use Rattle.traffic_feed.specs.Listing.{record_count};
ghost use Rattle.traffic_feed.specs.Feeding.{IsFed, IsReady, WasAskedEach, most_records};
ghost use Rattle.traffic_feed.specs.inside.Putting.{HasAdded, StoppedAt};

use crate::gate::Gate;
use crate::waiting::add_waits;
use crate::{Listing, count_cuts, count_unit, count_waits, count_wraps};
use counter_segments::{CounterPass, Counters};
use log_ring::{LeftWriter, Ring, WriterPass};
use ring_layout::PutFault;
use std::sync::Wait;
use vsl_record::Unit;

/// What a worker leaves.
#[derive(Drop)]
pub struct Fed {
    /// Its pass to the ring.
    pub left: LeftWriter,
    /// Its pass to the counters.
    pub counts: CounterPass,
    /// How often it found the write token taken, in puts that put a unit; 2^56 where that is less.
    pub busy: u64,
    /// The tail, in words, at which the ring had no place for the next unit.
    pub full: Option<u64>,
}

/// Puts a unit and counts it. It tells how often the write token was found taken, or the tail at which the ring has no place.
fn put_counted<R: Wait>(
    rt: &R,
    pass: &mut WriterPass,
    ring: &Ring,
    counts: &mut CounterPass,
    counters: &Counters,
    unit: &Unit,
) -> Result<u64, u64>
    requires ring { pass.old.ring ≡ ring.now }
    requires ours { counts.old.counters ≡ counters.now }
    requires low { (which : ℕ) → which < counter_count → own_sum which counts.old < 2 ^ 55 }
    requires fits { length (unit_words unit.now) ≤ ring.now.seg }
    ensures same { counts.new.counters ≡ counts.old.counters }
    ensures put { IfOk result (λ waits. HasWaited unit.now pass.old waits pass.new) }
    ensures counted { OnOk result
        (HasAdded (λ which. unit_share which unit.now) counts.old counts.new) }
    ensures full { IfErr result
        (λ tail. IsRefusedAtLast unit.now pass.old (PutFault.Exhausted tail) pass.new) }
    ensures kept { OnErr result (counts.new ≡ counts.old) }
{
    match pass.put(rt, ring, unit) {
        Ok(waits) => {
            count_unit(counts, counters, unit);
            Ok(waits)
        }
        Err(PutFault::Exhausted { tail }) => Err(tail),
        Err(_) => unreachable!(),
    }
}

/// Puts units in order and counts them, up to one for which the ring has no place. It tells how often the write token was
/// found taken, and the tail there.
fn put_all<R: Wait, G: Gate>(
    rt: &R,
    pass: &mut WriterPass,
    ring: &Ring,
    counts: &mut CounterPass,
    counters: &Counters,
    worker: u32,
    units: &[Unit],
    gate: &G,
) -> (u64, Option<u64>)
    requires pass { pass.old ≡ new_writer ring.now pass.old.number }
    requires counts { counts.old ≡ new_pass counters.now }
    requires within { All (IsWithin ring.now.seg) units.now }
    requires few { record_count units.now ≤ most_records }
    ensures stopped { StoppedAt ring.now counters.now units.now result.1 pass.new counts.new
        result.0 }
    ensures number { pass.new.number ≡ pass.old.number }
    ensures asked { WasAskedEach (G.was_asked gate.now worker) pass.new.entries result.1 }
{
    let mut busy = 0;
    let mut at = 0;
    while at < units.len() {
        gate.before_put(rt, worker, at as u64);
        match put_counted(rt, pass, ring, counts, counters, &units[at]) {
            Ok(waits) => busy = add_waits(busy, waits),
            Err(tail) => return (busy, Some(tail)),
        }
        at += 1;
    }
    (busy, None)
}

/// Puts the units of a listing into a ring, in order, counts them, and leaves. It waits while another writer is putting a
/// unit. Where the ring has no place for one it stops there; all cuts of the listing are counted. The gate is asked before
/// each put. It takes no memory.
pub fn feed<R: Wait, G: Gate>(
    rt: &R,
    mut pass: WriterPass,
    ring: &Ring,
    mut counts: CounterPass,
    counters: &Counters,
    worker: u32,
    listing: &Listing,
    gate: &G,
) -> Fed
    requires { IsReady ring.now counters.now pass counts listing.now }
    ensures fed { IsFed ring.now counters.now listing.now result }
    ensures number { result.left.number ≡ pass.number }
    ensures asked { WasAskedEach (G.was_asked gate.now worker) result.left.entries result.full }
{
    let (busy, full) = put_all(
        rt,
        &mut pass,
        ring,
        &mut counts,
        counters,
        worker,
        listing.units.as_slice(),
        gate,
    );
    count_cuts(&mut counts, counters, listing.cuts);
    count_waits(&mut counts, counters, busy);
    let left = pass.leave(ring);
    count_wraps(&mut counts, counters, left.wraps());
    Fed {
        left,
        counts,
        busy,
        full,
    }
}
