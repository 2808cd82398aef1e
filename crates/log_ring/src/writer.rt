//! A writer's pass.

ghost use Rattle.std.specs.Prelude.{◌≡◌, ℕ, ◌+◌, ◌-◌, ◌^◌, ◌<◌, ◌≤◌, max, min, [], ◌∷◌, ◌++◌, length, MatchResult};
ghost use Rattle.vsl_record.specs.Words.{unit_words};
ghost use Rattle.ring_layout.specs.Places.{last_tail, end_at};
ghost use Rattle.log_ring.specs.Writers.{HasPut, IsRefused, HasWaited, IsRefusedAtLast, count_wrapped};
ghost use Rattle.log_ring.specs.inside.Steps.{IsWriterSeat, IsLeftSeat, writer_of};

use crate::pause::{NoPause, Pause};
use crate::ring::{Ring, RingSeat};
use crate::rule::Coming;
use crate::storing::PlacedUnit;
use ring_layout::{PutFault, place_after};
use std::marker::{Brand, Model};
use std::sync::Wait;
use vsl_record::{Unit, is_unit};

/// The right to put units into a ring, and what was put by it. Contracts see these.
#[derive(Drop)]
pub struct WriterPass {
    pub(crate) seat: RingSeat,
    pub(crate) wraps: u64,
}

impl Model for WriterPass {
    ghost use Rattle.std.specs.Prelude.{◌≡◌, ◌≤◌, length};
    ghost use Rattle.log_ring.specs.Writers.{WriterState, count_wrapped};
    ghost use Rattle.log_ring.specs.inside.Writing.{first_entries};
    ghost use Rattle.log_ring.specs.inside.Steps.{IsWriterSeat, writer_of};

    ghost Value = { WriterState };

    ghost view = { λ p. writer_of p.seat.table_id p.seat.me.0 };

    ghost invariant = { λ p. IsWriterSeat p.seat.me ×
        (p.wraps ≡ count_wrapped p.seat.me.0.ring.seg (first_entries p.seat.me.0.writers)) };
}

impl WriterPass {
    /// Puts a unit, where no other writer is putting one. `TooLong` where it has more words than a segment, `Busy` where
    /// another writer is putting one, and `Exhausted` where no place is left, with the tail in words. It takes no memory
    /// and never waits. After a refusal the log has nothing of this call.
    pub fn try_put(&mut self, ring: &Ring, unit: &Unit) -> Result<(), PutFault>
        requires ours { self.old.ring ≡ ring.now }
        ensures { MatchResult result (λ _. HasPut unit.now self.old self.new)
            (λ fault. IsRefused unit.now self.old fault self.new) }
    {
        self.try_put_with(ring, unit, &mut NoPause)
    }

    /// Puts a unit as `try_put` does, and calls `pause` before each step after the one that got the write token.
    pub fn try_put_with<P: Pause>(
        &mut self,
        ring: &Ring,
        unit: &Unit,
        pause: &mut P,
    ) -> Result<(), PutFault>
        requires ours { self.old.ring ≡ ring.now }
        ensures { MatchResult result (λ _. HasPut unit.now self.old self.new)
            (λ fault. IsRefused unit.now self.old fault self.new) }
    {
        let words = unit.words();
        if words > ring.shape.seg() as usize {
            return Err(PutFault::TooLong {
                words: words as u64,
            });
        }
        self.put_as::<Brand, P>(ring, unit, words as u32, pause)
    }

    /// Puts a unit of so many words, which fit a segment.
    fn put_as<N: Coming, P: Pause>(
        &mut self,
        ring: &Ring,
        unit: &Unit,
        words: u32,
        pause: &mut P,
    ) -> Result<(), PutFault>
        requires ours { self.old.ring ≡ ring.now }
        requires unit { unit.now ≡ N.unit }
        requires words { words ≡ length (unit_words unit.now) }
        requires fits { words ≤ ring.now.seg }
        ensures { MatchResult result (λ _. HasPut unit.now self.old self.new)
            (λ fault. IsRefused unit.now self.old fault self.new) }
    {
        let token = ring.acquire::<N>(&mut self.seat);
        if token == 0 {
            return Err(PutFault::Busy);
        }
        let tail = token - 1;
        let mut step: u64 = 0;
        is_unit(unit);
        let Some(placed) = place_after(ring.shape, tail, words) else {
            ring.withdraw(&mut self.seat, tail, unit, pause, &mut step);
            return Err(PutFault::Exhausted { tail });
        };
        let count = ring.load_count(&mut self.seat, tail, unit, pause, &mut step);
        let put = PlacedUnit {
            unit,
            tail,
            count,
            placed,
        };
        ring.store(&mut self.seat, &put, pause, &mut step);
        if placed.wraps {
            self.wraps += 1;
        }
        Ok(())
    }

    /// Puts a unit, and waits while another writer is putting one. It says how often it found the write token taken, up to
    /// 2^64 - 1.
    pub fn put<R: Wait>(&mut self, rt: &R, ring: &Ring, unit: &Unit) -> Result<u64, PutFault>
        requires ours { self.old.ring ≡ ring.now }
        ensures { MatchResult result (λ busy. HasWaited unit.now self.old busy self.new)
            (λ fault. IsRefusedAtLast unit.now self.old fault self.new) }
    {
        let mut busy: u64 = 0;
        for _ in rt.forever() {
            match self.try_put(ring, unit) {
                Ok(()) => return Ok(busy),
                Err(PutFault::Busy) => {
                    busy = busy.saturating_add(1);
                    ring.await_token(rt);
                }
                Err(fault) => return Err(fault),
            }
        }
        unreachable!()
    }

    /// Says that this writer puts no unit any more. Once all have left, readers come to the end of the log.
    pub fn leave(self, ring: &Ring) -> LeftWriter
        requires ours { self.ring ≡ ring.now }
        ensures { result ≡ self }
    {
        let mut seat = self.seat;
        ring.count_finished(&mut seat);
        LeftWriter {
            seat,
            wraps: self.wraps,
        }
    }
}

/// A writer that left. Contracts see what it put.
#[derive(Drop)]
pub struct LeftWriter {
    pub(crate) seat: RingSeat,
    wraps: u64,
}

impl Model for LeftWriter {
    ghost use Rattle.std.specs.Prelude.{◌≡◌};
    ghost use Rattle.log_ring.specs.Writers.{WriterState, count_wrapped};
    ghost use Rattle.log_ring.specs.inside.Writing.{first_entries};
    ghost use Rattle.log_ring.specs.inside.Steps.{IsLeftSeat, writer_of};

    ghost Value = { WriterState };

    ghost view = { λ p. writer_of p.seat.table_id p.seat.me.0 };

    ghost invariant = { λ p. IsLeftSeat p.seat.me ×
        (p.wraps ≡ count_wrapped p.seat.me.0.ring.seg (first_entries p.seat.me.0.writers)) };
}

impl LeftWriter {
    /// How many units of this writer wrapped.
    pub fn wraps(&self) -> u64
        ensures { result ≡ count_wrapped self.now.ring.seg self.now.entries }
    {
        self.wraps
    }

    /// The seat of this writer.
    pub(crate) fn into_seat(self) -> RingSeat
        ensures finished { IsLeftSeat result.me }
        ensures same { writer_of result.table_id result.me.0 ≡ self }
    {
        self.seat
    }
}
