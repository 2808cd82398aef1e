//! A ring with one writer and one cursor: on one thread, or one that threads share.

ghost use Rattle.std.specs.Prelude.{◌≡◌, Some};
ghost use Rattle.log_ring.specs.Writers.{WriterState};

use crate::support::{least_shape, open_pair};
use log_ring::{ReaderPass, Ring, WriterPass};
use ring_layout::{PutFault, Sought, Step};
use ring_plain::{PlainCursor, PlainRing};
use std::alloc::Global;
use std::marker::Model;
use std::process::Abort;
use vsl_record::{Unit, Vxid};

/// A ring of segments of 64 words, with its writer and its cursor.
pub trait AnyRing: Drop {
    /// A ring with no unit.
    fn new<R: Abort>(rt: &R, alloc: Global) -> Self;

    /// Puts a unit. Once the writer left it is `Busy`, which no ring answers to a writer that is alone.
    fn put(&mut self, unit: &Unit) -> Result<(), PutFault>;

    /// The writer leaves.
    fn leave(&mut self);

    /// What the cursor meets next, and the VXID and the number of the unit that it took, or 0.
    fn next(&mut self) -> (Step, Vxid, u64);

    /// Goes on, where the cursor is overrun.
    fn seek(&mut self) -> Option<Sought>;

    /// Whether the cursor is overrun.
    fn is_lost(&self) -> bool;
}

/// The ring on one thread.
#[derive(Drop)]
pub struct Plain {
    ring: PlainRing,
    cursor: PlainCursor,
    has_left: bool,
}

impl Model for Plain {
    ghost use Rattle.std.specs.Prelude.{◌≡◌};
    ghost use Rattle.ring_plain.specs.Ring.{RingState};
    ghost use Rattle.ring_tests.specs.Standing.{StandsIn};

    ghost Value = { RingState };

    ghost view = { λ p. p.ring };

    ghost invariant = { λ p. (p.has_left ≡ p.ring.ended) × StandsIn p.ring p.cursor };
}

impl AnyRing for Plain {
    #[tactic(auto, using(crate::proofs::StandingLemmas::stands_first))]
    fn new<R: Abort>(rt: &R, alloc: Global) -> Self {
        let ring = PlainRing::new(alloc, least_shape(rt)).expect(rt, "memory");
        let cursor = PlainCursor::new(alloc, &ring).expect(rt, "memory");
        Plain {
            ring,
            cursor,
            has_left: false,
        }
    }

    fn put(&mut self, unit: &Unit) -> Result<(), PutFault> {
        if self.has_left {
            return Err(PutFault::Busy);
        }
        self.ring.put(unit)?;
        Ok(())
    }

    #[tactic(auto, using(crate::proofs::StandingLemmas::stands_ended))]
    fn leave(&mut self) {
        self.ring.end();
        self.has_left = true;
    }

    #[tactic(auto, using(crate::proofs::StandingLemmas::stands_next))]
    fn next(&mut self) -> (Step, Vxid, u64) {
        let step = self.cursor.next(&self.ring);
        match step {
            Step::Took => (step, self.cursor.unit().vxid(), self.cursor.number()),
            _ => (step, 0, 0),
        }
    }

    #[tactic(auto, using(crate::proofs::StandingLemmas::stands_sought))]
    fn seek(&mut self) -> Option<Sought> {
        if !self.cursor.is_lost() {
            return None;
        }
        Some(self.cursor.seek(&self.ring))
    }

    fn is_lost(&self) -> bool {
        self.cursor.is_lost()
    }
}

/// The ring that threads share.
#[derive(Drop)]
pub struct Shared {
    ring: Ring,
    writer: Option<WriterPass>,
    reader: ReaderPass,
    ghost ours: { (w : WriterState) → writer ≡ Some w → w.ring ≡ ring },
    ghost theirs: { reader.ring ≡ ring },
}

impl AnyRing for Shared {
    fn new<R: Abort>(rt: &R, alloc: Global) -> Self {
        let (ring, writer, reader) = open_pair(rt, alloc);
        Shared {
            ring,
            writer: Some(writer),
            reader,
        }
    }

    fn put(&mut self, unit: &Unit) -> Result<(), PutFault> {
        let Some(writer) = &mut self.writer else {
            return Err(PutFault::Busy);
        };
        writer.try_put(&self.ring, unit)
    }

    fn leave(&mut self) {
        if let Some(writer) = self.writer.take() {
            writer.leave(&self.ring);
        }
    }

    fn next(&mut self) -> (Step, Vxid, u64) {
        let step = self.reader.next(&self.ring);
        match step {
            Step::Took => (step, self.reader.unit().vxid(), self.reader.number()),
            _ => (step, 0, 0),
        }
    }

    fn seek(&mut self) -> Option<Sought> {
        if !self.reader.is_lost() {
            return None;
        }
        Some(self.reader.seek(&self.ring))
    }

    fn is_lost(&self) -> bool {
        self.reader.is_lost()
    }
}
