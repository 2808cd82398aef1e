//! What a reader's pass meets of a ring that threads share.

ghost use Rattle.std.specs.Prelude.{◌≡◌, [], ◌∷◌, ◌++◌, false, IsSome, is_some};
ghost use Rattle.log_ring.specs.Readers.{IsAnswer};
ghost use Rattle.run_sources.specs.Live.{HasSought, LiveGave, met_by};

use log_model::Halt;
use log_ring::{ReaderPass, Ring};
use one_run::{Never, Source};
use ring_layout::{Item, Sought, Step};
use std::alloc::Global;
use std::sync::Wait;
use std::thread;
use traffic_feed::Gate;
use vio::World;

/// A ring that is lent, and a pass of it, with what holds a unit that is taken. A gate is asked before each call of the pass.
/// Where nothing is there yet it yields to other threads and asks again, until all writers have left. It never stops with a
/// fault. Where there is no memory for a copy of a unit, the pass has taken that unit all the same.
#[derive(Drop)]
pub struct LiveItems<'a, R, G> {
    pub rt: &'a R,
    pub alloc: Global,
    pub ring: &'a Ring,
    pub pass: ReaderPass,
    pub gate: &'a G,
    /// The number of the next call of the pass, counted from 0.
    pub call: u64,
}

impl<'a, R, G> LiveItems<'a, R, G> {
    /// What a pass of this ring meets from here on.
    pub fn new(
        rt: &'a R,
        alloc: Global,
        ring: &'a Ring,
        pass: ReaderPass,
        gate: &'a G,
    ) -> LiveItems<'a, R, G>
        requires ours { pass.ring ≡ ring.now }
        ensures pass { result.pass ≡ pass }
        ensures ready { result.pass.ring ≡ result.ring.now }
        ensures fresh { LiveGave result.pass result.pass [] false }
    {
        LiveItems {
            rt,
            alloc,
            ring,
            pass,
            gate,
            call: 0,
        }
    }
}

/// A pass that wasn't overrun takes the next unit.
fn take(ring: &Ring, pass: &mut ReaderPass) -> Step
    requires ours { pass.old.ring ≡ ring.now }
    requires reads { is_some pass.old.reader.lost ≡ false }
    ensures same { pass.new.ring ≡ pass.old.ring }
    ensures answer { IsAnswer pass.old result pass.new }
    ensures behind { HasSought pass.old → HasSought pass.new }
{
    pass.next(ring)
}

/// A pass that was overrun seeks: how many units it missed where it goes on, or that it was overrun again.
fn seek(ring: &Ring, pass: &mut ReaderPass) -> Item
    requires ours { pass.old.ring ≡ ring.now }
    requires lost { IsSome pass.old.reader.lost }
    ensures same { pass.new.ring ≡ pass.old.ring }
    ensures met { met_by pass.new ≡ met_by pass.old ++ result ∷ [] }
    ensures behind { HasSought pass.old → HasSought pass.new }
{
    let due = pass.next_number();
    match pass.seek(ring) {
        Sought::At { number, .. } => Item::Missed {
            units: number - due,
        },
        Sought::Lost { at, seen } => Item::Overrun { at, seen },
    }
}

impl<'a, R: Wait, G: Gate> Source for LiveItems<'a, R, G> {
    ghost use Rattle.std.specs.Prelude.{[], ◌≡◌, false};
    ghost use Rattle.run_sources.specs.Live.{LiveGave, LiveStarved};

    type Fault = Never;

    ghost gave = { λ start now calls met all. LiveGave start.pass now.pass met all };

    ghost stopped = { λ start fault calls met world. ⊥ };

    ghost starved = { λ start now calls met. LiveStarved start.pass now.pass met };

    ghost reads = { λ live. [] };

    ghost asks = { λ start calls met. ⊥ };

    ghost is_ready = { λ live. live.pass.ring ≡ live.ring.now };

    ghost at_hand = { λ live. false };

    fn is_at_hand(&self) -> bool {
        false
    }

    fn next<W: World>(&mut self, _world: &mut W) -> Result<Option<Item>, Halt<Never>> {
        let rt = self.rt;
        for _ in rt.forever() {
            self.gate.before_read(rt, self.call);
            self.call = self.call.saturating_add(1);
            if self.pass.is_lost() {
                return Ok(Some(seek(self.ring, &mut self.pass)));
            }
            match take(self.ring, &mut self.pass) {
                Step::Took => match self.pass.unit().to_unit(self.alloc) {
                    Ok(unit) => return Ok(Some(Item::Unit(unit))),
                    Err(_) => return Err(Halt::NoMemory),
                },
                Step::NotYet { .. } => thread::yield_now(),
                Step::Ended => return Ok(None),
                Step::Lost { at, seen } => return Ok(Some(Item::Overrun { at, seen })),
            }
        }
        unreachable!()
    }

    ghost stays = { λ start now calls more met all writes gave on. gave };

    ghost stopped_stays = { λ start fault calls more met writes s t stopped on did. stopped };
}
