//! Feeds that are replayed over a ring.

use feed_schedule::{Advanced, Replay};
use log_model::Halt;
use one_run::{Never, Source};
use ring_layout::Item;
use std::alloc::Global;
use vio::World;

/// Feeds that are replayed, with what holds a unit that is taken. They never stop with a fault.
#[derive(Drop)]
pub struct FeedItems {
    pub alloc: Global,
    pub replay: Replay,
    /// How many units the overrun that was given last cost, until that is given.
    pub missed: Option<u64>,
}

impl Source for FeedItems {
    ghost use Rattle.std.specs.Prelude.{false, List, []};
    ghost use Rattle.ring_layout.specs.declared.item.Item.{Item};
    ghost use Rattle.run_sources.specs.Sources.{FeedsGave, FeedsBegan, HasToCome};

    type Fault = Never;

    ghost gave = { λ start now calls met all. FeedsGave start now met all };

    ghost stopped = { λ start fault calls met world. ⊥ };

    ghost starved = { λ start now calls met. FeedsBegan start met };

    ghost reads = { λ feeds. [] };

    ghost asks = { λ start calls met. ⊥ };

    ghost is_ready = { λ feeds. (all : List Item) × HasToCome feeds all };

    ghost at_hand = { λ feeds. false };

    fn is_at_hand(&self) -> bool {
        false
    }

    fn next<W: World>(&mut self, _world: &mut W) -> Result<Option<Item>, Halt<Never>> {
        if let Some(units) = self.missed {
            self.missed = None;
            return Ok(Some(Item::Missed { units }));
        }
        match self.replay.advance() {
            Advanced::Took => match self.replay.unit().to_unit(self.alloc) {
                Ok(unit) => Ok(Some(Item::Unit(unit))),
                Err(_) => Err(Halt::NoMemory),
            },
            Advanced::Overrun { at, seen, missed } => {
                self.missed = Some(missed);
                Ok(Some(Item::Overrun { at, seen }))
            }
            Advanced::Ended => Ok(None),
        }
    }

    ghost stays = { λ start now calls more met all writes gave on. gave };

    ghost stopped_stays = { λ start fault calls more met writes s t stopped on did. stopped };
}
