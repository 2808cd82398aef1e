//! Units that are at hand.

ghost use Rattle.std.specs.Prelude.{◌≡◌};

use log_model::Halt;
use one_run::{Never, Source};
use ring_layout::Item;
use std::marker::Model;
use std::vec::{IntoIter, Vec};
use vio::World;
use vsl_record::Unit;

/// Units that are at hand, which are given in order. Nothing is read for them, and they never stop. Contracts see those that
/// are left.
#[derive(Drop)]
pub struct UnitItems {
    rest: IntoIter<Unit>,
}

impl Model for UnitItems {
    ghost use Rattle.std.specs.Prelude.{◌≡◌, length};
    ghost use Rattle.std.specs.Vec.Iter.{into_iter_items, into_iter_len};
    ghost use Rattle.vsl_record.specs.Unit.{Log};

    ghost Value = { Log };

    ghost view = { λ u. into_iter_items u.rest };

    ghost invariant = { λ u. into_iter_len u.rest ≡ length (into_iter_items u.rest) };
}

impl UnitItems {
    /// These units, of which none was given.
    pub fn new(units: Vec<Unit>) -> UnitItems
        ensures { result ≡ units.items }
    {
        UnitItems {
            rest: units.into_iter(),
        }
    }
}

impl Source for UnitItems {
    ghost use Rattle.std.specs.Prelude.{[], false};
    ghost use Rattle.run_sources.specs.Sources.{UnitsGave};

    type Fault = Never;

    ghost gave = { λ start now calls met all. UnitsGave start now met all };

    ghost stopped = { λ start fault calls met world. ⊥ };

    ghost starved = { λ start now calls met. ⊥ };

    ghost reads = { λ units. [] };

    ghost asks = { λ start calls met. ⊥ };

    ghost is_ready = { λ units. Unit {0} };

    ghost at_hand = { λ units. false };

    fn is_at_hand(&self) -> bool {
        false
    }

    fn next<W: World>(&mut self, _world: &mut W) -> Result<Option<Item>, Halt<Never>> {
        let Some(unit) = self.rest.next() else {
            return Ok(None);
        };
        Ok(Some(Item::Unit(unit)))
    }

    ghost stays = { λ start now calls more met all writes gave on. gave };

    ghost stopped_stays = { λ start fault calls more met writes s t stopped on did. stopped };
}
