//! A list of units.

ghost use Rattle.std.specs.Prelude.{◌≡◌, List, [], ◌∷◌, ◌++◌, OnOk, OnErr};

use std::alloc::{AllocFailed, Global};
use std::marker::Model;
use vsl_record::Unit;

/// Units in order, as a log or a part of it. Contracts see the list.
#[derive(Drop)]
pub struct Units {
    items: Vec<Unit>,
}

impl Model for Units {
    ghost use Rattle.std.specs.Prelude.{List};
    ghost use Rattle.vsl_record.specs.Unit.{LogUnit};

    ghost Value = { List LogUnit };

    ghost view = { λ u. u.items.items };
}

impl Units {
    /// No units. It takes no memory.
    pub fn new(alloc: Global) -> Units
        ensures { result ≡ [] }
    {
        Units {
            items: Vec::new(alloc),
        }
    }

    pub fn push(&mut self, unit: Unit) -> Result<(), AllocFailed<Unit>>
        ensures ok { OnOk result (self.new ≡ self.old ++ unit ∷ []) }
        ensures err { OnErr result (self.new ≡ self.old) }
    {
        self.items.push(unit)
    }

    pub fn as_slice(&self) -> &[Unit]
        ensures { result.now ≡ self.now }
    {
        &self.items
    }
}
