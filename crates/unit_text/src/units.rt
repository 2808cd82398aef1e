//! The bytes of units.

ghost use Rattle.std.specs.Prelude.{◌≡◌, []};

use fan_output::Texts;
use log_model::NoMemory;
use ring_layout::Item;
use std::alloc::Global;
use std::mem::replace;
use vsl_file::put_unit;

/// The bytes of units, as a log file has them. It is one text: that at place 0.
#[derive(Drop)]
pub struct UnitsText {
    alloc: Global,
    /// Those that nobody took yet.
    bytes: Vec<u8>,
}

impl UnitsText {
    /// No unit was given.
    pub fn new(alloc: Global) -> UnitsText
        ensures { result.bytes.items ≡ [] }
    {
        UnitsText {
            alloc,
            bytes: Vec::new(alloc),
        }
    }
}

impl Texts for UnitsText {
    ghost use Rattle.unit_text.specs.Texts.{HoldsUnits, units_filled, units_text};
    ghost use Rattle.unit_text.specs.Laws.{units_grow};

    ghost text = { λ u i met all. units_text u i met all };

    ghost filled = { λ u i met. units_filled u i met };

    ghost holds = { λ u i met all taken. HoldsUnits u i met all taken };

    ghost count = { λ u. 1 };

    fn item(&mut self, item: &Item) -> Result<(), NoMemory> {
        match item {
            Item::Unit(unit) => put_unit(unit, &mut self.bytes),
            Item::Overrun { .. } | Item::Missed { .. } => Ok(()),
        }
    }

    fn end(&mut self) -> Result<(), NoMemory> {
        Ok(())
    }

    fn take_text(&mut self, _place: usize) -> Vec<u8> {
        replace(&mut self.bytes, Vec::new(self.alloc))
    }

    fn is_filled(&self, _place: usize) -> bool {
        false
    }

    fn text_len(&self, _place: usize) -> usize {
        self.bytes.len()
    }

    fn stop(&mut self, _place: usize) {}

    ghost grows = { λ u i met all taken held list more ended. units_grow list more };
}
