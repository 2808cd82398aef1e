//! How much a run met.

ghost use Rattle.std.specs.Prelude.{◌≡◌, ◌+◌, true, [], ◌∷◌, ◌++◌, List};
ghost use Rattle.ring_layout.specs.declared.item.Item.{Item};
ghost use Rattle.one_run.specs.Counts.{HasRoom, IsMet};

use ring_layout::Item;

/// How much a run met. A run that met 2^64 - 1 units, or as many items of a history, goes no further, as for want of
/// memory; feeds and requests that are made up have fewer units.
#[derive(Clone, Copy, Debug, PartialEq, Eq)]
pub struct Met {
    pub units: u64,
    /// How many items its history has: a run of units, and each overrun, and each run that follows one.
    pub items: u64,
}

impl Met {
    /// Before the first item.
    pub fn none() -> Met
        ensures { IsMet result [] }
    {
        Met { units: 0, items: 1 }
    }

    /// Whether one more can be counted.
    pub(crate) fn has_room(self) -> bool
        ensures { result ≡ true → HasRoom self }
    {
        self.units < u64::MAX && self.items < u64::MAX
    }

    /// With an item more.
    pub(crate) fn and(self, item: &Item) -> Met
        requires { HasRoom self }
        ensures count { (list : List Item) → IsMet self list →
            IsMet result (list ++ item.now ∷ []) }
        ensures more { result.units + result.items ≡ self.units + self.items + 1 }
    {
        match item {
            Item::Unit(_) => Met {
                units: self.units + 1,
                items: self.items,
            },
            Item::Overrun { .. } | Item::Missed { .. } => Met {
                units: self.units,
                items: self.items + 1,
            },
        }
    }
}
