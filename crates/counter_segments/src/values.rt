//! What the counters came to.

ghost use Rattle.std.specs.Prelude.{◌≡◌, ◌<◌, slice_get, Some};
ghost use Rattle.counter_segments.specs.Sums.{counter_count};

use std::marker::Model;

/// What counters came to when all passes were given back. Contracts see the list of the 21 numbers.
#[derive(Drop)]
pub struct Values {
    pub(crate) values: Vec<u64>,
}

impl Model for Values {
    ghost use Rattle.std.specs.Prelude.{◌≡◌, List, ℕ, length};
    ghost use Rattle.counter_segments.specs.Sums.{counter_count};

    ghost Value = { List ℕ };

    ghost view = { λ v. v.values.items };

    ghost invariant = { λ v. length v.values.items ≡ counter_count };
}

impl Values {
    /// What a counter came to.
    pub fn get(&self, which: u32) -> u64
        requires { which < counter_count }
        ensures { slice_get self.now which ≡ Some result }
    {
        self.values[which as usize]
    }
}
