//! The ring.

ghost use Rattle.std.specs.Prelude.{◌≡◌, ◌+◌, ◌*◌, ◌%◌, ◌<◌, ◌≤◌, [], length};

use crate::rule::{RingKey, RingRule, View};
use atomic_table::{Seat, Table};
use ring_layout::Shape;
use std::alloc::Global;
use std::marker::Model;

/// The seat of a pass.
pub(crate) type RingSeat = Seat<u64, View>;

/// A ring that threads share. Contracts see which it is.
#[derive(Drop)]
pub struct Ring {
    pub(crate) table: Table<u64, View, RingKey, RingRule, Global>,
    pub(crate) shape: Shape,
}

impl Model for Ring {
    ghost use Rattle.std.specs.Prelude.{◌≡◌, ◌+◌, ◌*◌, ◌<◌};
    ghost use Rattle.ring_layout.specs.Places.{IsSegment};
    ghost use Rattle.log_ring.specs.Ring.{RingSet};
    ghost use Rattle.log_ring.specs.inside.Rule.{first_ring_word};
    ghost use Rattle.log_ring.specs.inside.Steps.{set_of};

    ghost Value = { RingSet };

    ghost view = { λ r. set_of r.table.shared.table_id r.table.shared.key };

    ghost invariant = { λ r. (r.table.shared.table_id.words ≡
        first_ring_word + 8 * r.table.shared.key.seg) × (r.shape ≡ r.table.shared.key.seg) ×
        IsSegment r.table.shared.key.seg × (0 < r.table.shared.key.writers) };
}
