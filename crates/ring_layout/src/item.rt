//! What a reader of a log meets, one thing after the other.

use vsl_record::Unit;

/// What a reader meets of a log.
#[derive(Drop)]
pub enum Item {
    /// A unit, which it took.
    Unit(Unit),
    /// The writers came too near.
    Overrun {
        /// The segment where the reader stood.
        at: u64,
        /// The segment to which the writers had come.
        seen: u64,
    },
    /// It goes on behind an overrun.
    Missed {
        /// How many units it missed since the last that it took, or since it went on before.
        units: u64,
    },
}
