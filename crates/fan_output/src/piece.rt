//! What is written to sinks, one after the other.

ghost use Rattle.std.specs.Prelude.{◌≡◌};
ghost use Rattle.fan_output.specs.inside.Pieces.{is_end};

/// What is written to each sink in one go over them.
#[derive(Clone, Copy)]
pub(crate) enum Piece {
    /// What stands before all items.
    Head,
    /// What an item left to write, where that is the last of a text or is much.
    Full,
    /// All that is held.
    All,
    /// The rest, behind all items.
    Last,
}

impl Piece {
    /// Whether nothing follows it.
    pub fn is_end(self) -> bool
        ensures { result ≡ is_end self }
    {
        match self {
            Piece::Head | Piece::Full | Piece::All => false,
            Piece::Last => true,
        }
    }
}
