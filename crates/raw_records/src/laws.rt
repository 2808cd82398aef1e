//! The laws of lines. A law is a function that does nothing.

ghost use Rattle.std.specs.Prelude.{◌≡◌, ℕ, List};
ghost use Rattle.raw_records.specs.Lines.{IsLine, Line};

/// A line has one meaning at most.
pub fn one_meaning()
    ensures { (bytes : List ℕ) (l m : Line) → IsLine bytes l → IsLine bytes m → l ≡ m }
{}
