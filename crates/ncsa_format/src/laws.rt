//! Laws: functions that do nothing, for what their clauses say.

ghost use Rattle.std.specs.Prelude.{◌≡◌, ◌↔◌, ℕ, List, Ok, Some};
ghost use Rattle.ncsa_format.specs.declared.formatter.Piece.{Piece};
ghost use Rattle.ncsa_format.specs.Format.{IsFaultAt, IsFormat};
ghost use Rattle.ncsa_format.specs.Reading.{format_fault, read_pieces};

/// A text is a format of exactly the pieces that it is read as, so of one list of pieces at most; and it has a fault at
/// a place exactly where reading ends with that, so it is a format or has one fault, and never both.
pub fn formats_are_read()
    ensures pieces { (text : List ℕ) (pieces : List Piece) →
        IsFormat pieces text ↔ (read_pieces text ≡ Ok pieces) }
    ensures fault { (text : List ℕ) (at : ℕ) → IsFaultAt text at ↔ (format_fault text ≡ Some at) }
{}
