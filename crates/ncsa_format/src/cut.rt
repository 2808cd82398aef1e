//! Where a text is cut.

ghost use Rattle.std.specs.Prelude.{◌≡◌, ◌==◌};
ghost use Rattle.std.specs.List.{position};
ghost use Rattle.ncsa_format.specs.inside.Cut.{IsCut};

/// Where the first of these bytes stands.
pub(crate) fn place_of(text: &[u8], byte: u8) -> Option<usize>
    ensures { result ≡ position (λ b. b == byte) text.now }
{
    text.iter().position(|b| *b == byte)
}

/// What stands before the first of these bytes, and the rest of the text.
pub(crate) fn cut(text: &[u8], byte: u8) -> (&[u8], &[u8])
    ensures { IsCut (λ b. b == byte) text.now result.0.now result.1.now }
{
    match place_of(text, byte) {
        Some(at) => text.split_at(at),
        None => text.split_at(text.len()),
    }
}
