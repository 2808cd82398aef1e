//! The words of a payload, without memory.

ghost use Rattle.std.specs.Prelude.{◌≡◌, ◌<◌, drop, length, slice_index};
ghost use Rattle.vsl_words.specs.Words.{packed};

/// The first word of a payload's, or 0 where it has none.
pub fn first_packed(bytes: &[u8]) -> u32
    ensures { result ≡ slice_index (packed bytes.now) 0 }
{
    match bytes {
        [] => 0,
        [a] => u32::from_le_bytes([*a, 0, 0, 0]),
        [a, b] => u32::from_le_bytes([*a, *b, 0, 0]),
        [a, b, c] => u32::from_le_bytes([*a, *b, *c, 0]),
        [a, b, c, d, ..] => u32::from_le_bytes([*a, *b, *c, *d]),
    }
}

/// What is left of a payload behind its first word.
pub fn behind_first(bytes: &[u8]) -> &[u8]
    ensures { packed result.now ≡ drop 1 (packed bytes.now) }
{
    match bytes {
        [_, _, _, _, rest @ ..] => rest,
        _ => &[],
    }
}

/// The word at this place of a payload's.
pub fn packed_word(bytes: &[u8], place: usize) -> u32
    requires { place < length (packed bytes.now) }
    ensures { result ≡ slice_index (packed bytes.now) place }
{
    let (_, rest) = bytes.split_at(4 * place);
    first_packed(rest)
}
