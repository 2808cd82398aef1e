//! Words that are read from bytes.

ghost use Rattle.std.specs.Prelude.{◌≡◌, ◌==◌, ◌*◌, ◌<◌, ◌≤◌, [], length, slice_index, take, drop, IfOk, IfSome, IfNone};
ghost use Rattle.std.specs.List.{list_all};
ghost use Rattle.vsl_words.specs.Versions.{id_in, id_size, most_words_of};
ghost use Rattle.vsl_words.specs.Words.{words_in};

use crate::version::Version;
use std::alloc::{AllocError, Global};

/// A word of an id counts so many times as much as the word before it.
pub const NEXT_WORD: u64 = 4_294_967_296;

/// The first word of the bytes.
pub fn first_word(bytes: &[u8]) -> Option<u32>
    ensures some { IfSome result (λ w. slice_index (words_in bytes.now) 0 ≡ w) }
    ensures long { IfSome result (λ _. 0 < length (words_in bytes.now)) }
    ensures none { IfNone result (words_in bytes.now ≡ []) }
{
    let [a, b, c, d, ..] = bytes else {
        return None;
    };
    Some(u32::from_le_bytes([*a, *b, *c, *d]))
}

/// The first word of the bytes, or 0 where they have none.
pub fn header_word(bytes: &[u8]) -> u32
    ensures { slice_index (words_in bytes.now) 0 ≡ result }
{
    first_word(bytes).unwrap_or(0)
}

/// The second word of the bytes.
fn second_word(bytes: &[u8]) -> u32
    requires { 2 ≤ length (words_in bytes.now) }
    ensures { slice_index (words_in bytes.now) 1 ≡ result }
{
    u32::from_le_bytes([bytes[4], bytes[5], bytes[6], bytes[7]])
}

/// The id that begins the bytes.
pub fn id_in(version: Version, bytes: &[u8]) -> u64
    requires { id_size version ≤ length (words_in bytes.now) }
    ensures { id_in version (words_in bytes.now) ≡ result }
{
    let low = u64::from(header_word(bytes));
    match version {
        Version::One => low,
        Version::Two => low + NEXT_WORD * u64::from(second_word(bytes)),
    }
}

/// How many whole words the bytes are.
pub fn word_count(bytes: &[u8]) -> usize
    ensures { result ≡ length (words_in bytes.now) }
{
    bytes.len() / 4
}

/// The bytes of so many words, no more than a unit has.
pub fn keep_words(bytes: &[u8], count: usize) -> &[u8]
    requires few { count ≤ most_words_of Version.Two }
    requires enough { count ≤ length (words_in bytes.now) }
    ensures words { words_in result.now ≡ take count (words_in bytes.now) }
    ensures whole { length result.now ≡ 4 * count }
{
    let (kept, _) = bytes.split_at(4 * count);
    kept
}

/// Whether the bytes from the place on are zero.
pub fn is_padded(bytes: &[u8], from: usize) -> bool
    requires { from ≤ length bytes.now }
    ensures { result ≡ list_all (λ b. b == 0) (drop from bytes.now) }
{
    let (_, padding) = bytes.split_at(from);
    for b in padding {
        if *b != 0 {
            return false;
        }
    }
    true
}

/// The bytes of words, the lowest byte of each word first. 2^63 bytes and more count as want of memory.
pub fn bytes_of(alloc: Global, words: &[u32]) -> Result<Vec<u8>, AllocError>
    ensures words { IfOk result (λ bytes. words_in bytes.items ≡ words.now) }
    ensures whole { IfOk result (λ bytes. length bytes.items ≡ 4 * length words.now) }
{
    let mut bytes = Vec::with_capacity(alloc, words.len().saturating_mul(4))?;
    for word in words {
        bytes.extend_from_slice(&word.to_le_bytes())?;
    }
    Ok(bytes)
}
