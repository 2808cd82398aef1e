//! Words in bytes, the lowest byte of each word first.

ghost use Rattle.std.specs.Prelude.{◌≡◌, ◌+◌, ◌*◌, ◌≤◌, ◌<◌, ◌++◌, length, slice_index, slice_set, take, drop};
ghost use Rattle.vsl_record.specs.Words.{unit_words, words_in};
ghost use Rattle.ring_layout.specs.Stretch.{with_words};

use vsl_record::{Unit, is_unit};

/// How many bytes a word has.
pub const WORD: usize = 4;

/// The word at this place.
pub fn read_word(bytes: &[u8], place: usize) -> u32
    requires { 4 * place + 4 ≤ length bytes.now }
    ensures { result ≡ slice_index (words_in bytes.now) place }
{
    let (_, behind) = bytes.split_at(WORD * place);
    let [a, b, c, d, ..] = behind else {
        unreachable!()
    };
    u32::from_le_bytes([*a, *b, *c, *d])
}

/// Writes a word at this place.
pub fn write_word(bytes: &mut [u8], place: usize, word: u32)
    requires { 4 * place + 4 ≤ length bytes.old }
    ensures words { words_in bytes.new ≡ slice_set (words_in bytes.old) place word }
    ensures size { length bytes.new ≡ length bytes.old }
{
    let (_, behind) = bytes.split_at_mut(WORD * place);
    let (here, _) = behind.split_at_mut(WORD);
    here.copy_from_slice(&word.to_le_bytes());
}

/// Writes the words of a unit, which are so many, from this place on.
pub fn write_unit(bytes: &mut [u8], place: usize, count: usize, unit: &Unit)
    requires count { count ≡ length (unit_words unit.now) }
    requires room { 4 * (place + count) ≤ length bytes.old }
    ensures { words_in bytes.new ≡ with_words place (unit_words unit.now) (words_in bytes.old) }
{
    is_unit(unit);
    let (_, behind) = bytes.split_at_mut(WORD * place);
    let (here, _) = behind.split_at_mut(WORD * count);
    unit.write_bytes(here);
}

/// Copies so many words from this place on into the first bytes.
pub fn copy_words(to: &mut [u8], bytes: &[u8], place: usize, count: usize)
    requires from { 4 * (place + count) ≤ length bytes.now }
    requires to { 4 * count ≤ length to.old }
    ensures { words_in (take (4 * count) to.new) ≡ take count (drop place (words_in bytes.now)) }
{
    let (_, behind) = bytes.split_at(WORD * place);
    let (from, _) = behind.split_at(WORD * count);
    let (first, _) = to.split_at_mut(WORD * count);
    first.copy_from_slice(from);
}
