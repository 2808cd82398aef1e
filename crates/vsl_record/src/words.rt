//! Reading a unit from words.

ghost use Rattle.std.specs.Prelude.{◌≡◌, ◌≢◌, ◌⊎◌, ◌≤◌, ◌++◌, ℕ, List, length, take, IfOk, IfErr};
ghost use Rattle.vsl_record.specs.Unit.{LogUnit};
ghost use Rattle.vsl_record.specs.WordFaults.{FirstFault};
ghost use Rattle.vsl_record.specs.Words.{IsUnit, IsUnitOf, unit_words, unit_words1, unit_words_of};

use crate::fault::WordFault;
use crate::reading::{read_checked, unit_size};
use crate::records::Records;
use crate::unit::Unit;
use std::alloc::Global;
use vsl_words::{Version, bytes_of};

/// Reads the unit of a version that begins the words, and says how many words it has.
fn read_prefix(version: Version, alloc: Global, words: &[u32]) -> Result<(Unit, usize), WordFault>
    ensures found { IfOk result (λ x. IsUnitOf version x.0 × (x.1 ≤ length words.now) ×
        (take x.1 words.now ≡ unit_words_of version x.0)) }
    ensures refused { IfErr result (λ fault. fault ≢ WordFault.NoMemory →
        FirstFault version words.now fault) }
{
    let head = words.first().copied().unwrap_or(0);
    let size = unit_size(version, head, words.len())?;
    let (part, _) = words.split_at(size);
    let bytes = bytes_of(alloc, part)?;
    let unit = read_checked(version, Records::new(alloc), &bytes)?;
    Ok((unit, size))
}

/// Reads the unit that begins the words, whatever stands behind it, and says how many words it has. No
/// memory is taken before the header is checked.
pub fn read_unit(alloc: Global, words: &[u32]) -> Result<(Unit, usize), WordFault>
    ensures found { IfOk result (λ x. IsUnit x.0 × (x.1 ≤ length words.now) ×
        (take x.1 words.now ≡ unit_words x.0)) }
    ensures only { (u : LogUnit) (rest : List ℕ) → IsUnit u → words.now ≡ unit_words u ++ rest →
        (result ≡ Ok (u, length (unit_words u))) ⊎ (result ≡ Err WordFault.NoMemory) }
    ensures refused { IfErr result (λ fault. fault ≢ WordFault.NoMemory →
        FirstFault Version.Two words.now fault) }
    ensures faulty { (fault : WordFault) → FirstFault Version.Two words.now fault →
        (result ≡ Err fault) ⊎ (result ≡ Err WordFault.NoMemory) }
{
    read_prefix(Version::Two, alloc, words)
}

/// As `read_unit`, of words of version 1.
pub fn read_unit1(alloc: Global, words: &[u32]) -> Result<(Unit, usize), WordFault>
    ensures found { IfOk result (λ x. IsUnitOf Version.One x.0 × (x.1 ≤ length words.now) ×
        (take x.1 words.now ≡ unit_words1 x.0)) }
    ensures only { (u : LogUnit) (rest : List ℕ) → IsUnitOf Version.One u →
        words.now ≡ unit_words1 u ++ rest →
        (result ≡ Ok (u, length (unit_words1 u))) ⊎ (result ≡ Err WordFault.NoMemory) }
    ensures refused { IfErr result (λ fault. fault ≢ WordFault.NoMemory →
        FirstFault Version.One words.now fault) }
    ensures faulty { (fault : WordFault) → FirstFault Version.One words.now fault →
        (result ≡ Err fault) ⊎ (result ≡ Err WordFault.NoMemory) }
{
    read_prefix(Version::One, alloc, words)
}
