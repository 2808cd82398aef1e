//! The laws of units. A law is a function that does nothing.

ghost use Rattle.std.specs.Prelude.{◌≡◌, ◌⊎◌, ◌<◌, ◌≤◌, ◌^◌, ◌++◌, ℕ, List, length, slice_index};
ghost use Rattle.vsl_words.specs.declared.version.Version.{Version};
ghost use Rattle.vsl_words.specs.declared.version.Version.TheVariants.{One};
ghost use Rattle.vsl_record.specs.declared.fault.WordFault.{WordFault};
ghost use Rattle.vsl_record.specs.Unit.{LogUnit};
ghost use Rattle.vsl_record.specs.WordFaults.{FirstFault};
ghost use Rattle.vsl_record.specs.Words.{IsUnit, IsUnitOf, unit_words, unit_words_of};

use crate::unit::Unit;

/// A unit meets what a unit must.
pub fn is_unit(unit: &Unit)
    ensures { IsUnit unit.now }
{
    unit.records();
}

/// In each version a unit has one spelling, and no spelling begins another.
pub fn one_spelling()
    ensures { (v : Version) (u w : LogUnit) (a b : List ℕ) → IsUnitOf v u → IsUnitOf v w →
        unit_words_of v u ++ a ≡ unit_words_of v w ++ b → (u ≡ w) × (a ≡ b) }
{}

/// In each version words begin with a unit or have a first fault.
pub fn every_words()
    ensures { (v : Version) (words : List ℕ) → ((i : ℕ) → slice_index words i < 2 ^ 32) →
        ((u : LogUnit) × (rest : List ℕ) × IsUnitOf v u × (words ≡ unit_words_of v u ++ rest)) ⊎
        ((fault : WordFault) × FirstFault v words fault) }
{}

/// In each version words have one first fault, and those that begin with a unit have none.
pub fn one_fault()
    ensures one { (v : Version) (words : List ℕ) (e f : WordFault) → FirstFault v words e →
        FirstFault v words f → e ≡ f }
    ensures none { (v : Version) (u : LogUnit) (rest : List ℕ) (fault : WordFault) → IsUnitOf v u →
        FirstFault v (unit_words_of v u ++ rest) fault → ⊥ }
{}

/// A unit that has words of version 1 has words of version 2, at most half as many again.
pub fn old_units_fit()
    ensures { (u : LogUnit) → IsUnitOf One u → IsUnit u × (length (unit_words u) ≤ 1572863) }
{}
