//! The laws of numbers and prefixes. A law is a function that does nothing.

ghost use Rattle.std.specs.Prelude.{◌≡◌, ℕ, ℤ, List, Some, None};
ghost use Rattle.vsl_decimal.specs.Decimal.{Spells, decimal_of};
ghost use Rattle.vsl_decimal.specs.Prefix.{FollowsPrefix, IsValueAfter, value_after};

/// A text spells at most one value.
pub fn one_value()
    ensures { (text : List ℕ) (a b : ℤ) → Spells text a → Spells text b → a ≡ b }
{}

/// The value of a text is what it spells.
pub fn decimals_are_spelled()
    ensures spelled { (text : List ℕ) (value : ℤ) → decimal_of text ≡ Some value →
        Spells text value }
    ensures every { (text : List ℕ) (value : ℤ) → Spells text value → decimal_of text ≡ Some value }
{}

/// The value after a prefix is what follows it and a colon, and there is none only where nothing does.
pub fn values_follow_prefixes()
    ensures follows { (prefix text value : List ℕ) → value_after prefix text ≡ Some value →
        IsValueAfter prefix text value }
    ensures every { (prefix text value : List ℕ) → IsValueAfter prefix text value →
        value_after prefix text ≡ Some value }
    ensures none { (prefix text : List ℕ) → value_after prefix text ≡ None → (behind : List ℕ) →
        ¬ (FollowsPrefix prefix text behind) }
{}
