//! The level at the beginning of a line.
#![tactic(auto, using(log_model::proofs::PrefixLemmas::adding))]

ghost use Rattle.std.specs.Prelude.{◌≡◌, ◌≤◌, ◌∷◌, [], ◌++◌, decimal};
ghost use Rattle.log_model.specs.Adding.{Puts};
ghost use Rattle.vsl_select.specs.Lines.{level_field};

use crate::parts::{put_byte, put_text};
use itoa::Buffer;
use log_model::NoMemory;
use std::marker::Model;

/// The highest level that is told by so many characters.
const LAST_LOW: u32 = 3;

/// A level in a character, and a space: once for all lines of a transaction. Contracts see the text.
#[derive(Drop)]
pub(crate) struct LevelField {
    character: u8,
    level: u32,
    /// The text of a level up to 3.
    low: [u8; 4],
}

impl Model for LevelField {
    ghost use Rattle.std.specs.Prelude.{List, ℕ, ◌≡◌, ◌≤◌};
    ghost use Rattle.vsl_select.specs.Lines.{level_field};

    ghost Value = { List ℕ };

    ghost view = { λ f. level_field f.character f.level };

    ghost invariant = { λ f. f.level ≤ 3 → f.low ≡ level_field f.character f.level };
}

impl LevelField {
    /// The level in this character.
    pub(crate) fn new(character: u8, level: u32) -> LevelField
        ensures { result ≡ level_field character level }
    {
        LevelField {
            character,
            level,
            low: low_field(character, level),
        }
    }

    /// Adds the text.
    pub(crate) fn put(&self, out: &mut Vec<u8>) -> Result<(), NoMemory>
        ensures { Puts result out.old.items out.new.items self.now }
    {
        if self.level > LAST_LOW {
            return put_high_level(out, self.character, self.level);
        }
        put_text(out, &self.low)
    }
}

/// The text of a level up to 3.
fn low_field(character: u8, level: u32) -> [u8; 4]
    ensures { level ≤ 3 → result ≡ level_field character level }
{
    match level {
        0 => *b"    ",
        1 => [character, b' ', b' ', b' '],
        2 => [character, character, b' ', b' '],
        _ => [character, character, character, b' '],
    }
}

/// Adds a level above 3 between two of the character. It is kept out of line, since few lines have one.
#[cold]
#[inline(never)]
fn put_high_level(out: &mut Vec<u8>, character: u8, level: u32) -> Result<(), NoMemory>
    ensures { Puts result out.old.items out.new.items
        (character ∷ decimal level ++ character ∷ 32 ∷ []) }
{
    let mut buffer = Buffer::new();
    put_byte(out, character)?;
    put_text(out, buffer.format(level).as_bytes())?;
    put_text(out, &[character, b' '])?;
    Ok(())
}
