//! What an option's letter or word means, and the number that it has of a value.

ghost use Rattle.std.specs.Prelude.{◌≡◌, ◌<◌, ℕ, List, OnSome};
ghost use Rattle.tool_words.specs.Options.{letters_in, letters_of, long_meaning_of};
ghost use Rattle.tool_words.specs.Fold.{number_for};
ghost use Rattle.word_forms.specs.Lookup.{first_letter, first_name};

use crate::commands::{CommandName, is_one_of};
use crate::job::Tool;
use crate::number::read_number;
use crate::options::{Choice, LETTERS, Meaning, WORDS, range};
use word_forms::name_in;

/// What a letter means to a command by the first row that has both.
fn letter_in(
    rows: &[(u8, &[CommandName], Meaning)],
    command: CommandName,
    letter: u8,
) -> Option<Meaning>
    ensures { result ≡ first_letter (letters_in (λ having. having.now) command rows.now) letter }
{
    for row in rows {
        if is_one_of(row.1, command) {
            if row.0 == letter {
                return Some(row.2);
            }
        }
    }
    None
}

/// What a letter means to a tool, where it means something.
pub(crate) fn letter_meaning(tool: Tool, letter: u8) -> Option<Meaning>
    ensures meaning { result ≡ first_letter (letters_of tool) letter }
    ensures ascii { OnSome result (letter < 128) }
{
    match tool {
        Tool::Log => letter_in(&LETTERS, CommandName::Tool(Tool::Log), letter),
        Tool::Ncsa => letter_in(&LETTERS, CommandName::Tool(Tool::Ncsa), letter),
        Tool::Top => letter_in(&LETTERS, CommandName::Tool(Tool::Top), letter),
        Tool::Stat => letter_in(&LETTERS, CommandName::Tool(Tool::Stat), letter),
    }
}

/// The words before the tool.
fn long_table() -> &'static [(&'static str, Meaning)]
    ensures { (word : List ℕ) →
        first_name (λ row. row.0.now) (λ row. row.1) result.now word ≡ long_meaning_of word }
{
    &WORDS
}

/// What a word before the tool means, where it means something.
pub(crate) fn word_meaning(word: &str) -> Option<Meaning>
    ensures { result ≡ long_meaning_of word.now }
{
    name_in(long_table(), word)
}

/// The number that an option has of a value.
pub(crate) fn option_number(choice: Choice, value: &[u8]) -> Option<u32>
    ensures { result ≡ number_for choice value.now }
{
    let (low, high) = range(choice);
    read_number(value, low, high)
}
