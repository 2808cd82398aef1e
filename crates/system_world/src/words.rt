//! The words of the command line, and what they ask of the program itself.

ghost use Rattle.std.specs.Prelude.{◌≡◌, ◌++◌, ◌∷◌, [], ℕ, map, OnOk};
ghost use Rattle.std.specs.Result.{IsErrOf};
ghost use Rattle.std.specs.Str.{IsUtf8};
ghost use Rattle.std.specs.String.{string_bytes};
ghost use Rattle.system_world.specs.Questions.{is_help, question_of};
ghost use Rattle.system_world.specs.declared.words.WordFault.TheVariants.{NoMemory};

use std::alloc::{AllocError, Global};
use std::env::{Env, FillError};

/// How many bytes of an argument are tried first.
const FIRST_TRY: usize = 256;

/// Why the words of the command line can't be read.
#[derive(Clone, Copy, Debug, PartialEq, Eq)]
pub enum WordFault {
    /// An argument isn't UTF-8.
    NotText {
        /// The argument's place, from 1 on.
        place: usize,
    },
    /// There was no memory for the words.
    NoMemory,
}

impl From<AllocError> for WordFault {
    ghost from_gives = { λ _ e. e ≡ NoMemory };

    fn from(_e: AllocError) -> WordFault {
        WordFault::NoMemory
    }
}

/// What the words of a command line ask of the program itself.
#[derive(Clone, Copy, Debug, PartialEq, Eq)]
pub enum Question {
    /// `--help` or `-h`: what the program does.
    Help,
    /// `--version`: which version it is.
    Version,
}

/// The bytes of the argument at a place, or `None` after the last one.
fn argument(alloc: Global, env: &impl Env, place: usize) -> Result<Option<Vec<u8>>, AllocError> {
    let mut bytes = Vec::new(alloc);
    let mut size = FIRST_TRY;
    for _ in 0..usize::BITS {
        bytes.resize(size, 0)?;
        match env.arg(place, bytes.as_mut_slice()) {
            Ok(n) => {
                bytes.truncate(n);
                return Ok(Some(bytes));
            }
            Err(FillError::NotPresent) => return Ok(None),
            Err(FillError::TooLong) => size = size.saturating_mul(2),
        }
    }
    Err(AllocError)
}

/// Adds a word, whole and as the last one. One that isn't UTF-8 is answered by its place.
fn add_word(words: &mut Vec<String>, place: usize, bytes: Vec<u8>) -> Result<(), WordFault>
    ensures added { OnOk result (map string_bytes words.new.items ≡ map string_bytes words.old.items ++ bytes.items ∷ []) }
    ensures text { (p : ℕ) → IsErrOf result (WordFault.NotText p) → (p ≡ place) × ¬ (IsUtf8 bytes.items) }
{
    let Ok(word) = String::from_utf8(bytes) else {
        return Err(WordFault::NotText { place });
    };
    if words.push(word).is_err() {
        return Err(WordFault::NoMemory);
    }
    Ok(())
}

/// The arguments after the program's name, in their order. The first one that isn't UTF-8 is answered by its place.
pub fn read_words(alloc: Global, env: &impl Env) -> Result<Vec<String>, WordFault> {
    let mut words = Vec::new(alloc);
    for place in 1..usize::MAX {
        let Some(bytes) = argument(alloc, env, place)? else {
            break;
        };
        add_word(&mut words, place, bytes)?;
    }
    Ok(words)
}

/// Whether a word asks for help: `--help` or `-h`.
pub fn is_help(word: &str) -> bool
    ensures { result ≡ is_help word.now }
{
    word == "--help" || word == "-h"
}

/// What the words of a command line ask of a program without tools, where `--help`, `-h` or `--version` is the only one; all other words
/// ask it for its work, and are answered by `None`.
pub fn read_question(words: &[String]) -> Option<Question>
    ensures { result ≡ question_of (map string_bytes words.now) }
{
    let [word] = words else {
        return None;
    };
    if is_help(word.as_str()) {
        return Some(Question::Help);
    }
    if word.as_str() == "--version" {
        return Some(Question::Version);
    }
    None
}
