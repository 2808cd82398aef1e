//! What can be wrong with a word, whatever it means.

use thiserror::Error;

/// What is wrong with a word. A place of a word counts from 0.
#[derive(Clone, Copy, Debug, PartialEq, Eq, Error)]
pub enum WordFault {
    /// The word has an option that there isn't.
    #[error("unknown option at word {word}")]
    UnknownOption { word: usize },
    /// The option at the end of the last word lacks its value.
    #[error("option needs a value at word {word}")]
    NoValue { word: usize },
    /// The word is an operand that isn't taken.
    #[error("unexpected operand at word {word}")]
    BadOperand { word: usize },
}
