//! What decides what is shown, as it was given.

use log_model::Text;
use thiserror::Error;

/// Whose transactions are shown (varnishlog(1), `-b`, `-c`, `-E`).
#[derive(Clone, Copy, Debug, PartialEq, Eq)]
pub struct Sides {
    pub backend: bool,
    pub client: bool,
    pub esi: bool,
}

/// A rule of `-i`, `-x`, `-I` or `-X` as it was given.
#[derive(Debug, Drop)]
pub struct RuleText {
    pub include: bool,
    pub regex: bool,
    pub text: Text,
    /// The place of the word that has the text.
    pub word: u32,
}

/// Why a selection is refused.
#[derive(Clone, Copy, Debug, PartialEq, Eq, Error)]
pub enum SelectFault {
    /// The taglist of a rule is refused.
    #[error("taglist of word {word} is refused")]
    BadTags {
        /// The place of the word that has the text.
        word: u32,
    },
    /// The pattern of a rule is no good one.
    #[error("pattern of word {word} is refused")]
    BadPattern {
        /// The place of the word that has the text.
        word: u32,
    },
    /// There was no memory for the rules.
    #[error("out of memory")]
    NoMemory,
}
