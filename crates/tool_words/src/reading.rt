//! The options that the words give.

use crate::job::Tool;
use crate::options::Choice;
use log_model::{Listed, Text};

/// An option that is given.
#[derive(Debug, Drop)]
pub(crate) struct Given {
    pub choice: Choice,
    /// The place of the word that has the value; of a flag, of its own word.
    pub word: u32,
    /// No text for a flag.
    pub value: Text,
}

/// What the words up to a place have said.
#[derive(Debug, Drop)]
pub(crate) struct Reading {
    pub tool: Option<Tool>,
    /// In the order of their words.
    pub given: Listed<Given>,
}
