//! The rows of the words before the tool, and of each tool.

ghost use Rattle.std.specs.Prelude.{◌≡◌};
ghost use Rattle.tool_words.specs.Reading.{has_value, tool_named};

use crate::job::Tool;
use crate::lookup::{letter_meaning, word_meaning};
use crate::options::Meaning;
use word_forms::Rows;

/// Which rows are read: those of the words before the tool, or the tool's.
#[derive(Clone, Copy)]
pub(crate) struct ToolRows {
    /// The tool, once its name was read.
    pub tool: Option<Tool>,
}

/// The tool of this name.
pub(crate) fn tool_of(name: &str) -> Option<Tool>
    ensures { result ≡ tool_named name.now }
{
    match name {
        "varnishlog" => Some(Tool::Log),
        "varnishncsa" => Some(Tool::Ncsa),
        "varnishtop" => Some(Tool::Top),
        "varnishstat" => Some(Tool::Stat),
        _ => None,
    }
}

impl Rows for ToolRows {
    type Choice = Meaning;

    ghost use Rattle.tool_words.specs.Reading.{tool_rows};

    ghost rows = { tool_rows };

    fn letter(&self, letter: u8) -> Option<Meaning> {
        letter_meaning(self.tool?, letter)
    }

    fn name(&self, word: &str) -> Option<Meaning> {
        match self.tool {
            None => word_meaning(word),
            Some(_) => None,
        }
    }

    fn wants(&self, choice: Meaning) -> bool {
        match choice {
            Meaning::Value(_, _) => true,
            _ => false,
        }
    }

    fn behind(&self, operand: &str) -> Option<ToolRows> {
        if self.tool.is_some() {
            return None;
        }
        Some(ToolRows {
            tool: tool_of(operand),
        })
    }
}
