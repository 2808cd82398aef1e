//! What the words of a command line ask of the program itself.

ghost use Rattle.std.specs.Prelude.{◌≡◌, map};
ghost use Rattle.std.specs.String.{string_bytes};
ghost use Rattle.vtools.specs.Asked.{asked_alone, asked_behind, asked_of};

use system_world::is_help;
use tool_words::{CommandName, command_named};

/// What the words of a command line ask of the program itself: one of its texts.
#[derive(Clone, Copy, Debug, PartialEq, Eq)]
pub enum Asked {
    /// What the program does.
    Help,
    /// What a command takes.
    HelpOf(CommandName),
    /// Which version it is.
    Version,
}

/// What the only word asks.
fn asked_alone(word: &str) -> Option<Asked>
    ensures { result ≡ asked_alone word.now }
{
    match word {
        "--help" => Some(Asked::Help),
        "--version" => Some(Asked::Version),
        _ => None,
    }
}

/// What the only word behind a command asks.
fn asked_behind(name: &str, word: &str) -> Option<Asked>
    ensures { result ≡ asked_behind name.now word.now }
{
    if !is_help(word) {
        return None;
    }
    match command_named(name) {
        Some(command) => Some(Asked::HelpOf(command)),
        None => None,
    }
}

/// What the words of a command line ask of the program itself; those that ask for a command's work are answered by `None`.
pub fn read_asked(words: &[String]) -> Option<Asked>
    ensures { result ≡ asked_of (map string_bytes words.now) }
{
    match words {
        [] => None,
        [word] => asked_alone(word.as_str()),
        [name, word] => asked_behind(name.as_str(), word.as_str()),
        [_, _, _, ..] => None,
    }
}
