//! What words ask for: a command, with what it is to do.

ghost use Rattle.std.specs.Prelude.{◌≡◌, map, IfOk};
ghost use Rattle.std.specs.String.{string_bytes};
ghost use Rattle.tool_words.specs.Answers.{Gives};
ghost use Rattle.tool_words.specs.Command.{IsSoundCommand, command_of, is_other, names_of};

use crate::fault::{UsageFault, WordsFault};
use crate::job::Job;
use crate::words::read_words;
use log_model::Text;
use std::alloc::Global;

/// What is read and what is written: the name of a file each, or `-` for a standard stream.
#[derive(Debug, Drop)]
pub struct Names {
    pub input: Text,
    pub output: Text,
}

/// What words ask for: a command, with what it is to do.
#[derive(Debug, Drop)]
pub enum Command {
    /// One of Varnish's tools does a job.
    ForTool(Job),
    /// A log file is written anew.
    ForConvert(Names),
}

/// Whether words ask for a command that is no tool, by the first of them.
pub fn is_other(words: &[String]) -> bool
    ensures { result ≡ is_other (map string_bytes words.now) }
{
    match words {
        [] => false,
        [word, ..] => word.as_str() == "convert",
    }
}

/// The two names behind the name of a command.
fn read_names(alloc: Global, words: &[String]) -> Result<Names, WordsFault>
    ensures { Gives result (names_of (map string_bytes words.now)) }
{
    match words {
        [] | [_] | [_, _] => Err(WordsFault::Usage(UsageFault::NoLog)),
        [_, input, output] => Ok(Names {
            input: Text::new(alloc, input.as_str())?,
            output: Text::new(alloc, output.as_str())?,
        }),
        [_, _, _, _, ..] => Err(WordsFault::Usage(UsageFault::BadValue { word: 3 })),
    }
}

/// The command that the words of a command line ask for, without the program's name, or what is wrong with them.
pub fn read_command(alloc: Global, words: &[String]) -> Result<Command, WordsFault>
    ensures command { Gives result (command_of (map string_bytes words.now)) }
    ensures sound { IfOk result (λ command. IsSoundCommand command) }
{
    if is_other(words) {
        return match read_names(alloc, words) {
            Ok(names) => Ok(Command::ForConvert(names)),
            Err(fault) => Err(fault),
        };
    }
    match read_words(alloc, words) {
        Ok(job) => Ok(Command::ForTool(job)),
        Err(fault) => Err(fault),
    }
}
