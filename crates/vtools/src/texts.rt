//! The help of each command.

ghost use Rattle.std.specs.Prelude.{◌≡◌, option_map, IsSome};
ghost use Rattle.tool_words.specs.declared.commands.CommandName.{CommandName};
ghost use Rattle.vtools.specs.Asked.{help_in, help_of, help_row};

use crate::help::{HELP, HELPS};
use tool_words::CommandName;

/// The text of a command by the first row that has it.
fn help_in(rows: &[(CommandName, &'static str)], command: CommandName) -> Option<&'static str>
    ensures { option_map (λ text. text.now) result ≡
        help_in (λ row. row.0) (λ row. row.1.now) rows.now command }
{
    for row in rows {
        if row.0 == command {
            return Some(row.1);
        }
    }
    None
}

/// The rows of helps.
fn help_rows() -> &'static [(CommandName, &'static str)]
    ensures { (command : CommandName) →
        help_in (λ row. row.0) (λ row. row.1.now) result.now command ≡ help_row command }
{
    &HELPS
}

/// The help of a command, which its row has.
pub fn help_of(command: CommandName) -> &'static str
    ensures text { result.now ≡ help_of command }
    ensures row { IsSome (help_row command) }
{
    match help_in(help_rows(), command) {
        Some(text) => text,
        None => HELP,
    }
}
