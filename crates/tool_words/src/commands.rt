//! The commands: a row for each, and above it all that is said of it. A new command is a variant, a row, and its work.
//! `tools/options.py`, which says what the lines above a row are, makes of them and of the rows of options the help, the
//! usage and the options of the man pages, and the completion.

ghost use Rattle.std.specs.Prelude.{◌≡◌, ℕ, List};
ghost use Rattle.tool_words.specs.Commands.{command_named, is_among};
ghost use Rattle.word_forms.specs.Lookup.{first_name};

use crate::job::Tool;
use word_forms::name_in;

/// A command of `vtools`.
#[derive(Clone, Copy, Debug, PartialEq, Eq)]
pub enum CommandName {
    /// One of Varnish's tools.
    Tool(Tool),
    /// Writes a log file anew.
    Convert,
}

/// Some of the commands, as those that have an option.
pub type Commands = &'static [CommandName];

/// The commands, by their names.
pub static COMMANDS: [(&str, CommandName); 5] = [
    // usage: vtools [OPTIONS] varnishlog [g] [L] [T] [q] [Q] [k] [b] [c] [E] [i] [x] [I] [X] [C] [v] [w [a] [A]] r
    // does: prints the records of a log file, a group of them when it is complete, or writes them as a log file
    // example: vtools varnishlog -g request -q 'Timestamp:Resp[2] > 0.3' -r FILE
    //   prints requests that took more than 0.3 seconds, with their fetches
    ("varnishlog", CommandName::Tool(Tool::Log)),
    // usage: vtools [OPTIONS] varnishncsa [F] [g] [L] [T] [q] [Q] [k] [b] [c] [E] [C] [w [a]] r
    // does: prints a line for each request, as a web server does in its access log
    // example: vtools varnishncsa -F '%h %{Varnish:hitmiss}x %s %U' -r FILE
    //   prints client, hit or miss, status and URL of each request
    ("varnishncsa", CommandName::Tool(Tool::Ncsa)),
    // usage: vtools [OPTIONS] varnishtop 1 [f] [g] [L] [T] [q] [Q] [k] [b] [c] [E] [i] [x] [I] [X] [C] r
    // does: counts equal records, and prints each once with its count when the log has ended
    // behind: They take all records, or those that are chosen. In place of a log file they take feeds: texts of
    //   records, as Varnish's own varnishlog -g raw prints them, or requests that are made up.
    // example: vtools varnishtop -1 -i ReqURL -r FILE
    //   prints each URL that clients asked for, with its count
    ("varnishtop", CommandName::Tool(Tool::Top)),
    // usage: vtools [OPTIONS] varnishstat (1 | j | l) [f]..
    // does: prints counters of feeds, and takes no log file
    // behind: vslog --help says how the log of a running Varnish becomes a log file.
    // example: vtools --feed FILE varnishstat -1 -f 'MAIN.cache_*'
    //   prints how many requests were hits, and how many misses
    ("varnishstat", CommandName::Tool(Tool::Stat)),
    // usage: vtools convert IN OUT
    // does: writes the units of the log file IN as a log file OUT, in the form in which log files are written
    // behind: The name - is standard input, or output.
    // example: vtools convert FILE OUT
    //   writes a log file of an earlier release as one of this release
    ("convert", CommandName::Convert),
];

/// Whether a command is one of these.
pub(crate) fn is_one_of(commands: &[CommandName], command: CommandName) -> bool
    ensures { result ≡ is_among command commands.now }
{
    commands.contains(&command)
}

/// The rows of the commands.
fn command_rows() -> &'static [(&'static str, CommandName)]
    ensures { (name : List ℕ) →
        first_name (λ row. row.0.now) (λ row. row.1) result.now name ≡ command_named name }
{
    &COMMANDS
}

/// The command of a name, where there is one.
pub fn command_named(name: &str) -> Option<CommandName>
    ensures { result ≡ command_named name.now }
{
    name_in(command_rows(), name)
}
