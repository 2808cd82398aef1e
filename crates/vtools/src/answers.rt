//! What is answered to the words of a command line, and the exit statuses.

ghost use Rattle.std.specs.Prelude.{◌≡◌, map, None, IfSome};
ghost use Rattle.std.specs.String.{string_bytes};
ghost use Rattle.system_world.specs.Printed.{IsPrinted};
ghost use Rattle.vtools.specs.Asked.{asked_of, text_of};
ghost use Rattle.vtools.specs.Command.{IsToolStatus};

use crate::asked::{Asked, read_asked};
use crate::help::HELP;
use crate::texts::help_of;
use std::alloc::Global;
use std::io::Eprint;
use std::sync::Wait;
use std::thread::Threads;
use system_world::{answer, no_memory};
use varnish_tools::{OpenGate, run_tools};
use vio::{NoMemory, World};

/// The program's name, with which its messages begin.
pub const PROGRAM: &str = "vtools";

/// What `vtools --version` prints.
const VERSION: &str = "vtools 0.3\n";

/// What is printed where this is asked.
fn text_of(asked: Asked) -> &'static str
    ensures { result.now ≡ text_of asked }
{
    match asked {
        Asked::Help => HELP,
        Asked::HelpOf(command) => help_of(command),
        Asked::Version => VERSION,
    }
}

/// Answers the words of a command line, and gives the exit status.
pub fn run<R: Threads + Wait + Sync + Eprint, W: World>(
    alloc: Global,
    rt: &R,
    world: &mut W,
    words: &[String],
) -> u8
    ensures text { IfSome (asked_of (map string_bytes words.now)) (λ asked.
        IsPrinted (text_of asked) result (W.seen world.old) (W.seen world.new)) }
    ensures tools { asked_of (map string_bytes words.now) ≡ None →
        IsToolStatus (map string_bytes words.now) result (W.seen world.old) (W.seen world.new) }
{
    match read_asked(words) {
        Some(asked) => answer(world, rt, PROGRAM, text_of(asked)),
        None => match run_tools(rt, alloc, words, world, &OpenGate) {
            Ok(outcome) => outcome.status,
            Err(NoMemory) => no_memory(rt, PROGRAM),
        },
    }
}
