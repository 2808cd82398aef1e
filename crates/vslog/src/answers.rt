//! What is answered to the words of a command line, and the exit statuses.

ghost use Rattle.std.specs.Prelude.{◌≡◌, map, None, Some};
ghost use Rattle.std.specs.String.{string_bytes};
ghost use Rattle.system_world.specs.Printed.{IsPrinted};
ghost use Rattle.system_world.specs.Questions.{question_of};
ghost use Rattle.system_world.specs.declared.words.Question.{Question};
ghost use Rattle.vslog.specs.Command.{IsCopyStatus};

use crate::ended::status_of;
use crate::help::HELP;
use crate::options::PROGRAM;
use crate::run::run_vslog;
use std::alloc::Global;
use std::io::Eprint;
use system_world::{Question, answer, no_memory, read_question};
use vio::World;

/// What `vslog --version` prints.
const VERSION: &str = "vslog 0.3\n";

/// Answers the words of a command line, and gives the exit status.
pub fn run<R: Eprint, W: World>(alloc: Global, rt: &R, world: &mut W, words: &[String]) -> u8
    ensures help { question_of (map string_bytes words.now) ≡ Some Question.Help →
        IsPrinted HELP.now result (W.seen world.old) (W.seen world.new) }
    ensures version { question_of (map string_bytes words.now) ≡ Some Question.Version →
        IsPrinted VERSION.now result (W.seen world.old) (W.seen world.new) }
    ensures copies { question_of (map string_bytes words.now) ≡ None →
        IsCopyStatus (map string_bytes words.now) result (W.seen world.old) (W.seen world.new) }
{
    match read_question(words) {
        Some(Question::Help) => answer(world, rt, PROGRAM, HELP),
        Some(Question::Version) => answer(world, rt, PROGRAM, VERSION),
        None => match run_vslog(alloc, world, words) {
            Ok(ended) => status_of(ended),
            Err(_) => no_memory(rt, PROGRAM),
        },
    }
}
