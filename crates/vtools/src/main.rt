//! The Varnish logging tools as one program.
//!
//! `main` reads the words of the command line, makes the system's files and streams a world, and
//! answers words that aren't UTF-8. Others go to `answers::run`, whose contract says what is printed
//! and which status is answered: for `--help` and `--version` alone, and for a command and `--help` or `-h`
//! alone, a text of its own, and for all other words what `varnish_tools::run_tools` promises.
//!
//! Start with `specs/Asked.antt` and `specs/Command.antt`.
#![tactic(auto)]

mod answers;
mod asked;
mod help;
mod texts;

use answers::{PROGRAM, run};
use std::process::ExitCode;
use system_world::{RealWorld, WordFault, no_memory, not_text, read_words};

fn main(rt: HostRuntime) -> ExitCode {
    let status = match read_words(rt.alloc(), &rt) {
        Ok(words) => {
            let mut world = RealWorld::new(rt.alloc(), rt);
            run(rt.alloc(), &rt, &mut world, &words)
        }
        Err(WordFault::NotText { place }) => not_text(&rt, PROGRAM, place),
        Err(WordFault::NoMemory) => no_memory(&rt, PROGRAM),
    };
    ExitCode::from(status)
}
