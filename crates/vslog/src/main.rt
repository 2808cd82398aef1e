//! The log of a running Varnish as a log file, as one program.
//!
//! `main` reads the words of the command line, makes the system's files and streams a world, and answers words that aren't
//! UTF-8. Others go to `answers::run`, whose contract says what is printed and which status is answered: for `--help` and
//! `--version` alone its own text, and for all other words what `run::run_vslog` promises: the log that the words name is
//! copied, record by record, as `varnish_log` says, to the file that they name.
//!
//! Start with `specs/Plain.antt`, and then `specs/Theorem.antt`. Source: varnishlog(1), `-w` and `-g raw`; the words, the
//! messages and the statuses are this project's choice.
#![tactic(auto)]

mod answers;
mod ended;
mod help;
mod message;
mod options;
mod run;
mod words;
mod work;

use answers::run;
use options::PROGRAM;
use std::process::ExitCode;
use system_world::{RealWorld, WordFault, no_memory, not_text, read_words};

fn main(rt: HostRuntime) -> ExitCode {
    let status = match read_words(rt.alloc(), &rt) {
        Ok(words) => {
            let mut world = RealWorld::new(rt.alloc(), rt);
            run(rt.alloc(), &rt, &mut world, &words)
        }
        Err(WordFault::NotText { place }) => not_text(&rt, PROGRAM, place),
        Err(WordFault::NoMemory) => no_memory(&rt, PROGRAM),
    };
    ExitCode::from(status)
}
