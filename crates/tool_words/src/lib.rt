//! The words of a command line, and the job that they state.
//!
//! A list of words goes in, without the program's name, and out comes the command that they ask for, as a tool
//! with its job, or the first thing that is wrong with the words, with the place of the word. Every list of words
//! has one of the two; nothing is opened and nothing is printed here.
//!
//! Start with `specs/Command.antt` and `specs/Job.antt`; each option is a row of `options.rt`, which the
//! definitions cite as they stand. Source: varnishlog(1), varnishncsa(1), varnishtop(1), varnishstat(1).
#![tactic(auto)]

mod command;
mod commands;
mod fault;
mod fold;
mod job;
mod laws;
mod lookup;
mod number;
mod options;
mod reading;
mod rows;
mod whole;
mod words;

pub use command::{Command, Names, is_other, read_command};
pub use commands::{CommandName, command_named};
pub use fault::{UsageFault, WordsFault};
pub use job::{Job, Order, QueryText, StatMode, Tool};
pub use laws::{first_fault_stays, jobs_are_sound, options_are_written_out, options_gather};
pub use words::read_words;
