//! The steps of a job before its run, in order: words, rules, queries, format, input, and what is written.
//!
//! Each step asks something of the words or of a world, and finds something, or refuses the job with a fault; then
//! nothing comes behind it. `read_command` reads the words and `read_selection` the rules in them; `take_group_steps` and
//! `take_counter_steps` take the other steps of a job, and `take_names_steps` those of a command of two names. The list of
//! the steps, how each passes and how it stops a job stand in `specs/Steps.antt`: start there.
//! Source: varnishlog(1), varnishncsa(1), varnishtop(1), varnishstat(1); the order of refusals is this project's
//! choice.
#![tactic(auto)]

mod fault;
mod feeds;
mod formats;
mod laws;
mod objects;
mod queries;
mod steps;
mod words;

pub use fault::ToolFault;
pub use laws::good_steps_pass;
pub use steps::{
    Begun, Counting, Input, Opened, take_counter_steps, take_group_steps, take_names_steps,
};
pub use words::{
    file_name, is_counting, is_fed, is_on_threads, options_of, read_command, read_selection,
    writes_log, written_name,
};
