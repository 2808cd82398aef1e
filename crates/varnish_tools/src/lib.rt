//! The tools, as one call: words in, a world of files and streams, and out comes what the tool wrote.
//!
//! `run_tools` takes the steps of the words and of the job that they state, one after the other, until one refuses it; then the
//! job runs, and the message of a fault is said. Nothing else is opened, read, created or written, and no call follows one that
//! failed but that of the message. Its contract is the main theorem of this project. A job that starts no thread it gives to
//! `run_alone`, and a command that is no tool to `run_other`, which wait for nobody.
//!
//! Start with `PrintsPlain` and `IsFaithful` in `specs/Theorem.antt`; the steps stand in `job_steps`, the runs in `job_runs`.
//! Source: varnishlog(1), varnishncsa(1), varnishtop(1), varnishstat(1); messages and statuses are this project's choice.
#![tactic(auto)]

mod laws;
mod message;
mod outcome;
mod tools;

pub use job_runs::RunRecord;
pub use job_steps::ToolFault;
pub use laws::{
    faults_are_counted, good_words_have_no_fault, plain_logs_are_printed, regular_logs_are_parted,
    told_counters_are_printed, told_feeds_are_printed, told_logs_are_converted,
    told_logs_are_printed,
};
pub use outcome::Outcome;
pub use tools::{run_alone, run_other, run_tools};
pub use traffic_feed::{Gate, OpenGate};
