//! One command: what is promised of its work, and its message.
//!
//! A command is steps, of which each passes or stops it with a fault, then a run, and then at most one message on standard
//! error. What it did in the world is one list of calls: `Promised` says that of any steps, run and message, and `say` says
//! the message. Nothing here knows what the steps are, or what a run does.
//!
//! Start with `specs/Promise.antt`, over the steps of `vio`. What a command promises is this project's choice.
#![tactic(auto)]

mod message;

pub use message::{numbered, say};
