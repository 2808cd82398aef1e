//! The outside world of the tools: files and standard streams, as calls that may fail.
//!
//! `World` has the calls that the tools make, with all rules that an implementation keeps. A world
//! counts its faults by kind of call and by name, so that a caller who answers a fault can show its
//! cause. `MemWorld` keeps files in memory, for tests. `write_all` and `read_whole` move a whole text,
//! and `read_named` reads a whole file by its name. `open_stream` and `create_stream` take `-` for a
//! standard stream.
//!
//! A world never says what a file holds unless it wants to: every byte that it tells is optional.
//! Start with `specs/World.antt`. All rules are this project's choice.
#![tactic(auto)]

mod fault;
mod file;
mod laws;
mod memory;
mod named;
mod streams;
mod whole;
mod world;

pub use fault::{Failed, NamedFault, WholeFault, WorldFault};
pub use laws::{
    calls_give, calls_take, calls_touch_no_more, calls_write, failed_calls_are_counted,
};
pub use log_model::{Halt, NoMemory};
pub use memory::MemWorld;
pub use named::read_named;
pub use streams::{STREAM, create_stream, open_stream};
pub use whole::{read_whole, write_all};
pub use world::{Created, ERRORS, INPUT, OUTPUT, World};
