//! Definitions and types that several crates cite, and the one error that all share.
//!
//! `NoMemory` is the answer where there was no memory for a value, and `Halt` a fault or that. `Text` is a text as it was
//! typed, `Listed` a list; contracts see their bytes and values. `put_escaped` adds a text of which some bytes are printed
//! as escapes. `specs/Faults.antt` says when a count of faults rose, `specs/Interleaving.antt` when a list is an
//! interleaving of others, `specs/Prefix.antt` when a list is the first part of another, and `specs/Adding.antt` what a
//! call that adds a text to a list leaves.
#![tactic(auto)]

mod adding;
mod escaping;
mod fault;
mod text;

pub use adding::{make_room, or_cut_back, put_copies};
pub use escaping::{Escapes, put_escaped, put_hex};
pub use fault::{Halt, NoMemory};
pub use text::{Listed, Text};
