//! What a query is, as `RespStatus >= 500 or ReqURL ~ "item"`: its grammar, and the laws that a parser rests on.
//!
//! The grammar is a tree, the tokens that spell it, and how they lie in a line. A reading of the
//! line, byte by byte, is proved to find the one tree of each query, and the first byte at which no query
//! can go on. `Lex` follows a token's bytes. Nothing here takes memory, and nothing here knows tags
//! or numbers: which names are tags is a parameter of the reading.
//!
//! Start with `specs/Grammar.antt`, then `specs/Criterion.antt` and `specs/Lines.antt`. Source: vsl-query(7). Where the
//! manual leaves it open, how words end and where a fault stands are this project's choice.
#![tactic(auto)]

mod laws;
mod lex;
mod mode;
mod step;

pub use laws::{reading, steps_of_trees, text_faults, text_reading, token_bytes};
pub use lex::{Lex, Part, Quote};
pub use mode::{Mode, Waiting};
pub use step::StepOver;
