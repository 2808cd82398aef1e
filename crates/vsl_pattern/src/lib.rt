//! Patterns: a text becomes what is looked for in bytes, or is refused.
//!
//! Queries and selections take patterns. What a text means as a pattern is the definition of the crate `regex`, over bytes; here
//! stand which texts are good ones, and with what settings they are read.
//!
//! Start with `specs/Patterns.antt`. Source: varnishlog(1), "-C", "-I" and "-X"; vsl-query(7), "Operator".
#![tactic(auto)]

mod pattern;

pub use pattern::{Matching, NoGoodPattern, Pattern};
