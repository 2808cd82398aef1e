//! Records that come one by one: the lines of a listing, as `varnishlog -g raw` prints them.
//!
//! `first_line` and `ended_line` split a line off some bytes, and `read_line` says what it means: a record, a blank line or a comment, or why
//! it means nothing. No line takes memory.
//!
//! Start with `specs/Lines.antt`; what the units of records are stands in `specs/Gathered.antt`.
//! Source: varnishlog(1), `-g raw`; blank lines, comments and where a unit ends are this project's choice.
#![tactic(auto)]

mod laws;
mod line;
mod lines;
mod tag_cache;

pub use laws::one_meaning;
pub use line::{LineFault, LineRead, read_line};
pub use lines::{ended_line, first_line};
pub use tag_cache::TagCache;
