//! Reports of varnishstat: the counters that globs select, as text, as a list of names, and as JSON.
//!
//! What the counters came to and globs go in; the report comes out, at the end of a list of bytes. A glob matches a whole
//! name, with regard to case, and a `*` of it stands for any bytes. No report has a time, or a count per second.
//!
//! Start with `specs/Report.antt` and `specs/Glob.antt`. Source: varnishstat(1), `-1`, `-f`, `-j` and `-l`.
#![tactic(auto)]

mod glob;
mod globs;
mod line;
mod object;
mod report;
mod table;

pub use globs::Globs;
pub use report::{stat_json, stat_list, stat_text};
