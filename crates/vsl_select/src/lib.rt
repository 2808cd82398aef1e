//! What of a group is shown, and its text.
//!
//! Groups go in; the lines that the tools print come out, at the end of a list of bytes. A `Selection` says which
//! transactions and records are shown, and a `Viewer` asks it of one record after the other. For a log file,
//! `first_unit` tells where the units of records end.
//!
//! Start with `specs/Shown.antt`, `specs/Lines.antt` and `specs/FileUnits.antt`. Source: varnishlog(1).
#![tactic(auto)]

mod columns;
mod file_units;
mod level_field;
mod lines;
mod parts;
mod raw;
mod rule;
mod rule_text;
mod selection;
mod tag_rows;
mod viewer;
mod vxid_columns;

pub use columns::{put_left, put_right};
pub use file_units::first_unit;
pub use lines::group_text;
pub use raw::{raw_line, raw_lines, shown_raw_lines, tag_line};
pub use rule_text::{RuleText, SelectFault, Sides};
pub use selection::Selection;
pub use viewer::Viewer;
