//! The text of groups: what a consumer writes of the groups of a log for which a query holds.
//!
//! The items of a log go in. A `Printer` groups them, gives each group that is complete, and for which the query holds, to a
//! consumer until that has as many as it keeps, and hands out what the consumer writes. It is a text of an output of
//! `fan_output`, which writes it to a sink, and knows none itself. No list of groups is kept.
//!
//! Start with `specs/Printer.antt`, and for how a run ends with `specs/Ends.antt` of `fan_output`. Source: vsl-query(7),
//! "Grouping" and "Query Expressions"; the rest is this project's choice.
#![tactic(auto)]

mod alone;
mod next;
mod printer;

pub use printer::Printer;
