//! The units of a log as a text: a log file of them.
//!
//! The items of a log go in, and the bytes of each unit come out, behind one another; the header of a log file stands before
//! them. It knows no group and no query: what a log is converted to is its units, as they are. It is a text of an output of
//! `fan_output`, which writes it to a sink, and the messages of overruns to standard error.
//!
//! Start with `specs/Units.antt`, and for how a run ends with `specs/Ends.antt` of `fan_output`. Source: this project's choice.
#![tactic(auto)]

mod laws;
mod units;

pub use laws::a_converted_log_is_the_log;
pub use units::UnitsText;
