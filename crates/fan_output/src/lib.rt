//! An output of several texts: one pass over a log, and each text goes to a sink of its own.
//!
//! The items of a log go in. The texts of them are made by a `Texts`, which knows no sink; a `FanOutput` writes the message of an
//! overrun, and of what it cost, once, to standard error, then what is due at each sink, in order. What is little is held until
//! more comes, or the run flushes. A sink whose write fails is written no more, and so is one whose text has as many groups as are
//! kept; the others go on. The run ends when none is left. The makers of messages, and what is said of a text, serve others too.
//!
//! Start with `specs/Ends.antt` for one sink, and with `specs/Fan.antt` for several. What an output is is this project's choice.
#![tactic(auto)]

mod ending;
mod fan;
mod laws;
mod messages;
mod output;
mod piece;
mod printing;
mod sink;
mod texts;

pub use ending::TextEnding;
pub use fan::{FanEnd, FanEnding, FanOutput};
pub use laws::a_fan_of_one_is_alone;
pub use messages::{missed_text, overrun_text, report, tell_both};
pub use sink::Sink;
pub use texts::Texts;
