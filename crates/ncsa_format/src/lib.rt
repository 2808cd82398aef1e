//! varnishncsa: lines of an access log, in a format.
//!
//! The text of a format goes in, and a `Format` comes out, or the place of the first percent sign that begins no formatter. A
//! format and a transaction give a line; `NcsaConsumer` writes the lines of groups. Each formatter looks for the record that
//! counts, for a first one from the front and for a last one from the back. Times are in UTC.
//!
//! Start with `specs/Formatter.antt` for what a format is, and `specs/Value.antt` for what each formatter gives.
//! Source: varnishncsa(1).
#![tactic(auto)]

mod chosen;
mod civil;
mod consumer;
mod cut;
mod fault;
mod format;
mod formatter;
mod laws;
mod lines;
mod member;
mod named;
mod quoted;
mod reading;
mod run;
mod tag_part;
mod time_form;
mod value;
mod wanted;

pub use consumer::NcsaConsumer;
pub use fault::FormatFault;
pub use format::{Format, default_format};
pub use laws::formats_are_read;
pub use lines::line;
