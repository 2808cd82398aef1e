//! The log of a running Varnish: the records of its binary log, as varnishlog writes it with `-w`, or the lines of a text,
//! as varnishlog prints it with `-g raw`, become units of a log file of this project.
//!
//! `copy_log` reads a log's first four bytes, which tell the form of a binary log, and then piece by piece as it comes, and
//! writes the units of all that is whole before it reads more; it holds no more than a part of a record or of a line. What
//! this project has no room for is left out or cut, and counted; where copying is strict it stops before the first such part.
//!
//! Start with `specs/Forms.antt` and `specs/Parts.antt`, then `specs/Taken.antt` and `specs/Copied.antt`.
//! Source: vsl(7) and varnishlog(1), `-w` and `-g raw`, of Varnish 7.1 and 7.7; the rest is this project's choice.
#![tactic(auto)]

mod copying;
mod entry;
mod first;
mod form;
mod loss;
mod parts;
mod tags;
mod taking;
mod units;

pub use copying::{Copied, CopyFault, LogFault, copy_log};
pub use first::Looks;
pub use form::Asked;
pub use loss::{Counts, Loss};
