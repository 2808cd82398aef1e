//! One run: items of a source are given to an output, in one pass.
//!
//! A source gives units and tells of overruns, until it has given all or stops; an output prints each item, until it is done or
//! stops. Both call a world, and a run is told of the list of these calls: what came by them, and what was printed by them. No
//! more is known of a source and of an output than their traits say, and neither knows the other.
//!
//! Start with `specs/Run.antt`, over the calls of `vio`. What a run is is this project's choice.
#![tactic(auto)]

mod met;
mod output;
mod pass;
mod source;

pub use met::Met;
pub use output::Output;
pub use pass::{RunEnd, RunEnded, run};
pub use source::{Never, Source};
