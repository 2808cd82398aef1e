//! What is done with groups: boxed consumers, to which the groups of one pass are given.
//!
//! Groups go in, each with the answer of each consumer's query; what each consumer writes of them comes out, piece by
//! piece. A consumer that is done is ended and takes no more, and the others go on. No list of groups is kept.
//!
//! All contracts stand on `Dispatcher`, which is generic; `Dispatch` is the one over boxes, and a box is itself a consumer.
//! Start with `src/consumer.rt` and `specs/Entries.antt`. Source: this project's choice.
#![tactic(auto)]

mod consumer;
mod dispatcher;
mod entry;
mod laws;
mod received;

pub use consumer::{Consumer, Go};
pub use dispatcher::{Dispatch, Dispatcher};
pub use entry::Entry;
pub use laws::each_receives_its_groups;
pub use received::Received;
