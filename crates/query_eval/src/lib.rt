//! What a query says of a group of transactions.
//!
//! A query and a group go in, and out comes whether the query holds for the group. All records of the group count, shown
//! or not. Of a record of another level or tag nothing more is looked at, and a test that some record satisfies asks no
//! further ones. A test takes memory only for a pattern, once a record has what it asks; the truths of tests take a little.
//! An `Asker` keeps both from group to group. `Marks` are set as the records of a transaction arrive, and an `Answer` is
//! made of the marks of a group's members. A `Chosen` is a group with what several queries say of it.
//!
//! Start with `specs/Meaning.antt`, then `specs/Marks.antt`. Source: vsl-query(7).
#![tactic(auto)]

mod answer;
mod asker;
mod asking;
mod check;
mod chosen;
mod eval;
mod laws;
mod marking;
mod marks;
mod selection;
mod tests;
mod truths;

pub use answer::Answer;
pub use asker::Asker;
pub use chosen::{Chosen, Truths};
pub use eval::holds;
pub use laws::{queries_of_trees, queries_of_truths};
pub use marking::Marking;
pub use marks::Marks;
