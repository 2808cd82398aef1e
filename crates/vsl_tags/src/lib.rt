//! The tags of log records: each a number with a name, as `ReqMethod`.
//!
//! A number from a log or a name goes in and a `Tag` comes out, or nothing where no tag has it; a `Tag`
//! tells its number, its name and the rank of its name; `named` has the numbers that other crates name. A taglist, as
//! `Req*,End`, goes in and a `TagSet` comes out, or its first fault. No two names are alike, also without regard to case. Nothing here takes memory.
//!
//! Start with `specs/Tags.antt`, then `specs/TagSet.antt`. Source of the names: vsl(7), in this project's subset; the numbers
//! are this project's choice.
#![tactic(auto)]

mod called;
mod glob;
mod laws;
pub mod named;
mod names;
mod number;
mod tag_set;

pub use called::tag_called;
pub use laws::{
    constants_are_named, constants_of_tag, names_differ, ranks_order_names,
    stars_stand_for_any_bytes,
};
pub use names::{name_columns, name_of, rank_of, tag_of};
pub use number::Tag;
pub use tag_set::{TagFault, TagSet};
