//! Grouping the records of a log by transaction.
//!
//! Units go in, in the order of the log; groups come out, each once, when all its transactions have ended or
//! were force-completed, with records that say so. A flush completes all that is pending: where the reader was
//! overrun, and at the end. Raw grouping makes each record a group by itself. A table never shows a group
//! before it is complete. Until it finds no memory, each record that it takes is in one group or pending, once;
//! from then on it answers that alone. Request grouping does not report sessions.
//!
//! What records do is written once, over any store of pending transactions (`Store`). `Table` has the plainest: a
//! list in which all is searched. The tools run over trees with an index, of `txn_groups`.
//!
//! Start with `specs/Transaction.antt`, `specs/Links.antt` and `specs/Grouping.antt`.
//! Source: vsl(7), vsl-query(7) "Grouping", varnishlog(1); what is this project's choice is said there.
#![tactic(auto)]

mod claim;
mod first_field;
mod force;
mod forcing;
mod group;
mod join;
mod laws;
mod leave;
mod path;
mod pending;
mod raw;
mod rows;
mod run;
mod steps;
mod store;
mod table;
mod take;
mod time;
mod which;
mod whole;

pub use claim::{Claim, read_claim, read_vxid};
pub use force::add_forced;
pub use forcing::{flush_all, force_oldest};
pub use group::{Cause, Group, GroupOptions, Grouping, Kind, Member, Members, ParentLink, Reason};
pub use join::Join;
pub use laws::{
    each_member_ends, each_record_once, each_transaction_once, every_line_ends, groups_are_walks,
    limit_holds, overrun_leaves_none, siblings_stand_in_order,
};
pub use leave::is_reported;
pub use path::Path;
pub use pending::{Pending, raised};
pub use raw::{raw_group, whole_group};
pub use steps::take_unit;
pub use store::Store;
pub use table::Table;
pub use time::read_time;
pub use which::{Which, last_in_time};
