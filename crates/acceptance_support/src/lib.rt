//! What the tests of the top call share: log files whose text is known, feeds, gates that hold threads, and what a run
//! over a world in memory has to answer.
//!
//! Nothing here tests anything, and no contract stands on it: the crates of tests do, `acceptance`, `fault_tests` and
//! `live_tests`, each of which is proved beside the others. A comparison answers what differs, and the tests assert it.
//!
//! Start with `running.rt`.
#![tactic(auto)]

mod answers;
mod byte_table;
mod gates;
mod logs;
mod running;
mod texts;
mod traffic;

pub use answers::{
    Answer, Ending, Took, is_fault_of, message_of, refused, status_of, taken, took_of,
};
pub use byte_table::{CHANGES, ChangedBytes, OLD_CHANGES, REQUEST_WITH_FETCH};
pub use gates::{Hold, HoldingGate, Step, UnevenGate};
pub use logs::{
    FETCH, FETCH_GROUPS, FETCH_TO_FILE, HEADER, Log, OLD_FETCH, OLD_FETCH_TO_FILE, ONE_PING,
    OPEN_BYTES, OPEN_GROUPS, OPEN_TO_FILE, PING_BYTES, PING_TO_FILE, PRINT_F,
};
pub use running::{differs, run_words, world_with};
pub use texts::{
    Kept, are_first_lines, count_ends, ends_line, feed_of, groups_of, has_parts_of,
    have_same_parts, lines_of, lines_of_feed, read_missed, read_overrun,
};
pub use traffic::{listings_of, twelve_units};
