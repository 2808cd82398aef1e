//! A ring on one thread: a log in a fixed number of words, and cursors that read it.
//!
//! Units are put at the ring's tail, each in one stretch of words, and overwrite the oldest. A cursor takes the units
//! in order, and copies each as it takes it. Where the tail came six segments ahead of it the cursor is overrun and says
//! so; it seeks, and goes on four segments behind the tail. Putting and taking take no memory, and never wait.
//!
//! Start with `specs/Ring.antt` and `specs/Cursor.antt`. All of it is this project's choice.
#![tactic(auto)]

mod cursor;
mod ring;

pub use cursor::PlainCursor;
pub use ring::PlainRing;
