//! What a test compares. Each comparison is a call of these, because each `assert_eq!` is a proof of its own.

use std::fmt::Debug;
use std::process::Abort;

/// The two are the same; `what` tells the run from others.
pub fn same<T: PartialEq + Debug + Drop>(rt: &impl Abort, left: T, right: T, what: &str) {
    assert_eq!(rt; left, right, "{what}");
}

/// It is so; `what` tells the run from others.
pub fn holds(rt: &impl Abort, is_so: bool, what: &str) {
    assert!(rt; is_so, "{what}");
}
