//! What a test compares. Each comparison is this call, because each `assert_eq!` is a proof of its own.

use std::fmt::Debug;
use std::process::Abort;

/// The two are the same.
pub fn same<T: PartialEq + Debug + Drop>(rt: &impl Abort, left: T, right: T) {
    assert_eq!(rt; left, right);
}
