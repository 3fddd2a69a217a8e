//! An assertion as a call.
use std::fmt::Debug;
use std::process::Abort;

/// Fails the test if the two differ, and prints both. No loan of the comparison stays in the test.
pub fn assert_same<T: PartialEq + Debug + Drop, R: Abort>(rt: &R, left: T, right: T) {
    assert_eq!(rt; left, right);
}
