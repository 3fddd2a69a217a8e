//! A comparison of two values.
use std::fmt::Debug;
use std::process::Abort;

/// As `assert_eq!`, as a call of its own: nothing of the comparison stays in the test.
pub fn assert_same<H: Abort, T: PartialEq + Debug + Drop>(rt: &H, left: T, right: T) {
    assert_eq!(rt; left, right);
}
