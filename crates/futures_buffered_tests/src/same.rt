// Assertions that hold no loan while their caller goes on.
use std::fmt::Debug;
use std::process::Abort;

// Fails the test where the two differ, and prints both.
pub fn assert_same<T: PartialEq + Debug + Drop, R: Abort>(rt: &R, left: T, right: T) {
    assert_eq!(rt; left, right);
}
