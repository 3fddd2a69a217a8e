//! A comparison that a test fails by.
use std::fmt::Debug;
use std::test::Fail;

/// Fails if these two differ, and says both.
pub fn same<T: PartialEq + Debug + Drop>(left: T, right: T) -> Result<(), Fail> {
    if left == right {
        return Ok(());
    }
    Err(Fail::new(format_args!("{left:?} is not {right:?}")))
}
