//! A push whose error holds nothing.
use std::alloc::AllocError;

/// Adds at the end. An item that finds no room is dropped here, so that a caller's `?` has none to drop.
pub fn keep<T: Drop>(row: &mut Vec<T>, item: T) -> Result<(), AllocError> {
    row.push(item)?;
    Ok(())
}
