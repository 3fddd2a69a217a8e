//! The wakers of a source, which is the source of a set later.
use futures_buffered_core::ready_shared::{SharedReady, SharedWaker};
use std::alloc::{AllocError, Global};
use test_support::keep::keep;

fn add_wakers(source: &SharedReady, wakers: &mut Vec<SharedWaker>) -> Result<(), AllocError> {
    for slot in 0..source.capacity() {
        keep(wakers, source.try_waker(slot)?)?;
    }
    Ok(())
}

/// Returns a waker of each slot.
pub fn wakers_of(alloc: Global, source: &SharedReady) -> Result<Vec<SharedWaker>, AllocError> {
    let mut wakers = Vec::new(alloc);
    add_wakers(source, &mut wakers)?;
    Ok(wakers)
}
