//! A number that a test shares with what it watches.
use std::alloc::{AllocError, Global};
use std::sync::Arc;
use std::sync::atomic::AtomicU64;

pub type Counter = Arc<AtomicU64>;

/// Begins at 0.
pub fn new_counter(alloc: Global) -> Result<Counter, AllocError> {
    Ok(Arc::new(alloc, AtomicU64::new(0))?)
}
