//! A value, and a future, whose drops are counted.
use crate::counter::Counter;
use crate::dropped::Dropped;
use futures::task::Poll;
use futures_buffered_core::ready_source::SlotHandle;
use futures_buffered_unordered::SlotFuture;
use std::alloc::AllocError;
use std::sync::Arc;

/// As a future, ready at its first poll, with its number.
#[derive(Drop)]
pub struct Numbered {
    pub number: u64,
    // Dropped with the value.
    mark: Dropped,
}

impl Numbered {
    pub fn new(drops: &Counter, number: u64) -> Result<Numbered, AllocError> {
        let mark = Dropped::new(Arc::try_clone(drops)?);
        Ok(Numbered { number, mark })
    }
}

impl<W: SlotHandle> SlotFuture<W> for Numbered {
    type Output = u64;

    fn poll(&mut self, _waker: &W) -> Poll<u64> {
        Poll::Ready(self.number)
    }
}
