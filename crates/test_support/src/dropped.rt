//! A future whose drops are counted.
use futures::task::Poll;
use futures_buffered_core::ready_source::SlotHandle;
use futures_buffered_unordered::slot_future::SlotFuture;
use std::sync::Arc;
use std::sync::atomic::AtomicU64;
use std::sync::atomic::Ordering::SeqCst;

/// Ready at its first poll. It adds one to `drops` when it is dropped.
pub struct Dropped {
    drops: Arc<AtomicU64>,
}

impl Dropped {
    pub fn new(drops: Arc<AtomicU64>) -> Dropped {
        Dropped { drops }
    }
}

impl Drop for Dropped {
    fn drop(self) {
        let Dropped { drops } = self;
        drops.fetch_add(1, SeqCst);
    }
}

impl<W: SlotHandle> SlotFuture<W> for Dropped {
    type Output = ();

    fn poll(&mut self, _waker: &W) -> Poll<()> {
        Poll::Ready(())
    }
}
