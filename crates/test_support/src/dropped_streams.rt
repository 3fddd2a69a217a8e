//! A stream whose drops are counted.
use crate::dropped::Dropped;
use futures::task::Poll;
use futures_buffered_core::ready_source::SlotHandle;
use futures_buffered_unordered::slot_stream::SlotStream;

/// Gives `left` items of 1, and then ends. Without a number it has no item, and waits for good.
#[derive(Drop)]
pub struct DroppedStream {
    left: Option<u64>,
    // Dropped with the stream.
    mark: Dropped,
}

impl DroppedStream {
    pub fn new(left: Option<u64>, mark: Dropped) -> DroppedStream {
        DroppedStream { left, mark }
    }
}

impl<W: SlotHandle> SlotStream<W> for DroppedStream {
    type Item = u64;

    fn poll_next(&mut self, _waker: &W) -> Poll<Option<u64>> {
        match self.left {
            None => Poll::Pending,
            Some(0) => Poll::Ready(None),
            Some(left) => {
                self.left = Some(left - 1);
                Poll::Ready(Some(1))
            }
        }
    }
}
