//! A stream whose items are known.
use futures::task::Poll;
use futures_buffered_core::ready_source::SlotHandle;
use futures_buffered_unordered::slot_stream::SlotStream;

/// Gives `value` so often, each at once. Then it ends.
#[derive(Clone, Copy, Debug, PartialEq, Eq)]
pub struct Repeats {
    pub value: u64,
    pub left: u64,
}

pub fn same(value: u64, times: u64) -> Repeats {
    Repeats { value, left: times }
}

impl<W: SlotHandle> SlotStream<W> for Repeats {
    type Item = u64;

    fn poll_next(&mut self, _waker: &W) -> Poll<Option<u64>> {
        if self.left == 0 {
            return Poll::Ready(None);
        }
        self.left -= 1;
        Poll::Ready(Some(self.value))
    }
}
