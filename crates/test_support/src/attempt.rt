//! A future that may fail.
use futures::task::Poll;
use futures_buffered_core::ready_source::SlotWaker;
use futures_buffered_unordered::slot_future::SlotFuture;

/// Pending `polls_left` times, each time waking itself, then ready with `result`.
#[derive(Clone, Copy, Debug, PartialEq, Eq)]
pub struct Attempt {
    pub result: Result<u64, u64>,
    pub polls_left: u64,
}

impl<W: SlotWaker> SlotFuture<W> for Attempt {
    type Output = Result<u64, u64>;

    fn poll(&mut self, waker: &W) -> Poll<Result<u64, u64>> {
        if self.polls_left == 0 {
            return Poll::Ready(self.result);
        }
        self.polls_left -= 1;
        waker.wake();
        Poll::Pending
    }
}

/// Ready at its first poll.
pub fn at_once(given: Result<u64, u64>) -> Attempt {
    Attempt {
        result: given,
        polls_left: 0,
    }
}
