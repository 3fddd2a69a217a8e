//! The future of a script: pending a number of times, and then a number.
ghost use Rattle.fbuf_lines.specs.ReadyAfter.{PollsReadyAfter};

use futures::task::Poll;
use futures_buffered_core::ready_source::SlotHandle;
use futures_buffered_sets::poll_one::PollOne;
use futures_buffered_sets::slot_future::SlotFuture;

/// A future that is pending `pending` times, and then ready with `value`. It keeps no waker and never
/// wakes its task.
#[derive(Clone, Copy, Debug, PartialEq, Eq)]
pub struct ReadyAfter {
    pub value: u64,
    pub pending: u64,
}

/// Polls a `ReadyAfter`, and does nothing with the waker. A poll does not allocate, and takes the same
/// time whatever the two numbers are.
#[derive(Clone, Copy, Debug)]
pub struct PollReadyAfter;

impl<W: SlotHandle> PollOne<ReadyAfter, W> for PollReadyAfter {
    ghost use Rattle.std.specs.Prelude.{⊤};

    type Output = u64;

    ghost can_poll = { λ _. ⊤ };

    ghost polled = { λ _. PollsReadyAfter };

    fn poll_one(&self, held: &mut ReadyAfter, _waker: &W) -> Poll<u64> {
        if held.pending == 0 {
            return Poll::Ready(held.value);
        }
        held.pending -= 1;
        Poll::Pending
    }
}

/// Polls as `PollReadyAfter` does.
impl<W: SlotHandle> SlotFuture<W> for ReadyAfter {
    type Output = u64;

    ghost polled = { λ _. PollsReadyAfter };

    fn poll(&mut self, waker: &W) -> Poll<u64> {
        PollReadyAfter.poll_one(self, waker)
    }
}
