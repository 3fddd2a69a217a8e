//! A future whose contract says what a poll answers.
ghost use Rattle.guide.specs.Doubling.{Doubles};

use futures::task::Poll;
use futures_buffered::{SlotFuture, SlotHandle};

/// Ready at its first poll, with twice its number.
#[derive(Drop)]
pub struct Doubling {
    pub number: u32,
}

impl<W: SlotHandle> SlotFuture<W> for Doubling {
    type Output = u64;

    ghost polled = { λ _. Doubles };

    fn poll(&mut self, _waker: &W) -> Poll<u64> {
        Poll::Ready(2 * self.number as u64)
    }
}
