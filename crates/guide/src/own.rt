//! Futures to hold, and a stream to merge.
use futures::task::Poll;
use futures_buffered::{SlotFuture, SlotHandle, SlotStream, SlotWaker};

/// Pending `polls_left` times, each time waking its slot, and then ready with `value`.
#[derive(Drop)]
pub struct ReadyAfter {
    pub value: u64,
    pub polls_left: u64,
}

impl<W: SlotWaker> SlotFuture<W> for ReadyAfter {
    type Output = u64;

    fn poll(&mut self, waker: &W) -> Poll<u64> {
        if self.polls_left == 0 {
            return Poll::Ready(self.value);
        }
        self.polls_left -= 1;
        waker.wake();
        Poll::Pending
    }
}

/// Ready after so many polls.
pub fn after(polls_left: u64, value: u64) -> ReadyAfter {
    ReadyAfter { value, polls_left }
}

/// The same without a value.
#[derive(Drop)]
pub struct Pause(pub ReadyAfter);

impl<W: SlotWaker> SlotFuture<W> for Pause {
    type Output = ();

    fn poll(&mut self, waker: &W) -> Poll<()> {
        self.0.poll(waker).map(|_value| ())
    }
}

/// Why a number was refused.
#[derive(Debug, Drop)]
pub struct Odd(pub u64);

/// Ready at its first poll: with half of an even number, and with an error for an odd one.
#[derive(Drop)]
pub struct Half(pub u64);

impl<W: SlotHandle> SlotFuture<W> for Half {
    type Output = Result<u64, Odd>;

    fn poll(&mut self, _waker: &W) -> Poll<Result<u64, Odd>> {
        if self.0 % 2 == 0 {
            Poll::Ready(Ok(self.0 / 2))
        } else {
            Poll::Ready(Err(Odd(self.0)))
        }
    }
}

/// Gives the numbers from `next` up to, and without, `end`.
#[derive(Drop)]
pub struct Numbers {
    pub next: u64,
    pub end: u64,
}

impl<W: SlotHandle> SlotStream<W> for Numbers {
    type Item = u64;

    fn poll_next(&mut self, _waker: &W) -> Poll<Option<u64>> {
        if self.next >= self.end {
            return Poll::Ready(None);
        }
        let item = self.next;
        self.next += 1;
        Poll::Ready(Some(item))
    }
}
