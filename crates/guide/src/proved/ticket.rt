//! A future that may not be polled again once it is ready.
ghost use Rattle.std.specs.Prelude.{IsSome};

use futures::task::Poll;
use futures_buffered::{SlotFuture, SlotHandle};

/// Gives its number away at its first poll. After that it may not be polled, which no set does.
#[derive(Drop)]
pub struct Ticket {
    number: Option<u64>,
}

impl Ticket {
    pub fn new(number: u64) -> Ticket {
        Ticket {
            number: Some(number),
        }
    }
}

impl<W: SlotHandle> SlotFuture<W> for Ticket {
    type Output = u64;

    ghost can_poll = { λ ticket. IsSome ticket.number };

    fn poll(&mut self, _waker: &W) -> Poll<u64> {
        match self.number.take() {
            Some(number) => Poll::Ready(number),
            None => unreachable!(),
        }
    }
}
