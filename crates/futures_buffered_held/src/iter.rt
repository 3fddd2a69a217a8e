//! The items of an iterator as a stream.
use futures::task::Poll;
use futures_buffered_unordered::slot_future::SlotHandle;
use futures_buffered_unordered::slot_stream::SlotStream;
use std::marker::Model;

/// A stream that returns the next item of its iterator at each poll.
#[derive(Drop)]
pub struct Iter<I> {
    pub(crate) items: I,
}

impl<I> Model for Iter<I> {
    ghost Value = { I };

    ghost view = { λ iter. iter.items };
}

impl<W: SlotHandle, I: Iterator> SlotStream<W> for Iter<I> {
    ghost use Rattle.futures_buffered_held.specs.Iter.{GivesNext};

    type Item = I::Item;

    ghost can_poll = { I.can_next };

    ghost polled = { λ _. GivesNext I.next_gives };

    fn poll_next(&mut self, _waker: &W) -> Poll<Option<I::Item>> {
        Poll::Ready(self.items.next())
    }
}
