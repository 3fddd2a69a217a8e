//! A future of a closure.
use futures::task::Poll;
use futures_buffered_unordered::slot_future::{SlotFuture, SlotHandle};
use std::marker::Model;

/// A future that calls its closure at each poll, with the waker of its slot, and returns what the closure returns.
#[derive(Drop)]
pub struct PollFn<C> {
    pub(crate) call: C,
}

impl<C> Model for PollFn<C> {
    ghost Value = { C };

    ghost view = { λ future. future.call };
}

impl<W: SlotHandle, T, C: FnMut(&W) -> Poll<T> + Drop> SlotFuture<W> for PollFn<C> {
    ghost use Rattle.futures_buffered_held.specs.PollFn.{CallsWith};

    type Output = T;

    ghost can_poll = { C.IsAlwaysCallable };

    ghost polled = { λ slot. CallsWith (λ waker. W.wakes waker slot) C.FnMut };

    fn poll(&mut self, waker: &W) -> Poll<T> {
        (self.call)(waker)
    }
}
