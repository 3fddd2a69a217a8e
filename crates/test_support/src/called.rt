//! A future and a stream that give what a closure returns.
ghost use Rattle.std.specs.Prelude.{◌≡◌};

use futures::task::Poll;
use futures_buffered_core::ready_source::SlotHandle;
use futures_buffered_unordered::{SlotFuture, SlotStream};

/// Ready at its first poll, with what the closure returns. As a stream, it gives that once.
#[derive(Drop)]
pub struct Called<C> {
    pub call: C,
    pub is_over: bool,
}

impl<C> Called<C> {
    pub fn new(call: C) -> Called<C>
        ensures { result.call ≡ call }
    {
        Called {
            call,
            is_over: false,
        }
    }
}

impl<W: SlotHandle, T, C: Fn() -> T + Drop> SlotFuture<W> for Called<C> {
    type Output = T;

    ghost can_poll = { λ s. C.IsAlwaysCallable s.call };

    fn poll(&mut self, _waker: &W) -> Poll<T> {
        Poll::Ready((self.call)())
    }
}

impl<W: SlotHandle, T, C: Fn() -> T + Drop> SlotStream<W> for Called<C> {
    type Item = T;

    ghost can_poll = { λ s. C.IsAlwaysCallable s.call };

    fn poll_next(&mut self, _waker: &W) -> Poll<Option<T>> {
        if self.is_over {
            return Poll::Ready(None);
        }
        self.is_over = true;
        Poll::Ready(Some((self.call)()))
    }
}
