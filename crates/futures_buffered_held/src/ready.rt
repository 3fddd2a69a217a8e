//! A future that is ready from the start.
use futures::task::Poll;
use futures_buffered_unordered::slot_future::{SlotFuture, SlotHandle};
use std::marker::Model;

/// A future that returns its value at its first poll. Later polls return `Pending`.
#[derive(Drop)]
pub struct Ready<T> {
    pub(crate) value: Option<T>,
}

impl<T> Model for Ready<T> {
    ghost use Rattle.std.specs.Prelude.{Option};

    ghost Value = { Option T };

    ghost view = { λ ready. ready.value };
}

impl<W: SlotHandle, T: Drop> SlotFuture<W> for Ready<T> {
    ghost use Rattle.futures_buffered_held.specs.Ready.{GivesValue};

    type Output = T;

    ghost polled = { λ _. GivesValue };

    fn poll(&mut self, _waker: &W) -> Poll<T> {
        match self.value.take() {
            Some(value) => Poll::Ready(value),
            None => Poll::Pending,
        }
    }
}
