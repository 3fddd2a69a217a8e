//! A future whose output goes through a closure.
use futures::task::Poll;
use futures_buffered_unordered::slot_future::{SlotFuture, SlotHandle};
use std::marker::Model;

/// A future whose output is what its closure makes of the output of the future inside. A poll drops that future before
/// it calls the closure. A poll after the output returns `Pending`.
#[derive(Drop)]
pub struct Map<F, C> {
    pub(crate) inner: Option<(F, C)>,
}

impl<F, C> Model for Map<F, C> {
    ghost use Rattle.std.specs.Prelude.{Option};

    ghost Value = { Option (F × C) };

    ghost view = { λ map. map.inner };
}

impl<W: SlotHandle, U, F: SlotFuture<W>, C: FnOnce(F::Output) -> U + Drop> SlotFuture<W>
    for Map<F, C> {
    ghost use Rattle.std.specs.Prelude.{IfSome};
    ghost use Rattle.futures_buffered_held.specs.Map.{Changes};

    type Output = U;

    ghost can_poll = { λ map. IfSome map (λ (future, change). F.can_poll future × C.IsAlwaysCallable change) };

    ghost polled = { λ slot. Changes (F.polled slot) (λ change x y. C.post change x y) };

    fn poll(&mut self, waker: &W) -> Poll<U> {
        let Some((future, _)) = &mut self.inner else {
            return Poll::Pending;
        };
        let Poll::Ready(output) = future.poll(waker) else {
            return Poll::Pending;
        };
        let Some((future, change)) = self.inner.take() else {
            unreachable!()
        };
        drop(future);
        Poll::Ready(change(output))
    }
}
