//! A future that a closure makes of the output of another.
use futures::task::Poll;
use futures_buffered_unordered::slot_future::{SlotFuture, SlotHandle};
use std::mem;

/// A future, and then the future that its closure makes of the output.
#[derive(Drop)]
pub enum Then<F, B, C> {
    /// The first future, and the closure.
    First(F, C),
    /// The future that the closure made.
    Second(B),
    /// Neither of the two: permanently pending. A poll of another variant never ends in this one.
    Gone,
}

/// Returns the output of the second future. The poll in which the first future is ready polls the second one also. It
/// drops the first future before it calls the closure. After the output, a poll polls the second future again.
impl<
    W: SlotHandle,
    B: SlotFuture<W>,
    F: SlotFuture<W>,
    C: FnOnce(F::Output) -> B + Drop,
> SlotFuture<W> for Then<F, B, C> {
    ghost use Rattle.std.specs.Prelude.{⊤};
    ghost use Rattle.futures_buffered_held.specs.Then.{Follows};
    ghost use Rattle.futures_buffered_held.specs.declared.then.Then.TheVariants.{First, Second, Gone};

    type Output = B::Output;

    ghost can_poll = { elim [
      | First future change ↦ F.can_poll future × C.IsAlwaysCallable change
          × ((x : _) (second : _) → C.post change x second → B.can_poll second)
      | Second second ↦ B.can_poll second
      | Gone ↦ ⊤
    ] };

    ghost polled = { λ slot. Follows (F.polled slot) (B.polled slot) (λ change x second. C.post change x second) };

    fn poll(&mut self, waker: &W) -> Poll<B::Output> {
        if let Then::First(future, _) = self {
            let Poll::Ready(output) = future.poll(waker) else {
                return Poll::Pending;
            };
            let Then::First(future, change) = mem::replace(self, Then::Gone) else {
                unreachable!()
            };
            drop(future);
            *self = Then::Second(change(output));
        }
        match self {
            Then::Second(second) => second.poll(waker),
            _ => Poll::Pending,
        }
    }
}
