//! The rule by which one held value is polled.
//!
//! The poll of a set is written once, for any such rule. `PollFuture` is the rule for `SlotFuture`s, and a caller can
//! pass another.
ghost use Rattle.std.specs.Prelude.{ℕ};

use crate::slot_future::SlotFuture;
use futures::task::Poll;
use futures_buffered_core::ready_source::SlotHandle;

/// A rule that polls held values of a type `F`, each with the waker `W` of its slot.
///
/// An impl says by `can_poll` which values may be polled. It says by `polled` what a poll with the waker of a slot may
/// return and leave. A value may be polled again after `Pending`. By `goes_on` an impl says after which outputs a value
/// may be polled again, by default after none.
pub trait PollOne<F, W: SlotHandle> {
    ghost use Rattle.futures.specs.Poll.{IfReady, OnPending};
    ghost use Rattle.futures.specs.declared.task.Poll.{Poll};

    /// The output of a value that is done.
    type Output;

    // The values that may be polled.
    ghost can_poll: { F → Type 0 };

    // One poll with the waker of a slot: the slot, the value before, the result and the value after.
    ghost polled: { ℕ → F → Poll Self.Output → F → Type 0 };

    // The value may be polled again after this output.
    ghost goes_on: { Self.Output → Type 0 } = { λ _. ⊥ };

    /// Polls one value once.
    fn poll_one(&self, held: &mut F, waker: &W) -> Poll<Self::Output>
        requires { can_poll held.old }
        ensures polled { (slot : ℕ) →
            W.wakes waker.now slot → polled slot held.old result held.new }
        ensures again { OnPending result (can_poll held.new) }
        ensures goes_on { IfReady result (λ x. goes_on x → can_poll held.new) };
}

/// The rule for `SlotFuture`s, which polls the future itself.
#[derive(Clone, Copy)]
pub struct PollFuture;

impl<W: SlotHandle, F: SlotFuture<W>> PollOne<F, W> for PollFuture {
    type Output = F::Output;

    ghost can_poll = { F.can_poll };

    ghost polled = { F.polled };

    fn poll_one(&self, held: &mut F, waker: &W) -> Poll<F::Output> {
        held.poll(waker)
    }
}
