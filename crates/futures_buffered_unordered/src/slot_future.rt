//! A future that a set holds, and polls with the waker of its slot.
ghost use Rattle.std.specs.Prelude.{ℕ};

use futures::task::Poll;
pub use futures_buffered_core::ready_source::{SlotHandle, SlotWaker};

/// A future that is polled with the waker `W` of its slot, in place of a task's context.
///
/// A set polls the future when its slot is ready. So a pending future arranges that its waker is woken, or it is not
/// polled again. The set passes the waker by reference, for this poll alone. A future that keeps the waker keeps a
/// copy, which is permanently a waker of the same slot.
///
/// An impl says by `can_poll` which values may be polled, by default all. It says by `polled` what a poll with the
/// waker of a slot may return and leave, by default anything. A future that keeps its waker, or wakes it, requires `W:
/// SlotWaker`.
pub trait SlotFuture<W: SlotHandle>: Drop {
    ghost use Rattle.std.specs.Prelude.{⊤};
    ghost use Rattle.futures.specs.Poll.{OnPending};
    ghost use Rattle.futures.specs.declared.task.Poll.{Poll};

    /// The value that the future returns when it is done.
    type Output;

    // The values that may be polled.
    ghost can_poll: { Self → Type 0 } = { λ _. ⊤ };

    // One poll with the waker of a slot: the slot, the value before, the result and the value after.
    ghost polled: { ℕ → Self → Poll Self.Output → Self → Type 0 } = { λ _ _ _ _. ⊤ };

    /// Polls the future once. Returns `Pending` if the future is not done yet.
    fn poll(&mut self, waker: &W) -> Poll<Self::Output>
        requires { can_poll self.old }
        ensures polled { (slot : ℕ) →
            W.wakes waker.now slot → polled slot self.old result self.new }
        ensures again { OnPending result (can_poll self.new) };
}
