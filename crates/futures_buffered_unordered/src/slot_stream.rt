//! What a merge holds: a stream that is polled with the waker of its slot.
ghost use Rattle.std.specs.Prelude.{ℕ};

use crate::poll_one::PollOne;
use futures::task::Poll;
use futures_buffered_core::ready_source::SlotHandle;

/// A stream that is polled with the waker `W` of its slot, in place of a task's context.
///
/// A merge polls the stream when its slot is dequeued. So a pending stream arranges for that waker to be woken, or is
/// never polled again. The merge passes that waker by reference, for this poll alone, as a set does for a `SlotFuture`.
/// An impl says by `can_poll` which values may be polled, by default all. It says by `polled` what a poll with the
/// waker of a slot may return and leave, by default anything. After an item, and after `Pending`, the stream may be
/// polled again. A stream that keeps its waker, or wakes it, requires `W: SlotWaker`.
pub trait SlotStream<W: SlotHandle>: Drop {
    ghost use Rattle.std.specs.Prelude.{⊤, Option, OnSome};
    ghost use Rattle.futures.specs.Poll.{IfReady, OnPending};
    ghost use Rattle.futures.specs.declared.task.Poll.{Poll};

    /// The items that it returns, one after another.
    type Item;

    // The values that may be polled.
    ghost can_poll: { Self → Type 0 } = { λ _. ⊤ };

    // One poll with the waker of a slot: the slot, the value before, what the poll returns, and the value after.
    ghost polled: { ℕ → Self → Poll (Option Self.Item) → Self → Type 0 } = { λ _ _ _ _. ⊤ };

    /// Polls the stream once. Returns `Pending` if no item is there yet, and `Ready(None)` if none will come.
    fn poll_next(&mut self, waker: &W) -> Poll<Option<Self::Item>>
        requires { can_poll self.old }
        ensures polled { (slot : ℕ) →
            W.wakes waker.now slot → polled slot self.old result self.new }
        ensures goes { IfReady result (λ o. OnSome o (can_poll self.new)) }
        ensures again { OnPending result (can_poll self.new) };
}

/// The rule for `SlotStream`s: polls the stream itself once. A stream that returns an item continues.
#[derive(Clone, Copy)]
pub struct PollStream;

impl<W: SlotHandle, St: SlotStream<W>> PollOne<St, W> for PollStream {
    ghost use Rattle.std.specs.Prelude.{IsSome};

    type Output = Option<St::Item>;

    ghost can_poll = { St.can_poll };

    ghost polled = { St.polled };

    ghost goes_on = { λ o. IsSome o };

    fn poll_one(&self, held: &mut St, waker: &W) -> Poll<Option<St::Item>> {
        held.poll_next(waker)
    }
}
