//! What a join requires of the set that holds its futures: each output comes with the place of its future.
ghost use Rattle.std.specs.Prelude.{◌≡◌, ◌<◌, ℕ, Bool, List};

use futures::task::{Context, Poll};

/// A set of futures, each at a place of its own.
pub trait PlacedSet: Drop {
    ghost use Rattle.futures_buffered_joins.specs.Outputs.{waiting_count};

    // For each place, whether a future waits there.
    ghost waiting: { Self → List Bool };

    /// The number of places at which a future waits.
    fn waiting_len(&self) -> usize
        ensures { result ≡ waiting_count (waiting self.now) };
}

/// What a poll of such a set returns and leaves, in the words of the set's own poll.
///
/// The trait has no calls, and is apart from `PlacedSet`. A type that holds a set bounds it by `PlacedSet` alone. That
/// trait says nothing of the futures, so a future may contain closures.
pub trait PlacedPolls: Drop {
    ghost use Rattle.futures.specs.declared.task.Poll.{Poll};
    ghost use Rattle.futures.specs.declared.task.context.Context.{Context};

    /// The output of a future that is done.
    type Output;

    // Each future that waits may be polled.
    ghost can_poll: { Self → Type 0 };

    // One poll: the set before, the result, the set after, and the task before and after. An output comes with its
    // place.
    ghost gives: { Self → Poll (ℕ × Self.Output) → Self → Context → Context → Type 0 };

    // The places of a task's wakes at which a pending set waits.
    ghost needs: { Self → ℕ → Type 0 };

    // What the future that waits at a place may give.
    ghost may_give: { Self → ℕ → Self.Output → Type 0 };
}

/// A set of futures, each at a place of its own, that can be polled as its `PlacedPolls` says.
pub trait PollPlacedSet: PlacedSet + PlacedPolls {
    ghost use Rattle.futures_buffered_joins.specs.Outputs.{waiting_count};
    ghost use Rattle.futures_buffered_joins.specs.Placed.{PollsPlaced};

    /// Polls a set in which a future waits, once. Returns an output with its place, which is free then.
    fn poll_placed(&mut self, cx: &mut Context<'_>) -> Poll<(usize, Self::Output)>
        requires some { 0 < waiting_count (Self.waiting self.old) }
        requires held { Self.can_poll self.old }
        ensures { PollsPlaced Self.waiting Self.PlacedPolls
            self.old result self.new cx.old cx.new };
}
