//! How a set of numbered futures is polled, under a rule that polls one of them.
ghost use Rattle.std.specs.Prelude.{ℕ, Option};

/// What a poll of a set of numbered futures requires, returns and leaves, under a rule that polls one held future. A
/// poll returns an output with the number of its future.
///
/// An impl says it by the words of the set's own poll. The trait has no calls, and is apart from `NumberedSet`, so that
/// the contract of a queue's poll can quote it whole.
pub trait NumberedPolls<R>: Drop {
    ghost use Rattle.futures.specs.declared.task.Poll.{Poll};
    ghost use Rattle.futures.specs.declared.task.context.Context.{Context};

    /// The output of a future that is done.
    type Output;

    // Each future in the set may be polled.
    ghost can_poll: { Self → Type 0 };

    // One poll: the set before, the result, the set after, and the task before and after.
    ghost gives: { Self → Poll (Option (ℕ × Self.Output)) → Self → Context → Context → Type 0 };

    // The places of a task's wakes at which a pending set waits.
    ghost needs: { Self → ℕ → Type 0 };
}
