//! How a poll of groups polls one of them.
//!
//! A growing set and a growing merge differ in that alone.
ghost use Rattle.std.specs.Prelude.{◌≡◌, ◌⊎◌, IsTrue};
ghost use Rattle.futures.specs.Poll.{OnPending};
ghost use Rattle.futures.specs.Task.{Covers, Keeps};
ghost use Rattle.futures_buffered_unordered.specs.Held.{AllHeld};
ghost use Rattle.futures_buffered_unordered.specs.FuturesUnorderedBounded.{IsWoken};
ghost use Rattle.futures_buffered_unordered.specs.PollsBounded.{PollsBounded, unless_registered};
ghost use Rattle.futures_buffered_unordered.specs.FuturesUnorderedInvariant.{KeepsGroup};

use crate::futures_unordered_bounded::{BoundedSet, FuturesUnorderedBounded, OfFutures};
use crate::poll_one::PollOne;
use futures::task::{Context, Poll};
use futures_buffered_core::ready_source::NewSource;

/// How a poll of groups polls one group.
///
/// An impl says by `can_poll` which values may be polled. It says by `asks` what a poll of a group may return, and what
/// it leaves of the group and of the task. A group that returns `None` holds nothing. A pending group holds a value.
pub trait AskGroup<F: Drop, S: NewSource, K> {
    ghost use Rattle.futures.specs.declared.task.Poll.{Poll};
    ghost use Rattle.futures.specs.declared.task.context.Context.{Context};
    ghost use Rattle.futures_buffered_unordered.specs.FuturesUnorderedBounded.{Bounded};
    ghost use Rattle.std.specs.Prelude.{Bool, Option};

    /// The output of a group.
    type Output;

    // The values that may be polled.
    ghost can_poll: { F → Type 0 };

    // One poll of a group: whether the task is registered already, the group before, the result, the group after, the
    // task before and the task after.
    ghost asks: { Bool → Bounded F S → Poll (Option Self.Output) → Bounded F S
        → Context → Context → Type 0 };

    /// Polls a group once. If the group holds a value, registers the task, unless the task is already registered with a
    /// group next to it. In that case does not change the task, or wakes it.
    fn ask(
        &self,
        group: &mut BoundedSet<F, S, K>,
        cx: &mut Context<'_>,
        is_registered: bool,
    ) -> Poll<Option<Self::Output>>
        requires held { AllHeld can_poll group.old.slots }
        requires registered { IsTrue is_registered → Covers cx.old (S.needs group.old.source) }
        ensures keeps { KeepsGroup S.needs group.old result group.new }
        ensures pollable { AllHeld can_poll group.new.slots }
        ensures polls { asks is_registered group.old result group.new cx.old cx.new }
        ensures covered { OnPending result (Covers cx.new (S.needs group.new.source)) }
        ensures kept { Keeps cx.old cx.new }
        ensures leaves { IsTrue is_registered → (cx.new ≡ cx.old) ⊎ IsWoken cx.new };
}

// Polls a group by a rule for one held value.
#[derive(Drop)]
pub(crate) struct ByRule<'r, R>(pub(crate) &'r R);

impl<F: Drop, S: NewSource, R: PollOne<F, S::Waker>> AskGroup<F, S, OfFutures> for ByRule<'_, R> {
    type Output = R::Output;

    ghost can_poll = { R.can_poll };

    ghost asks = { λ is_registered. PollsBounded R.PollOne (unless_registered is_registered S.ReadySource) };

    fn ask(
        &self,
        group: &mut FuturesUnorderedBounded<F, S>,
        cx: &mut Context<'_>,
        is_registered: bool,
    ) -> Poll<Option<R::Output>> {
        if is_registered {
            group.poll_registered(self.0, cx)
        } else {
            group.poll_with(self.0, cx)
        }
    }
}
