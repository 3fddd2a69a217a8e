//! The bounded set as a stream, which says how many outputs are left and whether it has ended.
ghost use Rattle.std.specs.Prelude.{◌≡◌, ◌<◌};
ghost use Rattle.futures_buffered_core.specs.SlotMap.{held_count};
ghost use Rattle.futures_buffered_unordered.specs.Held.{AllHeld, ComesFrom};
ghost use Rattle.futures_buffered_unordered.specs.PollsBounded.{PollsBounded, itself};

use crate::fused::{FusedStream, SizeHint};
use crate::futures_unordered_bounded::FuturesUnorderedBounded;
use crate::poll_one::PollFuture;
use crate::slot_future::SlotFuture;
use futures::Stream;
use futures::task::{Context, Poll};
use futures_buffered_core::ready_source::ReadySource;
use std::fmt;

impl<F: SlotFuture<S::Waker>, S: ReadySource> Stream for FuturesUnorderedBounded<F, S> {
    type Item = F::Output;

    ghost can_poll = { λ set. AllHeld F.can_poll set.slots };

    ghost needs = { λ set n. (0 < held_count set.slots) × S.needs set.source n };

    ghost yields = { λ set. ComesFrom F.polled set.slots };

    /// Polls the set as `poll_with` does, by the rule that polls the future itself.
    ///
    /// Does not allocate. Takes at most as many ready slots as the set's limit, and polls only their futures. So its
    /// time is the time of these takes and polls, at any capacity. Holds no lock of the source while it polls a future.
    fn poll_next(&mut self, cx: &mut Context<'_>) -> Poll<Option<F::Output>>
        requires { AllHeld F.can_poll self.old.slots }
        ensures { PollsBounded (itself F.SlotFuture) S.ReadySource
            self.old result self.new cx.old cx.new }
    {
        self.poll_with(&PollFuture, cx)
    }
}

impl<F: SlotFuture<S::Waker>, S: ReadySource> FusedStream for FuturesUnorderedBounded<F, S> {
    ghost use Rattle.std.specs.Prelude.{◌≡◌};

    ghost is_over = { λ set. held_count set.slots ≡ 0 };

    fn is_terminated(&self) -> bool {
        self.is_empty()
    }
}

impl<F: Drop, S: ReadySource> SizeHint for FuturesUnorderedBounded<F, S> {
    ghost use Rattle.std.specs.Prelude.{Some};

    ghost items_left = { λ set. (held_count set.slots, Some (held_count set.slots)) };

    fn size_hint(&self) -> (usize, Option<usize>) {
        (self.len(), Some(self.len()))
    }
}

/// Prints the number of futures in the set.
impl<F: Drop, S: ReadySource> fmt::Debug for FuturesUnorderedBounded<F, S> {
    fn fmt<W: fmt::Write>(&self, f: &mut fmt::Formatter<W>) -> fmt::Result {
        f.debug_struct("FuturesUnorderedBounded")
            .field("len", &self.len())
            .finish_non_exhaustive()
    }
}
