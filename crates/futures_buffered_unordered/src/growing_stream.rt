//! The growing set as a stream, which says how many outputs are left and whether it has ended.
ghost use Rattle.std.specs.Prelude.{◌≡◌, ◌↔◌};
ghost use Rattle.futures_buffered_unordered.specs.FuturesUnordered.{AnyNeeds, EachHeld, held_in_all};
ghost use Rattle.futures_buffered_unordered.specs.PollsBounded.{itself};
ghost use Rattle.futures_buffered_unordered.specs.PollsGrowing.{PollsGrowing};
ghost use Rattle.futures_buffered_unordered.specs.FuturesUnordered.{ComesFromGroups};

use crate::ask_group::ByRule;
use crate::fused::{FusedStream, SizeHint};
use crate::futures_unordered::FuturesUnordered;
use crate::poll_one::PollFuture;
use crate::slot_future::SlotFuture;
use futures::Stream;
use futures::task::{Context, Poll};
use futures_buffered_core::ready_source::NewSource;
use std::fmt;

impl<F: SlotFuture<S::Waker>, S: NewSource> Stream for FuturesUnordered<F, S> {
    type Item = F::Output;

    ghost can_poll = { λ set. EachHeld F.can_poll set.groups.listed };

    ghost needs = { λ set. AnyNeeds S.needs set.groups.listed };

    ghost yields = { λ set. ComesFromGroups F.polled set.groups.listed };

    /// Polls the set as `poll_with` does, by the rule that polls the future itself.
    fn poll_next(&mut self, cx: &mut Context<'_>) -> Poll<Option<F::Output>>
        requires { EachHeld F.can_poll self.old.groups.listed }
        ensures { PollsGrowing (itself F.SlotFuture) S.ReadySource
            self.old result self.new cx.old cx.new }
    {
        self.poll_groups(&ByRule(&PollFuture), cx)
    }
}

impl<F: SlotFuture<S::Waker>, S: NewSource> FusedStream for FuturesUnordered<F, S> {
    ghost use Rattle.std.specs.Prelude.{◌≡◌};

    ghost is_over = { λ set. held_in_all set.groups.listed ≡ 0 };

    fn is_terminated(&self) -> bool {
        self.is_empty()
    }
}

impl<F: Drop, S: NewSource> SizeHint for FuturesUnordered<F, S> {
    ghost use Rattle.std.specs.Prelude.{Some};

    ghost items_left = { λ set.
        (held_in_all set.groups.listed, Some (held_in_all set.groups.listed)) };

    fn size_hint(&self) -> (usize, Option<usize>) {
        (self.len(), Some(self.len()))
    }
}

/// Prints the groups, and the number of futures in them.
impl<F: Drop, S: NewSource> fmt::Debug for FuturesUnordered<F, S> {
    fn fmt<W: fmt::Write>(&self, f: &mut fmt::Formatter<W>) -> fmt::Result {
        f.debug_struct("FuturesUnordered")
            .field("queues", self.queues())
            .field("len", &self.len())
            .finish_non_exhaustive()
    }
}
