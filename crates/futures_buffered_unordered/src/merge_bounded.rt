//! As many streams as the merge has slots, polled as one.
//!
//! Each stream is in a slot, and a poll dequeues the ready slots from the source, as a set of futures does. A stream
//! that returns an item stays, and its slot is marked. So a later poll polls it again after the streams whose slots
//! were marked before. A stream that ends leaves its slot to the next push.
ghost use Rattle.std.specs.Prelude.{◌≡◌, ◌<◌, ◌≤◌, ◌↔◌};
ghost use Rattle.futures_buffered_core.specs.Drawn.{IsFiniteSource, items_of};
ghost use Rattle.futures_buffered_core.specs.ReadyShared.{IsNewShared, MarksShared};
ghost use Rattle.futures_buffered_core.specs.SlotMap.{held_count};
ghost use Rattle.futures_buffered_unordered.specs.Held.{AllHeld};
ghost use Rattle.futures_buffered_unordered.specs.FuturesUnorderedBounded.{HoldsEach, slots_in};
ghost use Rattle.futures_buffered_unordered.specs.Extended.{MakesFull};
ghost use Rattle.futures_buffered_unordered.specs.Merging.{PollsMergeBounded};
ghost use Rattle.futures_buffered_unordered.specs.MergeBounded.{KeepsOrder, KeepsOrderWithPushes, ComesFromStreams};

use crate::fused::{FusedStream, SizeHint};
use crate::futures_unordered_bounded::{BoundedSet, OfStreams};
use crate::merging::poll_streams;
use crate::slot_stream::SlotStream;
use futures::Stream;
use futures::task::{Context, Poll};
use futures_buffered_core::ready_core::NewFault;
use futures_buffered_core::ready_shared::SharedReady;
use futures_buffered_core::ready_source::ReadySource;
use std::alloc::Global;
use std::fmt;

/// As many streams as the merge has slots. The limit is that of ready slots for one round.
pub type MergeBounded<St, S = SharedReady> = BoundedSet<St, S, OfStreams>;

/// The short name of `MergeBounded`.
pub type Merge<St, S = SharedReady> = MergeBounded<St, S>;

impl<St: Drop> MergeBounded<St, SharedReady> {
    /// Makes a merge as `from_iter` does. One round dequeues at most `limit` ready slots.
    pub fn with_limit<I: IntoIterator<Item = St>>(
        alloc: Global,
        iter: I,
        limit: usize,
    ) -> Result<Self, NewFault>
        requires finite { IsFiniteSource (items_of I.IntoIterator I.IntoIter.Iterator iter) }
        requires some { 1 ≤ limit }
        ensures { MakesFull (items_of I.IntoIterator I.IntoIter.Iterator iter) slots_in
            (HoldsEach IsNewShared MarksShared limit) result }
    {
        Self::over_limit(&(), alloc, iter, limit)
    }
}

impl<St: SlotStream<S::Waker>, S: ReadySource> Stream for MergeBounded<St, S> {
    type Item = St::Item;

    ghost can_poll = { λ merge. AllHeld St.can_poll merge.slots };

    ghost needs = { λ merge n. (0 < held_count merge.slots) × S.needs merge.source n };

    ghost yields = { λ merge. ComesFromStreams St.polled merge.slots };

    /// Dequeues ready slots, in rounds that each begin with a registration of the task, and polls their streams.
    ///
    /// A stream that returns an item stays, and its slot is marked. A stream that ends is dropped; if another is still
    /// held, a new round begins. Returns `Ready(None)` if no stream is held, at first or any more. Returns `Pending` if
    /// no ready slot is left, if the source pauses, or if a round reaches the limit. Does not allocate. Takes time in
    /// proportion to the ready slots dequeued, apart from the polls. A pause and the limit wake the task at once.
    fn poll_next(&mut self, cx: &mut Context<'_>) -> Poll<Option<St::Item>>
        requires { AllHeld St.can_poll self.old.slots }
        ensures { PollsMergeBounded St.SlotStream S.ReadySource
            self.old result self.new cx.old cx.new }
    {
        poll_streams(self, cx, false)
    }
}

/// The merge is terminated while no stream is held.
impl<St: SlotStream<S::Waker>, S: ReadySource> FusedStream for MergeBounded<St, S> {
    ghost use Rattle.std.specs.Prelude.{◌≡◌};
    ghost use Rattle.futures_buffered_core.specs.SlotMap.{held_count};

    ghost is_over = { λ merge. held_count merge.slots ≡ 0 };

    fn is_terminated(&self) -> bool {
        self.is_empty()
    }
}

/// The hint says nothing of how many items are left.
impl<St: Drop, S: ReadySource> SizeHint for MergeBounded<St, S> {
    fn size_hint(&self) -> (usize, Option<usize>) {
        (0, None)
    }
}

/// Prints the number of streams held.
impl<St: Drop, S: ReadySource> fmt::Debug for MergeBounded<St, S> {
    fn fmt<W: fmt::Write>(&self, f: &mut fmt::Formatter<W>) -> fmt::Result {
        f.debug_struct("MergeBounded")
            .field("len", &self.len())
            .finish_non_exhaustive()
    }
}

/// After any polls of one merge, the items that were returned are those of the streams that it held at first. The items
/// of each stream are in its order, none lost and none twice. A stream that is still held is as its polls left it. A
/// stream that is no longer held has returned all of its items and then `None`.
///
/// This is a law of the relation in the contract of a poll. Its body is empty.
pub fn polls_keep_order<St: SlotStream<S::Waker>, S: ReadySource>()
    ensures { KeepsOrder St.SlotStream S.ReadySource }
{}

/// Says the same of polls with pushes between them. The items of a slot are those of the streams that it held one after
/// another, of each stream in its order. Each of these streams, except the last, has returned `None` before the next
/// was pushed.
///
/// This is a law of the relations in the contracts of a push and of a poll. Its body is empty.
pub fn polls_and_pushes_keep_order<St: SlotStream<S::Waker>, S: ReadySource>()
    ensures { KeepsOrderWithPushes St.SlotStream S.ReadySource }
{}
