//! Streams in groups of slots, polled as one: a growing merge.
//!
//! Each group is a set of as many streams as it has slots, and is polled as a bounded merge is. A group that holds a
//! stream registers the task when it is polled, until one group is pending. The registration of that group serves the
//! groups after it.
ghost use Rattle.std.specs.Prelude.{◌≡◌, ◌↔◌, ◌≤◌};
ghost use Rattle.futures_buffered_core.specs.Drawn.{IsFiniteSource, items_of};
ghost use Rattle.futures_buffered_core.specs.ReadyShared.{IsNewShared, MarksShared};
ghost use Rattle.futures_buffered_unordered.specs.FuturesUnordered.{EachHeld, AnyNeeds, GrowingPushes};
ghost use Rattle.futures_buffered_unordered.specs.FuturesUnordered.{MakesPushed, no_groups, held_in_all};
ghost use Rattle.futures_buffered_unordered.specs.PollsBounded.{unless_registered};
ghost use Rattle.futures_buffered_unordered.specs.Merging.{PollsMergeBounded};
ghost use Rattle.futures_buffered_unordered.specs.MergeUnbounded.{ItemsComeFromGroups, KeepsOrderInGroups};
ghost use Rattle.futures_buffered_unordered.specs.MergeUnbounded.{KeepsOrderInGroupsWithPushes};
ghost use Rattle.futures_buffered_unordered.specs.MergeUnbounded.{PollsMergeUnbounded};

use crate::ask_group::AskGroup;
use crate::fused::{FusedStream, SizeHint};
use crate::futures_unordered::{FIRST_GROUP, GrowingSet, MAX_HELD};
use crate::futures_unordered_bounded::{OfStreams, POLL_LIMIT};
use crate::merge_bounded::MergeBounded;
use crate::merging::poll_streams;
use crate::slot_stream::SlotStream;
use futures::Stream;
use futures::task::{Context, Poll};
use futures_buffered_core::ready_core::NewFault;
use futures_buffered_core::ready_shared::SharedReady;
use futures_buffered_core::ready_source::NewSource;
use std::alloc::Global;
use std::fmt;

/// Any number of streams. The limit is that of ready slots for one round of a group.
pub type MergeUnbounded<St, S = SharedReady> = GrowingSet<St, S, OfStreams>;

// Polls a group as a bounded merge is polled.
#[derive(Drop)]
struct AsMerge;

impl<St: SlotStream<S::Waker>, S: NewSource> AskGroup<St, S, OfStreams> for AsMerge {
    type Output = St::Item;

    ghost can_poll = { St.can_poll };

    ghost asks = { λ is_registered. PollsMergeBounded St.SlotStream
        (unless_registered is_registered S.ReadySource) };

    fn ask(
        &self,
        group: &mut MergeBounded<St, S>,
        cx: &mut Context<'_>,
        is_registered: bool,
    ) -> Poll<Option<St::Item>> {
        poll_streams(group, cx, is_registered)
    }
}

impl<St: Drop, S: NewSource> MergeUnbounded<St, S> {
    /// Makes a merge of these streams, pushed in order. `env`, which the merge keeps, makes its sources.
    ///
    /// Returns `TooLarge` if a group would be too large or if there are more than `MAX_HELD` streams. If the call
    /// fails, drops the streams that the iterator returned. Takes time and allocates in proportion to the number of
    /// streams.
    pub fn over<I: IntoIterator<Item = St>>(
        env: S::Env,
        alloc: Global,
        iter: I,
    ) -> Result<Self, NewFault>
        requires { IsFiniteSource (items_of I.IntoIterator I.IntoIter.Iterator iter) }
        ensures { MakesPushed (items_of I.IntoIterator I.IntoIter.Iterator iter)
            (GrowingPushes S.marks S.made FIRST_GROUP) POLL_LIMIT result }
    {
        Self::over_limit(env, alloc, iter, POLL_LIMIT)
    }

    /// Makes a merge as `over` does. One round dequeues at most `limit` ready slots of a group, also of a group that is
    /// made later.
    pub fn over_limit<I: IntoIterator<Item = St>>(
        env: S::Env,
        alloc: Global,
        iter: I,
        limit: usize,
    ) -> Result<Self, NewFault>
        requires finite { IsFiniteSource (items_of I.IntoIterator I.IntoIter.Iterator iter) }
        requires some { 1 ≤ limit }
        ensures { MakesPushed (items_of I.IntoIterator I.IntoIter.Iterator iter)
            (GrowingPushes S.marks S.made FIRST_GROUP) limit result }
    {
        let mut merge = Self::without_groups(env, alloc, limit);
        merge.add_each(iter)?;
        Ok(merge)
    }
}

impl<St: Drop> MergeUnbounded<St, SharedReady> {
    /// Makes a merge as `new` does. One round dequeues at most `limit` ready slots of a group.
    pub fn with_limit(alloc: Global, limit: usize) -> Self
        requires { 1 ≤ limit }
        ensures { result ≡ no_groups limit }
    {
        Self::without_groups((), alloc, limit)
    }

    /// Makes a merge of these streams, pushed in order, whatever the iterator says of their number. The call is `over`
    /// with shared sources, and fails as `over` does.
    pub fn from_iter<I: IntoIterator<Item = St>>(alloc: Global, iter: I) -> Result<Self, NewFault>
        requires { IsFiniteSource (items_of I.IntoIterator I.IntoIter.Iterator iter) }
        ensures { MakesPushed (items_of I.IntoIterator I.IntoIter.Iterator iter)
            (GrowingPushes MarksShared IsNewShared FIRST_GROUP) POLL_LIMIT result }
    {
        Self::over((), alloc, iter)
    }
}

impl<St: SlotStream<S::Waker>, S: NewSource> Stream for MergeUnbounded<St, S> {
    type Item = St::Item;

    ghost can_poll = { λ merge. EachHeld St.can_poll merge.groups.listed };

    ghost needs = { λ merge. AnyNeeds S.needs merge.groups.listed };

    ghost yields = { λ merge. ItemsComeFromGroups St.polled merge.groups.listed };

    /// Polls each group at most once, in turn, until one returns an item.
    ///
    /// A stream that returns an item stays, and its slot is marked. A stream that ends is dropped. A group that is
    /// polled and holds nothing any more is dropped, unless it is the last. Without an item, returns `Ready(None)` if
    /// no stream is held any more, and `Pending` otherwise. Does not allocate. Takes time in proportion to the groups,
    /// the ready slots dequeued and the slots of dropped groups, apart from the polls.
    ///
    /// A group that is polled registers the task, in each of its rounds, until one group is pending. If a group pauses
    /// or reaches its limit, the poll wakes the task at once, also with an item.
    fn poll_next(&mut self, cx: &mut Context<'_>) -> Poll<Option<St::Item>>
        requires { EachHeld St.can_poll self.old.groups.listed }
        ensures { PollsMergeUnbounded St.SlotStream S.ReadySource
            self.old result self.new cx.old cx.new }
    {
        self.poll_groups(&AsMerge, cx)
    }
}

/// The merge is terminated while no stream is held.
impl<St: SlotStream<S::Waker>, S: NewSource> FusedStream for MergeUnbounded<St, S> {
    ghost use Rattle.std.specs.Prelude.{◌≡◌};

    ghost is_over = { λ merge. held_in_all merge.groups.listed ≡ 0 };

    fn is_terminated(&self) -> bool {
        self.is_empty()
    }
}

/// The hint says nothing of how many items are left.
impl<St: Drop, S: NewSource> SizeHint for MergeUnbounded<St, S> {
    fn size_hint(&self) -> (usize, Option<usize>) {
        (0, None)
    }
}

/// Prints the number of streams held.
impl<St: Drop, S: NewSource> fmt::Debug for MergeUnbounded<St, S> {
    fn fmt<W: fmt::Write>(&self, f: &mut fmt::Formatter<W>) -> fmt::Result {
        f.debug_struct("MergeUnbounded")
            .field("len", &self.len())
            .finish_non_exhaustive()
    }
}

/// After any polls of one merge, the items that were returned are those of the streams that it held at first. The items
/// of each stream are in its order, none lost and none twice. A group that was dropped holds no stream, and a stream
/// that is still held is as its polls left it.
///
/// This is a law of the relation in the contract of a poll. Its body is empty.
pub fn polls_keep_order<St: SlotStream<S::Waker>, S: NewSource>()
    ensures { KeepsOrderInGroups St.SlotStream S.ReadySource }
{}

/// Says the same of polls with pushes between them: the items are those of the streams that were held at first or
/// pushed, none lost and none twice. The items of a slot are those of the streams that it held one after another, of
/// each stream in its order. Each of these streams, except the last, has returned `None` before the next was pushed.
///
/// This is a law of the relations in the contracts of a push and of a poll. Its body is empty.
pub fn polls_and_pushes_keep_order<St: SlotStream<S::Waker>, S: NewSource>()
    ensures { KeepsOrderInGroupsWithPushes St.SlotStream S.ReadySource S.made }
{}
