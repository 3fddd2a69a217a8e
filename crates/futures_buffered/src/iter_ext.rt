//! Constructors of sets, queues, joins and merges as methods of an iterator.
ghost use Rattle.futures_buffered.specs.Below.{IsNewShared, MarksShared, HoldsEach, slots_in, HoldsInOrder};
ghost use Rattle.futures_buffered_core.specs.Drawn.{IsFiniteSource, items_of};
ghost use Rattle.futures_buffered_unordered.specs.FuturesUnordered.{GrowingPushes, MakesSharedSet, MakesPushed};
ghost use Rattle.futures_buffered_unordered.specs.Extended.{MakesFull};
ghost use Rattle.futures_buffered_joins.specs.Join.{MakesJoin};
ghost use Rattle.futures_buffered_ordered.specs.FuturesOrdered.{MakesSharedQueue};
ghost use Rattle.futures_buffered.specs.BufferedOrdered.{queue_slots};

use futures_buffered_core::ready_core::NewFault;
use futures_buffered_core::ready_shared::SharedWaker;
use futures_buffered_joins::{JoinAll, TryJoinAll};
use futures_buffered_ordered::{FuturesOrdered, FuturesOrderedBounded};
use futures_buffered_unordered::futures_unordered::{FIRST_GROUP, FuturesUnordered};
use futures_buffered_unordered::futures_unordered_bounded::{FuturesUnorderedBounded, POLL_LIMIT};
use futures_buffered_unordered::{MergeBounded, MergeUnbounded, SlotFuture, SlotStream};
use std::alloc::Global;

/// Sets, queues, joins and merges of what an iterator returns, if the iterator ends.
///
/// Each method takes time and allocates in proportion to the number of items.
pub trait IterExt: IntoIterator + Sized {
    /// Makes a set of these futures without a free slot, whose outputs come as they finish. The call is
    /// `FuturesUnorderedBounded::from_iter`, and fails as that does. A later push can use a slot that was freed.
    final fn into_unordered_stream(
        self,
        alloc: Global,
    ) -> Result<FuturesUnorderedBounded<Self::Item>, NewFault>
    where
        Self::Item: SlotFuture<SharedWaker>,
        requires { IsFiniteSource (items_of Self.IntoIterator Self.IntoIter.Iterator self) }
        ensures { MakesFull (items_of Self.IntoIterator Self.IntoIter.Iterator self) slots_in
            (HoldsEach IsNewShared MarksShared POLL_LIMIT) result }
    {
        FuturesUnorderedBounded::from_iter(alloc, self)
    }

    /// Makes a growing set of these futures, whose outputs come as they finish. The call is
    /// `FuturesUnordered::from_iter`, and fails as that does.
    final fn into_unordered_stream_unbounded(
        self,
        alloc: Global,
    ) -> Result<FuturesUnordered<Self::Item>, NewFault>
    where
        Self::Item: SlotFuture<SharedWaker>,
        requires { IsFiniteSource (items_of Self.IntoIterator Self.IntoIter.Iterator self) }
        ensures { MakesSharedSet (items_of Self.IntoIterator Self.IntoIter.Iterator self) result }
    {
        FuturesUnordered::from_iter(alloc, self)
    }

    /// Makes a full queue of these futures, whose outputs come in their order. The call is
    /// `FuturesOrderedBounded::from_iter`, and fails as that does. A later push can use a slot that was freed.
    final fn into_ordered_stream(
        self,
        alloc: Global,
    ) -> Result<FuturesOrderedBounded<Self::Item>, NewFault>
    where
        Self::Item: SlotFuture<SharedWaker, Output: Drop>,
        requires { IsFiniteSource (items_of Self.IntoIterator Self.IntoIter.Iterator self) }
        ensures { MakesFull (items_of Self.IntoIterator Self.IntoIter.Iterator self) queue_slots
            (HoldsInOrder IsNewShared MarksShared POLL_LIMIT) result }
    {
        FuturesOrderedBounded::from_iter(alloc, self)
    }

    /// Makes a growing queue of these futures, whose outputs come in their order. The call is
    /// `FuturesOrdered::from_iter`, and fails as that does.
    final fn into_ordered_stream_unbounded(
        self,
        alloc: Global,
    ) -> Result<FuturesOrdered<Self::Item>, NewFault>
    where
        Self::Item: SlotFuture<SharedWaker, Output: Drop>,
        requires { IsFiniteSource (items_of Self.IntoIterator Self.IntoIter.Iterator self) }
        ensures { MakesSharedQueue (items_of Self.IntoIterator Self.IntoIter.Iterator self) result }
    {
        FuturesOrdered::from_iter(alloc, self)
    }

    /// Makes a join of these futures, which is ready with all outputs, each at its future's place. The call is the
    /// function `join_all`, and fails as that does.
    final fn join_all(self, alloc: Global) -> Result<JoinAll<Self::Item>, NewFault>
    where
        Self::Item: SlotFuture<SharedWaker, Output: Drop>,
        requires { IsFiniteSource (items_of Self.IntoIterator Self.IntoIter.Iterator self) }
        ensures { MakesJoin (items_of Self.IntoIterator Self.IntoIter.Iterator self)
            (HoldsEach IsNewShared MarksShared POLL_LIMIT) result }
    {
        futures_buffered_joins::join::join_all(alloc, self)
    }

    /// Makes a join of these futures, which may fail. The join is ready with all outputs, each at its future's place,
    /// or with the first error that comes. The call is the function `try_join_all`, and fails as that does.
    final fn try_join_all<T, E>(self, alloc: Global) -> Result<TryJoinAll<Self::Item>, NewFault>
    where
        Self::Item: SlotFuture<SharedWaker, Output = Result<T, E>>,
        T: Drop,
        requires { IsFiniteSource (items_of Self.IntoIterator Self.IntoIter.Iterator self) }
        ensures { MakesJoin (items_of Self.IntoIterator Self.IntoIter.Iterator self)
            (HoldsEach IsNewShared MarksShared POLL_LIMIT) result }
    {
        futures_buffered_joins::try_join::try_join_all(alloc, self)
    }

    /// Makes a merge of these streams without a free slot. The call is `MergeBounded::from_iter`, and fails as that
    /// does. A stream that ends leaves its slot to a later push.
    final fn merge(self, alloc: Global) -> Result<MergeBounded<Self::Item>, NewFault>
    where
        Self::Item: SlotStream<SharedWaker>,
        requires { IsFiniteSource (items_of Self.IntoIterator Self.IntoIter.Iterator self) }
        ensures { MakesFull (items_of Self.IntoIterator Self.IntoIter.Iterator self) slots_in
            (HoldsEach IsNewShared MarksShared POLL_LIMIT) result }
    {
        MergeBounded::from_iter(alloc, self)
    }

    /// Makes a growing merge of these streams. The call is `MergeUnbounded::from_iter`, and fails as that does.
    final fn merge_unbounded(self, alloc: Global) -> Result<MergeUnbounded<Self::Item>, NewFault>
    where
        Self::Item: SlotStream<SharedWaker>,
        requires { IsFiniteSource (items_of Self.IntoIterator Self.IntoIter.Iterator self) }
        ensures { MakesPushed (items_of Self.IntoIterator Self.IntoIter.Iterator self)
            (GrowingPushes MarksShared IsNewShared FIRST_GROUP) POLL_LIMIT result }
    {
        MergeUnbounded::from_iter(alloc, self)
    }
}

impl<I: IntoIterator> IterExt for I {}
