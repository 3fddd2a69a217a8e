//! Sets, queues, joins and merges of futures and streams of `futures` as methods of an iterator.
ghost use Rattle.std.specs.Prelude.{◌≡◌, ◌^◌, ◌-◌, IfOk, false, true};
ghost use Rattle.futures_buffered_core.specs.Drawn.{IsFiniteSource, items_of};
ghost use Rattle.futures_buffered_unordered.specs.Extended.{EachDrawn, HoldsAllOf, MakesFull};
ghost use Rattle.futures_buffered_in_flight.specs.InFlight.{CanPollAll, FliesInOrder, flight_slots};
ghost use Rattle.futures_buffered_in_flight.specs.InFlightOrdered.{CanPollOrdered, HoldsInTurn, ordered_room};
ghost use Rattle.futures_buffered_in_flight.specs.InFlightMerge.{HoldsStreams, streams_held};
ghost use Rattle.futures_buffered_joins.specs.InFlightJoin.{CanPollFlying, MakesFlying};

use crate::in_flight::{
    FuturesOrdered, FuturesOrderedBounded, FuturesUnordered, FuturesUnorderedBounded, JoinAll,
    MergeBounded, MergeUnbounded, TryJoinAll,
};
use futures::{Future, Stream};
use futures_buffered_core::ready_core::NewFault;
use std::alloc::Global;

/// Sets, queues, joins and merges of what an iterator returns, if the iterator ends.
///
/// Each method takes time and allocates in proportion to the number of items.
pub trait IterExt: IntoIterator + Sized {
    /// Makes a set of these futures, whose outputs come as they finish. The call is
    /// `FuturesUnorderedBounded::from_iter`, and fails as that does. A later push can use a slot that was freed.
    final fn into_unordered_stream(
        self,
        alloc: Global,
    ) -> Result<FuturesUnorderedBounded<Self::Item>, NewFault>
    where
        Self::Item: Future<Output: Drop>,
        requires finite { IsFiniteSource (items_of Self.IntoIterator Self.IntoIter.Iterator self) }
        requires fit { EachDrawn (items_of Self.IntoIterator Self.IntoIter.Iterator self) Self.Item.can_poll }
        ensures made { MakesFull (items_of Self.IntoIterator Self.IntoIter.Iterator self) flight_slots
            (FliesInOrder Self.Item.Future) result }
        ensures can_poll { IfOk result (CanPollAll Self.Item.Future) }
    {
        FuturesUnorderedBounded::from_iter(alloc, self)
    }

    /// Makes a set of these futures, and of any number that are pushed later, whose outputs come as they finish. The
    /// call is `FuturesUnordered::from_iter`, and fails as that does.
    final fn into_unordered_stream_unbounded(
        self,
        alloc: Global,
    ) -> Result<FuturesUnordered<Self::Item>, NewFault>
    where
        Self::Item: Future<Output: Drop>,
        requires finite { IsFiniteSource (items_of Self.IntoIterator Self.IntoIter.Iterator self) }
        requires fit { EachDrawn (items_of Self.IntoIterator Self.IntoIter.Iterator self) Self.Item.can_poll }
        ensures made { MakesFull (items_of Self.IntoIterator Self.IntoIter.Iterator self) flight_slots
            (FliesInOrder Self.Item.Future) result }
        ensures can_poll { IfOk result (CanPollAll Self.Item.Future) }
    {
        FuturesUnordered::from_iter(alloc, self)
    }

    /// Makes a queue of these futures, whose outputs come in their order. The call is
    /// `FuturesOrderedBounded::from_iter`, and fails as that does.
    final fn into_ordered_stream(
        self,
        alloc: Global,
    ) -> Result<FuturesOrderedBounded<Self::Item>, NewFault>
    where
        Self::Item: Future<Output: Drop>,
        requires finite { IsFiniteSource (items_of Self.IntoIterator Self.IntoIter.Iterator self) }
        requires fit { EachDrawn (items_of Self.IntoIterator Self.IntoIter.Iterator self) Self.Item.can_poll }
        ensures made { MakesFull (items_of Self.IntoIterator Self.IntoIter.Iterator self) ordered_room
            (HoldsInTurn Self.Item.Future false) result }
        ensures can_poll { IfOk result (CanPollOrdered Self.Item.Future) }
    {
        FuturesOrderedBounded::from_iter(alloc, self)
    }

    /// Makes a queue of these futures, and of any number that are pushed later, whose outputs come in their order. The
    /// call is `FuturesOrdered::from_iter`, and fails as that does.
    final fn into_ordered_stream_unbounded(
        self,
        alloc: Global,
    ) -> Result<FuturesOrdered<Self::Item>, NewFault>
    where
        Self::Item: Future<Output: Drop>,
        requires finite { IsFiniteSource (items_of Self.IntoIterator Self.IntoIter.Iterator self) }
        requires fit { EachDrawn (items_of Self.IntoIterator Self.IntoIter.Iterator self) Self.Item.can_poll }
        ensures holds { IfOk result
            (HoldsAllOf (items_of Self.IntoIterator Self.IntoIter.Iterator self) (HoldsInTurn Self.Item.Future true)) }
        ensures can_poll { IfOk result (CanPollOrdered Self.Item.Future) }
    {
        FuturesOrdered::from_iter(alloc, self)
    }

    /// Makes a join of these futures, which is ready with all outputs, each at its future's place. The call is the
    /// function `join_all`, and fails as that does.
    final fn join_all(self, alloc: Global) -> Result<JoinAll<Self::Item>, NewFault>
    where
        Self::Item: Future<Output: Drop>,
        requires finite { IsFiniteSource (items_of Self.IntoIterator Self.IntoIter.Iterator self) }
        requires fit { EachDrawn (items_of Self.IntoIterator Self.IntoIter.Iterator self) Self.Item.can_poll }
        ensures made { MakesFlying Self.Item.Future (items_of Self.IntoIterator Self.IntoIter.Iterator self) result }
        ensures can_poll { IfOk result (CanPollFlying Self.Item.Future) }
    {
        futures_buffered_joins::in_flight_join::join_all(alloc, self)
    }

    /// Makes a join of these futures, which may fail. The join is ready with all outputs, each at its future's place,
    /// or with the first error that comes. The call is the function `try_join_all`, and fails as that does.
    final fn try_join_all<T, E>(self, alloc: Global) -> Result<TryJoinAll<Self::Item>, NewFault>
    where
        Self::Item: Future<Output = Result<T, E>>,
        T: Drop,
        E: Drop,
        requires finite { IsFiniteSource (items_of Self.IntoIterator Self.IntoIter.Iterator self) }
        requires fit { EachDrawn (items_of Self.IntoIterator Self.IntoIter.Iterator self) Self.Item.can_poll }
        ensures made { MakesFlying Self.Item.Future (items_of Self.IntoIterator Self.IntoIter.Iterator self) result }
        ensures can_poll { IfOk result (CanPollFlying Self.Item.Future) }
    {
        futures_buffered_joins::in_flight_join::try_join_all(alloc, self)
    }

    /// Makes a merge of these streams, with room for as many as the iterator returned. The call is the function
    /// `merge`, and fails as that does.
    final fn merge(self, alloc: Global) -> Result<MergeBounded<Self::Item>, NewFault>
    where
        Self::Item: Stream<Item: Drop>,
        requires finite { IsFiniteSource (items_of Self.IntoIterator Self.IntoIter.Iterator self) }
        requires each { EachDrawn (items_of Self.IntoIterator Self.IntoIter.Iterator self) Self.Item.can_poll }
        ensures holds { IfOk result
            (HoldsAllOf (items_of Self.IntoIterator Self.IntoIter.Iterator self) (HoldsStreams Self.Item.Stream)) }
        ensures limit { IfOk result (λ merge. merge.limit ≡ streams_held merge) }
    {
        futures_buffered_in_flight::in_flight_merge::merge(alloc, self)
    }

    /// Makes a merge of these streams, and of any number that are pushed later. The call is the function
    /// `merge_unbounded`, and fails as that does.
    final fn merge_unbounded(self, alloc: Global) -> Result<MergeUnbounded<Self::Item>, NewFault>
    where
        Self::Item: Stream<Item: Drop>,
        requires finite { IsFiniteSource (items_of Self.IntoIterator Self.IntoIter.Iterator self) }
        requires each { EachDrawn (items_of Self.IntoIterator Self.IntoIter.Iterator self) Self.Item.can_poll }
        ensures holds { IfOk result
            (HoldsAllOf (items_of Self.IntoIterator Self.IntoIter.Iterator self) (HoldsStreams Self.Item.Stream)) }
        ensures limit { IfOk result (λ merge. merge.limit ≡ 2 ^ 64 - 1) }
    {
        futures_buffered_in_flight::in_flight_merge::merge_unbounded(alloc, self)
    }
}

impl<I: IntoIterator> IterExt for I {}
