//! Streams of `futures` as one.
//!
//! A merge owns a set of futures in flight. Each of these holds a stream, and returns its next answer with the stream.
//! After an item the merge pushes the stream again, into the same slot and under the number of its first push.
ghost use Rattle.std.specs.Prelude.{◌≡◌, ◌^◌, ◌-◌, ◌≤◌, ◌↔◌, IfOk, IfErr, IsErr, IsTrue};
ghost use Rattle.futures_buffered_core.specs.Drawn.{IsFiniteSource, items_of};
ghost use Rattle.futures_buffered_unordered.specs.Extended.{EachDrawn, Extends, HoldsAllOf};
ghost use Rattle.futures_buffered_in_flight.specs.InFlight.{CanPollAll, HasNoRoom};
ghost use Rattle.futures_buffered_in_flight.specs.InFlightMerge.{CancelsStream, CanPollStreams, ComesFromMerged};
ghost use Rattle.futures_buffered_in_flight.specs.InFlightMerge.{HoldsStreams, IsNewMerge, MayRefuseStream, MergedWaitsAt};
ghost use Rattle.futures_buffered_in_flight.specs.InFlightMerge.{PollsMerge, PollsUnkeyed};
ghost use Rattle.futures_buffered_in_flight.specs.InFlightMerge.{PushesStream, StreamEnters, StreamWentIn, next_of};
ghost use Rattle.futures_buffered_in_flight.specs.InFlightMerge.{streams_held};

use crate::in_flight::{Came, FuturesUnorderedBy, Kind};
use crate::in_flight_growing::FuturesUnordered;
use crate::keyless::without_keys;
use crate::run::Key;
use futures::stream::StreamFuture;
use futures::task::{Context, Poll};
use futures::{Stream, StreamExt};
use futures_buffered_core::ready_core::NewFault;
use futures_buffered_unordered::fused::{FusedStream, SizeHint};
use std::alloc::Global;
use std::fmt;
use std::marker::Model;

impl<St: Stream<Item: Drop>, K: Kind> FuturesUnorderedBy<StreamFuture<St>, u64, K> {
    // Adds the stream under the number of this push. Returns the stream if there is no room for it.
    fn push_stream(&mut self, stream: St) -> Result<Key, St>
        requires held { CanPollAll (next_of St.Stream) self.old }
        requires new { St.can_poll stream }
        ensures went_in { IfOk result (λ key. StreamEnters St.Stream self.old stream key self.new) }
        ensures back { IfErr result (λ back. (back ≡ stream) × (self.new ≡ self.old)) }
        ensures room { IsErr result → HasNoRoom self.old }
        ensures again { CanPollAll (next_of St.Stream) self.new }
    {
        if !self.make_room() {
            return Err(stream);
        }
        let number = self.next;
        Ok(self.push_any(stream.into_future(), number))
    }

    // Polls the streams once. At most one stream ends.
    #[tactic(auto, using(crate::proofs::InFlightMergeLemmas::room_again))]
    fn poll_streams(&mut self, cx: &mut Context<'_>) -> Poll<Option<Came<St::Item>>>
        requires { CanPollAll (next_of St.Stream) self.old }
        ensures { PollsMerge St.Stream self.old result self.new cx.old cx.new }
    {
        let held = self.len();
        let Came { key, tag, output } = match self.poll_next_keyed(cx) {
            Poll::Pending => return Poll::Pending,
            Poll::Ready(None) => return Poll::Ready(None),
            Poll::Ready(Some(came)) => came,
        };
        let (item, stream) = output;
        let Some(output) = item else {
            if held > 1 {
                return cx.yield_now();
            }
            self.end();
            return Poll::Ready(None);
        };
        self.push_any(stream.into_future(), tag);
        let slot = key.slot;
        Poll::Ready(Some(Came {
            key: Key { push: tag, slot },
            tag: (),
            output,
        }))
    }
}

/// Streams of `futures` that are polled as one, at most `capacity` of them. If there is no limit, the name of the type
/// is `MergeUnbounded`.
///
/// A stream is held from its push until the poll in which it returns `None`, or until it is cancelled. A contract sees
/// the set of futures in flight. Calls that return how many streams are held take the same time at any number.
#[derive(Drop)]
pub struct MergeBounded<St> {
    // `None` before the first push.
    set: Option<FuturesUnordered<StreamFuture<St>, u64>>,
    limit: usize,
    alloc: Global,
}

impl<St> Model for MergeBounded<St> {
    ghost use Rattle.futures_buffered_in_flight.specs.InFlightMerge.{Merged, made_set};

    ghost Value = { Merged St };

    ghost view = { λ m. record { set = made_set m.set; limit = m.limit } };
}

impl<St: Drop> MergeBounded<St> {
    /// Returns the number of streams held, without the cancelled streams.
    pub fn len(&self) -> usize
        ensures { result ≡ streams_held self.now }
    {
        match &self.set {
            Some(set) => set.len(),
            None => 0,
        }
    }

    /// Returns whether no stream is held.
    pub fn is_empty(&self) -> bool
        ensures { IsTrue result ↔ (streams_held self.now ≡ 0) }
    {
        self.len() == 0
    }

    /// Returns how many streams can be held, which never changes: `usize::MAX` if there is no limit.
    pub fn capacity(&self) -> usize
        ensures { result ≡ self.now.limit }
    {
        self.limit
    }

    /// Returns whether the merge holds as many streams as it can. Each push is refused then.
    pub fn is_full(&self) -> bool
        ensures { IsTrue result ↔ (self.now.limit ≤ streams_held self.now) }
    {
        self.limit <= self.len()
    }
}

impl<St: Stream<Item: Drop>> MergeBounded<St> {
    /// Makes a merge that holds no stream, and later at most `n`. Does not allocate.
    #[tactic(auto, using(crate::proofs::InFlightLemmas::none_can_poll))]
    pub fn new(alloc: Global, n: usize) -> Self
        ensures new { IsNewMerge n result }
        ensures can_poll { CanPollStreams St.Stream result }
    {
        MergeBounded {
            set: None,
            limit: n,
            alloc,
        }
    }

    /// Makes a merge that holds no stream, and later any number. Does not allocate.
    pub fn growing(alloc: Global) -> Self
        ensures new { IsNewMerge (2 ^ 64 - 1) result }
        ensures can_poll { CanPollStreams St.Stream result }
    {
        Self::new(alloc, usize::MAX)
    }

    /// Drops each stream, in this call. Does not allocate. Takes time in proportion to the number of streams that were
    /// held at once, apart from the drops. Wakes the task whose poll was pending, as `clear` of a set does.
    #[tactic(auto, using(crate::proofs::InFlightLemmas::none_can_poll, crate::proofs::InFlightQueueLemmas::none_held))]
    pub fn clear(&mut self)
        ensures none { IsNewMerge self.old.limit self.new }
        ensures keys { self.new.set.next ≡ self.old.set.next }
        ensures can_poll { CanPollStreams St.Stream self.new }
    {
        if let Some(set) = &mut self.set {
            set.clear();
        }
    }

    /// Adds the stream, so that a later poll polls it, and returns its key. The key identifies the stream until the
    /// stream has ended. Returns the stream, and changes nothing, if the merge is full, if the allocation for the
    /// stream's slot fails, and after 2^64 - 1 pushes and items.
    ///
    /// If each slot is in use, allocates for one slot more. Many pushes together take time and allocate in proportion
    /// to their number. If a further allocation for the stream fails, the stream waits, and a later poll tries again.
    /// Wakes a task whose poll was pending.
    #[tactic(auto, using(crate::proofs::InFlightLemmas::none_can_poll))]
    pub fn try_push(&mut self, stream: St) -> Result<Key, St>
        requires held { CanPollStreams St.Stream self.old }
        requires new { St.can_poll stream }
        ensures { PushesStream St.Stream self.old stream result self.new }
    {
        if self.is_full() {
            return Err(stream);
        }
        if let Some(set) = &mut self.set {
            return set.push_stream(stream);
        }
        let Ok(mut set) = FuturesUnordered::with_slots(self.alloc, 0) else {
            return Err(stream);
        };
        match set.push_stream(stream) {
            Ok(key) => {
                self.set = Some(set);
                Ok(key)
            }
            Err(back) => Err(back),
        }
    }

    /// Cancels the stream of this key, so that no item of it is returned any more, and returns whether the stream was
    /// held. If not, changes nothing: the stream has ended, or it was cancelled or cleared before.
    ///
    /// A poll that returns `None` drops the stream; a pending poll drops it, or wakes the task to poll again. Until then
    /// a push may make one slot more, and `is_full` does not count the stream. Takes the time that `cancel` of a growing
    /// set takes, and wakes as that does.
    #[tactic(auto, using(crate::proofs::InFlightMergeLemmas::none_holds))]
    pub fn cancel(&mut self, key: Key) -> bool
        requires { CanPollStreams St.Stream self.old }
        ensures cancels { CancelsStream self.old.set key result self.new.set }
        ensures same_limit { self.new.limit ≡ self.old.limit }
        ensures again { CanPollStreams St.Stream self.new }
    {
        let Some(set) = &mut self.set else {
            return false;
        };
        let push = match set.slots.value(key.slot) {
            Some(place) if place.tag == key.push => place.push,
            _ => return false,
        };
        let slot = key.slot;
        set.cancel(Key { push, slot }).is_some()
    }

    /// Polls the streams that were pushed or woken since their last poll.
    ///
    /// Returns an item of one of the streams, with the key of the stream, or `None` if and only if no stream is held
    /// any more. A stream that returns an item stays, and is polled again after those that were woken before. At most
    /// one stream ends in a poll; if others are held then, the poll wakes the task to poll again.
    ///
    /// Allocates only what the streams allocate, and what a poll of the set does. If that set cannot allocate for a
    /// stream, the task polls again until it can. After 2^64 - 1 pushes and items, no stream is polled any more.
    #[tactic(auto, using(crate::proofs::InFlightMergeLemmas::none_made))]
    pub fn poll_next_keyed(&mut self, cx: &mut Context<'_>) -> Poll<Option<Came<St::Item>>>
        requires { CanPollStreams St.Stream self.old }
        ensures polls { PollsMerge St.Stream self.old.set result self.new.set cx.old cx.new }
        ensures same_limit { self.new.limit ≡ self.old.limit }
    {
        match &mut self.set {
            Some(set) => set.poll_streams(cx),
            None => Poll::Ready(None),
        }
    }

    /// Pushes each item, in order, as `try_push` does. Returns the first item that is refused. The items before it
    /// stay, and the iterator is not called again.
    pub fn extend<I: IntoIterator<Item = St>>(&mut self, iter: I) -> Result<(), St>
        requires finite { IsFiniteSource (items_of I.IntoIterator I.IntoIter.Iterator iter) }
        requires held { CanPollStreams St.Stream self.old }
        requires each { EachDrawn (items_of I.IntoIterator I.IntoIter.Iterator iter) St.can_poll }
        ensures extends { Extends (items_of I.IntoIterator I.IntoIter.Iterator iter)
            (StreamWentIn St.Stream) (λ old new. MayRefuseStream old × (new ≡ old)) self.old result self.new }
        ensures same_limit { self.new.limit ≡ self.old.limit }
        ensures again { CanPollStreams St.Stream self.new }
    {
        for stream in iter {
            if let Err(back) = self.try_push(stream) {
                return Err(back);
            }
        }
        Ok(())
    }
}

impl<St: Stream<Item: Drop>> Stream for MergeBounded<St> {
    type Item = St::Item;

    ghost can_poll = { CanPollStreams St.Stream };

    ghost needs = { MergedWaitsAt };

    ghost yields = { ComesFromMerged St.Stream };

    /// Polls as `poll_next_keyed` does. Returns an item without the key.
    fn poll_next(&mut self, cx: &mut Context<'_>) -> Poll<Option<St::Item>>
        requires { CanPollStreams St.Stream self.old }
        ensures { PollsUnkeyed St.Stream self.old result self.new cx.old cx.new }
    {
        without_keys(self.poll_next_keyed(cx))
    }
}

/// The merge is terminated while no stream is held: the next poll returns `None` then. A later push starts the merge
/// again.
impl<St: Stream<Item: Drop>> FusedStream for MergeBounded<St> {
    ghost use Rattle.std.specs.Prelude.{◌≡◌};

    ghost is_over = { λ merge. streams_held merge ≡ 0 };

    fn is_terminated(&self) -> bool {
        self.is_empty()
    }
}

/// The hint says nothing of how many items are left.
impl<St: Drop> SizeHint for MergeBounded<St> {
    fn size_hint(&self) -> (usize, Option<usize>) {
        (0, None)
    }
}

/// Prints the number of streams held. The printed name says whether there is a limit.
impl<St: Drop> fmt::Debug for MergeBounded<St> {
    fn fmt<W: fmt::Write>(&self, f: &mut fmt::Formatter<W>) -> fmt::Result {
        let name = if self.limit == usize::MAX {
            "MergeUnbounded"
        } else {
            "MergeBounded"
        };
        f.debug_struct(name)
            .field("len", &self.len())
            .finish_non_exhaustive()
    }
}

/// A merge of streams of `futures` without a limit.
pub type MergeUnbounded<St> = MergeBounded<St>;

/// Makes a merge without a limit, of the streams that this iterator returns, in its order.
///
/// If an allocation fails, returns `Memory` and drops the streams that the iterator returned. Takes time and allocates
/// in proportion to the number of streams.
pub fn merge_unbounded<St: Stream<Item: Drop>, I: IntoIterator<Item = St>>(
    alloc: Global,
    iter: I,
) -> Result<MergeUnbounded<St>, NewFault>
    requires finite { IsFiniteSource (items_of I.IntoIterator I.IntoIter.Iterator iter) }
    requires each { EachDrawn (items_of I.IntoIterator I.IntoIter.Iterator iter) St.can_poll }
    ensures holds { IfOk result
        (HoldsAllOf (items_of I.IntoIterator I.IntoIter.Iterator iter) (HoldsStreams St.Stream)) }
    ensures limit { IfOk result (λ merge. merge.limit ≡ 2 ^ 64 - 1) }
{
    let mut merge = MergeBounded::growing(alloc);
    match merge.extend(iter) {
        Ok(()) => Ok(merge),
        Err(_) => Err(NewFault::Memory),
    }
}

/// Makes a merge as `merge_unbounded` does, with room for as many streams as the iterator returned. A further stream
/// can be pushed only after one of them has ended or was cancelled.
pub fn merge<St: Stream<Item: Drop>, I: IntoIterator<Item = St>>(
    alloc: Global,
    iter: I,
) -> Result<MergeBounded<St>, NewFault>
    requires finite { IsFiniteSource (items_of I.IntoIterator I.IntoIter.Iterator iter) }
    requires each { EachDrawn (items_of I.IntoIterator I.IntoIter.Iterator iter) St.can_poll }
    ensures holds { IfOk result
        (HoldsAllOf (items_of I.IntoIterator I.IntoIter.Iterator iter) (HoldsStreams St.Stream)) }
    ensures limit { IfOk result (λ merge. merge.limit ≡ streams_held merge) }
{
    let mut merge = merge_unbounded(alloc, iter)?;
    merge.limit = merge.len();
    Ok(merge)
}
