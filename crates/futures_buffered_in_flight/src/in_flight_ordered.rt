//! Futures of the crate `futures` in flight, in a queue that returns their outputs from the front to the back.
//!
//! A `FuturesOrderedBy` is of one of two kinds: `FuturesOrderedBounded` has a fixed number of slots, and
//! `FuturesOrdered` makes slots.
ghost use Rattle.std.specs.Prelude.{◌≡◌, ◌↔◌, ◌<◌, ◌≤◌, IfOk, IsTrue, false, length, max, true};
ghost use Rattle.futures_buffered_core.specs.Drawn.{IsFiniteSource, items_of};
ghost use Rattle.futures_buffered_core.specs.Made.{MakesSlots};
ghost use Rattle.futures_buffered_unordered.specs.Extended.{EachDrawn, Extends};
ghost use Rattle.futures_buffered_in_flight.specs.InFlight.{flight_slots};
ghost use Rattle.futures_buffered_in_flight.specs.InFlightOrdered.{AnswersInTurn, CanPollOrdered, EntersBack, EntersFront};
ghost use Rattle.futures_buffered_in_flight.specs.InFlightOrdered.{IsCleared, IsNewInOrder, MayRefuseFuture, OrderedIsFull};
ghost use Rattle.futures_buffered_in_flight.specs.InFlightOrdered.{PushesOrComesBack};
ghost use Rattle.futures_buffered_in_flight.specs.InFlightQueue.{KeepsRoom};

use crate::in_flight::{Bounded, FuturesUnorderedBy, Growing, Kind};
use futures::Future;
use futures::task::{Context, Poll};
use futures_buffered_core::ready_core::NewFault;
use futures_buffered_ordered::ordered_entries::OrderedEntries;
use futures_buffered_unordered::poll_one::PollFuture;
use std::alloc::Global;
use std::marker::Model;

/// A queue of futures in flight, which returns their outputs from the front to the back. It has one slot at least.
///
/// A push adds a future at either end. The queue keeps an output that comes before its turn, and holds it until it is
/// returned. A kept output needs no slot. A contract sees the futures in flight, each with a number, and the entries
/// from the front to the back. An entry in progress has the number of its future. Calls that only read take the same
/// time at any number held.
#[derive(Drop)]
pub struct FuturesOrderedBy<F: Drop, A: Drop, K: Kind> {
    queue: OrderedEntries<FuturesUnorderedBy<F, usize, K>, A>,
}

/// A queue with as many entries as slots, at most. A push never fails because an allocation fails.
pub type FuturesOrderedBounded<F, A> = FuturesOrderedBy<F, A, Bounded>;

/// A queue of any number of futures.
pub type FuturesOrdered<F, A> = FuturesOrderedBy<F, A, Growing>;

impl<F: Drop, A: Drop, K: Kind> Model for FuturesOrderedBy<F, A, K> {
    ghost use Rattle.std.specs.Prelude.{ℕ};
    ghost use Rattle.futures_buffered_ordered.specs.OrderedEntries.{Ordered};
    ghost use Rattle.futures_buffered_in_flight.specs.InFlight.{Flights};
    ghost use Rattle.futures_buffered_in_flight.specs.InFlightOrdered.{KeepsInOrder};

    ghost Value = { Ordered (Flights F ℕ) A };

    ghost view = { λ q. q.queue };

    ghost invariant = { λ q. KeepsInOrder K.GROWS q.queue };
}

impl<F: Drop, A: Drop, K: Kind> FuturesOrderedBy<F, A, K> {
    /// Returns the number of entries: futures in progress, and outputs that wait for their turn.
    pub fn len(&self) -> usize
        ensures value { result ≡ length self.now.entries }
        ensures bound { K.GROWS ≡ false → length self.now.entries ≤ flight_slots self.now.set }
    {
        self.queue.len()
    }

    /// Returns whether there is no entry.
    pub fn is_empty(&self) -> bool
        ensures { IsTrue result ↔ (length self.now.entries ≡ 0) }
    {
        self.queue.is_empty()
    }

    /// Returns the number of slots. In a bounded queue, that is how many entries it can hold, and never changes. In a
    /// growing queue, that is how many futures can be in progress before a push makes a slot.
    pub fn capacity(&self) -> usize
        ensures { result ≡ flight_slots self.now.set }
    {
        self.queue.set.capacity()
    }

    // Returns whether the queue does not grow, and has as many entries as slots.
    fn is_at_bound(&self) -> bool
        ensures full { IsTrue result → (K.GROWS ≡ false) × OrderedIsFull self.now }
        ensures room { result ≡ false → K.GROWS ≡ false → length self.now.entries < flight_slots self.now.set }
    {
        !K::GROWS && self.len() >= self.capacity()
    }
}

impl<F: Drop, A: Drop> FuturesOrderedBounded<F, A> {
    /// Returns whether each push is refused: the queue holds as many entries as it can, with the outputs that wait for
    /// their turn.
    pub fn is_full(&self) -> bool
        ensures { IsTrue result ↔ OrderedIsFull self.now }
    {
        self.len() >= self.capacity()
    }
}

impl<F: Future<Output = A>, A: Drop, K: Kind> FuturesOrderedBy<F, A, K> {
    // Makes a queue with `n` slots and without an entry.
    pub(crate) fn with_slots(alloc: Global, n: usize) -> Result<Self, NewFault>
        requires { 0 < n }
        ensures made { MakesSlots n (IsNewInOrder n) result }
        ensures can_poll { IfOk result (CanPollOrdered F.Future) }
    {
        let set = FuturesUnorderedBy::with_slots(alloc, n)?;
        let queue = OrderedEntries::with_room(alloc, set, n)?;
        Ok(FuturesOrderedBy { queue })
    }

    // Adds the future after all others, as `push_back` of a growing queue or `try_push_back` of a bounded queue does.
    #[tactic(auto, using(crate::proofs::InFlightOrderedLemmas::refused))]
    pub(crate) fn add_back(&mut self, future: F) -> Result<(), F>
        requires held { CanPollOrdered F.Future self.old }
        requires fit { F.can_poll future }
        ensures { PushesOrComesBack F.Future K.GROWS (EntersBack F.Future K.GROWS) self.old future result self.new }
    {
        if self.is_at_bound() {
            return Err(future);
        }
        self.queue.add_back(future)
    }

    // Adds the future as `add_back` does, but before all others.
    #[tactic(auto, using(crate::proofs::InFlightOrderedLemmas::refused))]
    pub(crate) fn add_front(&mut self, future: F) -> Result<(), F>
        requires held { CanPollOrdered F.Future self.old }
        requires fit { F.can_poll future }
        ensures { PushesOrComesBack F.Future K.GROWS (EntersFront F.Future K.GROWS) self.old future result self.new }
    {
        if self.is_at_bound() {
            return Err(future);
        }
        self.queue.add_front(future)
    }

    /// Adds each item at the back, in order, as `try_push_back` of a bounded queue or `push_back` of a growing queue
    /// does. Returns the first item that is refused. The items before it stay, and the iterator is not called again.
    #[tactic(auto, using(crate::proofs::InFlightQueueLemmas::room_self))]
    pub fn extend<I: IntoIterator<Item = F>>(&mut self, iter: I) -> Result<(), F>
        requires finite { IsFiniteSource (items_of I.IntoIterator I.IntoIter.Iterator iter) }
        requires held { CanPollOrdered F.Future self.old }
        requires each { EachDrawn (items_of I.IntoIterator I.IntoIter.Iterator iter) F.can_poll }
        ensures extends { Extends (items_of I.IntoIterator I.IntoIter.Iterator iter)
            (EntersBack F.Future K.GROWS) (λ old new. MayRefuseFuture K.GROWS old × (new ≡ old))
            self.old result self.new }
        ensures same_room { KeepsRoom K.GROWS self.old.set self.new.set }
        ensures again { CanPollOrdered F.Future self.new }
    {
        for future in iter {
            if let Err(back) = self.add_back(future) {
                return Err(back);
            }
        }
        Ok(())
    }

    /// Drops each future in progress, and each output that waits for its turn, in this call. Does not allocate. Takes
    /// time in proportion to the capacity, apart from the drops.
    #[tactic(auto, using(crate::proofs::InFlightOrderedLemmas::cleared, crate::proofs::InFlightOrderedLemmas::new_keeps))]
    pub fn clear(&mut self)
        ensures none { IsCleared K.GROWS self.old self.new }
        ensures same_room { flight_slots self.new.set ≡ flight_slots self.old.set }
        ensures can_poll { CanPollOrdered F.Future self.new }
    {
        self.queue.set.clear();
        self.queue.drop_entries();
    }

    /// Returns the output of the front, or `None` if and only if there is no entry.
    ///
    /// If the output of the front is kept, returns it and polls no future. Otherwise polls the futures, and keeps each
    /// output, until the front's output comes. First starts the futures that wait for memory; if an allocation fails
    /// again, wakes the task at once.
    pub fn poll_output(&mut self, cx: &mut Context<'_>) -> Poll<Option<A>>
        requires { CanPollOrdered F.Future self.old }
        ensures { AnswersInTurn F.Future K.GROWS self.old result self.new cx.old cx.new }
    {
        self.queue.poll_entries(&PollFuture, cx)
    }
}

impl<F: Future<Output = A>, A: Drop> FuturesOrderedBounded<F, A> {
    /// Makes a queue with room for `n` entries and without an entry. Takes time and allocates in proportion to `n`.
    pub fn new(alloc: Global, n: usize) -> Result<Self, NewFault>
        requires { 0 < n }
        ensures made { MakesSlots n (IsNewInOrder n) result }
        ensures can_poll { IfOk result (CanPollOrdered F.Future) }
    {
        Self::with_slots(alloc, n)
    }

    /// Adds the future after all others, so that a later poll polls it. Returns the future, and changes nothing, if and
    /// only if the queue is full (`is_full`).
    ///
    /// Allocates what the set of `futures` allocates for a future, and that set itself if there is none. If this fails,
    /// the future waits, and a later poll tries again. After 2^64 - 1 pushes the queue holds the future, and never
    /// polls it.
    pub fn try_push_back(&mut self, future: F) -> Result<(), F>
        requires held { CanPollOrdered F.Future self.old }
        requires fit { F.can_poll future }
        ensures { PushesOrComesBack F.Future false (EntersBack F.Future false) self.old future result self.new }
    {
        self.add_back(future)
    }

    /// Adds the future as `try_push_back` does, but before all others: its output is the next to be returned.
    pub fn try_push_front(&mut self, future: F) -> Result<(), F>
        requires held { CanPollOrdered F.Future self.old }
        requires fit { F.can_poll future }
        ensures { PushesOrComesBack F.Future false (EntersFront F.Future false) self.old future result self.new }
    {
        self.add_front(future)
    }

    /// Adds the future as `try_push_back` does, to a queue that is not full.
    pub fn push_back(&mut self, future: F)
        requires room { length self.old.entries < flight_slots self.old.set }
        requires held { CanPollOrdered F.Future self.old }
        requires fit { F.can_poll future }
        ensures { EntersBack F.Future false self.old future self.new }
    {
        match self.add_back(future) {
            Ok(()) => {}
            Err(_) => unreachable!(),
        }
    }

    /// Adds the future as `try_push_front` does, to a queue that is not full.
    pub fn push_front(&mut self, future: F)
        requires room { length self.old.entries < flight_slots self.old.set }
        requires held { CanPollOrdered F.Future self.old }
        requires fit { F.can_poll future }
        ensures { EntersFront F.Future false self.old future self.new }
    {
        match self.add_front(future) {
            Ok(()) => {}
            Err(_) => unreachable!(),
        }
    }
}

impl<F: Future<Output = A>, A: Drop> FuturesOrdered<F, A> {
    /// Makes a queue with one slot and without an entry.
    pub fn new(alloc: Global) -> Result<Self, NewFault>
        ensures made { MakesSlots 1 (IsNewInOrder 1) result }
        ensures can_poll { IfOk result (CanPollOrdered F.Future) }
    {
        Self::with_slots(alloc, 1)
    }

    /// Makes a queue with `n` slots, and with one at least, and without an entry. Takes time and allocates in
    /// proportion to `n`.
    pub fn with_capacity(alloc: Global, n: usize) -> Result<Self, NewFault>
        ensures made { MakesSlots (max 1 n) (IsNewInOrder (max 1 n)) result }
        ensures can_poll { IfOk result (CanPollOrdered F.Future) }
    {
        Self::with_slots(alloc, n.max(1))
    }

    /// Adds the future after all others, so that a later poll polls it. If each slot has a future in progress, makes a
    /// slot first.
    ///
    /// Returns the future, and changes nothing, if the allocation for a slot or an entry fails, at `MAX_LEN` entries,
    /// and after 2^64 - 1 pushes. If the allocation for the future fails, the future waits, and a later poll tries
    /// again. Many pushes together take time and memory in proportion to their number, unless an allocation fails.
    pub fn push_back(&mut self, future: F) -> Result<(), F>
        requires held { CanPollOrdered F.Future self.old }
        requires fit { F.can_poll future }
        ensures { PushesOrComesBack F.Future true (EntersBack F.Future true) self.old future result self.new }
    {
        self.add_back(future)
    }

    /// Adds the future as `push_back` does, but before all others: its output is the next to be returned.
    pub fn push_front(&mut self, future: F) -> Result<(), F>
        requires held { CanPollOrdered F.Future self.old }
        requires fit { F.can_poll future }
        ensures { PushesOrComesBack F.Future true (EntersFront F.Future true) self.old future result self.new }
    {
        self.add_front(future)
    }
}
