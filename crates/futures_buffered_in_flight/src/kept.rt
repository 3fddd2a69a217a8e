//! Sets and queues in flight that keep that they may be polled, so that a loop need not say so.
ghost use Rattle.std.specs.Prelude.{◌≡◌, [], None, false, true};
ghost use Rattle.futures_buffered_core.specs.SlotMap.{no_slots, slot_count};
ghost use Rattle.futures_buffered_in_flight.specs.InFlight.{CancelsOrNone, ComesFromSlots, EntersAt, FlightsWaitAt};
ghost use Rattle.futures_buffered_in_flight.specs.InFlight.{HasNoRoom, PollsInFlight, PushesInFlight, flight_slots};
ghost use Rattle.futures_buffered_in_flight.specs.InFlightOrdered.{AnswersInTurn, ComesOfEach, EntersBack, EntersFront};
ghost use Rattle.futures_buffered_in_flight.specs.InFlightOrdered.{IsCleared, OrderedWaitsAt};
ghost use Rattle.futures_buffered_in_flight.specs.InFlightOrdered.{PushesOrComesBack};

use crate::in_flight::{Came, FuturesUnorderedBounded, FuturesUnorderedBy, Kind};
use crate::in_flight_growing::FuturesUnordered;
use crate::in_flight_ordered::{FuturesOrdered, FuturesOrderedBounded, FuturesOrderedBy};
use crate::keyless::without_keys;
use crate::run::Key;
use futures::task::{Context, Poll};
use futures::{Future, Stream};
use std::marker::Model;

/// A set or a queue that may be polled at any time. A loop over it needs no invariant.
///
/// A contract sees the set or the queue. The prover rejects a `Kept` of futures that contain closures: a loop over such
/// futures says itself that they may be polled.
#[derive(Drop)]
pub struct Kept<S: Stream> {
    held: S,
}

impl<S: Stream> Model for Kept<S> {
    ghost Value = { S };

    ghost view = { λ k. k.held };

    ghost invariant = { λ k. S.can_poll k.held };
}

impl<S: Stream> Kept<S> {
    /// Keeps this set or queue, which may be polled.
    pub fn new(held: S) -> Kept<S>
        requires { S.can_poll held }
        ensures { result ≡ held }
    {
        Kept { held }
    }

    /// Returns a reference to the set or the queue, for calls that only read.
    pub fn get(&self) -> &S
        ensures { result.now ≡ self.now }
    {
        &self.held
    }

    /// Returns the set or the queue itself.
    pub fn into_inner(self) -> S
        ensures same { result ≡ self }
        ensures can_poll { S.can_poll result }
    {
        let Kept { held } = self;
        held
    }
}

impl<F: Future<Output: Drop>> Kept<FuturesUnorderedBounded<F>> {
    /// Pushes as `FuturesUnorderedBounded::push` does.
    pub fn push(&mut self, future: F) -> Key
        requires room { HasNoRoom self.old → ⊥ }
        requires fit { F.can_poll future }
        ensures { EntersAt F.Future self.old future tt result self.new }
    {
        self.held.push(future)
    }

    /// Pushes as `FuturesUnorderedBounded::try_push` does.
    pub fn try_push(&mut self, future: F) -> Result<Key, F>
        requires { F.can_poll future }
        ensures { PushesInFlight F.Future false self.old future tt future result self.new }
    {
        self.held.try_push(future)
    }
}

impl<F: Future<Output: Drop>, T: Drop> Kept<FuturesUnorderedBounded<F, T>> {
    /// Pushes as `FuturesUnorderedBounded::try_push_tagged` does.
    pub fn try_push_tagged(&mut self, future: F, tag: T) -> Result<Key, (F, T)>
        requires { F.can_poll future }
        ensures { PushesInFlight F.Future false self.old future tag (future, tag) result self.new }
    {
        self.held.try_push_tagged(future, tag)
    }
}

impl<F: Future<Output: Drop>> Kept<FuturesUnordered<F>> {
    /// Pushes as `FuturesUnordered::push` does.
    pub fn push(&mut self, future: F) -> Result<Key, F>
        requires { F.can_poll future }
        ensures { PushesInFlight F.Future true self.old future tt future result self.new }
    {
        self.held.push(future)
    }
}

impl<F: Future<Output: Drop>, T: Drop> Kept<FuturesUnordered<F, T>> {
    /// Pushes as `FuturesUnordered::push_tagged` does.
    pub fn push_tagged(&mut self, future: F, tag: T) -> Result<Key, (F, T)>
        requires { F.can_poll future }
        ensures { PushesInFlight F.Future true self.old future tag (future, tag) result self.new }
    {
        self.held.push_tagged(future, tag)
    }
}

impl<F: Future<Output: Drop>, T: Drop, K> Kept<FuturesUnorderedBy<F, T, K>> {
    /// Polls as `FuturesUnorderedBy::poll_next_keyed` does.
    pub fn poll_next_keyed(&mut self, cx: &mut Context<'_>) -> Poll<Option<Came<F::Output, T>>>
        ensures { PollsInFlight F.Future self.old result self.new cx.old cx.new }
    {
        self.held.poll_next_keyed(cx)
    }

    /// Cancels as `FuturesUnorderedBy::cancel` does.
    pub fn cancel(&mut self, key: Key) -> Option<T>
        ensures { CancelsOrNone self.old key result self.new }
    {
        self.held.cancel(key)
    }

    /// Drops each future as `FuturesUnorderedBy::clear` does.
    pub fn clear(&mut self)
        ensures slots { self.new.slots ≡ no_slots (slot_count self.old.slots) }
        ensures none { (self.new.running ≡ None) × (self.new.waiting ≡ []) × (self.new.cancelled ≡ 0) }
        ensures keys { self.new.next ≡ self.old.next }
    {
        self.held.clear();
    }
}

impl<F: Future<Output: Drop>, T: Drop, K> Stream for Kept<FuturesUnorderedBy<F, T, K>> {
    type Item = F::Output;

    ghost needs = { FlightsWaitAt };

    ghost yields = { ComesFromSlots F.Future };

    /// Polls as `poll_next_keyed` does. Returns an output without key and tag.
    fn poll_next(&mut self, cx: &mut Context<'_>) -> Poll<Option<F::Output>> {
        without_keys(self.poll_next_keyed(cx))
    }
}

impl<F: Future<Output = A>, A: Drop, K: Kind> Kept<FuturesOrderedBy<F, A, K>> {
    /// Drops each future and each output as `FuturesOrderedBy::clear` does.
    pub fn clear(&mut self)
        ensures none { IsCleared K.GROWS self.old self.new }
        ensures same_room { flight_slots self.new.set ≡ flight_slots self.old.set }
    {
        self.held.clear();
    }
}

impl<F: Future<Output = A>, A: Drop> Kept<FuturesOrderedBounded<F, A>> {
    /// Adds the future as `FuturesOrderedBounded::try_push_back` does.
    pub fn try_push_back(&mut self, future: F) -> Result<(), F>
        requires { F.can_poll future }
        ensures { PushesOrComesBack F.Future false (EntersBack F.Future false) self.old future result self.new }
    {
        self.held.try_push_back(future)
    }

    /// Adds the future as `FuturesOrderedBounded::try_push_front` does.
    pub fn try_push_front(&mut self, future: F) -> Result<(), F>
        requires { F.can_poll future }
        ensures { PushesOrComesBack F.Future false (EntersFront F.Future false) self.old future result self.new }
    {
        self.held.try_push_front(future)
    }
}

impl<F: Future<Output = A>, A: Drop> Kept<FuturesOrdered<F, A>> {
    /// Adds the future as `FuturesOrdered::push_back` does.
    pub fn push_back(&mut self, future: F) -> Result<(), F>
        requires { F.can_poll future }
        ensures { PushesOrComesBack F.Future true (EntersBack F.Future true) self.old future result self.new }
    {
        self.held.push_back(future)
    }

    /// Adds the future as `FuturesOrdered::push_front` does.
    pub fn push_front(&mut self, future: F) -> Result<(), F>
        requires { F.can_poll future }
        ensures { PushesOrComesBack F.Future true (EntersFront F.Future true) self.old future result self.new }
    {
        self.held.push_front(future)
    }
}

impl<F: Future<Output = A>, A: Drop, K: Kind> Stream for Kept<FuturesOrderedBy<F, A, K>> {
    type Item = A;

    ghost needs = { OrderedWaitsAt };

    ghost yields = { ComesOfEach F.Future };

    /// Polls as `FuturesOrderedBy::poll_output` does.
    fn poll_next(&mut self, cx: &mut Context<'_>) -> Poll<Option<A>>
        ensures { AnswersInTurn F.Future K.GROWS self.old result self.new cx.old cx.new }
    {
        self.held.poll_output(cx)
    }
}
