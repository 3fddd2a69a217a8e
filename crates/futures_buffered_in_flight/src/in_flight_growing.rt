//! How a set makes room for a push: a growing set makes a slot if it is full, and a bounded set refuses the push.
ghost use Rattle.std.specs.Prelude.{◌≡◌, IfOk, IsTrue, OnErr, OnOk, false, true};
ghost use Rattle.futures_buffered_core.specs.Drawn.{IsFiniteSource, items_of};
ghost use Rattle.futures_buffered_core.specs.Made.{MakesSlots};
ghost use Rattle.futures_buffered_unordered.specs.Extended.{EachDrawn, Extends};
ghost use Rattle.futures_buffered_in_flight.specs.InFlight.{CanPollAll, HasNoRoom, IsNewInFlight, IsUsedUp, MakesRoom};
ghost use Rattle.futures_buffered_in_flight.specs.InFlight.{MakesSlot, PushesInFlight, WentIn};
ghost use Rattle.futures_buffered_in_flight.specs.InFlightQueue.{KeepsRoom};

use crate::in_flight::{FuturesUnorderedBy, Growing, Kind};
use crate::run::Key;
use futures::Future;
use futures_buffered_core::ready_core::NewFault;
use std::alloc::{AllocError, Global};

/// A set of any number of futures.
pub type FuturesUnordered<F, T = ()> = FuturesUnorderedBy<F, T, Growing>;

impl<F: Drop, T: Drop, K: Kind> FuturesUnorderedBy<F, T, K> {
    // Makes one slot more, with a place to wait and a bell. The parts that a contract does not see grow first.
    fn make_slot(&mut self) -> Result<(), AllocError>
        ensures made { OnOk result (MakesSlot self.old self.new) }
        ensures same { OnErr result (self.new ≡ self.old) }
    {
        let Some(slots) = self.slots.capacity().checked_add(1) else {
            return Err(AllocError);
        };
        self.waiting.reserve(slots - self.waiting.len())?;
        self.bells.reserve(self.alloc, slots, &mut self.ledger)?;
        self.slots.grow_by_one()
    }

    // Makes a slot if the set is full and grows. Returns whether there is room then; after 2^64 - 1 pushes there is
    // none.
    pub(crate) fn make_room(&mut self) -> bool
        ensures room { IsTrue result → MakesRoom self.old self.new }
        ensures bounded { K.GROWS ≡ false → self.new ≡ self.old }
        ensures has { IsTrue result → HasNoRoom self.new → ⊥ }
        ensures none { result ≡ false → HasNoRoom self.old × (self.new ≡ self.old) }
        ensures used { IsUsedUp self.old → result ≡ false }
    {
        if !self.is_full() {
            return true;
        }
        K::GROWS && self.next != u64::MAX && self.make_slot().is_ok()
    }
}

impl<F: Future<Output: Drop>, T: Drop, K: Kind> FuturesUnorderedBy<F, T, K> {
    // Pushes as `push_tagged` of a growing set or `try_push_tagged` of a bounded set does.
    #[tactic(auto, using(crate::proofs::InFlightLemmas::wide_can_poll, crate::proofs::InFlightLemmas::admitted, crate::proofs::InFlightLemmas::turned_away))]
    pub(crate) fn admit(&mut self, future: F, tag: T) -> Result<Key, (F, T)>
        requires held { CanPollAll F.Future self.old }
        requires fit { F.can_poll future }
        ensures pushes { PushesInFlight F.Future K.GROWS self.old future tag (future, tag) result self.new }
        ensures again { CanPollAll F.Future self.new }
    {
        if !self.make_room() {
            return Err((future, tag));
        }
        Ok(self.push_any(future, tag))
    }
}

impl<F: Future<Output: Drop>, K: Kind> FuturesUnorderedBy<F, (), K> {
    // Pushes as `admit` does, without a tag.
    pub(crate) fn admit_untagged(&mut self, future: F) -> Result<Key, F>
        requires held { CanPollAll F.Future self.old }
        requires fit { F.can_poll future }
        ensures pushes { PushesInFlight F.Future K.GROWS self.old future tt future result self.new }
        ensures again { CanPollAll F.Future self.new }
    {
        match self.admit(future, ()) {
            Ok(key) => Ok(key),
            Err((back, ())) => Err(back),
        }
    }

    /// Pushes each item, in order, as `try_push` of a bounded set or `push` of a growing set does. Returns the first
    /// item that is refused. The items before it stay, and the iterator is not called again.
    #[tactic(auto, using(crate::proofs::InFlightQueueLemmas::room_self))]
    pub fn extend<I: IntoIterator<Item = F>>(&mut self, iter: I) -> Result<(), F>
        requires finite { IsFiniteSource (items_of I.IntoIterator I.IntoIter.Iterator iter) }
        requires held { CanPollAll F.Future self.old }
        requires each { EachDrawn (items_of I.IntoIterator I.IntoIter.Iterator iter) F.can_poll }
        ensures extends { Extends (items_of I.IntoIterator I.IntoIter.Iterator iter)
            (WentIn F.Future K.GROWS tt) (λ old new. HasNoRoom old × (new ≡ old)) self.old result self.new }
        ensures capacity { KeepsRoom K.GROWS self.old self.new }
        ensures again { CanPollAll F.Future self.new }
    {
        for future in iter {
            if let Err(back) = self.admit_untagged(future) {
                return Err(back);
            }
        }
        Ok(())
    }
}

impl<F: Future<Output: Drop>, T: Drop> FuturesUnordered<F, T> {
    /// Makes a set without a slot.
    pub fn new(alloc: Global) -> Result<Self, NewFault>
        ensures made { MakesSlots 0 (IsNewInFlight 0) result }
        ensures can_poll { IfOk result (CanPollAll F.Future) }
    {
        Self::with_slots(alloc, 0)
    }

    /// Makes a set of `n` free slots. Takes time and allocates in proportion to `n`.
    pub fn with_capacity(alloc: Global, n: usize) -> Result<Self, NewFault>
        ensures made { MakesSlots n (IsNewInFlight n) result }
        ensures can_poll { IfOk result (CanPollAll F.Future) }
    {
        Self::with_slots(alloc, n)
    }

    /// Pushes as `push_tagged` of a bounded set does. If the set is full (`is_full`), makes a slot first.
    ///
    /// Returns the future and the tag, and changes nothing, if the allocation for the slot fails, and after 2^64 - 1
    /// pushes. Many pushes together allocate in proportion to their number.
    pub fn push_tagged(&mut self, future: F, tag: T) -> Result<Key, (F, T)>
        requires held { CanPollAll F.Future self.old }
        requires fit { F.can_poll future }
        ensures pushes { PushesInFlight F.Future true self.old future tag (future, tag) result self.new }
        ensures again { CanPollAll F.Future self.new }
    {
        self.admit(future, tag)
    }
}

impl<F: Future<Output: Drop>> FuturesUnordered<F> {
    /// Pushes as `push_tagged` does, without a tag.
    pub fn push(&mut self, future: F) -> Result<Key, F>
        requires held { CanPollAll F.Future self.old }
        requires fit { F.can_poll future }
        ensures pushes { PushesInFlight F.Future true self.old future tt future result self.new }
        ensures again { CanPollAll F.Future self.new }
    {
        self.admit_untagged(future)
    }
}
