//! Sets and queues in flight that are made of the items of an iterator.
ghost use Rattle.std.specs.Prelude.{◌≡◌, ◌≤◌, All, IfErr, IfOk, OnOk, false, length, vec_len};
ghost use Rattle.std.specs.List.{FoldsTo};
ghost use Rattle.futures_buffered_core.specs.Drawn.{Draws, IsFiniteSource, RefusesTooMany, items_of};
ghost use Rattle.futures_buffered_table.specs.declared.answer.TheConstants.{MAX_CAPACITY};
ghost use Rattle.futures_buffered_unordered.specs.Extended.{EachDrawn, HoldsAllOf, MakesFull};
ghost use Rattle.futures_buffered_in_flight.specs.InFlight.{CanPollAll, FliesInOrder, IsNewInFlight, flight_slots};
ghost use Rattle.futures_buffered_in_flight.specs.InFlightOrdered.{CanPollOrdered, EntersBack, HoldsInTurn, ordered_room};
ghost use Rattle.futures_buffered_in_flight.specs.InFlightQueue.{KeepsRoom};
ghost use Rattle.futures_buffered_table.specs.declared.answer.NewFault.TheVariants.{Memory};

use crate::in_flight::{FuturesUnorderedBy, Kind};
use crate::in_flight_ordered::FuturesOrderedBy;
use futures::Future;
use futures_buffered_core::ready_core::{MAX_CAPACITY, NewFault};
use std::alloc::Global;

// Returns the items of an iterator, at most as many as there can be slots.
fn draw<F: Drop, I: IntoIterator<Item = F>>(alloc: Global, iter: I) -> Result<Vec<F>, NewFault>
    requires { IsFiniteSource (items_of I.IntoIterator I.IntoIter.Iterator iter) }
    ensures drawn { IfOk result (λ drawn.
        Draws (items_of I.IntoIterator I.IntoIter.Iterator iter) drawn.items) }
    ensures fits { IfOk result (λ drawn. vec_len drawn ≤ MAX_CAPACITY) }
    ensures large { RefusesTooMany (items_of I.IntoIterator I.IntoIter.Iterator iter) result }
{
    let mut drawn = Vec::new(alloc);
    for item in iter {
        if drawn.len() == MAX_CAPACITY {
            return Err(NewFault::TooLarge);
        }
        let Ok(()) = drawn.push(item) else {
            return Err(NewFault::Memory);
        };
    }
    Ok(drawn)
}

// Pushes these futures into a new set, each into the slot of its place.
#[tactic(auto, using(crate::proofs::FromIterLemmas::pushed_none, crate::proofs::FromIterLemmas::pushed_all, crate::proofs::FromIterLemmas::pushed_room))]
fn push_all<F, K>(set: &mut FuturesUnorderedBy<F, (), K>, futures: Vec<F>)
where
    F: Future<Output: Drop>,
    requires new { IsNewInFlight (vec_len futures) set.old }
    requires held { CanPollAll F.Future set.old }
    requires fit { All F.can_poll futures.items }
    ensures holds { FliesInOrder F.Future futures.items set.new }
    ensures none_cancelled { set.new.cancelled ≡ 0 }
    ensures again { CanPollAll F.Future set.new }
{
    'futures: for future in futures {
        set.push_any(future, ());
    }
}

// Pushes these futures into a new queue, each after the futures before it. Returns `Memory` if a push is refused.
#[tactic(auto, using(crate::proofs::InFlightQueueLemmas::room_self))]
fn push_in_turn<F, A, K>(
    queue: &mut FuturesOrderedBy<F, A, K>,
    futures: Vec<F>,
) -> Result<(), NewFault>
where
    F: Future<Output = A>,
    A: Drop,
    K: Kind,
    requires new { length queue.old.entries ≡ 0 }
    requires held { CanPollOrdered F.Future queue.old }
    requires fit { All F.can_poll futures.items }
    ensures pushed { OnOk result (FoldsTo (EntersBack F.Future K.GROWS) queue.old futures.items queue.new) }
    ensures one_each { OnOk result (length queue.new.entries ≡ vec_len futures) }
    ensures same_room { KeepsRoom K.GROWS queue.old.set queue.new.set }
    ensures memory { IfErr result (λ fault. fault ≡ Memory) }
    ensures again { CanPollOrdered F.Future queue.new }
{
    'futures: for future in futures {
        let Ok(()) = queue.add_back(future) else {
            return Err(NewFault::Memory);
        };
    }
    Ok(())
}

impl<F: Future<Output: Drop>, K> FuturesUnorderedBy<F, (), K> {
    /// Makes a set of these futures without a free slot, with item k in slot k. Does not poll. A later push into a
    /// growing set makes a slot.
    ///
    /// Returns `TooLarge` if the iterator returns more futures than there can be slots, and `Memory` if the futures or
    /// the slots cannot be allocated. Then the futures that the iterator returned are dropped. If a further allocation
    /// for a future fails, the future waits. Takes time and allocates in proportion to the number of futures.
    pub fn from_iter<I: IntoIterator<Item = F>>(alloc: Global, iter: I) -> Result<Self, NewFault>
        requires finite { IsFiniteSource (items_of I.IntoIterator I.IntoIter.Iterator iter) }
        requires fit { EachDrawn (items_of I.IntoIterator I.IntoIter.Iterator iter) F.can_poll }
        ensures made { MakesFull (items_of I.IntoIterator I.IntoIter.Iterator iter) flight_slots
            (FliesInOrder F.Future) result }
        ensures can_poll { IfOk result (CanPollAll F.Future) }
    {
        let futures = draw(alloc, iter)?;
        let mut set = Self::with_slots(alloc, futures.len())?;
        push_all(&mut set, futures);
        Ok(set)
    }
}

impl<F: Future<Output = A>, A: Drop, K: Kind> FuturesOrderedBy<F, A, K> {
    /// Makes a queue of these futures, in their order, with a slot for each, and with one slot at least. Does not poll.
    /// A bounded queue has room for as many as slots.
    ///
    /// Fails, allocates and takes time as `from_iter` of a set does.
    #[tactic(auto, using(crate::proofs::FromIterLemmas::none_pushed, crate::proofs::FromIterLemmas::few_slots))]
    pub fn from_iter<I: IntoIterator<Item = F>>(alloc: Global, iter: I) -> Result<Self, NewFault>
        requires finite { IsFiniteSource (items_of I.IntoIterator I.IntoIter.Iterator iter) }
        requires fit { EachDrawn (items_of I.IntoIterator I.IntoIter.Iterator iter) F.can_poll }
        ensures holds { IfOk result
            (HoldsAllOf (items_of I.IntoIterator I.IntoIter.Iterator iter) (HoldsInTurn F.Future K.GROWS)) }
        ensures fits { K.GROWS ≡ false → IfOk result (λ queue. ordered_room queue ≤ MAX_CAPACITY) }
        ensures large { RefusesTooMany (items_of I.IntoIterator I.IntoIter.Iterator iter) result }
        ensures can_poll { IfOk result (CanPollOrdered F.Future) }
    {
        let futures = draw(alloc, iter)?;
        let mut queue = Self::with_slots(alloc, futures.len().max(1))?;
        push_in_turn(&mut queue, futures)?;
        Ok(queue)
    }
}
