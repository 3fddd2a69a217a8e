//! Sets of futures of the crate `futures`. Each future has a tag of the caller, and can be cancelled by its key.
//!
//! A set owns the slots, and a `FuturesUnordered` of `futures`, which polls the futures that were pushed or woken. A
//! `FuturesUnorderedBy` is of one of two kinds: `FuturesUnorderedBounded` has a fixed number of slots, and
//! `FuturesUnordered` makes slots.
ghost use Rattle.std.specs.Prelude.{◌≡◌, ◌∷◌, ◌+◌, ◌-◌, ◌^◌, ◌≤◌, ◌↔◌, ◌⊎◌, ◌<◌, Bool, false, true, [], IfOk, IfErr, OnErr, OnOk, IfNone, IfSome};
ghost use Rattle.std.specs.Prelude.{IsSome, IsTrue, None, length, min};
ghost use Rattle.std.specs.List.{AllByRecursion};
ghost use Rattle.futures.specs.Queued.{AllPollable, AnyGives};
ghost use Rattle.futures_buffered_core.specs.Made.{MakesSlots};
ghost use Rattle.futures_buffered_core.specs.SlotMap.{Inserts, held_count, no_slots, slot_count, value_in};
ghost use Rattle.std.specs.Arc.{arc_value};
ghost use Rattle.futures_buffered_in_flight.specs.Bells.{notes_of};
ghost use Rattle.futures_buffered_in_flight.specs.InFlight.{CanPollAll, Cancels, CancelsOrNone, EntersAt, GivesWithKey, HasNoRoom};
ghost use Rattle.futures_buffered_in_flight.specs.InFlight.{IsHeld, IsNewInFlight, PushesInFlight};
ghost use Rattle.futures_buffered_in_flight.specs.InFlight.{flight_slots, room_taken, run_count, runs_in};
ghost use Rattle.futures_buffered_in_flight.specs.InFlightTurns.{Flies};
ghost use Rattle.futures_buffered_in_flight.specs.Ledger.{IsGivenBy};
ghost use Rattle.futures_buffered_in_flight.specs.declared.run.Run.{Run};
ghost use Rattle.futures_buffered_in_flight.specs.declared.run.Waits.{Waits};

use crate::bells::{Bells, Freed, Tables};
use crate::ledger::{Ledger, Ticket};
use crate::run::{Key, Run, Waits};
use futures::Future;
use futures::stream::FuturesUnordered;
use futures_buffered_core::ready_core::NewFault;
use futures_buffered_core::slot_map::PinSlotMap;
use std::alloc::Global;
use std::collections::VecDeque;
use std::marker::{Model, PhantomData};
use std::sync::Arc;

/// What a slot keeps of its future: the caller's tag, and the number of the push.
#[derive(Drop)]
pub struct Place<T> {
    pub tag: T,
    pub push: u64,
}

/// An output, with the key and the tag of its future.
#[derive(Drop)]
pub struct Came<A, T = ()> {
    pub key: Key,
    pub tag: T,
    pub output: A,
}

/// A kind of sets and queues.
pub trait Kind {
    ghost GROWS: { Bool };

    /// Whether a push makes a slot if there is no room.
    const GROWS: bool;
}

/// The kind with a fixed number of slots.
pub struct Bounded;

/// The kind in which a push makes a slot if there is no room.
pub struct Growing;

impl Kind for Bounded {
    ghost GROWS = { false };

    const GROWS: bool = false;
}

impl Kind for Growing {
    ghost GROWS = { true };

    const GROWS: bool = true;
}

/// Futures of the crate `futures`, at most as many at a time as there are slots. Each can be cancelled by its key.
///
/// A push into a set that is not full never fails. If the allocation for a future fails, the future waits in a place
/// that was made with its slot, until a poll can allocate. Before 2^64 - 1 pushes, no other future is written to these
/// places. A cancelled future counts in `is_full` until a poll or `clear` drops it. Calls that only read take the same
/// time at any capacity.
#[derive(Drop)]
pub struct FuturesUnorderedBy<F, T, K> {
    pub(crate) slots: PinSlotMap<Place<T>>,
    // `None` before the first push, after `clear`, and after a poll that returned `None` and dropped cancelled futures.
    pub(crate) running: Option<FuturesUnordered<Run<F>>>,
    pub(crate) waiting: VecDeque<Waits<F>>,
    pub(crate) cancelled: usize,
    pub(crate) next: u64,
    pub(crate) ledger: Ledger,
    pub(crate) bells: Tables,
    pub(crate) alloc: Global,
    kind: PhantomData<K>,
}

/// A set with a fixed number of slots.
pub type FuturesUnorderedBounded<F, T = ()> = FuturesUnorderedBy<F, T, Bounded>;

impl<F, T, K> Model for FuturesUnorderedBy<F, T, K> {
    ghost use Rattle.std.specs.Prelude.{◌≡◌, ◌≤◌, ◌+◌, ℕ, length};
    ghost use Rattle.std.specs.VecDeque.{deque_capacity};
    ghost use Rattle.futures_buffered_core.specs.SlotMap.{held_count, slot_count};
    ghost use Rattle.std.specs.Arc.{arc_value};
    ghost use Rattle.futures_buffered_in_flight.specs.Bells.{notes_of};
    ghost use Rattle.futures_buffered_in_flight.specs.InFlight.{Flights};
    ghost use Rattle.futures_buffered_in_flight.specs.InFlightLedger.{KeepsLedger};

    ghost Value = { Flights F T };

    ghost view = { λ s. record {
      slots = s.slots;
      running = s.running;
      waiting = s.waiting.items;
      cancelled = s.cancelled;
      next = s.next;
      ledger = s.ledger;
    } };

    // At most as many futures occupy room as there are slots. Each future that waits occupies room, and each slot has a
    // place in which its future can wait. The runs read the ledger of the set, which has each future that has not ended.
    ghost invariant = { λ s. (slot_count s.slots ≤ deque_capacity s.waiting)
        × (notes_of (arc_value s.bells.newest) ≡ s.ledger.id)
        × KeepsLedger (record {
          slots = s.slots;
          running = s.running;
          waiting = s.waiting.items;
          cancelled = s.cancelled;
          next = s.next;
          ledger = s.ledger;
        })
        × (length s.waiting.items ≤ held_count s.slots + s.cancelled)
        × (held_count s.slots + s.cancelled ≤ slot_count s.slots) };
}

impl<F: Drop, T: Drop, K> FuturesUnorderedBy<F, T, K> {
    /// Returns the number of futures held, without the cancelled futures.
    pub fn len(&self) -> usize
        ensures value { result ≡ held_count self.now.slots }
        ensures bound { room_taken self.now ≤ flight_slots self.now }
    {
        self.slots.len()
    }

    /// Returns whether no future is held.
    pub fn is_empty(&self) -> bool
        ensures { IsTrue result ↔ (held_count self.now.slots ≡ 0) }
    {
        self.slots.is_empty()
    }

    /// Returns the number of slots.
    pub fn capacity(&self) -> usize
        ensures { result ≡ flight_slots self.now }
    {
        self.slots.capacity()
    }

    /// Returns whether the set has no room for a push: as many futures are held, or cancelled and not dropped yet, as
    /// there are slots. After 2^64 - 1 pushes, returns true permanently. A bounded set that is full refuses each push.
    pub fn is_full(&self) -> bool
        ensures { IsTrue result ↔ HasNoRoom self.now }
    {
        self.slots.capacity() <= self.slots.len() + self.cancelled || self.next == u64::MAX
    }

    /// Returns whether the set holds the future of this key: its output was not returned, and it was neither cancelled
    /// nor cleared.
    pub fn contains(&self, key: Key) -> bool
        ensures held { IsTrue result → (tag : T) × IsHeld self.now key tag }
        ensures none { (tag : T) → IsHeld self.now key tag → IsTrue result }
    {
        match self.slots.value(key.slot) {
            Some(place) => place.push == key.push,
            None => false,
        }
    }

    // Frees the slot of this key, if its future is held. The future occupies room as before.
    pub(crate) fn take_place(&mut self, key: Key) -> Option<Freed<T>>
        ensures freed { IfSome result (λ freed. (freed.key ≡ key) × Cancels self.old key freed.tag self.new) }
        ensures none { IfNone result ((self.new ≡ self.old) × ((tag : T) → IsHeld self.old key tag → ⊥)) }
        ensures rest { (self.new.running ≡ self.old.running) × (self.new.waiting ≡ self.old.waiting) }
        ensures keys { (self.new.next ≡ self.old.next) × (self.new.ledger ≡ self.old.ledger) }
    {
        if !self.contains(key) {
            return None;
        }
        let Some(place) = self.slots.take(key.slot) else {
            unreachable!()
        };
        self.cancelled += 1;
        Some(Freed::new(key, place.tag))
    }

    // Counts one cancelled future less: the future of this ticket, which is not held, has ended.
    pub(crate) fn end_cancelled(&mut self, ticket: Ticket)
        requires given { IsGivenBy self.old.ledger ticket }
        requires over { (tag : T) → IsHeld self.old ticket.key tag → ⊥ }
        requires room { length self.old.waiting + 1 ≤ room_taken self.old }
        ensures fewer { self.new.cancelled + 1 ≡ self.old.cancelled }
        ensures ledger { (self.new.ledger.id ≡ self.old.ledger.id) × (self.new.ledger.clears ≡ self.old.ledger.clears) }
        ensures rest { (self.new.slots ≡ self.old.slots) × (self.new.next ≡ self.old.next)
            × (self.new.waiting ≡ self.old.waiting) × (self.new.running ≡ self.old.running) }
    {
        self.ledger.take_back(ticket);
        self.cancelled -= 1;
    }

    // Returns how many of the futures that occupy room do not wait.
    pub(crate) fn flying(&self) -> usize
        ensures { result + length self.now.waiting ≡ room_taken self.now }
    {
        self.slots.len() + self.cancelled - self.waiting.len()
    }

    // Drops each future. The slots do not change.
    pub(crate) fn drop_all(&mut self)
        ensures none { (self.new.running ≡ None) × (self.new.waiting ≡ []) × (self.new.cancelled ≡ 0) }
        ensures rest { (self.new.slots ≡ self.old.slots) × (self.new.next ≡ self.old.next) }
        ensures tickets { self.new.ledger.tickets ≡ [] }
    {
        self.running = None;
        self.waiting.clear();
        self.cancelled = 0;
        self.ledger.clear();
        self.bells.rest();
        self.bells.let_all_go();
    }
}

impl<F: Future<Output: Drop>, T: Drop, K> FuturesUnorderedBy<F, T, K> {
    // Makes a set of n free slots, into which no push was made.
    #[tactic(auto, using(crate::proofs::InFlightLemmas::none_can_poll))]
    pub(crate) fn with_slots(alloc: Global, n: usize) -> Result<Self, NewFault>
        ensures made { MakesSlots n (IsNewInFlight n) result }
        ensures first { IfOk result (λ set. set.next ≡ 0) }
        ensures can_poll { IfOk result (CanPollAll F.Future) }
    {
        let slots = PinSlotMap::new(alloc, n)?;
        let waiting = VecDeque::with_capacity(alloc, n)?;
        let ledger = Ledger::new(alloc, n)?;
        let Some(notes) = ledger.notes() else {
            return Err(NewFault::Memory);
        };
        let bells = Tables::new(alloc, n, notes)?;
        Ok(FuturesUnorderedBy {
            slots,
            running: None,
            waiting,
            cancelled: 0,
            next: 0,
            ledger,
            bells,
            alloc,
            kind: PhantomData,
        })
    }

    /// Drops each future, in this call. Does not allocate. Takes time in proportion to the capacity, apart from the
    /// drops. Wakes the task whose poll was pending. After polls by two tasks, it may wake the earlier task alone.
    #[tactic(auto, using(crate::proofs::InFlightLemmas::none_can_poll))]
    pub fn clear(&mut self)
        ensures slots { self.new.slots ≡ no_slots (slot_count self.old.slots) }
        ensures none { (self.new.running ≡ None) × (self.new.waiting ≡ []) × (self.new.cancelled ≡ 0) }
        ensures keys { self.new.next ≡ self.old.next }
        ensures can_poll { CanPollAll F.Future self.new }
    {
        self.drop_all();
        self.slots.clear();
    }

    // Returns the bells for the run of this push, and makes the set of `futures` if there is none. Returns `None` if
    // that fails, and for the last number.
    fn bells_for(&mut self, push: u64) -> Option<Arc<Bells>>
        ensures runs { (runs_in self.new.running ≡ runs_in self.old.running)
            × (run_count self.new.running ≡ run_count self.old.running) }
        ensures some { IfSome result (λ bells. IsSome self.new.running × (push + 1 < 2 ^ 64)
            × (notes_of (arc_value bells) ≡ self.old.ledger.id)) }
        ensures slots { (self.new.slots ≡ self.old.slots) × (self.new.next ≡ self.old.next) }
        ensures room { (self.new.cancelled ≡ self.old.cancelled) × (self.new.waiting ≡ self.old.waiting) }
        ensures ledger { self.new.ledger ≡ self.old.ledger }
    {
        if push == u64::MAX {
            return None;
        }
        if self.running.is_some() {
            return self.bells.newest();
        }
        let Ok(running) = FuturesUnordered::new(self.alloc) else {
            return None;
        };
        self.running = Some(running);
        self.bells.newest()
    }

    // Pushes the future into the set of `futures`. Returns the future if that fails, and under the last number.
    #[tactic(auto, using(crate::proofs::InFlightLemmas::none_pollable))]
    fn hand_over(&mut self, value: Waits<F>) -> Result<(), Waits<F>>
        requires held { AllPollable (λ (run : Run F). F.can_poll run.future) (runs_in self.old.running) }
        requires new { F.can_poll value.future }
        requires given { IsGivenBy self.old.ledger value.ticket }
        ensures pollable { AllPollable (λ (run : Run F). F.can_poll run.future) (runs_in self.new.running) }
        ensures gives { OnOk result ((came : _) → AnyGives (GivesWithKey F.gives) (runs_in self.new.running) came
            → AnyGives (GivesWithKey F.gives) (runs_in self.old.running) came
            ⊎ ((came.0 ≡ value.ticket.key) × IfSome came.1 (F.gives value.future))) }
        ensures refused { OnErr result ((came : _) → AnyGives (GivesWithKey F.gives) (runs_in self.new.running) came
            → AnyGives (GivesWithKey F.gives) (runs_in self.old.running) came) }
        ensures one_more { OnOk result
            (run_count self.new.running ≡ run_count self.old.running + 1) }
        ensures no_more { OnErr result (run_count self.new.running ≡ run_count self.old.running) }
        ensures below { OnOk result (value.ticket.key.push + 1 < 2 ^ 64) }
        ensures back { IfErr result (λ back. back ≡ value) }
        ensures slots { (self.new.slots ≡ self.old.slots) × (self.new.next ≡ self.old.next) }
        ensures room { (self.new.cancelled ≡ self.old.cancelled) × (self.new.waiting ≡ self.old.waiting) }
        ensures ledger { self.new.ledger ≡ self.old.ledger }
    {
        let Some(bells) = self.bells_for(value.ticket.key().push) else {
            return Err(value);
        };
        let Some(running) = &mut self.running else {
            unreachable!()
        };
        let Waits { ticket, future } = value;
        let Err(failed) = running.push(Run {
            ticket,
            bells,
            future,
        }) else {
            return Ok(());
        };
        let Run { ticket, future, .. } = failed.value;
        Err(Waits { ticket, future })
    }

    // Pushes the future into the set of `futures`, or the future waits. With the last number it waits permanently.
    #[tactic(auto, using(crate::proofs::InFlightLemmas::flies))]
    pub(crate) fn start(&mut self, value: Waits<F>)
        requires held { AllPollable (λ (run : Run F). F.can_poll run.future) (runs_in self.old.running) }
        requires waits { AllByRecursion (λ (waits : Waits F). F.can_poll waits.future) self.old.waiting }
        requires new { F.can_poll value.future }
        requires given { IsGivenBy self.old.ledger value.ticket }
        requires room { length self.old.waiting + 1 ≤ room_taken self.old }
        ensures { Flies F.Future self.old value self.new }
    {
        if let Err(value) = self.hand_over(value) {
            self.waiting.push_back_reserved(value);
        }
    }

    // Takes the first free slot for a future under this tag. Returns the ticket of this push.
    fn take_slot(&mut self, tag: T) -> Ticket
        requires { room_taken self.old < flight_slots self.old }
        ensures numbered { (result.key.push ≡ self.old.next) × (self.old.next < 2 ^ 64)
            × (self.new.next ≡ min (self.old.next + 1) (2 ^ 64 - 1)) }
        ensures went_in { Inserts self.old.slots result.key.slot (record { tag = tag; push = result.key.push }) self.new.slots }
        ensures one_more { held_count self.new.slots ≡ held_count self.old.slots + 1 }
        ensures rest { (self.new.running ≡ self.old.running) × (self.new.waiting ≡ self.old.waiting)
            × (self.new.cancelled ≡ self.old.cancelled) }
        ensures room { length self.new.waiting + 1 ≤ room_taken self.new }
        ensures ticket { IsGivenBy self.new.ledger result }
    {
        let push = self.next;
        let Ok(slot) = self.slots.insert_with(Place { tag, push }, |place| place) else {
            unreachable!()
        };
        self.next = push.saturating_add(1);
        self.ledger.give(Key { push, slot })
    }

    // Wakes a task whose poll was pending, if a future waits for memory.
    fn call_back(&self) {
        if !self.waiting.is_empty() {
            self.bells.wake_any();
        }
    }

    /// Pushes as `push_tagged` does, while fewer futures are held, or cancelled and not dropped yet, than there are
    /// slots. After 2^64 - 1 pushes the set holds the future, and never polls it.
    #[tactic(auto, using(crate::proofs::InFlightLemmas::entered))]
    pub fn push_any(&mut self, future: F, tag: T) -> Key
        requires room { room_taken self.old < flight_slots self.old }
        requires held { CanPollAll F.Future self.old }
        requires fit { F.can_poll future }
        ensures { EntersAt F.Future self.old future tag result self.new }
    {
        let ticket = self.take_slot(tag);
        let key = ticket.key();
        self.start(Waits { ticket, future });
        self.call_back();
        key
    }

    // Tells the run of this key that it was cancelled. A future with the last number never runs.
    fn tell(&mut self, key: Key)
        requires { value_in self.old.slots key.slot ≡ None }
        ensures futures { (self.new.running ≡ self.old.running) × (self.new.waiting ≡ self.old.waiting) }
        ensures room { (self.new.slots ≡ self.old.slots) × (self.new.cancelled ≡ self.old.cancelled) }
        ensures keys { self.new.next ≡ self.old.next }
    {
        if key.push < self.next {
            self.ledger.tell(key);
        }
    }

    /// Cancels the future of this key, so that its output is never returned, and returns its tag. Returns `None`, and
    /// changes nothing, if the set does not hold the future: its output was returned, or it was cancelled or cleared
    /// before.
    ///
    /// The slot is free at once. A poll that returns `None` drops the future; a pending poll drops it, or wakes the
    /// task to poll again. Until then the future counts in `is_full`, so that a push may be refused.
    ///
    /// In a bounded set, takes the same time at any capacity. In a growing set, takes time in proportion to the number
    /// of its tables of bells, one for each doubling. Wakes the task that polled the future last, if any did. After
    /// polls by two tasks, it may wake only the task that polled earlier. Another future may be woken too, and is then
    /// polled once more.
    pub fn cancel(&mut self, key: Key) -> Option<T>
        requires { CanPollAll F.Future self.old }
        ensures cancels { CancelsOrNone self.old key result self.new }
        ensures again { CanPollAll F.Future self.new }
    {
        let freed = self.take_place(key)?;
        self.tell(key);
        Some(self.bells.ring(freed))
    }
}

impl<F: Future<Output: Drop>, T: Drop> FuturesUnorderedBounded<F, T> {
    /// Makes a set of `n` free slots. Takes time and allocates in proportion to `n`.
    pub fn new(alloc: Global, n: usize) -> Result<Self, NewFault>
        ensures made { MakesSlots n (IsNewInFlight n) result }
        ensures can_poll { IfOk result (CanPollAll F.Future) }
    {
        Self::with_slots(alloc, n)
    }

    /// Adds the future with a tag of the caller, so that a later poll polls it, and returns its key. Tags need not
    /// differ.
    ///
    /// Allocates what the set of `futures` allocates for a future, and that set itself if there is none. If this fails,
    /// the future waits, and a later poll tries again. Many pushes together take time in proportion to their number,
    /// unless an allocation fails. Wakes a task whose poll was pending.
    pub fn push_tagged(&mut self, future: F, tag: T) -> Key
        requires room { HasNoRoom self.old → ⊥ }
        requires held { CanPollAll F.Future self.old }
        requires fit { F.can_poll future }
        ensures { EntersAt F.Future self.old future tag result self.new }
    {
        self.push_any(future, tag)
    }

    /// Pushes as `push_tagged` does. Returns the future and the tag, and changes nothing, if the set is full
    /// (`is_full`).
    pub fn try_push_tagged(&mut self, future: F, tag: T) -> Result<Key, (F, T)>
        requires held { CanPollAll F.Future self.old }
        requires fit { F.can_poll future }
        ensures { PushesInFlight F.Future false self.old future tag (future, tag) result self.new }
    {
        self.admit(future, tag)
    }
}

impl<F: Future<Output: Drop>> FuturesUnorderedBounded<F> {
    /// Pushes as `push_tagged` does, without a tag.
    pub fn push(&mut self, future: F) -> Key
        requires room { HasNoRoom self.old → ⊥ }
        requires held { CanPollAll F.Future self.old }
        requires fit { F.can_poll future }
        ensures { EntersAt F.Future self.old future tt result self.new }
    {
        self.push_any(future, ())
    }

    /// Pushes as `push` does. Returns the future, and changes nothing, if the set is full (`is_full`).
    pub fn try_push(&mut self, future: F) -> Result<Key, F>
        requires held { CanPollAll F.Future self.old }
        requires fit { F.can_poll future }
        ensures { PushesInFlight F.Future false self.old future tt future result self.new }
    {
        self.admit_untagged(future)
    }
}
