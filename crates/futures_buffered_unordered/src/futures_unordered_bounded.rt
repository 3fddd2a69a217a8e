//! A set of as many futures as it has slots, which yields their outputs as they finish.
//!
//! Each future is in a slot. A push marks its slot, and a waker of the future marks it again. A poll takes marked slots
//! from the set's source, at most as many as its limit, and polls their futures until one is ready. A slot that is not
//! marked costs nothing.
ghost use Rattle.std.specs.Prelude.{◌≡◌, ◌<◌, ◌≤◌, ◌+◌, ◌==◌, ◌↔◌, IfOk, IsSome, IsTrue, true};
ghost use Rattle.futures.specs.Task.{Covers};
ghost use Rattle.futures_buffered_core.specs.Drawn.{IsFiniteSource, items_of};
ghost use Rattle.futures_buffered_core.specs.Made.{MakesSlots};
ghost use Rattle.futures_buffered_core.specs.ReadyShared.{IsNewShared, MarksShared};
ghost use Rattle.futures_buffered_core.specs.ReadySource.{WaitsAlike};
ghost use Rattle.futures_buffered_core.specs.SlotMap.{IsFull, held_count, no_slots, slot_count, value_in, with_slot_freed};
ghost use Rattle.futures_buffered_unordered.specs.Held.{AllHeld};
ghost use Rattle.futures_buffered_unordered.specs.FuturesUnorderedBounded.{HoldsEach, IsNewSet, Pushes, PushesIfRoom};
ghost use Rattle.futures_buffered_unordered.specs.FuturesUnorderedBounded.{PushesOne, emptied, slots_in};
ghost use Rattle.futures_buffered_unordered.specs.PollsBounded.{CanPollRegistered, PollsBounded};
ghost use Rattle.futures_buffered_unordered.specs.PollsBounded.{RegistersAndTakes, TakesNames, unless_registered};
ghost use Rattle.futures_buffered_unordered.specs.Extended.{Extends, MakesFull};

use crate::poll_one::PollOne;
use futures::task::{Context, Poll};
use futures_buffered_core::ready_core::{MAX_CAPACITY, NewFault, Taken, Woke};
use futures_buffered_core::ready_shared::SharedReady;
use futures_buffered_core::ready_source::{NewSource, ReadySource};
use futures_buffered_core::slot_map::PinSlotMap;
use std::alloc::Global;
use std::marker::{Model, PhantomData};

/// How many ready slots one poll takes from the source, at most, if the caller chose no other limit.
pub const POLL_LIMIT: usize = 61;

const _: () = prove!(POLL_LIMIT == 61);

/// The kind of a set of futures: an output ends its future.
pub struct OfFutures;

/// The kind of a set of streams, a merge: an item leaves its stream where it is.
pub struct OfStreams;

/// Futures or streams in slots, over a source that returns the slots to poll. The kind `K` says which.
///
/// A contract sees the content of each slot, the free slots, the content of the source, and the limit of ready slots
/// for one poll. Once the set is made, no call except `make_sibling` allocates, and no call waits for another thread. A
/// push, and calls that return how many values are held, take the same time at any capacity.
#[derive(Drop)]
pub struct BoundedSet<F: Drop, S: ReadySource, K> {
    slots: PinSlotMap<F>,
    source: S,
    limit: usize,
    kind: PhantomData<K>,
}

/// As many futures as the set has slots.
pub type FuturesUnorderedBounded<F, S = SharedReady> = BoundedSet<F, S, OfFutures>;

impl<F: Drop, S: ReadySource, K> Model for BoundedSet<F, S, K> {
    ghost use Rattle.futures_buffered_unordered.specs.FuturesUnorderedBounded.{Bounded, bounded_code};

    ghost Value = { Bounded F S };

    ghost coded = { bounded_code F.code S.code };

    ghost use Rattle.std.specs.Prelude.{◌≡◌, ◌≤◌};
    ghost use Rattle.futures_buffered_core.specs.SlotMap.{slot_count};

    ghost view = { λ s. record { slots = s.slots; source = s.source; limit = s.limit } };

    ghost invariant = { λ s. (S.slots s.source ≡ slot_count s.slots) × (1 ≤ s.limit) };
}

impl<F: Drop, S: ReadySource, K> BoundedSet<F, S, K> {
    /// Makes an empty set over this source, with as many slots as the source has.
    ///
    /// If it fails, drops the source. Allocates and takes time in proportion to the number of slots.
    pub fn with_source(alloc: Global, source: S) -> Result<Self, NewFault>
        ensures { MakesSlots (S.slots source) (λ set. set
            ≡ record { slots = no_slots (S.slots source); source = source; limit = POLL_LIMIT }) result }
    {
        Self::with_source_limit(alloc, source, POLL_LIMIT)
    }

    /// As `with_source`; one poll takes at most `limit` ready slots.
    pub fn with_source_limit(alloc: Global, source: S, limit: usize) -> Result<Self, NewFault>
        requires { 1 ≤ limit }
        ensures { MakesSlots (S.slots source) (λ set. set
            ≡ record { slots = no_slots (S.slots source); source = source; limit = limit }) result }
    {
        let slots = PinSlotMap::new(alloc, source.capacity())?;
        Ok(BoundedSet {
            slots,
            source,
            limit,
            kind: PhantomData,
        })
    }
}

impl<F: Drop, S: NewSource, K> BoundedSet<F, S, K> {
    /// Makes an empty set of `cap` slots over a source made for it; one poll takes at most `limit` ready slots.
    ///
    /// Fails as `with_source` does. Allocates and takes time in proportion to `cap`. A contract says of the source what
    /// `S.made` says of a new one.
    pub fn with_new_source(
        env: &S::Env,
        alloc: Global,
        cap: usize,
        limit: usize,
    ) -> Result<Self, NewFault>
        requires { 1 ≤ limit }
        ensures { MakesSlots cap (IsNewSet S.made cap limit) result }
    {
        let source = S::make(env, alloc, cap)?;
        Self::with_source_limit(alloc, source, limit)
    }

    /// Makes an empty set of `cap` slots next to this one, with the same limit. A task that registers with either set
    /// is woken by the futures of both. It is public for sets that grow.
    ///
    /// This set does not change. Fails, allocates and takes time as `with_new_source` does.
    pub fn make_sibling(&mut self, alloc: Global, cap: usize) -> Result<Self, NewFault>
        ensures set { MakesSlots cap (IsNewSet S.made cap self.old.limit) result }
        ensures beside { IfOk result (λ set. WaitsAlike S.needs self.old.source set.source) }
        ensures same { self.new ≡ self.old }
    {
        let source = self.source.make_sibling(alloc, cap)?;
        let slots = PinSlotMap::new(alloc, cap)?;
        Ok(BoundedSet {
            slots,
            source,
            limit: self.limit,
            kind: PhantomData,
        })
    }

    /// Drops the set, whose source leaves its siblings.
    pub(crate) fn leave_siblings(self) {
        let BoundedSet {
            slots: _,
            source,
            ..
        } = self;
        source.leave_siblings();
    }

    /// Makes a set without a free slot: slot k holds item k, and each slot is marked, in this order. The set has as
    /// many slots as there are items, and a source made for it.
    ///
    /// If it fails, drops the items that it took. Allocates and takes time in proportion to the number of items.
    pub fn over<I: IntoIterator<Item = F>>(
        env: &S::Env,
        alloc: Global,
        iter: I,
    ) -> Result<Self, NewFault>
        requires { IsFiniteSource (items_of I.IntoIterator I.IntoIter.Iterator iter) }
        ensures { MakesFull (items_of I.IntoIterator I.IntoIter.Iterator iter) slots_in
            (HoldsEach S.made S.marks POLL_LIMIT) result }
    {
        Self::over_limit(env, alloc, iter, POLL_LIMIT)
    }

    /// As `over`, but one poll takes at most `limit` ready slots.
    pub fn over_limit<I: IntoIterator<Item = F>>(
        env: &S::Env,
        alloc: Global,
        iter: I,
        limit: usize,
    ) -> Result<Self, NewFault>
        requires finite { IsFiniteSource (items_of I.IntoIterator I.IntoIter.Iterator iter) }
        requires some { 1 ≤ limit }
        ensures { MakesFull (items_of I.IntoIterator I.IntoIter.Iterator iter) slots_in
            (HoldsEach S.made S.marks limit) result }
    {
        let slots = PinSlotMap::from_iter(alloc, iter)?;
        let source = S::make_marked(env, alloc, slots.capacity())?;
        Ok(BoundedSet {
            slots,
            source,
            limit,
            kind: PhantomData,
        })
    }
}

impl<F: Drop, S: ReadySource, K> BoundedSet<F, S, K> {
    /// The number of values in the set.
    pub fn len(&self) -> usize
        ensures { result ≡ held_count self.now.slots }
    {
        self.slots.len()
    }

    /// Whether the set holds no value.
    pub fn is_empty(&self) -> bool
        ensures { IsTrue result ↔ (held_count self.now.slots ≡ 0) }
    {
        self.slots.is_empty()
    }

    /// Whether no slot is free.
    pub fn is_full(&self) -> bool
        ensures { IsTrue result ↔ (slot_count self.now.slots ≤ held_count self.now.slots) }
    {
        self.slots.len() >= self.slots.capacity()
    }

    /// The number of slots, which never changes.
    pub fn capacity(&self) -> usize
        ensures value { result ≡ slot_count self.now.slots }
        ensures source { result ≡ S.slots self.now.source }
    {
        self.slots.capacity()
    }

    /// How many ready slots one poll takes from the source, at most. This limit never changes.
    pub fn limit(&self) -> usize
        ensures value { result ≡ self.now.limit }
        ensures some { 1 ≤ result }
    {
        self.limit
    }

    /// Puts the value into the first free slot and marks that slot, so that a later poll polls the value. Returns the
    /// value, and changes nothing, if the set is full.
    ///
    /// Polls nothing, and does not wake the task: the caller sees to it that the set is polled afterwards.
    pub fn try_push(&mut self, value: F) -> Result<(), F>
        ensures { PushesIfRoom S.marks self.old value result self.new }
    {
        let i = self.slots.insert_with(value, |value| value)?;
        let _woke = self.source.mark(i);
        Ok(())
    }

    /// As `try_push`, for a set of which `is_full` is false.
    pub fn push(&mut self, value: F)
        requires { held_count self.old.slots < slot_count self.old.slots }
        ensures { PushesOne S.marks self.old value self.new }
    {
        match self.try_push(value) {
            Ok(()) => {}
            Err(_) => unreachable!(),
        }
    }

    /// Pushes each item, in order, as `try_push` does. Returns the first item for which no slot is free; the items
    /// before it stay, and no further item is taken from the iterator.
    pub fn extend<I: IntoIterator<Item = F>>(&mut self, iter: I) -> Result<(), F>
        requires { IsFiniteSource (items_of I.IntoIterator I.IntoIter.Iterator iter) }
        ensures extends { Extends (items_of I.IntoIterator I.IntoIter.Iterator iter) (Pushes S.marks)
            (λ stopped new. IsFull stopped.slots × (new ≡ stopped)) self.old result self.new }
        ensures capacity { slot_count self.new.slots ≡ slot_count self.old.slots }
    {
        for item in iter {
            if let Err(back) = self.try_push(item) {
                return Err(back);
            }
        }
        Ok(())
    }

    /// Marks a slot by hand, whether or not it holds a value. Takes as long as a mark of the source, and does not wake
    /// the task.
    pub fn mark_slot(&mut self, i: usize) -> Woke
        requires { i < slot_count self.old.slots }
        ensures marked { S.marks self.old.source i result self.new.source }
        ensures slots { self.new.slots ≡ self.old.slots }
        ensures limit { self.new.limit ≡ self.old.limit }
    {
        self.source.mark(i)
    }

    /// Registers the task, takes ready slots up to the limit, and polls their values until one is ready. Returns the
    /// output with its slot, which is not emptied.
    ///
    /// Takes time in proportion to the ready slots taken, apart from the polls. If the source paused, or if the limit
    /// was reached, returns `Pending` and wakes the task.
    #[inline(always)]
    pub fn poll_first<R: PollOne<F, S::Waker>>(
        &mut self,
        rule: &R,
        cx: &mut Context<'_>,
    ) -> Poll<(usize, R::Output)>
        requires { AllHeld R.can_poll self.old.slots }
        ensures { RegistersAndTakes R.PollOne S.ReadySource
            self.old result self.new cx.old cx.new }
    {
        self.poll_round(rule, cx, false)
    }

    /// As `poll_first`, but registers nothing if the task is already registered, with this set or with one next to it.
    #[inline(always)]
    pub(crate) fn poll_round<R: PollOne<F, S::Waker>>(
        &mut self,
        rule: &R,
        cx: &mut Context<'_>,
        is_registered: bool,
    ) -> Poll<(usize, R::Output)>
        requires held { AllHeld R.can_poll self.old.slots }
        requires registered { IsTrue is_registered → Covers cx.old (S.needs self.old.source) }
        ensures { RegistersAndTakes R.PollOne (unless_registered is_registered S.ReadySource)
            self.old result self.new cx.old cx.new }
    {
        if is_registered {
            return self.poll_first_registered(rule, cx);
        }
        self.source.register(cx);
        self.poll_first_registered(rule, cx)
    }

    /// As `poll_first`, for a task that is already registered, with this set or with one next to it. Registers nothing.
    /// It is public for merges that grow.
    #[inline(always)]
    pub fn poll_first_registered<R: PollOne<F, S::Waker>>(
        &mut self,
        rule: &R,
        cx: &mut Context<'_>,
    ) -> Poll<(usize, R::Output)>
        requires { CanPollRegistered R.PollOne S.ReadySource self.old cx.old }
        ensures { TakesNames R.PollOne S.ReadySource self.old result self.new cx.old cx.new }
    {
        'names: for _count in 0..self.limit {
            let i = match self.source.take() {
                Taken::Slot(i) => i,
                Taken::Empty => return Poll::Pending,
                Taken::Pause => return cx.yield_now(),
            };
            let waker = self.source.waker(i);
            if let Some(held) = self.slots.get(i) {
                if let Poll::Ready(output) = rule.poll_one(held, waker) {
                    return Poll::Ready((i, output));
                }
            }
        }
        cx.yield_now()
    }

    /// Drops the value of a slot. That slot is then the first free one.
    pub fn empty_slot(&mut self, i: usize)
        requires { IsSome (value_in self.old.slots i) }
        ensures emptied { self.new ≡ record self.old { slots = with_slot_freed self.old.slots i } }
        ensures count { held_count self.new.slots + 1 ≡ held_count self.old.slots }
        ensures capacity { slot_count self.new.slots ≡ slot_count self.old.slots }
    {
        self.slots.remove(i);
    }

    /// Drops each value. Each slot is free then, and slot 0 is the first to be used again.
    ///
    /// A slot that was marked stays marked. So a later poll may take it, and polls what it holds by then. Does not
    /// allocate. Takes time in proportion to the capacity, apart from the drops. The call itself does not wake the
    /// task; a value that it drops may.
    pub fn clear(&mut self)
        ensures { self.new ≡ emptied self.old }
    {
        self.slots.clear();
    }
}

impl<F: Drop, S: ReadySource> FuturesUnorderedBounded<F, S> {
    /// Polls the set once; `rule` says how one held value is polled.
    ///
    /// Returns `Ready(None)` if the set is empty, without a call of the source. Otherwise takes ready slots from the
    /// source and polls their values, in that order, until one is ready. Then returns its output and frees its slot.
    /// Returns `Pending` if no ready slot is left, if the source paused, or if the limit was reached.
    ///
    /// Does not allocate. Takes time in proportion to the ready slots taken, apart from the polls. If the source
    /// paused, and at the limit, wakes the task.
    pub fn poll_with<R: PollOne<F, S::Waker>>(
        &mut self,
        rule: &R,
        cx: &mut Context<'_>,
    ) -> Poll<Option<R::Output>>
        requires { AllHeld R.can_poll self.old.slots }
        ensures { PollsBounded R.PollOne S.ReadySource
            self.old result self.new cx.old cx.new }
    {
        if self.slots.is_empty() {
            return Poll::Ready(None);
        }
        // As `poll_round` does; a call of it would take half a nanosecond more.
        S::register(&mut self.source, cx);
        match self.poll_first_registered(rule, cx) {
            Poll::Ready((slot, output)) => {
                self.empty_slot(slot);
                Poll::Ready(Some(output))
            }
            Poll::Pending => Poll::Pending,
        }
    }

    /// As `poll_with`, for a task that is already registered, with this set or with one next to it. Registers nothing.
    /// It is public for sets that grow.
    #[inline(always)]
    pub fn poll_registered<R: PollOne<F, S::Waker>>(
        &mut self,
        rule: &R,
        cx: &mut Context<'_>,
    ) -> Poll<Option<R::Output>>
        requires { CanPollRegistered R.PollOne S.ReadySource self.old cx.old }
        ensures { PollsBounded R.PollOne (unless_registered true S.ReadySource)
            self.old result self.new cx.old cx.new }
    {
        if self.is_empty() {
            return Poll::Ready(None);
        }
        match self.poll_first_registered(rule, cx) {
            Poll::Ready((i, output)) => {
                self.empty_slot(i);
                Poll::Ready(Some(output))
            }
            Poll::Pending => Poll::Pending,
        }
    }
}

impl<F: Drop> FuturesUnorderedBounded<F, SharedReady> {
    /// Makes an empty set whose values are woken from any thread.
    ///
    /// Allocates and takes time in proportion to `cap`. The set needs no other allocation.
    pub fn new(alloc: Global, cap: usize) -> Result<Self, NewFault>
        ensures { MakesSlots cap (IsNewSet IsNewShared cap POLL_LIMIT) result }
    {
        Self::with_limit(alloc, cap, POLL_LIMIT)
    }

    /// As `new`; one poll takes at most `limit` ready slots.
    pub fn with_limit(alloc: Global, cap: usize, limit: usize) -> Result<Self, NewFault>
        requires { 1 ≤ limit }
        ensures { MakesSlots cap (IsNewSet IsNewShared cap limit) result }
    {
        Self::with_new_source(&(), alloc, cap, limit)
    }
}

impl<F: Drop, K> BoundedSet<F, SharedReady, K> {
    /// Makes a set without a free slot: slot k holds item k, and each slot is marked, in this order. The values are
    /// woken from any thread. It is `over` with a shared source, and fails as `over` does.
    pub fn from_iter<I: IntoIterator<Item = F>>(alloc: Global, iter: I) -> Result<Self, NewFault>
        requires { IsFiniteSource (items_of I.IntoIterator I.IntoIter.Iterator iter) }
        ensures { MakesFull (items_of I.IntoIterator I.IntoIter.Iterator iter) slots_in
            (HoldsEach IsNewShared MarksShared POLL_LIMIT) result }
    {
        Self::over(&(), alloc, iter)
    }
}
