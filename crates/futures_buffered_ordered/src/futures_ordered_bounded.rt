//! The ordered queue of as many futures in progress as it has slots, over a bounded set.
ghost use Rattle.futures_buffered_ordered.specs.Below.{IsFiniteSource, items_of, slot_count, emptied, held_in};
ghost use Rattle.futures_buffered_ordered.specs.Below.{slots_in, Extends, MakesFull, PollsBounded};
ghost use Rattle.std.specs.Prelude.{◌≡◌, ◌↔◌, ◌<◌, ◌≤◌, length, IsOk, IsTrue};
ghost use Rattle.futures_buffered_core.specs.Made.{MakesSlots};
ghost use Rattle.futures_buffered_core.specs.ReadyShared.{IsNewShared, MarksShared};
ghost use Rattle.futures_buffered_ordered.specs.Numbered.{of_numbered};
ghost use Rattle.futures_buffered_ordered.specs.OrderedEntries.{AddsBack, AddsFront, PushesOrHandsBack, RefusesOne};
ghost use Rattle.futures_buffered_ordered.specs.OrderedEntries.{without_entries};
ghost use Rattle.futures_buffered_ordered.specs.FuturesOrderedBounded.{EachRunning, HoldsInOrder, IsNewBoundedQueue};
ghost use Rattle.futures_buffered_ordered.specs.FuturesOrderedBounded.{PushesEntry, PushesNumber, QueueIsFull};
ghost use Rattle.futures_buffered_ordered.specs.FuturesOrderedBounded.{SetIsFull, SetMayGive, TakesFewNames};

use crate::numbered::{Numbered, PollNumbered};
use crate::numbered_polls::NumberedPolls;
use crate::numbered_queue::NumberedQueue;
use crate::numbered_set::{NumberedSet, PollNumberedSet, StreamedSet};
pub use crate::ordered_entries::MAX_LEN;
use crate::ordered_entries::OrderedEntries;
use futures::task::{Context, Poll};
use futures_buffered_core::ready_core::{MAX_CAPACITY, NewFault, Woke};
use futures_buffered_core::ready_shared::{SharedReady, SharedWaker};
use futures_buffered_core::ready_source::{NewSource, ReadySource};
use futures_buffered_unordered::futures_unordered_bounded::{FuturesUnorderedBounded, POLL_LIMIT};
use futures_buffered_unordered::poll_one::PollOne;
use futures_buffered_unordered::slot_future::SlotFuture;
use std::alloc::Global;
use std::fmt;

impl<T: Drop, S: ReadySource> NumberedSet for FuturesUnorderedBounded<Numbered<T>, S> {
    ghost use Rattle.std.proofs.Common.{◌≡◌, OnOk, OnErr, IfErr, IsErr, refl, ◌∙◌};
    ghost use Rattle.std.specs.Prelude.{⊤};
    ghost use Rattle.futures_buffered_unordered.specs.FuturesUnorderedBounded.{held_in, slots_in};
    ghost use Rattle.futures_buffered_ordered.specs.Numbered.{PushesInto, held_with};
    ghost use Rattle.futures_buffered_ordered.specs.FuturesOrderedBounded.{PushesNumber, SameSize, SetIsFull};

    type Future = T;

    ghost count = { held_in };

    ghost with_number = { held_with };

    ghost pushes = { PushesNumber S.marks };

    ghost may_refuse = { SetIsFull };

    ghost refuses = { SetIsFull };

    ghost keeps = { SameSize };

    ghost takes = { λ _. ⊤ };

    ghost is_fit = { λ _. ⊤ };

    ghost places = { slots_in };

    fn refuses_all(&self) -> bool {
        self.len() == self.capacity()
    }

    fn push_numbered(&mut self, value: Numbered<T>) -> Result<(), Numbered<T>>
        ensures pushed { OnOk result (PushesInto (PushesNumber S.marks) held_in held_with SameSize
            self.old value self.new) }
        ensures back { IfErr result (λ back. (back ≡ value) × (self.new ≡ self.old)) }
        ensures room { OnErr result (SetIsFull self.old) }
        ensures full { SetIsFull self.old → IsErr result }
    {
        self.try_push(value)
    }

    ghost keeps_self = { λ a. record { capacity = refl; limit = refl } };

    ghost keeps_on = { λ a b c first then. record {
      capacity = then.capacity ∙ first.capacity;
      limit = then.limit ∙ first.limit;
    } };

    ghost keeps_places = { λ a b kept. kept.capacity };
}

impl<T: Drop, S: ReadySource, R: PollOne<T, S::Waker>> NumberedPolls<R>
    for FuturesUnorderedBounded<Numbered<T>, S> {
    type Output = R::Output;

    ghost can_poll = { EachRunning R.can_poll };

    ghost gives = { PollsBounded (of_numbered R.PollOne) S.ReadySource };

    ghost needs = { λ set n. (0 < held_in set) × S.needs set.source n };
}

impl<T: Drop, S: ReadySource, R: PollOne<T, S::Waker>> PollNumberedSet<R>
    for FuturesUnorderedBounded<Numbered<T>, S> {
    fn poll_numbered(
        &mut self,
        rule: &R,
        cx: &mut Context<'_>,
    ) -> Poll<Option<(usize, R::Output)>> {
        self.poll_with(&PollNumbered::new(rule), cx)
    }
}

impl<T: SlotFuture<S::Waker>, S: ReadySource> StreamedSet
    for FuturesUnorderedBounded<Numbered<T>, S> {
    ghost use Rattle.futures_buffered_unordered.specs.PollsBounded.{itself};
    ghost use Rattle.futures_buffered_unordered.proofs.FuturesUnorderedBoundedLemmas.{poll_gave, poll_still};

    ghost may_give = { SetMayGive T.polled };

    ghost came = { λ old new out cx left poll.
        poll_gave (of_numbered (itself T.SlotFuture)) S.ReadySource.own old new out cx left poll };

    ghost narrows = { λ old new answer cx left poll out.
        poll_still (of_numbered (itself T.SlotFuture)) S.ReadySource.own old new out answer cx left poll };
}

/// A queue over a bounded set, for outputs of a type `A`.
pub type BoundedQueue<T, A, S> = NumberedQueue<FuturesUnorderedBounded<Numbered<T>, S>, A>;

/// As many futures in progress as there are slots, whose outputs come in the order of a list. It is the name that a
/// caller writes; `NumberedQueue` says what a contract sees.
///
/// A kept output occupies no slot, so `len` may exceed `capacity`. A poll does not allocate. It takes at most `limit`
/// ready slots for each future in progress, and the time of the polls of what these slots hold.
pub type FuturesOrderedBounded<T, S = SharedReady> = BoundedQueue<
    T,
    <T as SlotFuture<<S as ReadySource>::Waker>>::Output,
    S,
>;

impl<T: Drop, A: Drop, S: ReadySource> BoundedQueue<T, A, S> {
    /// The number of slots, which never changes.
    pub fn capacity(&self) -> usize
        ensures { result ≡ slot_count self.now.set.slots }
    {
        self.queue.set.capacity()
    }

    /// How many ready slots one poll of the set takes, at most. This limit never changes.
    pub fn limit(&self) -> usize
        ensures { result ≡ self.now.set.limit }
    {
        self.queue.set.limit()
    }

    /// Whether each slot holds a future in progress. Kept outputs do not count.
    pub fn is_full(&self) -> bool
        ensures { IsTrue result ↔ QueueIsFull self.now }
    {
        self.queue.set.len() == self.queue.set.capacity()
    }

    /// Marks a slot by hand, whether or not it holds a future. Takes as long as a mark of the source, and does not wake
    /// the task.
    pub fn mark_slot(&mut self, i: usize) -> Woke
        requires { i < slot_count self.old.set.slots }
        ensures marked { S.marks self.old.set.source i result self.new.set.source }
        ensures slots { self.new.set.slots ≡ self.old.set.slots }
        ensures limit { self.new.set.limit ≡ self.old.set.limit }
        ensures entries { (self.new.entries ≡ self.old.entries)
            × (self.new.room ≡ self.old.room) }
    {
        self.queue.set.mark_slot(i)
    }

    /// Adds the future after all others, in progress. It goes into a slot, which is marked, so that a later poll polls
    /// it.
    ///
    /// Returns the future, and changes nothing, if the queue is full, if it has `MAX_LEN` entries, or if an allocation
    /// fails. Allocates only if there are as many entries as places for them. There are never fewer places than slots,
    /// so a push succeeds if `len` is below `capacity`. Polls nothing, and wakes no task.
    pub fn try_push_back(&mut self, future: T) -> Result<(), T>
        ensures push { PushesOrHandsBack AddsBack ⟦<FuturesUnorderedBounded<Numbered<T>, S> as NumberedSet>⟧
            self.old future result self.new }
        ensures room { length self.old.entries < slot_count self.old.set.slots → IsOk result }
    {
        self.queue.add_back(future)
    }

    /// As `try_push_back`, before all others: the queue yields its output next.
    pub fn try_push_front(&mut self, future: T) -> Result<(), T>
        ensures push { PushesOrHandsBack AddsFront ⟦<FuturesUnorderedBounded<Numbered<T>, S> as NumberedSet>⟧
            self.old future result self.new }
        ensures room { length self.old.entries < slot_count self.old.set.slots → IsOk result }
    {
        self.queue.add_front(future)
    }

    /// As `try_push_back`, for a queue whose `len` is below its `capacity`. Does not allocate.
    pub fn push_back(&mut self, future: T)
        requires { length self.old.entries < slot_count self.old.set.slots }
        ensures { PushesEntry (AddsBack (PushesNumber S.marks)) self.old future self.new }
    {
        match self.try_push_back(future) {
            Ok(()) => {}
            Err(_) => unreachable!(),
        }
    }

    /// As `try_push_front`, for a queue whose `len` is below its `capacity`. Does not allocate.
    pub fn push_front(&mut self, future: T)
        requires { length self.old.entries < slot_count self.old.set.slots }
        ensures { PushesEntry (AddsFront (PushesNumber S.marks)) self.old future self.new }
    {
        match self.try_push_front(future) {
            Ok(()) => {}
            Err(_) => unreachable!(),
        }
    }

    /// Adds each item at the back, in order, as `try_push_back` does. Returns the first item that is refused; the items
    /// before it stay, and no further item is taken from the iterator.
    pub fn extend<I: IntoIterator<Item = T>>(&mut self, iter: I) -> Result<(), T>
        requires { IsFiniteSource (items_of I.IntoIterator I.IntoIter.Iterator iter) }
        ensures extends { Extends (items_of I.IntoIterator I.IntoIter.Iterator iter)
            (AddsBack (PushesNumber S.marks)) (RefusesOne SetIsFull) self.old result self.new }
        ensures capacity { slot_count self.new.set.slots ≡ slot_count self.old.set.slots }
    {
        self.queue.extend(iter)
    }

    /// Drops each entry, with its future in progress or its kept output. Each slot is free then, and slot 0 is the
    /// first to be used again.
    ///
    /// A slot that was marked stays marked, as with `clear` of the set. There is a place for as many entries as before.
    /// Does not allocate. Takes time in proportion to the capacity and the entries, apart from the drops. The call
    /// itself does not wake the task; a dropped value may.
    pub fn clear(&mut self)
        ensures { self.new ≡ without_entries (emptied self.old.set) self.old }
    {
        self.queue.set.clear();
        self.queue.drop_entries();
    }
}

/// Prints the name alone.
impl<T: Drop, A: Drop, S: ReadySource> fmt::Debug for BoundedQueue<T, A, S> {
    fn fmt<W: fmt::Write>(&self, f: &mut fmt::Formatter<W>) -> fmt::Result {
        f.write_str("FuturesOrderedBounded { ... }")
    }
}

/// Each poll of a queue takes at most `limit` ready slots for each future that is in progress as the poll begins.
///
/// This is a law of the relation in the contract of a poll. Its body is empty.
pub fn polls_take_few_names<T, S: ReadySource, R: PollOne<T, S::Waker>>()
    ensures { TakesFewNames R.PollOne S.ReadySource }
{}

impl<T: SlotFuture<S::Waker, Output = A>, A: Drop, S: NewSource> BoundedQueue<T, A, S> {
    /// Makes an empty queue of `n` slots over a source made for it.
    ///
    /// Allocates and takes time in proportion to `n`: for the slots, the source, and a place for `n` entries.
    pub fn over(env: &S::Env, alloc: Global, n: usize) -> Result<Self, NewFault>
        ensures { MakesSlots n (IsNewBoundedQueue S.made n POLL_LIMIT) result }
    {
        Self::over_limit(env, alloc, n, POLL_LIMIT)
    }

    /// As `over`; one poll of the set takes at most `limit` ready slots.
    pub fn over_limit(env: &S::Env, alloc: Global, n: usize, limit: usize) -> Result<Self, NewFault>
        requires { 1 ≤ limit }
        ensures { MakesSlots n (IsNewBoundedQueue S.made n limit) result }
    {
        let set = FuturesUnorderedBounded::with_new_source(env, alloc, n, limit)?;
        let queue = OrderedEntries::with_room(alloc, set, n)?;
        Ok(NumberedQueue { queue })
    }
}

// The items, in order, if they are no more than the slots that a queue may have.
fn drawn<I: IntoIterator>(alloc: Global, iter: I) -> Result<Vec<I::Item>, NewFault>
where
    I::Item: Drop,
    requires { IsFiniteSource (items_of I.IntoIterator I.IntoIter.Iterator iter) }
    ensures { MakesFull (items_of I.IntoIterator I.IntoIter.Iterator iter) (λ made. length made.items)
        (λ came made. made.items ≡ came) result }
{
    let mut items = Vec::new(alloc);
    for item in iter {
        if items.len() == MAX_CAPACITY {
            return Err(NewFault::TooLarge);
        }
        items.reserve(1)?;
        items.push_reserved(item);
    }
    Ok(items)
}

impl<T: SlotFuture<SharedWaker, Output = A>, A: Drop> BoundedQueue<T, A, SharedReady> {
    /// Makes an empty queue of `n` slots, whose futures are woken from any thread. It is `over` with a shared source,
    /// and fails as `over` does.
    pub fn new(alloc: Global, n: usize) -> Result<Self, NewFault>
        ensures { MakesSlots n (IsNewBoundedQueue IsNewShared n POLL_LIMIT) result }
    {
        Self::over(&(), alloc, n)
    }

    /// As `new`; one poll of the set takes at most `limit` ready slots.
    pub fn with_limit(alloc: Global, n: usize, limit: usize) -> Result<Self, NewFault>
        requires { 1 ≤ limit }
        ensures { MakesSlots n (IsNewBoundedQueue IsNewShared n limit) result }
    {
        Self::over_limit(&(), alloc, n, limit)
    }

    /// Makes a full queue of the items, each added at the back, in order. It has as many slots as there are items.
    ///
    /// If it fails, drops the items that it took. Allocates and takes time in proportion to the number of items.
    pub fn from_iter<I: IntoIterator<Item = T>>(alloc: Global, iter: I) -> Result<Self, NewFault>
        requires { IsFiniteSource (items_of I.IntoIterator I.IntoIter.Iterator iter) }
        ensures { MakesFull (items_of I.IntoIterator I.IntoIter.Iterator iter) (λ q. slots_in q.set)
            (HoldsInOrder IsNewShared MarksShared POLL_LIMIT) result }
    {
        let items = drawn(alloc, iter)?;
        let mut queue = Self::new(alloc, items.len())?;
        for item in items {
            queue.push_back(item);
        }
        Ok(queue)
    }
}
