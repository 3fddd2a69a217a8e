//! The ordered queue of any number of futures in progress, over a set that grows by groups.
ghost use Rattle.futures_buffered_ordered.specs.Below.{IsFiniteSource, items_of, Extends};
ghost use Rattle.std.specs.Prelude.{◌≡◌, ◌↔◌, ◌≤◌, [], IsTrue};
ghost use Rattle.futures_buffered_core.specs.Made.{MakesGroup};
ghost use Rattle.futures_buffered_core.specs.ReadyShared.{IsNewShared};
ghost use Rattle.futures_buffered_unordered.specs.FuturesUnordered.{AnyNeeds, SetMayRefuse, SetRefuses, no_groups};
ghost use Rattle.futures_buffered_unordered.specs.PollsGrowing.{PollsGrowing};
ghost use Rattle.futures_buffered_ordered.specs.Numbered.{of_numbered};
ghost use Rattle.futures_buffered_ordered.specs.OrderedEntries.{AddsBack, AddsFront, AddsOrStays, PushesOrHandsBack};
ghost use Rattle.futures_buffered_ordered.specs.OrderedEntries.{QueueIsAtBound, RefusesOne, without_entries};
ghost use Rattle.futures_buffered_ordered.specs.FuturesOrdered.{EachInProgress, GrowingMayGive, GrowingPushesNumber};
ghost use Rattle.futures_buffered_ordered.specs.FuturesOrdered.{IsNewGrowingQueue, MakesSharedQueue};

use crate::numbered::{Numbered, PollNumbered};
use crate::numbered_polls::NumberedPolls;
use crate::numbered_queue::NumberedQueue;
use crate::numbered_set::{NumberedSet, PollNumberedSet, StreamedSet};
use crate::ordered_entries::{MAX_LEN, OrderedEntries};
use futures::task::{Context, Poll};
use futures_buffered_core::ready_core::NewFault;
use futures_buffered_core::ready_shared::{SharedReady, SharedWaker};
use futures_buffered_core::ready_source::{NewSource, ReadySource};
use futures_buffered_unordered::futures_unordered::{FIRST_GROUP, FuturesUnordered};
use futures_buffered_unordered::futures_unordered_bounded::POLL_LIMIT;
use futures_buffered_unordered::poll_one::PollOne;
use futures_buffered_unordered::slot_future::SlotFuture;
use std::alloc::Global;
use std::fmt;

impl<T: Drop, S: NewSource> NumberedSet for FuturesUnordered<Numbered<T>, S> {
    ghost use Rattle.std.proofs.Common.{◌≡◌, OnOk, OnErr, IfErr, IsErr, refl, ◌∙◌};
    ghost use Rattle.std.specs.Prelude.{⊤};
    ghost use Rattle.futures_buffered_ordered.specs.Numbered.{PushesInto};
    ghost use Rattle.futures_buffered_unordered.specs.FuturesUnordered.{SetMayRefuse, SetRefuses};
    ghost use Rattle.futures_buffered_ordered.specs.FuturesOrdered.{GrowingPushesNumber, SameLimit, held_in_groups};
    ghost use Rattle.futures_buffered_ordered.specs.FuturesOrdered.{held_in_groups_with};

    type Future = T;

    ghost count = { held_in_groups };

    ghost with_number = { held_in_groups_with };

    ghost pushes = { GrowingPushesNumber S.marks S.made };

    ghost may_refuse = { SetMayRefuse };

    ghost refuses = { SetRefuses };

    ghost keeps = { SameLimit };

    ghost takes = { λ _. ⊤ };

    ghost is_fit = { λ _. ⊤ };

    fn refuses_all(&self) -> bool {
        self.is_at_bound()
    }

    fn push_numbered(&mut self, value: Numbered<T>) -> Result<(), Numbered<T>>
        ensures pushed { OnOk result (PushesInto (GrowingPushesNumber S.marks S.made)
            held_in_groups held_in_groups_with SameLimit self.old value self.new) }
        ensures back { IfErr result (λ back. (back ≡ value) × (self.new ≡ self.old)) }
        ensures room { OnErr result (SetMayRefuse self.old) }
        ensures full { SetRefuses self.old → IsErr result }
    {
        self.push(value)
    }

    ghost keeps_self = { λ a. refl };

    ghost keeps_on = { λ a b c first then. then ∙ first };

    ghost keeps_places = { λ a b kept. refl };
}

impl<T: Drop, S: NewSource, R: PollOne<T, S::Waker>> NumberedPolls<R>
    for FuturesUnordered<Numbered<T>, S> {
    type Output = R::Output;

    ghost can_poll = { EachInProgress R.can_poll };

    ghost gives = { PollsGrowing (of_numbered R.PollOne) S.ReadySource };

    ghost needs = { λ set. AnyNeeds S.needs set.groups.listed };
}

impl<T: Drop, S: NewSource, R: PollOne<T, S::Waker>> PollNumberedSet<R>
    for FuturesUnordered<Numbered<T>, S> {
    fn poll_numbered(
        &mut self,
        rule: &R,
        cx: &mut Context<'_>,
    ) -> Poll<Option<(usize, R::Output)>> {
        self.poll_with(&PollNumbered::new(rule), cx)
    }
}

impl<T: SlotFuture<S::Waker>, S: NewSource> StreamedSet for FuturesUnordered<Numbered<T>, S> {
    ghost use Rattle.futures_buffered_unordered.specs.PollsBounded.{itself};
    ghost use Rattle.futures_buffered_unordered.proofs.FuturesUnorderedStreamLemmas.{gave, still};

    ghost may_give = { GrowingMayGive T.polled };

    ghost came = { λ old new out cx left poll.
        gave (of_numbered (itself T.SlotFuture)) S.ReadySource.own old.groups new.groups cx left out poll.groups.gave };

    ghost narrows = { λ old new answer cx left poll out.
        still (of_numbered (itself T.SlotFuture)) S.ReadySource.own old.groups new.groups cx left answer poll.groups.gave out };
}

/// A queue over a growing set, for outputs of a type `A`.
pub type GrowingQueue<T, A, S> = NumberedQueue<FuturesUnordered<Numbered<T>, S>, A>;

/// Any number of futures, whose outputs come in the order of a list. It is the name that a caller writes;
/// `NumberedQueue` says what a contract sees.
///
/// A call takes the same time at any number of groups, if it does so at any length. If the last group is full, a push
/// makes the set grow. Over many pushes that is the same time for each. A poll does not allocate.
pub type FuturesOrdered<T, S = SharedReady> = GrowingQueue<
    T,
    <T as SlotFuture<<S as ReadySource>::Waker>>::Output,
    S,
>;

impl<T: Drop, A: Drop, S: NewSource> GrowingQueue<T, A, S> {
    /// How many ready slots one poll of the set takes from each group, at most. This limit never changes.
    pub fn limit(&self) -> usize
        ensures { result ≡ self.now.set.limit }
    {
        self.queue.set.limit()
    }

    /// Adds the future after all others, in progress. It goes into the set as its `push` does, so that a later poll
    /// polls it.
    ///
    /// Returns the future, and changes nothing, if the queue has `MAX_LEN` entries, if the set refuses the future, or
    /// if an allocation fails. Allocates only if there are as many entries as places for them, or if the last group is
    /// full. Polls nothing. A caller should not count on a wake, but a push that makes a group may wake the task that
    /// waits.
    pub fn push_back(&mut self, future: T) -> Result<(), T>
        ensures { PushesOrHandsBack AddsBack ⟦<FuturesUnordered<Numbered<T>, S> as NumberedSet>⟧
            self.old future result self.new }
    {
        self.queue.add_back(future)
    }

    /// As `push_back`, before all others: the queue yields its output next.
    pub fn push_front(&mut self, future: T) -> Result<(), T>
        ensures { PushesOrHandsBack AddsFront ⟦<FuturesUnordered<Numbered<T>, S> as NumberedSet>⟧
            self.old future result self.new }
    {
        self.queue.add_front(future)
    }

    /// As `push_back`, for a caller that has no use for a future that is refused. Drops that future, does not change
    /// the queue, and returns the reason, so that `?` takes it.
    pub fn add_back(&mut self, future: T) -> Result<(), NewFault>
        ensures { AddsOrStays AddsBack ⟦<FuturesUnordered<Numbered<T>, S> as NumberedSet>⟧
            self.old future result self.new }
    {
        let Ok(()) = self.push_back(future) else {
            return Err(self.fault());
        };
        Ok(())
    }

    /// As `add_back`, before all others: the queue yields its output next.
    pub fn add_front(&mut self, future: T) -> Result<(), NewFault>
        ensures { AddsOrStays AddsFront ⟦<FuturesUnordered<Numbered<T>, S> as NumberedSet>⟧
            self.old future result self.new }
    {
        let Ok(()) = self.push_front(future) else {
            return Err(self.fault());
        };
        Ok(())
    }

    /// Adds each item at the back, in order, as `push_back` does. Returns the first item that is refused; the items
    /// before it stay, and no further item is taken from the iterator.
    pub fn extend<I: IntoIterator<Item = T>>(&mut self, iter: I) -> Result<(), T>
        requires { IsFiniteSource (items_of I.IntoIterator I.IntoIter.Iterator iter) }
        ensures { Extends (items_of I.IntoIterator I.IntoIter.Iterator iter)
            (AddsBack (GrowingPushesNumber S.marks S.made)) (RefusesOne SetMayRefuse)
            self.old result self.new }
    {
        self.queue.extend(iter)
    }

    /// Drops each entry, with its future in progress or its kept output. Drops the groups too.
    ///
    /// There is a place for as many entries as before. Does not allocate. Takes time in proportion to the slots of the
    /// groups and the entries, apart from the drops. Wakes a task that waits, as `clear` of `FuturesUnordered` does.
    pub fn clear(&mut self)
        ensures { self.new ≡ without_entries (no_groups self.old.set.limit) self.old }
    {
        self.queue.set.clear();
        self.queue.drop_entries();
    }

    /// Whether the queue takes no more futures: it has `MAX_LEN` entries, or its set is at its bound. A push fails
    /// then, and otherwise only if an allocation fails.
    pub fn is_at_bound(&self) -> bool
        ensures { IsTrue result ↔ QueueIsAtBound SetRefuses self.now }
    {
        self.queue.set.is_at_bound() || self.queue.len() == MAX_LEN
    }

    // Why a push failed just now.
    fn fault(&self) -> NewFault
        ensures { (result ≡ NewFault.TooLarge) ↔ QueueIsAtBound SetRefuses self.now }
    {
        if self.is_at_bound() {
            NewFault::TooLarge
        } else {
            NewFault::Memory
        }
    }
}

/// Prints the name alone.
impl<T: Drop, A: Drop, S: NewSource> fmt::Debug for GrowingQueue<T, A, S> {
    fn fmt<W: fmt::Write>(&self, f: &mut fmt::Formatter<W>) -> fmt::Result {
        f.write_str("FuturesOrdered { ... }")
    }
}

impl<T: SlotFuture<S::Waker, Output = A>, A: Drop, S: NewSource> GrowingQueue<T, A, S> {
    /// Makes an empty queue with one group of `n` slots, or with none if `n` is 0, and a place for `n` entries. The
    /// queue keeps `env`, by which its sources are made.
    ///
    /// Allocates and takes time in proportion to `n`.
    pub fn over(env: S::Env, alloc: Global, n: usize) -> Result<Self, NewFault>
        ensures { MakesGroup n (IsNewGrowingQueue S.made n POLL_LIMIT) result }
    {
        Self::over_limit(env, alloc, n, POLL_LIMIT)
    }

    /// As `over`; one poll of the set takes at most `limit` ready slots from each group, also from groups that are made
    /// later.
    pub fn over_limit(env: S::Env, alloc: Global, n: usize, limit: usize) -> Result<Self, NewFault>
        requires { 1 ≤ limit }
        ensures { MakesGroup n (IsNewGrowingQueue S.made n limit) result }
    {
        let set = FuturesUnordered::over_limit(env, alloc, n, limit)?;
        let queue = OrderedEntries::with_room(alloc, set, n)?;
        Ok(NumberedQueue { queue })
    }
}

impl<T: SlotFuture<SharedWaker, Output = A>, A: Drop> GrowingQueue<T, A, SharedReady> {
    /// Makes an empty queue without a group, whose futures are woken from any thread. Does not allocate.
    pub fn new(alloc: Global) -> Self
        ensures set { result.set ≡ no_groups POLL_LIMIT }
        ensures entries { result.entries ≡ [] }
    {
        NumberedQueue {
            queue: OrderedEntries::new(alloc, FuturesUnordered::new(alloc)),
        }
    }

    /// Makes an empty queue with one group of `n` slots, or with none if `n` is 0, and a place for `n` entries. Its
    /// futures are woken from any thread. It is `over` with shared sources, and fails as `over` does.
    pub fn with_capacity(alloc: Global, n: usize) -> Result<Self, NewFault>
        ensures { MakesGroup n (IsNewGrowingQueue IsNewShared n POLL_LIMIT) result }
    {
        Self::over((), alloc, n)
    }

    /// As `with_capacity`; one poll of the set takes at most `limit` ready slots from each group, also from groups that
    /// are made later.
    pub fn with_limit(alloc: Global, n: usize, limit: usize) -> Result<Self, NewFault>
        requires { 1 ≤ limit }
        ensures { MakesGroup n (IsNewGrowingQueue IsNewShared n limit) result }
    {
        Self::over_limit((), alloc, n, limit)
    }

    /// Makes a queue of the items, each added at the back, in order. Its first group has a slot for each item that
    /// `size_hint` of the iterator promises, and at least `FIRST_GROUP` slots.
    ///
    /// If it fails, drops the items that it took. Fails with `TooLarge` if the first group or a later one is too large,
    /// or if more than `MAX_LEN` items came. Allocates and takes time in proportion to the items and the first group.
    pub fn from_iter<I: IntoIterator<Item = T>>(alloc: Global, iter: I) -> Result<Self, NewFault>
        requires { IsFiniteSource (items_of I.IntoIterator I.IntoIter.Iterator iter) }
        ensures { MakesSharedQueue (items_of I.IntoIterator I.IntoIter.Iterator iter) result }
    {
        let iter = iter.into_iter();
        let (least, _most) = iter.size_hint();
        let mut queue = Self::with_capacity(alloc, least.max(FIRST_GROUP))?;
        for item in iter {
            queue.add_back(item)?;
        }
        Ok(queue)
    }
}
