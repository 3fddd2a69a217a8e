//! A set of futures that grows by groups of slots, and yields their outputs as they finish.
//!
//! Each group is a bounded set. A push goes into the last group; if that is full, the push makes a group of twice its
//! slots. A poll polls each group in turn, from the place at which the last poll ended, until one returns an output.
//! `AskGroup` says how one group is polled. One registration of the task covers all groups.
ghost use Rattle.std.specs.Prelude.{◌≡◌, ◌↔◌, ◌<◌, ◌≤◌, ◌+◌, ◌++◌, length, take, drop, IsTrue, Err, OnOk};
ghost use Rattle.std.specs.Prelude.{OnErr, IsErr};
ghost use Rattle.std.specs.Prelude.{IfOk, IfErr};
ghost use Rattle.std.specs.List.{All};
ghost use Rattle.futures.specs.Poll.{OnPending};
ghost use Rattle.futures.specs.Task.{Keeps};
ghost use Rattle.futures_buffered_core.specs.Drawn.{IsFiniteSource, items_of};
ghost use Rattle.futures_buffered_core.specs.Answer.{RefusesTooLarge};
ghost use Rattle.futures_buffered_core.specs.Made.{MakesGroup, MakesSlots};
ghost use Rattle.futures_buffered_core.specs.ReadyShared.{IsNewShared};
ghost use Rattle.futures_buffered_core.specs.ReadySource.{WaitsAlike};
ghost use Rattle.futures_buffered_unordered.specs.FuturesUnorderedBounded.{IsNewSet};
ghost use Rattle.futures_buffered_unordered.specs.Groups.{AsksEachOnce, AsksOne, next_place};
ghost use Rattle.futures_buffered_unordered.specs.FuturesUnordered.{EachHeld, EachCovered, Growing};
ghost use Rattle.futures_buffered_unordered.specs.FuturesUnordered.{GrowingPushes};
ghost use Rattle.futures_buffered_unordered.specs.FuturesUnordered.{IsAtBound, IsNewGrowing};
ghost use Rattle.futures_buffered_unordered.specs.FuturesUnordered.{PushesEach};
ghost use Rattle.futures_buffered_unordered.specs.FuturesUnordered.{PushesOrStays, no_groups, held_in_all};
ghost use Rattle.futures_buffered_unordered.specs.FuturesUnordered.{capacity_of};
ghost use Rattle.futures_buffered_unordered.specs.FuturesUnordered.{next_capacity, spare_places, SetRefuses};
ghost use Rattle.futures_buffered_unordered.specs.FuturesUnordered.{SetMayRefuse, MakesSharedSet};
ghost use Rattle.futures_buffered_unordered.specs.FuturesUnorderedInvariant.{AddsGroup};
ghost use Rattle.futures_buffered_unordered.specs.PollsGrowing.{PollsGroups, PollsGrowing};
ghost use Rattle.futures_buffered_unordered.specs.Extended.{Extends, HoldsAllOf, StopsAtBound};

use crate::ask_group::{AskGroup, ByRule};
use crate::futures_unordered_bounded::{BoundedSet, OfFutures, POLL_LIMIT};
use crate::poll_one::PollOne;
use futures::task::{Context, Poll};
use futures_buffered_core::ready_core::{MAX_CAPACITY, NewFault};
use futures_buffered_core::ready_shared::SharedReady;
use futures_buffered_core::ready_source::{NewSource, ReadySource};
use std::alloc::Global;
use std::marker::Model;

/// How many slots the first group has, if the caller chose no number.
pub const FIRST_GROUP: usize = 32;

/// How many values all groups hold, at most.
pub const MAX_HELD: usize = usize::MAX / 2;

const _: () = prove!(FIRST_GROUP == 32);

/// Futures or streams in groups of slots. The kind `K` says which.
///
/// A contract sees the groups, each a bounded set, the place at which the next poll begins, and the limit. The limit
/// says how many ready slots one poll takes from each group, at most. Only the calls that make a set, and a push that
/// makes a group, allocate. No call waits for another thread. Calls that return how many values are held or fit take
/// the same time at any number of groups.
#[derive(Drop)]
pub struct GrowingSet<F: Drop, S: NewSource, K> {
    groups: Vec<BoundedSet<F, S, K>>,
    place: usize,
    held: usize,
    limit: usize,
    env: S::Env,
    alloc: Global,
}

/// Any number of futures.
pub type FuturesUnordered<F, S = SharedReady> = GrowingSet<F, S, OfFutures>;

impl<F: Drop, S: NewSource, K> Model for GrowingSet<F, S, K> {
    ghost use Rattle.futures_buffered_unordered.specs.FuturesUnordered.{Growing, growing_code};

    ghost Value = { Growing F S };

    ghost coded = { growing_code F.code S.code };

    ghost use Rattle.futures_buffered_unordered.specs.FuturesUnorderedInvariant.{KeepsGroups};

    ghost view = { λ s. record {
      groups = record { listed = s.groups.items; place = s.place };
      limit = s.limit;
    } };

    ghost invariant = { λ s. KeepsGroups S.needs
        (record { listed = s.groups.items; place = s.place }) s.limit s.held };
}

// Drops the group at this place, which holds nothing. A group ends once, so this code is not inlined into a poll.
#[cold]
#[inline(never)]
fn drop_group<F: Drop, S: NewSource, K>(groups: &mut Vec<BoundedSet<F, S, K>>, place: usize)
    requires { place < length groups.old.items }
    ensures { groups.new.items ≡ take place groups.old.items ++ drop (place + 1) groups.old.items }
{
    groups.remove(place).leave_siblings();
}

impl<F: Drop, S: NewSource, K> GrowingSet<F, S, K> {
    /// Makes a set without groups, whose sources will be made by `env`. Does not allocate.
    pub fn without_groups(env: S::Env, alloc: Global, limit: usize) -> Self
        requires { 1 ≤ limit }
        ensures { result ≡ no_groups limit }
    {
        GrowingSet {
            groups: Vec::new(alloc),
            place: 0,
            held: 0,
            limit,
            env,
            alloc,
        }
    }

    /// The number of values in the set.
    pub fn len(&self) -> usize
        ensures { result ≡ held_in_all self.now.groups.listed }
    {
        self.held
    }

    /// Whether the set holds no value.
    pub fn is_empty(&self) -> bool
        ensures { IsTrue result ↔ (held_in_all self.now.groups.listed ≡ 0) }
    {
        self.held == 0
    }

    /// How many ready slots one poll takes from each group, at most. This limit never changes.
    pub fn limit(&self) -> usize
        ensures { result ≡ self.now.limit }
    {
        self.limit
    }

    /// How many values fit: of several groups, their values and the free slots of the last one; of one group, its
    /// slots; without groups, 0.
    pub fn capacity(&self) -> usize
        ensures { result ≡ capacity_of self.now.groups.listed }
    {
        match self.groups.len() {
            0 => 0,
            1 => self.groups[0].capacity(),
            _ => self.held + self.spare_places(),
        }
    }

    // The number of free slots in the last group, into which a push goes.
    fn spare_places(&self) -> usize
        ensures value { result ≡ spare_places self.now.groups.listed }
        ensures few { result ≤ MAX_CAPACITY }
    {
        let groups = self.groups.len();
        if groups == 0 {
            return 0;
        }
        let last = &self.groups[groups - 1];
        last.capacity() - last.len()
    }

    // The number of slots of the group that a push makes.
    fn next_capacity(&self) -> usize
        ensures value { result ≡ next_capacity FIRST_GROUP self.now.groups.listed }
        ensures some { 0 < result }
    {
        let groups = self.groups.len();
        if groups == 0 {
            return FIRST_GROUP;
        }
        2 * self.groups[groups - 1].capacity()
    }

    // Makes an empty group next to the others.
    fn make_group(&mut self, capacity: usize) -> Result<BoundedSet<F, S, K>, NewFault>
        ensures group { MakesSlots capacity (IsNewSet S.made capacity self.old.limit) result }
        ensures beside { IfOk result (λ group.
            All (λ other. WaitsAlike S.needs other.source group.source)
            self.old.groups.listed) }
        ensures same { self.new ≡ self.old }
    {
        let groups = self.groups.len();
        if groups == 0 {
            return BoundedSet::with_new_source(&self.env, self.alloc, capacity, self.limit);
        }
        self.groups[groups - 1].make_sibling(self.alloc, capacity)
    }

    // Adds an empty group after all others. Both allocations are made before the list changes.
    fn add_group(&mut self, capacity: usize) -> Result<(), NewFault>
        requires some { 0 < capacity }
        requires full { spare_places self.old.groups.listed ≡ 0 }
        ensures added { OnOk result (AddsGroup S.made capacity self.old self.new) }
        ensures same { OnErr result (self.new ≡ self.old) }
        ensures refuses { RefusesTooLarge capacity result }
    {
        let group = self.make_group(capacity)?;
        if self.groups.reserve(1).is_err() {
            return Err(NewFault::Memory);
        }
        self.groups.push_reserved(group);
        Ok(())
    }

    // Puts the value into the last group, which has a free slot.
    fn push_last(&mut self, value: F)
        requires room { 0 < spare_places self.old.groups.listed }
        requires few { held_in_all self.old.groups.listed < MAX_HELD }
        ensures pushed { GrowingPushes S.marks S.made FIRST_GROUP self.old value self.new }
        ensures count { held_in_all self.new.groups.listed ≡ held_in_all self.old.groups.listed + 1 }
    {
        let last = self.groups.len() - 1;
        self.groups[last].push(value);
        self.held += 1;
    }

    // The groups, oldest first.
    pub(crate) fn queues(&self) -> &Vec<BoundedSet<F, S, K>> {
        &self.groups
    }

    /// Whether the set takes no more values: it holds `MAX_HELD`, or a push would make a group of more than
    /// `MAX_CAPACITY` slots. A push fails then, and otherwise only if an allocation fails.
    pub fn is_at_bound(&self) -> bool
        ensures { IsTrue result ↔ IsAtBound self.now.groups.listed }
    {
        self.held == MAX_HELD || (self.spare_places() == 0 && self.next_capacity() > MAX_CAPACITY)
    }

    /// Puts the value into the last group. If that is full, or there is none, makes a group after it: of twice as many
    /// slots, or of `FIRST_GROUP`.
    ///
    /// Returns the value, and changes nothing, if the set holds `MAX_HELD`, if the new group would exceed `MAX_CAPACITY`
    /// slots, or if an allocation fails. A push into a free slot of the last group does not allocate, and takes the
    /// same time at any capacity. Any other push allocates and takes time in proportion to the new group. Polls nothing.
    /// Do not count on a wake: poll the set after a push.
    pub fn push(&mut self, value: F) -> Result<(), F>
        ensures push { PushesOrStays S.marks S.made self.old value result self.new }
        ensures back { IfErr result (λ back. back ≡ value) }
        ensures large { IsAtBound self.old.groups.listed → IsErr result }
    {
        if self.held == MAX_HELD {
            return Err(value);
        }
        if self.spare_places() == 0 {
            let capacity = self.next_capacity();
            let Ok(()) = self.add_group(capacity) else {
                return Err(value);
            };
        }
        self.push_last(value);
        Ok(())
    }

    /// As `push`, for a caller that has no use for a value whose push fails. Drops that value, does not change the set,
    /// and returns the reason, so that `?` takes it.
    pub fn add(&mut self, value: F) -> Result<(), NewFault>
        ensures push { PushesOrStays S.marks S.made self.old value result self.new }
        ensures large { (result ≡ Err NewFault.TooLarge) ↔ IsAtBound self.old.groups.listed }
    {
        if self.push(value).is_ok() {
            return Ok(());
        }
        Err(if self.is_at_bound() {
            NewFault::TooLarge
        } else {
            NewFault::Memory
        })
    }

    /// Pushes each item, in order, as `push` does. Returns the first item whose push fails; the items before it stay,
    /// and no further item is taken from the iterator.
    pub fn extend<I: IntoIterator<Item = F>>(&mut self, iter: I) -> Result<(), F>
        requires { IsFiniteSource (items_of I.IntoIterator I.IntoIter.Iterator iter) }
        ensures { Extends (items_of I.IntoIterator I.IntoIter.Iterator iter)
            (GrowingPushes S.marks S.made FIRST_GROUP)
            (λ stopped new. SetMayRefuse stopped × (new ≡ stopped)) self.old result self.new }
    {
        for item in iter {
            if let Err(back) = self.push(item) {
                return Err(back);
            }
        }
        Ok(())
    }

    // Adds each item, in order, up to the first whose push fails.
    pub(crate) fn add_each<I: IntoIterator<Item = F>>(&mut self, iter: I) -> Result<(), NewFault>
        requires { IsFiniteSource (items_of I.IntoIterator I.IntoIter.Iterator iter) }
        ensures all { OnOk result (HoldsAllOf (items_of I.IntoIterator I.IntoIter.Iterator iter)
            (PushesEach S.marks S.made self.old) self.new) }
        ensures large { result ≡ Err NewFault.TooLarge
            → StopsAtBound (items_of I.IntoIterator I.IntoIter.Iterator iter)
            (GrowingPushes S.marks S.made FIRST_GROUP) SetRefuses self.old }
    {
        for item in iter {
            self.add(item)?;
        }
        Ok(())
    }

    /// Drops each value, with the groups. A later push makes a group as the first push of a new set does, over a source
    /// of the same environment.
    ///
    /// Does not allocate. Takes time in proportion to the slots of the groups. Wakes a task that waits, unless a waker
    /// of a slot is kept elsewhere: the sources are dropped, and the task's waker with them.
    pub fn clear(&mut self)
        ensures { self.new ≡ no_groups self.old.limit }
    {
        self.groups.clear();
        self.place = 0;
        self.held = 0;
    }

    // The place of the group that is polled next.
    fn next_place(&self) -> usize
        requires { 0 < length self.now.groups.listed }
        ensures value { result ≡ next_place self.now.groups }
        ensures below { result < length self.now.groups.listed }
    {
        if self.place < self.groups.len() {
            self.place
        } else {
            0
        }
    }

    // Polls the group at the place, and continues at the next place if the group returns no output. Drops a group that
    // has ended, unless it is the last.
    fn ask_one<R: AskGroup<F, S, K>>(
        &mut self,
        rule: &R,
        cx: &mut Context<'_>,
        is_registered: bool,
    ) -> Poll<Option<R::Output>>
        requires some { 0 < length self.old.groups.listed }
        requires pollable { EachHeld R.can_poll self.old.groups.listed }
        requires registered { IsTrue is_registered →
            EachCovered S.needs cx.old self.old.groups.listed }
        ensures asked { AsksOne (R.asks is_registered)
            self.old.groups result self.new.groups cx.old cx.new }
        ensures limit { self.new.limit ≡ self.old.limit }
        ensures pollable { EachHeld R.can_poll self.new.groups.listed }
        ensures covered { OnPending result (EachCovered S.needs cx.new self.new.groups.listed) }
        ensures still_covered { IsTrue is_registered →
            EachCovered S.needs cx.new self.new.groups.listed }
        ensures kept { Keeps cx.old cx.new }
    {
        let place = self.next_place();
        let group = &mut self.groups[place];
        let before = group.len();
        let answer = rule.ask(group, cx, is_registered);
        self.held -= before - group.len();
        match &answer {
            Poll::Pending => self.place = place + 1,
            Poll::Ready(output) => {
                if output.is_some() {
                    self.place = place;
                } else if place + 1 == self.groups.len() {
                    self.place = 0;
                } else {
                    drop_group(&mut self.groups, place);
                    self.place = place;
                }
            }
        }
        answer
    }

    /// Polls each group at most once, in turn, until one returns an output; `rule` says how one group is polled.
    ///
    /// Returns `Ready(None)` if each group returned `None`. Drops a group that returned `None`, unless it is the last.
    /// Apart from the polls of the groups, does not allocate. Apart from them, takes time in proportion to the number
    /// of groups and to the slots of dropped groups.
    pub fn poll_groups<R: AskGroup<F, S, K>>(
        &mut self,
        rule: &R,
        cx: &mut Context<'_>,
    ) -> Poll<Option<R::Output>>
        requires { EachHeld R.can_poll self.old.groups.listed }
        ensures { PollsGroups R.can_poll R.asks S.needs self.old result self.new cx.old cx.new }
    {
        let mut is_registered = false;
        for _asked in 0..self.groups.len() {
            match self.ask_one(rule, cx, is_registered) {
                Poll::Pending => is_registered = true,
                Poll::Ready(answer) => {
                    if let Some(output) = answer {
                        return Poll::Ready(Some(output));
                    }
                }
            }
        }
        if is_registered {
            Poll::Pending
        } else {
            Poll::Ready(None)
        }
    }
}

impl<F: Drop, S: NewSource> FuturesUnordered<F, S> {
    /// Makes an empty set with one group of `n` slots, or with none if `n` is 0. The set keeps `env`, by which its
    /// sources are made.
    ///
    /// Allocates and takes time in proportion to `n`.
    pub fn over(env: S::Env, alloc: Global, n: usize) -> Result<Self, NewFault>
        ensures { MakesGroup n (IsNewGrowing S.made n POLL_LIMIT) result }
    {
        Self::over_limit(env, alloc, n, POLL_LIMIT)
    }

    /// As `over`; one poll takes at most `limit` ready slots from each group, also from groups that are made later.
    pub fn over_limit(env: S::Env, alloc: Global, n: usize, limit: usize) -> Result<Self, NewFault>
        requires { 1 ≤ limit }
        ensures { MakesGroup n (IsNewGrowing S.made n limit) result }
    {
        let mut groups = Self::without_groups(env, alloc, limit);
        if n > 0 {
            groups.add_group(n)?;
        }
        Ok(groups)
    }

    /// Polls each group at most once, in turn, until one returns an output; `rule` says how one held value is polled.
    ///
    /// Returns `Ready(None)` if the set is empty; otherwise `Pending` if no group returns an output. Drops each empty
    /// group that it polls, unless it is the last. Does not allocate. Takes time in proportion to the number of groups,
    /// to the ready slots taken and to the slots of dropped groups, apart from the polls. Registers the task once. If a
    /// group paused or reached its limit, wakes the task, also with an output.
    pub fn poll_with<R: PollOne<F, S::Waker>>(
        &mut self,
        rule: &R,
        cx: &mut Context<'_>,
    ) -> Poll<Option<R::Output>>
        requires { EachHeld R.can_poll self.old.groups.listed }
        ensures { PollsGrowing R.PollOne S.ReadySource
            self.old result self.new cx.old cx.new }
    {
        self.poll_groups(&ByRule(rule), cx)
    }
}

impl<F: Drop, K> GrowingSet<F, SharedReady, K> {
    /// Makes an empty set without a group, whose values are woken from any thread. Does not allocate.
    pub fn new(alloc: Global) -> Self
        ensures { result ≡ no_groups POLL_LIMIT }
    {
        Self::without_groups((), alloc, POLL_LIMIT)
    }
}

impl<F: Drop> FuturesUnordered<F, SharedReady> {
    /// Makes an empty set with one group of `n` slots, or with none if `n` is 0. Its values are woken from any thread.
    /// It is `over` with shared sources, and fails as `over` does.
    pub fn with_capacity(alloc: Global, n: usize) -> Result<Self, NewFault>
        ensures { MakesGroup n (IsNewGrowing IsNewShared n POLL_LIMIT) result }
    {
        Self::with_limit(alloc, n, POLL_LIMIT)
    }

    /// As `with_capacity`; one poll takes at most `limit` ready slots from each group, also from groups that are made
    /// later.
    pub fn with_limit(alloc: Global, n: usize, limit: usize) -> Result<Self, NewFault>
        requires { 1 ≤ limit }
        ensures { MakesGroup n (IsNewGrowing IsNewShared n limit) result }
    {
        Self::over_limit((), alloc, n, limit)
    }

    /// Makes a set of the items, pushed in order. Its first group has a slot for each item that `size_hint` of the
    /// iterator promises, and at least `FIRST_GROUP` slots.
    ///
    /// If it fails, drops the items that it took. Fails with `TooLarge` if the first group or a later one is too large,
    /// or if more than `MAX_HELD` items came. Allocates and takes time in proportion to the items and the first group.
    pub fn from_iter<I: IntoIterator<Item = F>>(alloc: Global, iter: I) -> Result<Self, NewFault>
        requires { IsFiniteSource (items_of I.IntoIterator I.IntoIter.Iterator iter) }
        ensures { MakesSharedSet (items_of I.IntoIterator I.IntoIter.Iterator iter) result }
    {
        let iter = iter.into_iter();
        let (least, _most) = iter.size_hint();
        let mut set = Self::with_capacity(alloc, least.max(FIRST_GROUP))?;
        set.add_each(iter)?;
        Ok(set)
    }
}

/// A poll of groups polls each group at most once, in turn from the next place, as the group was before the poll.
///
/// This is a law of the relation in the contract of `poll_groups`. Its body is empty.
pub fn polls_ask_each_group_once<F: Drop, S: NewSource, K, R: AskGroup<F, S, K>>()
    ensures { AsksEachOnce R.asks }
{}
