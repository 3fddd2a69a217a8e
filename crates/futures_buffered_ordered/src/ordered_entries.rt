//! The entries of an ordered queue, over any set that takes a number with each future.
//!
//! A push adds an entry at either end. A poll yields the output of the front alone: an output that comes before its
//! turn is kept in its entry.
ghost use Rattle.futures_buffered_ordered.specs.Below.{IsFiniteSource, items_of, Extends};
ghost use Rattle.std.specs.Prelude.{◌≡◌, ◌↔◌, ◌⊎◌, ◌<◌, ◌≤◌, ◌+◌, ℕ, [], ◌∷◌, length, true, false, IfOk, IfErr, IsErr};
ghost use Rattle.std.specs.Prelude.{IsOk, IsTrue, MatchOption, OnErr, OnOk};
ghost use Rattle.std.specs.VecDeque.{deque_capacity};
ghost use Rattle.futures.specs.Poll.{IfReady, OnPending};
ghost use Rattle.futures_buffered_ordered.specs.Numbered.{PushesInto};
ghost use Rattle.futures_buffered_ordered.specs.OrderedEntries.{AddsBack, AddsFront, BesideTask, Kept, LastStep};
ghost use Rattle.futures_buffered_ordered.specs.OrderedEntries.{LeavesQueue, NoNumberTwice, PollsOrdered};
ghost use Rattle.futures_buffered_ordered.specs.OrderedEntries.{PushesOrHandsBack, RefusesOne, SetYields};
ghost use Rattle.futures_buffered_ordered.specs.OrderedEntries.{starts_running, with_task, without_entries};
ghost use Rattle.futures_buffered_ordered.specs.OrderedEntriesInvariant.{AddingKeeps, IsNumbered};

use crate::numbered::Numbered;
use crate::numbered_set::{NumberedSet, PollNumberedSet};
use futures::task::{Context, Poll};
use std::alloc::{AllocError, Global};
use std::collections::VecDeque;
use std::marker::Model;

/// How many entries a queue has, at most.
pub const MAX_LEN: usize = usize::MAX / 2;

/// A set of numbered futures, and the list of entries over it.
///
/// A contract sees the set, the entries from the front to the back, and how many entries had a place when the queue was
/// made. An entry in progress has the number of its future. It is the number of its place, so no entry keeps it. The
/// ordered queues are made of this type. Pushes and polls require that the set holds the futures of the entries in
/// progress, and leave it so.
#[derive(Drop)]
pub struct OrderedEntries<Q: Drop, A: Drop> {
    /// The set that holds the futures in progress.
    pub set: Q,
    // The output of each entry that keeps one. An entry in progress has none.
    entries: VecDeque<Option<A>>,
    // How many entries had a place when the queue was made. There may be places for more by now.
    room: usize,
    // The number of the front. Numbers rise by one from entry to entry, and wrap: only their differences count. There
    // are fewer entries than half the numbers, so the number of an entry never changes.
    outgoing: usize,
}

impl<Q: Drop, A: Drop> Model for OrderedEntries<Q, A> {
    ghost use Rattle.std.specs.Prelude.{◌≤◌};
    ghost use Rattle.std.specs.VecDeque.{deque_capacity};
    ghost use Rattle.futures_buffered_ordered.specs.OrderedEntries.{Ordered};
    ghost use Rattle.futures_buffered_ordered.specs.OrderedEntriesInvariant.{numbered_from};

    ghost Value = { Ordered Q A };

    ghost view = { λ q. record {
      set = q.set;
      entries = numbered_from q.outgoing q.entries.items;
      room = q.room;
    } };

    ghost invariant = { λ q. q.room ≤ deque_capacity q.entries };
}

impl<Q: Drop, A: Drop> OrderedEntries<Q, A> {
    /// Makes a queue without entries over this set. Does not allocate.
    pub fn new(alloc: Global, set: Q) -> Self
        ensures set { result.set ≡ set }
        ensures entries { result.entries ≡ [] }
    {
        OrderedEntries {
            set,
            entries: VecDeque::new(alloc),
            room: 0,
            outgoing: 0,
        }
    }

    /// As `new`, with a place for `room` entries. Allocates in proportion to `room`, and not at all if it is 0.
    pub fn with_room(alloc: Global, set: Q, room: usize) -> Result<Self, AllocError>
        ensures set { IfOk result (λ made. made.set ≡ set) }
        ensures entries { IfOk result (λ made. made.entries ≡ []) }
        ensures room { IfOk result (λ made. room ≤ made.room) }
        ensures none { room ≡ 0 → IsOk result }
    {
        let entries = VecDeque::with_capacity(alloc, room)?;
        Ok(OrderedEntries {
            set,
            entries,
            room,
            outgoing: 0,
        })
    }

    /// The number of entries, in progress and kept.
    pub fn len(&self) -> usize
        ensures value { result ≡ length self.now.entries }
        ensures once { NoNumberTwice self.now.entries }
    {
        self.entries.len()
    }

    /// Whether there is no entry.
    pub fn is_empty(&self) -> bool
        ensures { IsTrue result ↔ (length self.now.entries ≡ 0) }
    {
        self.len() == 0
    }

    /// Drops each entry, with the output that it keeps. The set stays, so the caller has to remove the futures in
    /// progress. There is a place for as many entries as before. Does not allocate.
    pub fn drop_entries(&mut self)
        ensures queue { self.new ≡ without_entries self.old.set self.old }
    {
        self.entries.clear();
    }

    fn front_runs(&self) -> bool
        ensures { result ≡ starts_running self.now.entries }
    {
        match self.entries.front() {
            Some(None) => true,
            _ => false,
        }
    }
}

// Makes a place for one more entry, and pushes the future into the set, with this number. The caller adds the entry. If
// there is no place, or if the set refuses the future, returns the future. Does not allocate if the set refuses all
// pushes.
fn admit<Q: NumberedSet, E: Drop>(
    set: &mut Q,
    entries: &mut VecDeque<E>,
    future: Q::Future,
    number: usize,
) -> Result<(), Q::Future>
    requires held { Q.takes set.old }
    requires fit { Q.is_fit future }
    ensures pushed { OnOk result (PushesInto Q.pushes Q.count Q.with_number Q.keeps
        set.old (record { future = future; number = number }) set.new) }
    ensures place { OnOk result (length entries.new.items < deque_capacity entries.new) }
    ensures back { IfErr result (λ back. (back ≡ future) × (set.new ≡ set.old)) }
    ensures refused { OnErr result ((deque_capacity entries.old ≤ length entries.old.items) ⊎ Q.may_refuse set.old) }
    ensures large { (length entries.old.items ≡ MAX_LEN) ⊎ Q.refuses set.old → IsErr result }
    ensures same { entries.new.items ≡ entries.old.items }
    ensures grown { deque_capacity entries.old ≤ deque_capacity entries.new }
    ensures again { Q.takes set.new }
{
    if entries.len() == entries.capacity() && (set.refuses_all() || entries.reserve(1).is_err()) {
        return Err(future);
    }
    match set.push_numbered(Numbered { future, number }) {
        Ok(()) => Ok(()),
        Err(back) => Err(back.future),
    }
}

impl<Q: NumberedSet, A: Drop> OrderedEntries<Q, A> {
    /// Adds the future after all others, in progress, with the next number.
    ///
    /// Returns the future, and changes nothing, if the queue has `MAX_LEN` entries, if the set refuses the future, or
    /// if an allocation fails. Allocates only if there are as many entries as places for them, or if the push into the
    /// set does.
    pub fn add_back(&mut self, future: Q::Future) -> Result<(), Q::Future>
        requires numbered { IsNumbered Q.with_number Q.count self.old }
        requires held { Q.takes self.old.set }
        requires fit { Q.is_fit future }
        ensures push { PushesOrHandsBack AddsBack Q.NumberedSet self.old future result self.new }
        ensures keeps { AddingKeeps Q.with_number Q.count Q.keeps self.old self.new }
        ensures again { Q.takes self.new.set }
    {
        let number = self.outgoing.wrapping_add(self.entries.len());
        admit(&mut self.set, &mut self.entries, future, number)?;
        self.entries.push_back_reserved(None);
        Ok(())
    }

    /// As `add_back`, before all others: the queue yields its output next.
    pub fn add_front(&mut self, future: Q::Future) -> Result<(), Q::Future>
        requires numbered { IsNumbered Q.with_number Q.count self.old }
        requires held { Q.takes self.old.set }
        requires fit { Q.is_fit future }
        ensures push { PushesOrHandsBack AddsFront Q.NumberedSet self.old future result self.new }
        ensures keeps { AddingKeeps Q.with_number Q.count Q.keeps self.old self.new }
        ensures again { Q.takes self.new.set }
    {
        let number = self.outgoing.wrapping_sub(1);
        admit(&mut self.set, &mut self.entries, future, number)?;
        self.outgoing = number;
        self.entries.push_front_reserved(None);
        Ok(())
    }

    /// Adds each item at the back, in order, as `add_back` does. Returns the first item that is refused; the items
    /// before it stay, and no further item is taken from the iterator.
    pub fn extend<I: IntoIterator<Item = Q::Future>>(&mut self, iter: I) -> Result<(), Q::Future>
        requires finite { IsFiniteSource (items_of I.IntoIterator I.IntoIter.Iterator iter) }
        requires numbered { IsNumbered Q.with_number Q.count self.old }
        requires held { Q.takes self.old.set }
        requires fit { (future : Q.Future) → Q.is_fit future }
        ensures extends { Extends (items_of I.IntoIterator I.IntoIter.Iterator iter) (AddsBack Q.pushes)
            (RefusesOne Q.may_refuse) self.old result self.new }
        ensures keeps { AddingKeeps Q.with_number Q.count Q.keeps self.old self.new }
    {
        for item in iter {
            self.add_back(item)?;
        }
        Ok(())
    }

    // Removes the front and returns its output. Returns `None` if there is no entry.
    fn pop_kept(&mut self) -> Option<A>
        requires kept { starts_running self.old.entries ≡ false }
        requires numbered { IsNumbered Q.with_number Q.count self.old }
        ensures front { MatchOption result
            ((self.old.entries ≡ []) × (self.new ≡ self.old))
            (λ x. (self.old.entries ≡ Kept x ∷ self.new.entries) × (self.new.room ≡ self.old.room)) }
        ensures set { self.new.set ≡ self.old.set }
        ensures numbered { IsNumbered Q.with_number Q.count self.new }
    {
        match self.entries.pop_front() {
            None => None,
            Some(None) => unreachable!(),
            Some(Some(output)) => {
                self.outgoing = self.outgoing.wrapping_add(1);
                Some(output)
            }
        }
    }

    // Polls the set once. Keeps the output in the entry that has its number.
    fn keep_next<R>(&mut self, rule: &R, cx: &mut Context<'_>) -> Poll<()>
    where
        Q: PollNumberedSet<R, Output = A>,
        requires can { Q.can_poll self.old.set }
        requires numbered { IsNumbered Q.with_number Q.count self.old }
        requires runs { starts_running self.old.entries ≡ true }
        ensures gave { IfReady result (λ _. (out : ℕ × A) × SetYields (BesideTask Q.gives)
            (with_task self.old cx.old) out (with_task self.new cx.new)) }
        ensures waits { OnPending result (LastStep (BesideTask Q.gives)
            (with_task self.old cx.old) Poll.Pending (with_task self.new cx.new)) }
        ensures fewer { IfReady result (λ _. Q.count self.new.set + 1 ≡ Q.count self.old.set) }
        ensures queue { LeavesQueue Q.count Q.keeps Q.NumberedPolls self.old result self.new cx.old cx.new }
        ensures numbered { IsNumbered Q.with_number Q.count self.new }
    {
        match self.set.poll_numbered(rule, cx) {
            Poll::Pending => Poll::Pending,
            Poll::Ready(None) => unreachable!(),
            Poll::Ready(Some((number, output))) => {
                let place = number.wrapping_sub(self.outgoing);
                self.entries[place] = Some(output);
                Poll::Ready(())
            }
        }
    }

    /// Polls the queue once; `rule` says how one held future is polled.
    ///
    /// Returns `Ready(None)` if there is no entry. If the front's output is kept, removes the front and returns its
    /// output, without a poll of the set. Otherwise polls the set again and again, and keeps each output in its entry,
    /// until the front's output has come or the set returns `Pending`. Then returns the front's output, or `Pending`.
    ///
    /// Allocates only what the set's polls do, and takes their time. There is at most one more of these polls than
    /// outputs that they return.
    pub fn poll_entries<R>(&mut self, rule: &R, cx: &mut Context<'_>) -> Poll<Option<A>>
    where
        Q: PollNumberedSet<R, Output = A>,
        requires can { Q.can_poll self.old.set }
        requires numbered { IsNumbered Q.with_number Q.count self.old }
        ensures polls { PollsOrdered Q.count Q.keeps Q.NumberedPolls self.old result self.new cx.old cx.new }
        ensures numbered { IsNumbered Q.with_number Q.count self.new }
    {
        while self.front_runs() {
            match self.keep_next(rule, cx) {
                Poll::Ready(()) => {}
                Poll::Pending => return Poll::Pending,
            }
        }
        Poll::Ready(self.pop_kept())
    }
}
