//! The poller's two seats: its seat of the list, and its seat of the place of the task's waker. The poller alone makes
//! steps with them: it dequeues from the list, and publishes the waker.
//!
//! A contract sees the steps of both, and for each step at the place how many steps at the list came before it.
ghost use Rattle.std.specs.Prelude.{◌≡◌, ◌⊎◌, ◌<◌, ℕ, true, false, List, ◌++◌, length, None, IsSomeAnd};
ghost use Rattle.std.specs.Arc.{arc_value};
ghost use Rattle.futures.specs.Task.{Hears, IsArmed, Keeps, Wakes};
ghost use Rattle.futures_buffered_core.specs.WakerPlace.{GivesUp, IsNewPoller, PutsOrMeets, TakesBack};
ghost use Rattle.futures_buffered_place.specs.History.{no_history};
ghost use Rattle.futures_buffered_table.specs.Taking.{CallsAtStub, IsTaking};
ghost use Rattle.futures_buffered_table.specs.declared.answer.Taken.TheVariants.{Slot};
ghost use Rattle.futures_buffered_table.specs.declared.view.AtomicStep.{AtomicStep};

use crate::ready_core::Taken;
use crate::waker_place::{AtPlace, OuterWaker, PollerWaker, WakerPlace};
use futures::task::{Context, Waker};
use futures_buffered_table::ready_table::{PollSeat, ReadyList};
use std::marker::Model;
use std::sync::Arc;

/// Both seats of one poller.
#[derive(Drop)]
pub struct PollerSide<O> {
    poll: PollSeat,
    task: PollerWaker<O>,
}

impl<O> Model for PollerSide<O> {
    ghost use Rattle.futures_buffered_core.specs.SeatCodes.{side_code};
    ghost use Rattle.futures_buffered_core.specs.WakerPlace.{Side};

    ghost Value = { Side O };

    ghost coded = { side_code O.code };

    ghost view = { λ s. record { poll = s.poll; task = s.task } };
}

impl<O> PollerSide<O> {
    pub fn new(poll: PollSeat, task: PollerWaker<O>) -> PollerSide<O>
        ensures { (result.poll ≡ poll) × (result.task ≡ task) }
    {
        PollerSide { poll, task }
    }
}

impl<O: OuterWaker> PollerSide<O> {
    /// Dequeues from the list.
    ///
    /// It makes steps at the place only if it returns no slot and its head is the stub. Then it has published the waker
    /// that it keeps, if any. It did so after it read the link of the stub, and before it read the tail.
    #[inline(always)]
    pub fn take(&mut self, list: &ReadyList, place: &Arc<WakerPlace<O>>) -> Taken
        requires list { self.old.poll.list ≡ list.now.list }
        requires place { self.old.task.place ≡ (arc_value place.now).place }
        ensures list { self.new.poll.list ≡ self.old.poll.list }
        ensures named { (slot : ℕ) → result ≡ Slot slot → slot < list.now.capacity }
        ensures shape { (shape : List AtomicStep) × (self.new.poll.steps ≡ self.old.poll.steps ++ shape)
            × IsTaking list.now.capacity self.old.poll.head shape result self.new.poll.head }
        ensures calls { CallsAtStub (λ made old new. GivesUp (length made) old new) list.now.capacity self.old.poll.steps
            result self.new.poll.head self.old.task self.new.task }
    {
        list.take_with(&mut self.poll, &mut AtPlace::new(place, &mut self.task))
    }

    /// Publishes a waker in the place, after as many steps at the list as this side has made.
    pub fn put_in(&mut self, place: &WakerPlace<O>, outer: O)
        requires { self.old.task.place ≡ place.now.place }
        ensures poll { self.new.poll ≡ self.old.poll }
        ensures same { self.new.task.place ≡ self.old.task.place }
        ensures alone { self.new.task.alone ≡ self.old.task.alone }
        ensures own { self.new.task.own ≡ self.old.task.own }
        ensures put { PutsOrMeets (length self.old.poll.steps) self.old.task.alone outer self.old.task.did self.new.task.did }
    {
        self.task.put_in(place, outer, &self.poll);
    }

    /// Publishes the waker that it keeps, if it keeps one.
    pub fn give_up_own(&mut self, place: &WakerPlace<O>)
        requires { self.old.task.place ≡ place.now.place }
        ensures poll { self.new.poll ≡ self.old.poll }
        ensures gives { GivesUp (length self.old.poll.steps) self.old.task self.new.task }
    {
        self.task.give_up_own(place, &self.poll);
    }

    /// Returns the task's side of a sibling source.
    pub fn beside(&mut self, place: &WakerPlace<O>) -> PollerWaker<O>
        requires { self.old.task.place ≡ place.now.place }
        ensures poll { self.new.poll ≡ self.old.poll }
        ensures same { self.new.task ≡ record self.old.task { alone = false } }
        ensures new { IsNewPoller None no_history result }
        ensures place { (result.place ≡ self.old.task.place) × (result.alone ≡ false) }
    {
        self.task.beside(place)
    }
}

impl PollerSide<Waker> {
    /// Keeps the task's waker. If this side keeps none, it first takes back the one that the place keeps. It does so
    /// after as many steps at the list as this side has made.
    pub fn register(&mut self, place: &Arc<WakerPlace<Waker>>, cx: &mut Context<'_>)
        requires { self.old.task.place ≡ (arc_value place.now).place }
        ensures poll { self.new.poll ≡ self.old.poll }
        ensures same { self.new.task.place ≡ self.old.task.place }
        ensures alone { self.new.task.alone ≡ self.old.task.alone }
        ensures armed { IsArmed cx.new }
        ensures heard { Hears cx.new (arc_value place.now).source }
        ensures kept { Keeps cx.old cx.new }
        ensures own { (cx.new.lacks_waker ≡ true) ⊎ IsSomeAnd self.new.task.own (λ waker. Wakes waker cx.old) }
        ensures back { TakesBack (length self.old.poll.steps) self.old.task.own self.old.task.did self.new.task.did }
    {
        self.task.register(place, cx, &self.poll);
    }
}
