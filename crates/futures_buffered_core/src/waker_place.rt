//! The place in which a wake finds the waker of the task.
//!
//! A wake first enqueues its slot in the list, and then looks here. One word says that a waker is kept here, that none
//! is, or that a call is at the place. No call waits.
//!
//! A wake reads the word. If a waker is kept, it tries one compare-exchange; if that succeeds, it takes the waker, and
//! stores that none is kept. A poller reads the word too. If none is kept and no other source publishes here, the
//! poller writes its waker and stores that one is kept. Until then no other call changes the word. Otherwise it tries
//! one compare-exchange, and stores after it. No wake is lost by that, in whatever order the steps come.
//!
//! - The poller publishes its waker before it reads the tail that lets it return `Empty`. If a wake swaps its slot into
//!   the tail before that read, the poller returns `Pause`, and the task polls again. If a wake swaps its slot in
//!   later, it finds the waker, unless another wake took it in between. That other wake wakes the task.
//! - A wake that finds another wake at the place leaves the task to it. That other wake wakes the task.
//! - A wake may find the poller at the place, or no waker, also while the poller writes its own. It leaves its slot to
//!   the poller, which reads the tail later, or to the wake that took the waker.
//! - A poller that has to publish its waker and finds a wake at the place wakes the task itself.
//!
//! Every step is sequentially consistent, so all steps are in one order.
ghost use Rattle.std.specs.Prelude.{◌≡◌, ◌⊎◌, ℕ, true, false, Option, None, IfOk, IsSomeAnd, length};
ghost use Rattle.futures.specs.Pool.Ids.{TableId-set};
ghost use Rattle.std.specs.Arc.{arc_value};
ghost use Rattle.futures.specs.Task.{Hears, IsArmed, Keeps, Wakes};
ghost use Rattle.futures_buffered_core.specs.WakerPlace.{GivesUp, HasBack, IsNewPoller, LooksAfter, PutsOrMeets, TakesBack};
ghost use Rattle.futures_buffered_place.specs.History.{no_history, putter};
ghost use Rattle.futures_buffered_table.specs.Waking.{IsWake};
ghost use Rattle.futures_buffered_table.specs.declared.answer.Woke.TheVariants.{Fresh};

pub use crate::must_wake::OuterWaker;
use crate::must_wake::{ListSeat, WakingPlace};
use futures::task::{Context, Poll, Source, Waker};
use futures_buffered_place::place::{PutSeat, TakeSeat};
use futures_buffered_table::ready_table::{BeforeEmpty, StepsMade, WakeSeat};
use std::alloc::{AllocError, Global};
use std::marker::Model;
use std::sync::Arc;

impl OuterWaker for Waker {
    fn wake_outer(self) {
        self.wake();
    }
}

/// What one wake made: the seat of its steps at the list, and, if its mark was newly set, the seat of its steps at the
/// place. Only [`WakerPlace::wake`] puts two seats together, and the seats have no bytes.
#[derive(Drop)]
pub struct WakeMade<O> {
    listed: WakeSeat,
    placed: Option<TakeSeat<O>>,
}

impl<O> Model for WakeMade<O> {
    ghost use Rattle.futures_buffered_core.specs.SeatCodes.{made_wake_code};
    ghost use Rattle.futures_buffered_core.specs.WakerPlace.{MadeWake};

    ghost Value = { MadeWake O };

    ghost coded = { made_wake_code O.code };

    ghost view = { λ made. record { listed = made.listed; placed = made.placed } };
}

impl<O> WakeMade<O> {
    /// Returns the wake of a slot that was marked, which looks for no waker.
    pub fn marked(listed: WakeSeat) -> WakeMade<O>
        ensures { (result.listed ≡ listed) × (result.placed ≡ None) }
    {
        WakeMade {
            listed,
            placed: None,
        }
    }
}

/// What sibling sources share with all their wakers. No call waits, and only `new` allocates.
#[derive(Drop)]
pub struct WakerPlace<O> {
    source: Source,
    kept: WakingPlace<O>,
}

impl<O> Model for WakerPlace<O> {
    ghost use Rattle.futures_buffered_core.specs.WakerPlace.{Awaited, awaited_code};

    ghost Value = { Awaited };

    ghost coded = { awaited_code };

    ghost view = { λ place. record { source = place.source.id; place = place.kept } };
}

impl<O: OuterWaker> WakerPlace<O> {
    /// Makes a place that keeps no waker. Returns it with the seat that publishes. Allocates.
    pub fn new(alloc: Global) -> Result<(WakerPlace<O>, PutSeat<O>), AllocError>
        ensures { IfOk result (λ r. r.1 ≡ putter r.0.place true no_history) }
    {
        let (kept, seat) = WakingPlace::new(alloc)?;
        let source = Source::new();
        Ok((WakerPlace { source, kept }, seat))
    }

    /// Takes the task's waker and wakes it, unless another call is at the place. Of many wakes after one registration
    /// one takes the waker; each later one costs one load.
    ///
    /// `listed` shows that a wake has newly set its mark and enqueued its slot: no wake looks here earlier. It is
    /// returned with a seat of the place. That seat shows that this call took the waker, or found none or another call
    /// there, after the steps of the wake at the list.
    pub fn wake(&self, listed: WakeSeat) -> WakeMade<O>
        requires { (slot : ℕ) × IsWake slot listed.steps Fresh }
        ensures listed { result.listed ≡ listed }
        ensures placed { IsSomeAnd result.placed (LooksAfter (length listed.steps) self.now.place) }
    {
        let (taken, seat) = self.kept.take(&listed);
        if let Some(outer) = taken {
            outer.wake();
        }
        WakeMade {
            listed,
            placed: Some(seat),
        }
    }

    /// Publishes a waker. Drops the waker that it replaces after this call has left the place. If another call is at
    /// the place, publishes nothing and wakes `outer`.
    pub fn put_in<T: ListSeat>(&self, seat: &mut PutSeat<O>, outer: O, shown: &T)
        requires { seat.old.place ≡ self.now.place }
        ensures place { seat.new.place ≡ seat.old.place }
        ensures alone { seat.new.alone ≡ seat.old.alone }
        ensures put { PutsOrMeets (T.made shown.now) seat.old.alone outer seat.old.did seat.new.did }
    {
        if let Some(outer) = self.kept.put_in(seat, outer, shown) {
            outer.wake();
        }
    }
}

/// The poller's side.
///
/// The task's waker is kept here from its registration on. A dequeue publishes it only before it can return `Empty`. So
/// a poll that returns an output publishes nothing, and no wake wakes a task that polls again by itself. If the poller
/// has none, a registration takes back the waker that the place keeps.
///
/// A poll of sibling sources dequeues first from the one that registered. A sibling that still has the waker of an
/// earlier poll publishes it too, and the waker that it replaces wakes the task.
///
/// Each call is given the place. A contract sees which place that is, the waker that it has, and those that it
/// published and took back.
#[derive(Drop)]
pub struct PollerWaker<O> {
    seat: PutSeat<O>,
    own: Option<O>,
}

impl<O> Model for PollerWaker<O> {
    ghost use Rattle.futures_buffered_core.specs.WakerPlace.{Poller, poller_code};

    ghost Value = { Poller O };

    ghost coded = { poller_code O.code };

    ghost view = { λ p. record { place = p.seat.place; alone = p.seat.alone; did = p.seat.did; own = p.own } };
}

impl<O: OuterWaker> PollerWaker<O> {
    /// Makes the place of a source without siblings, and the side of its poller. Allocates one block for the place, and
    /// what the place needs.
    pub fn alone(alloc: Global) -> Result<(Arc<WakerPlace<O>>, PollerWaker<O>), AllocError>
        ensures new { IfOk result (λ r. IsNewPoller None no_history r.1) }
        ensures place { IfOk result (λ r. r.1.place ≡ (arc_value r.0).place) }
    {
        let (place, seat) = WakerPlace::new(alloc)?;
        let shared = Arc::new(alloc, place)?;
        Ok((shared, PollerWaker { seat, own: None }))
    }

    /// Makes the side of a sibling source.
    pub fn beside(&mut self, place: &WakerPlace<O>) -> PollerWaker<O>
        requires { self.old.place ≡ place.now.place }
        ensures same { self.new ≡ record self.old { alone = false } }
        ensures new { IsNewPoller None no_history result }
        ensures place { (result.place ≡ self.old.place) × (result.alone ≡ false) }
    {
        let seat = place.kept.seat_beside(&mut self.seat);
        PollerWaker { seat, own: None }
    }

    /// Publishes a waker, as [`WakerPlace::put_in`] does.
    pub fn put_in<T: ListSeat>(&mut self, place: &WakerPlace<O>, outer: O, shown: &T)
        requires { self.old.place ≡ place.now.place }
        ensures same { self.new.place ≡ self.old.place }
        ensures alone { self.new.alone ≡ self.old.alone }
        ensures own { self.new.own ≡ self.old.own }
        ensures put { PutsOrMeets (T.made shown.now) self.old.alone outer self.old.did self.new.did }
    {
        place.put_in(&mut self.seat, outer, shown);
    }
}

impl<O: OuterWaker> PollerWaker<O> {
    // Takes back the waker that the place keeps, if none is kept here.
    fn take_back<T: ListSeat>(&mut self, place: &Arc<WakerPlace<O>>, shown: &T)
        requires { self.old.place ≡ (arc_value place.now).place }
        ensures alone { self.new.alone ≡ self.old.alone }
        ensures same { self.new.place ≡ self.old.place }
        ensures back { HasBack (T.made shown.now) self.old.own self.old.did self.new.own self.new.did }
    {
        if self.own.is_none() {
            if let Some(kept) = place.kept.take_back(&mut self.seat, shown) {
                self.own = Some(kept);
            }
        }
    }
}

impl PollerWaker<Waker> {
    /// Keeps the task's waker here. If none is kept here, it first takes back the one that the place keeps. A waker of
    /// another task is woken.
    ///
    /// If no waker can be made, the task is woken.
    pub fn register<T: ListSeat>(
        &mut self,
        place: &Arc<WakerPlace<Waker>>,
        cx: &mut Context<'_>,
        shown: &T,
    )
        requires { self.old.place ≡ (arc_value place.now).place }
        ensures alone { self.new.alone ≡ self.old.alone }
        ensures same { self.new.place ≡ self.old.place }
        ensures armed { IsArmed cx.new }
        ensures heard { Hears cx.new (arc_value place.now).source }
        ensures kept { Keeps cx.old cx.new }
        ensures own { (cx.new.lacks_waker ≡ true) ⊎ IsSomeAnd self.new.own (λ waker. Wakes waker cx.old) }
        ensures back { TakesBack (T.made shown.now) self.old.own self.old.did self.new.did }
    {
        self.take_back(place, shown);
        let _: Poll<()> = cx.register(&place.source, &mut self.own);
    }
}

impl<O: OuterWaker> PollerWaker<O> {
    // Publishes the waker that is kept here, if any, as `put_in` does.
    #[inline(never)]
    pub(crate) fn give_up_own<T: ListSeat>(&mut self, place: &WakerPlace<O>, shown: &T)
        requires { self.old.place ≡ place.now.place }
        ensures { GivesUp (T.made shown.now) self.old self.new }
    {
        if let Some(outer) = self.own.take() {
            self.put_in(place, outer, shown);
        }
    }
}

/// The poller's side with its place, for one dequeue.
#[derive(Drop)]
pub struct AtPlace<'p, O> {
    place: &'p Arc<WakerPlace<O>>,
    task: &'p mut PollerWaker<O>,
    ghost is_its_place: { task.now.place ≡ (arc_value place.now).place } by { TableId-set _ _ },
}

impl<'p, O> AtPlace<'p, O> {
    pub fn new(place: &'p Arc<WakerPlace<O>>, task: &'p mut PollerWaker<O>) -> AtPlace<'p, O>
        requires { task.old.place ≡ (arc_value place.now).place }
        ensures same_reference { result.task.ghost_name ≡ task.entry.ghost_name }
        ensures same { result.task.now ≡ task.old }
    {
        AtPlace { place, task }
    }
}

impl<O: OuterWaker> BeforeEmpty for AtPlace<'_, O> {
    ghost use Rattle.std.specs.Prelude.{◌≡◌, length};
    ghost use Rattle.futures_buffered_core.specs.WakerPlace.{GivesUp};

    ghost leaves = { λ made old new. (new.task.ghost_name ≡ old.task.ghost_name)
        × GivesUp (length made) old.task.now new.task.now };

    #[inline(always)]
    fn before_empty(&mut self, made: &StepsMade<'_>) {
        let place: &WakerPlace<O> = self.place;
        let task = &mut *self.task;
        if task.own.is_some() {
            task.give_up_own(place, made);
        }
    }
}
