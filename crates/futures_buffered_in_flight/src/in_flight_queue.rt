//! The set as an adaptor or an ordered queue holds it: a push accepts each future while a slot is free.
ghost use Rattle.std.specs.Prelude.{◌≡◌, ◌<◌, ◌≤◌, IsTrue, OnOk, OnErr, IfErr, IsErr, false, true};
ghost use Rattle.futures_buffered_core.specs.SlotMap.{held_count};
ghost use Rattle.futures_buffered_in_flight.specs.InFlight.{MakesRoom, flight_slots};
ghost use Rattle.futures_buffered_in_flight.specs.InFlightQueue.{CanPollQueue, MayRefuseNumber, PollsQueued};
ghost use Rattle.futures_buffered_in_flight.specs.InFlightQueue.{PushesQueued, RefusesNumbers, flights_with};

use crate::in_flight::{FuturesUnorderedBounded, FuturesUnorderedBy, Kind};
use crate::keyless::without_keys;
use futures::Future;
use futures::task::{Context, Poll};
use futures_buffered_ordered::numbered::Numbered;
use futures_buffered_ordered::numbered_polls::NumberedPolls;
use futures_buffered_ordered::numbered_set::{NumberedSet, PollNumberedSet};
use futures_buffered_unordered::poll_one::PollFuture;

impl<F: Future<Output: Drop>> FuturesUnorderedBounded<F> {
    /// Adds the future, so that a later poll polls it, to a set with a free slot and without cancelled futures. After
    /// 2^64 - 1 pushes the set holds the future, and never polls it.
    #[tactic(auto, using(crate::proofs::InFlightQueueLemmas::queued))]
    pub fn push_queued(&mut self, future: F)
        requires room { held_count self.old.slots < flight_slots self.old }
        requires held { CanPollQueue F.Future self.old }
        requires fit { F.can_poll future }
        ensures { PushesQueued F.Future false self.old future tt self.new }
    {
        self.push_any(future, ());
    }

    /// Polls as `poll_next_keyed` does. Returns an output of one of the futures without its key, or `None` if and only
    /// if no future is held.
    pub fn poll_queued(&mut self, cx: &mut Context<'_>) -> Poll<Option<F::Output>>
        requires { CanPollQueue F.Future self.old }
        ensures { PollsQueued F.Future (λ came. came.output) self.old result self.new cx.old cx.new }
    {
        without_keys(self.poll_next_keyed(cx))
    }
}

impl<F: Future<Output: Drop>, K> FuturesUnorderedBy<F, usize, K> {
    // Polls as `poll_queued` does. Returns an output with the number of its future.
    #[tactic(auto, using(crate::proofs::InFlightQueueLemmas::can_poll_again))]
    pub(crate) fn poll_with_number(
        &mut self,
        cx: &mut Context<'_>,
    ) -> Poll<Option<(usize, F::Output)>>
        requires { CanPollQueue F.Future self.old }
        ensures { PollsQueued F.Future (λ came. (came.tag, came.output)) self.old result self.new cx.old cx.new }
    {
        match self.poll_next_keyed(cx) {
            Poll::Pending => Poll::Pending,
            Poll::Ready(None) => Poll::Ready(None),
            Poll::Ready(Some(came)) => Poll::Ready(Some((came.tag, came.output))),
        }
    }
}

impl<F: Future<Output: Drop>, K: Kind> FuturesUnorderedBy<F, usize, K> {
    // Makes a slot if the set grows and is full. Returns whether a slot is free then.
    #[tactic(auto, using(crate::proofs::InFlightQueueLemmas::may_refuse_grown, crate::proofs::InFlightQueueLemmas::may_refuse_bounded, crate::proofs::InFlightQueueLemmas::refuses_grown, crate::proofs::InFlightQueueLemmas::refuses_bounded, crate::proofs::InFlightQueueLemmas::still_can_queue))]
    fn make_slot_free(&mut self) -> bool
        requires { CanPollQueue F.Future self.old }
        ensures grown { IsTrue result → K.GROWS ≡ true → MakesRoom self.old self.new }
        ensures bounded { K.GROWS ≡ false → self.new ≡ self.old }
        ensures room { IsTrue result → held_count self.new.slots < flight_slots self.new }
        ensures none { result ≡ false → MayRefuseNumber K.GROWS self.old × (self.new ≡ self.old) }
        ensures full { RefusesNumbers K.GROWS self.old → result ≡ false }
        ensures again { CanPollQueue F.Future self.new }
    {
        if K::GROWS {
            self.make_room()
        } else {
            self.len() < self.capacity()
        }
    }
}

impl<F: Future<Output: Drop>, K: Kind> NumberedSet for FuturesUnorderedBy<F, usize, K> {
    ghost use Rattle.std.proofs.Common.{refl};
    ghost use Rattle.std.proofs.Math.Nat.{le_refl, le_trans};
    ghost use Rattle.futures_buffered_ordered.specs.Numbered.{PushesInto};

    type Future = F;

    ghost count = { λ set. held_count set.slots };

    ghost with_number = { flights_with };

    ghost pushes = { λ old pushed number new. PushesQueued F.Future K.GROWS old pushed number new };

    ghost may_refuse = { MayRefuseNumber K.GROWS };

    ghost refuses = { RefusesNumbers K.GROWS };

    ghost keeps = { λ old new. flight_slots old ≤ flight_slots new };

    ghost takes = { CanPollQueue F.Future };

    ghost is_fit = { F.can_poll };

    #[tactic(auto, using(crate::proofs::InFlightQueueLemmas::refuses_grown, crate::proofs::InFlightQueueLemmas::refuses_bounded, crate::proofs::InFlightQueueLemmas::still_can_queue))]
    fn refuses_all(&self) -> bool {
        if K::GROWS {
            self.next == u64::MAX
        } else {
            self.capacity() <= self.len()
        }
    }

    #[tactic(auto, using(crate::proofs::InFlightQueueLemmas::can_push, crate::proofs::InFlightQueueLemmas::taken))]
    fn push_numbered(&mut self, value: Numbered<F>) -> Result<(), Numbered<F>>
        requires held { CanPollQueue F.Future self.old }
        requires fit { F.can_poll value.future }
        ensures pushed { OnOk result (PushesInto (PushesQueued F.Future K.GROWS) (λ set. held_count set.slots)
            flights_with (λ old new. flight_slots old ≤ flight_slots new) self.old value self.new) }
        ensures back { IfErr result (λ back. (back ≡ value) × (self.new ≡ self.old)) }
        ensures room { OnErr result (MayRefuseNumber K.GROWS self.old) }
        ensures full { RefusesNumbers K.GROWS self.old → IsErr result }
        ensures again { CanPollQueue F.Future self.new }
    {
        if !self.make_slot_free() {
            return Err(value);
        }
        let Numbered { future, number } = value;
        self.push_any(future, number);
        Ok(())
    }

    ghost keeps_self = { λ a. le_refl _ };

    ghost keeps_on = { λ a b c first then. le_trans first then };

    ghost keeps_places = { λ a b kept. refl };
}

impl<F: Future<Output: Drop>, K> NumberedPolls<PollFuture> for FuturesUnorderedBy<F, usize, K> {
    ghost use Rattle.futures_buffered_in_flight.specs.InFlight.{FlightsWaitAt};

    type Output = F::Output;

    ghost can_poll = { CanPollQueue F.Future };

    ghost gives = { PollsQueued F.Future (λ came. (came.tag, came.output)) };

    ghost needs = { FlightsWaitAt };
}

impl<F: Future<Output: Drop>, K: Kind> PollNumberedSet<PollFuture>
    for FuturesUnorderedBy<F, usize, K> {
    #[tactic(auto, using(crate::proofs::InFlightOrderedLemmas::polls_set))]
    fn poll_numbered(
        &mut self,
        _rule: &PollFuture,
        cx: &mut Context<'_>,
    ) -> Poll<Option<(usize, F::Output)>> {
        self.poll_with_number(cx)
    }
}
