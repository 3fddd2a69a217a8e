//! Sets and queues of futures of `futures`, as what a buffer holds.
ghost use Rattle.futures_buffered.specs.Below.{held_count, CanPollQueue, PollsQueued, PushesQueued};
ghost use Rattle.futures_buffered_in_flight.specs.InFlight.{ComesFromSlots, FlightsWaitAt, flight_slots};
ghost use Rattle.futures_buffered_in_flight.specs.InFlightOrdered.{AnswersInTurn, CanPollOrdered, ComesOfEach};
ghost use Rattle.futures_buffered_in_flight.specs.InFlightOrdered.{EntersBack, OrderedWaitsAt, ordered_room};
ghost use Rattle.futures_buffered.specs.FutureQueue.{OnlyPushes};
ghost use Rattle.futures_buffered_unordered.specs.StreamAnswers.{stream_of};

use crate::future_queue::FutureQueue;
use futures::Future;
use futures::task::{Context, Poll};
use futures_buffered_in_flight::{FuturesOrderedBounded, FuturesUnorderedBounded};

impl<F: Future<Output: Drop>> FutureQueue<F> for FuturesUnorderedBounded<F> {
    ghost use Rattle.std.specs.Prelude.{false};

    type Output = F::Output;

    ghost count = { λ set. held_count set.slots };

    ghost room = { flight_slots };

    ghost pushes = { OnlyPushes (λ old pushed new. PushesQueued F.Future false old pushed tt new) };

    ghost polls = { PollsQueued F.Future (λ came. came.output) };

    ghost is_fit = { F.can_poll };

    ghost gives = { F.gives };

    ghost as_stream = { stream_of (CanPollQueue F.Future) FlightsWaitAt (ComesFromSlots F.Future) };

    ghost in_order = { false };

    fn len(&self) -> usize {
        FuturesUnorderedBounded::len(self)
    }

    fn capacity(&self) -> usize {
        FuturesUnorderedBounded::capacity(self)
    }

    #[tactic(auto, using(crate::proofs::InFlightLemmas::push_leaves))]
    fn push(&mut self, future: F) -> Option<F::Output> {
        self.push_queued(future);
        None
    }

    #[tactic(auto, using(crate::proofs::InFlightLemmas::polls_queue))]
    fn poll_output(&mut self, cx: &mut Context<'_>) -> Poll<Option<F::Output>> {
        self.poll_queued(cx)
    }
}

impl<F: Future<Output = A>, A: Drop> FutureQueue<F> for FuturesOrderedBounded<F, A> {
    ghost use Rattle.std.specs.Prelude.{false, true, length};

    type Output = A;

    ghost count = { λ q. length q.entries };

    ghost room = { ordered_room };

    ghost pushes = { OnlyPushes (EntersBack F.Future false) };

    ghost polls = { AnswersInTurn F.Future false };

    ghost is_fit = { F.can_poll };

    ghost gives = { F.gives };

    ghost as_stream = { stream_of (CanPollOrdered F.Future) OrderedWaitsAt (ComesOfEach F.Future) };

    ghost in_order = { true };

    fn len(&self) -> usize {
        FuturesOrderedBounded::len(self)
    }

    fn capacity(&self) -> usize {
        FuturesOrderedBounded::capacity(self)
    }

    #[tactic(auto, using(crate::proofs::InFlightLemmas::push_leaves_ordered, crate::proofs::InFlightLemmas::push_adds_ordered))]
    fn push(&mut self, future: F) -> Option<A> {
        FuturesOrderedBounded::push_back(self, future);
        None
    }

    fn poll_output(&mut self, cx: &mut Context<'_>) -> Poll<Option<A>> {
        FuturesOrderedBounded::poll_output(self, cx)
    }
}
