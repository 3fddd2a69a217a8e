//! Joins of `futures::Future`s, which a join holds as they are.
ghost use Rattle.std.specs.Prelude.{IfOk};
ghost use Rattle.futures_buffered_core.specs.Drawn.{IsFiniteSource, items_of};
ghost use Rattle.futures_buffered_unordered.specs.Extended.{EachDrawn};
ghost use Rattle.futures_buffered_in_flight.specs.InFlight.{CanPollAll, FliesInOrder, FlightsWaitAt, SlotGives};
ghost use Rattle.futures_buffered_joins.specs.InFlightJoin.{CanPollFlying, FlightsGive, MakesFlying, flights_waiting};
ghost use Rattle.futures_buffered_joins.specs.Join.{JoinsByPlace};

use crate::join::AllOutputs;
use crate::join_by;
use crate::join_rule::JoinRule;
use crate::placed_set::{PlacedPolls, PlacedSet, PollPlacedSet};
use crate::try_join::UntilError;
use futures::Future;
use futures::future::TryOutput;
use futures::task::{Context, Poll};
use futures_buffered_core::ready_core::NewFault;
use futures_buffered_in_flight::FuturesUnorderedBounded;
use std::alloc::Global;

/// A join of `futures::Future`s by a rule `R`.
///
/// The join holds the futures next to one another, with no lock and no cell between, and a future may contain closures.
/// A poll allocates what the futures do. It also allocates what the set of `futures` does for a future that waits for
/// memory, and at its first poll of a task. If a future still waits for memory, the poll wakes the task.
pub type JoinBy<R, F, A> = join_by::JoinBy<R, FuturesUnorderedBounded<F>, A>;

/// A join of `futures::Future`s.
pub type JoinAll<F> = JoinBy<AllOutputs, F, <F as Future>::Output>;

/// A join of `futures::Future`s that may fail.
pub type TryJoinAll<F> = JoinBy<UntilError, F, <<F as Future>::Output as TryOutput>::Ok>;

impl<F: Drop> PlacedSet for FuturesUnorderedBounded<F> {
    ghost waiting = { flights_waiting };

    #[tactic(auto, using(crate::proofs::SlotsJoinLemmas::held_waiting))]
    fn waiting_len(&self) -> usize {
        self.len()
    }
}

impl<F: Future<Output: Drop>> PlacedPolls for FuturesUnorderedBounded<F> {
    type Output = F::Output;

    ghost can_poll = { CanPollAll F.Future };

    ghost gives = { FlightsGive F.Future };

    ghost needs = { FlightsWaitAt };

    ghost may_give = { SlotGives F.Future };
}

impl<F: Future<Output: Drop>> PollPlacedSet for FuturesUnorderedBounded<F> {
    #[tactic(auto, using(crate::proofs::InFlightJoinLemmas::nothing_came))]
    fn poll_placed(&mut self, cx: &mut Context<'_>) -> Poll<(usize, F::Output)> {
        match self.poll_next_keyed(cx) {
            Poll::Pending => Poll::Pending,
            Poll::Ready(None) => unreachable!(),
            Poll::Ready(Some(came)) => Poll::Ready((came.key.slot, came.output)),
        }
    }
}

impl<R, F, A> join_by::JoinBy<R, FuturesUnorderedBounded<F>, A>
where
    F: Future<Output: Drop>,
    R: JoinRule<F::Output, Kept = A>,
    A: Drop,
{
    /// Makes a join of these futures, in their order. Polls nothing. The join may be polled.
    ///
    /// A future for which the set of `futures` cannot allocate waits until a poll finds memory for it. If another
    /// allocation fails, drops the futures that it took. Allocates and takes time in proportion to the number of
    /// futures.
    pub fn over<I: IntoIterator<Item = F>>(alloc: Global, iter: I) -> Result<Self, NewFault>
        requires finite { IsFiniteSource (items_of I.IntoIterator I.IntoIter.Iterator iter) }
        requires fit { EachDrawn (items_of I.IntoIterator I.IntoIter.Iterator iter) F.can_poll }
        ensures made { MakesFlying F.Future (items_of I.IntoIterator I.IntoIter.Iterator iter) result }
        ensures can_poll { IfOk result (CanPollFlying F.Future) }
    {
        let set = FuturesUnorderedBounded::from_iter(alloc, iter)?;
        let places = set.capacity();
        let join = join_by::JoinBy::new(alloc, set, places)?;
        Ok(join)
    }
}

/// After any pending polls, a vector that a join over these items may be ready with has as many outputs as there were
/// items. The output at place k is one that item k may give.
///
/// This is a law of the relations in the contracts of `over` and of a poll. Its body is empty.
pub fn outputs_come_by_place<R, F, A>()
where
    F: Future<Output: Drop>,
    R: JoinRule<F::Output, Kept = A>,
    ensures { JoinsByPlace flights_waiting ⟦<FuturesUnorderedBounded<F> as PlacedPolls>⟧ R.JoinRule
        (FliesInOrder F.Future) (λ _. F.gives) }
{}

/// Makes a join of these `futures::Future`s, in their order, which is ready with all outputs. It is `JoinAll::over`,
/// and fails as that does.
pub fn join_all<I: IntoIterator<Item: Future<Output: Drop>>>(
    alloc: Global,
    iter: I,
) -> Result<JoinAll<I::Item>, NewFault>
    requires finite { IsFiniteSource (items_of I.IntoIterator I.IntoIter.Iterator iter) }
    requires fit { EachDrawn (items_of I.IntoIterator I.IntoIter.Iterator iter) I.Item.can_poll }
    ensures made { MakesFlying I.Item.Future (items_of I.IntoIterator I.IntoIter.Iterator iter) result }
    ensures can_poll { IfOk result (CanPollFlying I.Item.Future) }
{
    JoinAll::over(alloc, iter)
}

/// As `join_all`, for futures that may fail. The join is ready as soon as one returns an error, and drops the others
/// then.
pub fn try_join_all<F, A, E, I>(alloc: Global, iter: I) -> Result<TryJoinAll<F>, NewFault>
where
    F: Future<Output = Result<A, E>>,
    A: Drop,
    E: Drop,
    I: IntoIterator<Item = F>,
    requires finite { IsFiniteSource (items_of I.IntoIterator I.IntoIter.Iterator iter) }
    requires fit { EachDrawn (items_of I.IntoIterator I.IntoIter.Iterator iter) F.can_poll }
    ensures made { MakesFlying F.Future (items_of I.IntoIterator I.IntoIter.Iterator iter) result }
    ensures can_poll { IfOk result (CanPollFlying F.Future) }
{
    TryJoinAll::over(alloc, iter)
}
