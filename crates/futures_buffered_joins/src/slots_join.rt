//! Joins over a set of slots, in which a place is a slot.
ghost use Rattle.futures_buffered_core.specs.Drawn.{IsFiniteSource, items_of};
ghost use Rattle.futures_buffered_unordered.specs.FuturesUnorderedBounded.{HoldsEach};
ghost use Rattle.futures_buffered_unordered.specs.Held.{AllHeld};
ghost use Rattle.futures_buffered_joins.specs.Join.{JoinsByPlace, MakesJoin};
ghost use Rattle.futures_buffered_joins.specs.SlotsJoin.{ItemMayGive, MayGiveAt, SlotsGive, slots_waiting};

use crate::join_by::{JoinBy, JoinRule};
use crate::placed_set::{PlacedPolls, PlacedSet, PollPlacedSet};
use futures::task::{Context, Poll};
use futures_buffered_core::ready_core::NewFault;
use futures_buffered_core::ready_source::{NewSource, ReadySource};
use futures_buffered_unordered::futures_unordered_bounded::{FuturesUnorderedBounded, POLL_LIMIT};
use futures_buffered_unordered::{PollFuture, SlotFuture};
use std::alloc::Global;

impl<F: Drop, S: ReadySource> PlacedSet for FuturesUnorderedBounded<F, S> {
    ghost waiting = { slots_waiting };

    #[tactic(auto, using(crate::proofs::SlotsJoinLemmas::held_waiting))]
    fn waiting_len(&self) -> usize {
        self.len()
    }
}

impl<F: SlotFuture<S::Waker>, S: ReadySource> PlacedPolls for FuturesUnorderedBounded<F, S> {
    type Output = F::Output;

    ghost can_poll = { λ set. AllHeld F.can_poll set.slots };

    ghost gives = { SlotsGive F.SlotFuture S.ReadySource };

    ghost needs = { λ set. S.needs set.source };

    ghost may_give = { λ set. MayGiveAt F.polled set.slots };
}

impl<F: SlotFuture<S::Waker>, S: ReadySource> PollPlacedSet for FuturesUnorderedBounded<F, S> {
    #[tactic(auto, using(crate::proofs::SlotsJoinLemmas::nothing_came))]
    fn poll_placed(&mut self, cx: &mut Context<'_>) -> Poll<(usize, F::Output)> {
        match self.poll_first(&PollFuture, cx) {
            Poll::Ready((slot, output)) => {
                self.empty_slot(slot);
                Poll::Ready((slot, output))
            }
            Poll::Pending => Poll::Pending,
        }
    }
}

impl<R, F, O, A, S> JoinBy<R, FuturesUnorderedBounded<F, S>, A>
where
    R: JoinRule<O, Kept = A>,
    F: SlotFuture<S::Waker, Output = O>,
    A: Drop,
    S: NewSource,
{
    /// Makes a join of these futures, in their order, over a source made for them. Polls nothing.
    ///
    /// If an allocation fails, drops the futures that it took. Allocates all that the join ever needs, and takes time,
    /// in proportion to the number of futures. A poll of the join does not allocate, and waits for no other thread.
    pub fn over<I: IntoIterator<Item = F>>(
        env: &S::Env,
        alloc: Global,
        iter: I,
    ) -> Result<Self, NewFault>
        requires { IsFiniteSource (items_of I.IntoIterator I.IntoIter.Iterator iter) }
        ensures { MakesJoin (items_of I.IntoIterator I.IntoIter.Iterator iter)
            (HoldsEach S.made S.marks POLL_LIMIT) result }
    {
        let set = FuturesUnorderedBounded::over(env, alloc, iter)?;
        let places = set.capacity();
        let join = JoinBy::new(alloc, set, places)?;
        Ok(join)
    }
}

/// After any pending polls, a vector that a join over these items may be ready with has as many outputs as there were
/// items. The output at place k is one that item k may give.
///
/// This is a law of the relations in the contracts of `over` and of a poll. Its body is empty.
pub fn outputs_come_by_place<R, F, O, S: NewSource>()
where
    R: JoinRule<O>,
    F: SlotFuture<S::Waker, Output = O>,
    ensures { JoinsByPlace slots_waiting ⟦<FuturesUnorderedBounded<F, S> as PlacedPolls>⟧ R.JoinRule
        (HoldsEach S.made S.marks POLL_LIMIT) (ItemMayGive F.polled) }
{}
