//! A join by a rule, over any set that returns an output with its place.
ghost use Rattle.std.specs.Prelude.{◌≡◌, None, IfOk, IfSome, IsSomeAnd, replicate, true};
ghost use Rattle.futures_buffered_joins.specs.Join.{FillsUntil, JoinMayGive, PollsJoin};
ghost use Rattle.futures_buffered_joins.specs.Outputs.{WaitsOrCame};

pub use crate::join_rule::{JoinName, JoinRule};
use crate::outputs::{Outputs, Places};
use crate::placed_set::{PlacedSet, PollPlacedSet};
use futures::Future;
use futures::task::{Context, Poll};
use futures_buffered_unordered::FusedFuture;
use std::alloc::{AllocError, Global};
use std::fmt;
use std::marker::{Model, PhantomData};

/// A join of futures in a set `Q`, by a rule `R`. It is ready once each future is done, with what the rule keeps of
/// their outputs, each at its future's place. It is ready earlier if an output ends it.
///
/// A contract sees the set of the futures that the join waits for, and at each place the output that has come; or
/// `None` once the join has ended. A join that has ended, early too, holds nothing. Its further polls return the answer
/// of an empty vector.
#[derive(Drop)]
pub struct JoinBy<R, Q: PlacedSet, A> {
    places: Option<Places<Q, A>>,
    alloc: Global,
    rule: PhantomData<R>,
}

impl<R, Q: PlacedSet, A> Model for JoinBy<R, Q, A> {
    ghost use Rattle.std.specs.Prelude.{Option, IfSome};
    ghost use Rattle.futures_buffered_joins.specs.declared.outputs.Places.{Places};
    ghost use Rattle.futures_buffered_joins.specs.Outputs.{WaitsOrCame};

    ghost Value = { Option (Places Q A) };

    ghost view = { λ s. s.places };

    ghost invariant = { λ s. IfSome s.places (λ places.
        WaitsOrCame (Q.waiting places.set) places.outputs) };
}

impl<R, Q: PlacedSet, A: Drop> JoinBy<R, Q, A> {
    // Makes a join of `n` futures, which all wait in the set.
    #[tactic(auto, using(crate::proofs::OutputsLemmas::all_wait))]
    pub(crate) fn new(alloc: Global, set: Q, n: usize) -> Result<Self, AllocError>
        requires { Q.waiting set ≡ replicate n true }
        ensures { IfOk result (λ join. IsSomeAnd join (λ places.
            (places.set ≡ set) × (places.outputs ≡ replicate n None))) }
    {
        let outputs = Outputs::new(alloc, n)?;
        Ok(JoinBy {
            places: Some(Places { set, outputs }),
            alloc,
            rule: PhantomData,
        })
    }
}

impl<Q: PollPlacedSet, A: Drop> Places<Q, A> {
    // Polls the set again and again, each output filling its place, until that is Pending, no future is left or an
    // output is an error.
    #[tactic(auto, using(crate::proofs::JoinLemmas::begins, crate::proofs::JoinLemmas::place_there, crate::proofs::JoinLemmas::fills))]
    fn fill<R: JoinRule<Q::Output, Kept = A>>(
        &mut self,
        cx: &mut Context<'_>,
    ) -> Poll<Result<(), R::Error>>
        requires waits { WaitsOrCame (Q.waiting self.old.set) self.old.outputs }
        requires held { Q.can_poll self.old.set }
        ensures { FillsUntil Q.waiting Q.PlacedPolls R.JoinRule
            self.old result self.new cx.old cx.new }
    {
        'polls: while self.set.waiting_len() != 0 {
            match self.set.poll_placed(cx) {
                Poll::Ready((place, output)) => match R::keep(output) {
                    Ok(kept) => self.outputs.put(place, kept),
                    Err(error) => return Poll::Ready(Err(error)),
                },
                Poll::Pending => return Poll::Pending,
            }
        }
        Poll::Ready(Ok(()))
    }
}

impl<R, Q, A> Future for JoinBy<R, Q, A>
where
    Q: PollPlacedSet,
    R: JoinRule<Q::Output, Kept = A>,
    A: Drop,
{
    type Output = R::Answer;

    ghost can_poll = { λ join. IfSome join (λ places. Q.can_poll places.set) };

    ghost needs = { λ join n. IsSomeAnd join (λ places. Q.needs places.set n) };

    ghost gives = { λ join answer. JoinMayGive Q.may_give R.output_of join (R.seen answer) };

    /// Polls the set of the futures again and again, each output filling its place, until that is Pending, no future is
    /// left or an output ends the join. With no future left it is ready with all outputs; at an error it is ready with
    /// that error, and the other futures and all outputs are dropped in this call. In both cases it holds nothing more:
    /// its set is dropped, which may wake the task, and later polls give no outputs, and poll nothing.
    ///
    /// Allocates only what the polls of the set do. Takes time in proportion to what these take, and at the end to the
    /// number of places.
    fn poll(&mut self, cx: &mut Context<'_>) -> Poll<R::Answer>
        requires { IfSome self.old (λ places. Q.can_poll places.set) }
        ensures { PollsJoin Q.waiting Q.PlacedPolls R.JoinRule
            self.old result self.new cx.old cx.new }
    {
        let Some(places) = &mut self.places else {
            return Poll::Ready(R::answer(Ok(Vec::new(self.alloc))));
        };
        match places.fill::<R>(cx) {
            Poll::Pending => Poll::Pending,
            Poll::Ready(Err(error)) => {
                self.places = None;
                Poll::Ready(R::answer(Err(error)))
            }
            Poll::Ready(Ok(())) => match self.places.take() {
                Some(places) => Poll::Ready(R::answer(Ok(places.outputs.gather()))),
                None => unreachable!(),
            },
        }
    }
}

/// Whether the join has ended.
impl<R, Q, A> FusedFuture for JoinBy<R, Q, A>
where
    Q: PollPlacedSet,
    R: JoinRule<Q::Output, Kept = A>,
    A: Drop,
{
    ghost use Rattle.std.specs.Prelude.{◌≡◌};

    ghost is_over = { λ join. join ≡ None };

    fn is_terminated(&self) -> bool {
        self.places.is_none()
    }
}

/// Prints how many futures the join waits for.
impl<R: JoinName, Q: PlacedSet, A: Drop> fmt::Debug for JoinBy<R, Q, A> {
    fn fmt<W: fmt::Write>(&self, f: &mut fmt::Formatter<W>) -> fmt::Result {
        let len = match &self.places {
            Some(places) => places.set.waiting_len(),
            None => 0,
        };
        f.debug_struct(R::join_name())
            .field("len", &len)
            .finish_non_exhaustive()
    }
}
