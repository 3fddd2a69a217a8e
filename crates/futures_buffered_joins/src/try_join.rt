//! Joins of futures that may fail, whose outputs come together, or the first error.
ghost use Rattle.std.specs.Prelude.{◌≡◌};
ghost use Rattle.futures_buffered_core.specs.Drawn.{IsFiniteSource, items_of};
ghost use Rattle.futures_buffered_core.specs.ReadyShared.{IsNewShared, MarksShared};
ghost use Rattle.futures_buffered_unordered.specs.FuturesUnorderedBounded.{HoldsEach};
ghost use Rattle.futures_buffered_joins.specs.Join.{MakesJoin};

use crate::join_by::{JoinBy, JoinName, JoinRule};
pub use crate::slots_join::outputs_come_by_place;
use futures::future::TryOutput;
use futures_buffered_core::ready_core::NewFault;
use futures_buffered_core::ready_shared::{SharedReady, SharedWaker};
use futures_buffered_core::ready_source::ReadySource;
use futures_buffered_unordered::SlotFuture;
use futures_buffered_unordered::futures_unordered_bounded::{FuturesUnorderedBounded, POLL_LIMIT};
use std::alloc::Global;

/// The rule of `try_join_all`: the value in `Ok` is kept, and an output in `Err` ends the join.
pub enum UntilError {}

/// A join of futures that may fail. It is ready once each of them is done, with their outputs, each at its future's
/// place, or as soon as one returns an error. A join that has ended, by an error too, returns `Ok` of an empty vector.
pub type TryJoin<F, T, S> = JoinBy<UntilError, FuturesUnorderedBounded<F, S>, T>;

/// The join with the values that its futures return if they succeed. It is the name that a caller writes.
pub type TryJoinAll<F, S = SharedReady> = TryJoin<
    F,
    <<F as SlotFuture<<S as ReadySource>::Waker>>::Output as TryOutput>::Ok,
    S,
>;

impl<T: Drop, E> JoinRule<Result<T, E>> for UntilError {
    ghost use Rattle.futures_buffered_joins.specs.JoinRule.{shown_by_result};

    type Kept = T;

    type Error = E;

    type Answer = Result<Vec<T>, E>;

    ghost output_of = { λ output. output };

    ghost seen = { shown_by_result };

    fn keep(output: Result<T, E>) -> Result<T, E> {
        output
    }

    fn answer(outcome: Result<Vec<T>, E>) -> Result<Vec<T>, E>
        ensures { result ≡ outcome }
    {
        outcome
    }
}

impl JoinName for UntilError {
    fn join_name() -> &'static str {
        "TryJoinAll"
    }
}

/// Makes a join of these futures, with the outputs in their order. Any thread may wake them. It is `TryJoinAll::over`
/// with a shared source, and fails as that does.
pub fn try_join_all<I: IntoIterator, T, E>(
    alloc: Global,
    iter: I,
) -> Result<TryJoinAll<I::Item, SharedReady>, NewFault>
where
    I::Item: SlotFuture<SharedWaker, Output = Result<T, E>>,
    T: Drop,
    requires { IsFiniteSource (items_of I.IntoIterator I.IntoIter.Iterator iter) }
    ensures { MakesJoin (items_of I.IntoIterator I.IntoIter.Iterator iter)
        (HoldsEach IsNewShared MarksShared POLL_LIMIT) result }
{
    TryJoin::over(&(), alloc, iter)
}
