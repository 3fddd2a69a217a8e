//! Joins of futures, whose outputs come together.
ghost use Rattle.std.specs.Prelude.{◌≡◌};
ghost use Rattle.futures_buffered_core.specs.Drawn.{IsFiniteSource, items_of};
ghost use Rattle.futures_buffered_core.specs.ReadyShared.{IsNewShared, MarksShared};
ghost use Rattle.futures_buffered_unordered.specs.FuturesUnorderedBounded.{HoldsEach};
ghost use Rattle.futures_buffered_joins.specs.Join.{MakesJoin};

use crate::join_by::{JoinBy, JoinName, JoinRule};
pub use crate::slots_join::outputs_come_by_place;
use futures_buffered_core::ready_core::NewFault;
use futures_buffered_core::ready_shared::{SharedReady, SharedWaker};
use futures_buffered_core::ready_source::ReadySource;
use futures_buffered_unordered::SlotFuture;
use futures_buffered_unordered::futures_unordered_bounded::{FuturesUnorderedBounded, POLL_LIMIT};
use std::alloc::Global;

/// The rule of `join_all`: every output is kept, and none ends the join early. The type has no values, so it is also
/// the type of the error, which never comes.
pub enum AllOutputs {}

/// A join that is ready once each of its futures is done, with their outputs, each at its future's place. A join that
/// has ended returns an empty vector.
pub type Join<F, A, S> = JoinBy<AllOutputs, FuturesUnorderedBounded<F, S>, A>;

/// The join of futures with their own outputs. It is the name that a caller writes.
pub type JoinAll<F, S = SharedReady> = Join<
    F,
    <F as SlotFuture<<S as ReadySource>::Waker>>::Output,
    S,
>;

impl<O: Drop> JoinRule<O> for AllOutputs {
    ghost use Rattle.futures_buffered_joins.specs.JoinRule.{kept_as_it_is, shown_as_all, shown_by_result};

    type Kept = O;

    type Error = AllOutputs;

    type Answer = Vec<O>;

    ghost output_of = { kept_as_it_is };

    ghost seen = { shown_as_all };

    fn keep(output: O) -> Result<O, AllOutputs> {
        Ok(output)
    }

    fn answer(outcome: Result<Vec<O>, AllOutputs>) -> Vec<O>
        ensures { shown_as_all result ≡ shown_by_result outcome }
    {
        match outcome {
            Ok(outputs) => outputs,
            Err(never) => match never {},
        }
    }
}

impl JoinName for AllOutputs {
    fn join_name() -> &'static str {
        "JoinAll"
    }
}

/// Makes a join of these futures, with the outputs in their order. Any thread may wake them. It is `JoinAll::over` with
/// a shared source, and fails as that does.
pub fn join_all<I: IntoIterator>(
    alloc: Global,
    iter: I,
) -> Result<JoinAll<I::Item, SharedReady>, NewFault>
where
    I::Item: SlotFuture<SharedWaker>,
    <I::Item as SlotFuture<SharedWaker>>::Output: Drop,
    requires { IsFiniteSource (items_of I.IntoIterator I.IntoIter.Iterator iter) }
    ensures { MakesJoin (items_of I.IntoIterator I.IntoIter.Iterator iter)
        (HoldsEach IsNewShared MarksShared POLL_LIMIT) result }
{
    Join::over(&(), alloc, iter)
}
