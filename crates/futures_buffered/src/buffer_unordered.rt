//! Some futures of a stream at a time, whose outputs come as they finish.
ghost use Rattle.futures_buffered.specs.Below.{Pushes, IsNewSet, held_in, slots_in, PollsBounded, itself};
ghost use Rattle.std.specs.Prelude.{false};
ghost use Rattle.futures_buffered.specs.FutureQueue.{OnlyPushes};
ghost use Rattle.futures_buffered.specs.BufferUnordered.{LosesNothing, MayGiveInSlot};

use crate::buffer::Buffer;
use crate::future_queue::{FutureQueue, LimitedQueue, NewQueue};
use futures::Stream;
use futures::task::{Context, Poll};
use futures_buffered_core::ready_core::NewFault;
use futures_buffered_core::ready_shared::SharedReady;
use futures_buffered_core::ready_source::{NewSource, ReadySource};
use futures_buffered_unordered::SlotFuture;
use futures_buffered_unordered::futures_unordered_bounded::FuturesUnorderedBounded;
use std::alloc::Global;
use std::marker::Model;

/// A bounded set of at least one slot, as what a buffer holds. A contract sees what it sees of the set.
#[derive(Drop)]
pub struct CompletionQueue<F: Drop, S: ReadySource> {
    set: FuturesUnorderedBounded<F, S>,
}

impl<F: Drop, S: ReadySource> Model for CompletionQueue<F, S> {
    ghost use Rattle.futures_buffered_unordered.specs.FuturesUnorderedBounded.{Bounded, bounded_code, slots_in};

    ghost Value = { Bounded F S };

    ghost coded = { bounded_code F.code S.code };

    ghost use Rattle.std.specs.Prelude.{◌<◌};

    ghost view = { λ s. s.set };

    ghost invariant = { λ s. 0 < slots_in s.set };
}

impl<F: Drop, S: NewSource> NewQueue for CompletionQueue<F, S> {
    type Env = S::Env;

    type Source = S;

    ghost made = { IsNewSet S.made };

    fn make(env: &S::Env, alloc: Global, n: usize, limit: usize) -> Result<Self, NewFault> {
        let set = FuturesUnorderedBounded::with_new_source(env, alloc, n, limit)?;
        Ok(CompletionQueue { set })
    }
}

impl<F: SlotFuture<S::Waker>, S: ReadySource> FutureQueue<F> for CompletionQueue<F, S> {
    type Output = F::Output;

    ghost count = { held_in };

    ghost room = { slots_in };

    ghost pushes = { OnlyPushes (Pushes S.marks) };

    ghost polls = { PollsBounded (itself F.SlotFuture) S.ReadySource };

    ghost is_fit = { F.can_poll };

    ghost gives = { MayGiveInSlot F.polled };

    ghost as_stream = { ⟦<FuturesUnorderedBounded<F, S> as Stream>⟧ };

    ghost in_order = { false };

    fn len(&self) -> usize {
        self.set.len()
    }

    fn capacity(&self) -> usize {
        self.set.capacity()
    }

    #[tactic(auto, using(crate::proofs::BufferUnorderedLemmas::one_more, crate::proofs::BufferUnorderedLemmas::pushed_can))]
    fn push(&mut self, future: F) -> Option<F::Output> {
        self.set.push(future);
        None
    }

    #[tactic(auto, using(crate::proofs::BufferUnorderedLemmas::polls_set))]
    fn poll_output(&mut self, cx: &mut Context<'_>) -> Poll<Option<F::Output>> {
        self.set.poll_next(cx)
    }
}

impl<F: SlotFuture<S::Waker>, S: ReadySource> LimitedQueue<F> for CompletionQueue<F, S> {
    ghost limit = { λ set. set.limit };

    ghost push_keeps = { λ old item new pushed. pushed.1.same_limit };

    ghost poll_keeps = { λ old answer new cx left polled. polled.limit };

    fn limit(&self) -> usize {
        self.set.limit()
    }
}

/// Futures of a stream, at most as many at a time as the set has slots, whose outputs come as they finish.
pub type BufferUnordered<St, S = SharedReady> = Buffer<
    St,
    CompletionQueue<<St as Stream>::Item, S>,
>;

/// After any calls of one buffer that held nothing at first, each item taken has given one of the outputs, or is still
/// held. No output is of two items or of none, and no item is lost.
///
/// This is a law of the relation in the contract of a poll. Its body is empty.
pub fn calls_lose_nothing<St: Stream, S: ReadySource>()
where
    St::Item: SlotFuture<S::Waker>,
    ensures { LosesNothing St.Stream St.Item.SlotFuture S.ReadySource }
{}
