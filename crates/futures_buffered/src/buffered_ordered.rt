//! Some futures of a stream at a time, whose outputs come in the order of the items.
ghost use Rattle.futures_buffered.specs.Below.{IsNewBoundedQueue, PollsOrderedBounded, PushesNumber, itself};
ghost use Rattle.std.specs.Prelude.{true};
ghost use Rattle.futures_buffered_ordered.specs.OrderedEntries.{AddsBack};
ghost use Rattle.futures_buffered.specs.FutureQueue.{OnlyPushes};
ghost use Rattle.futures_buffered.specs.BufferUnordered.{MayGiveInSlot};
ghost use Rattle.futures_buffered.specs.BufferedOrdered.{GivesInOrder, queue_len, queue_slots};

use crate::buffer::Buffer;
use crate::future_queue::{FutureQueue, NewQueue};
use futures::Stream;
use futures::task::{Context, Poll};
use futures_buffered_core::ready_core::NewFault;
use futures_buffered_core::ready_shared::SharedReady;
use futures_buffered_core::ready_source::{NewSource, ReadySource};
use futures_buffered_ordered::BoundedQueue;
use futures_buffered_unordered::SlotFuture;
use std::alloc::Global;
use std::marker::Model;

/// A bounded ordered queue of at least one slot, with no more entries than slots, as what a buffer holds. An output
/// that waits for its turn counts as held. A contract sees what it sees of the queue.
#[derive(Drop)]
pub struct OrderedQueue<F: Drop, A: Drop, S: ReadySource> {
    queue: BoundedQueue<F, A, S>,
}

impl<F: Drop, A: Drop, S: ReadySource> Model for OrderedQueue<F, A, S> {
    ghost use Rattle.futures_buffered_ordered.specs.FuturesOrderedBounded.{OrderedBounded};

    ghost Value = { OrderedBounded F A S };

    ghost use Rattle.std.specs.Prelude.{◌<◌, ◌≤◌};
    ghost use Rattle.futures_buffered.specs.BufferedOrdered.{queue_len, queue_slots};

    ghost view = { λ s. s.queue };

    ghost invariant = { λ s. (0 < queue_slots s.queue) × (queue_len s.queue ≤ queue_slots s.queue) };
}

impl<F: SlotFuture<S::Waker, Output = A>, A: Drop, S: NewSource> NewQueue
    for OrderedQueue<F, A, S> {
    type Env = S::Env;

    type Source = S;

    ghost made = { IsNewBoundedQueue S.made };

    fn make(env: &S::Env, alloc: Global, n: usize, limit: usize) -> Result<Self, NewFault> {
        let queue = BoundedQueue::over_limit(env, alloc, n, limit)?;
        Ok(OrderedQueue { queue })
    }
}

impl<F: SlotFuture<S::Waker, Output = A>, A: Drop, S: ReadySource> FutureQueue<F>
    for OrderedQueue<F, A, S> {
    type Output = A;

    ghost count = { queue_len };

    ghost room = { queue_slots };

    ghost pushes = { OnlyPushes (AddsBack (PushesNumber S.marks)) };

    ghost polls = { PollsOrderedBounded (itself F.SlotFuture) S.ReadySource };

    ghost is_fit = { F.can_poll };

    ghost gives = { MayGiveInSlot F.polled };

    ghost as_stream = { ⟦<BoundedQueue<F, A, S> as Stream>⟧ };

    ghost in_order = { true };

    fn len(&self) -> usize {
        self.queue.len()
    }

    fn capacity(&self) -> usize {
        self.queue.capacity()
    }

    #[tactic(auto, using(crate::proofs::BufferUnorderedLemmas::one_more, crate::proofs::BufferedOrderedLemmas::pushed_can))]
    fn push(&mut self, future: F) -> Option<A> {
        prove!(self.queue.len() < self.queue.capacity());
        self.queue.push_back(future);
        None
    }

    fn poll_output(&mut self, cx: &mut Context<'_>) -> Poll<Option<A>> {
        self.queue.poll_next(cx)
    }
}

/// Futures of a stream, whose outputs come in the order in which the stream returned the futures. At most as many as
/// there are slots are held at a time; an output that waits for its turn counts as held.
pub type BufferedOrdered<St, S = SharedReady> = Buffer<
    St,
    OrderedQueue<
        <St as Stream>::Item,
        <<St as Stream>::Item as SlotFuture<<S as ReadySource>::Waker>>::Output,
        S,
    >,
>;

/// After any calls of one buffer that held nothing at first, the outputs so far are those of the first items taken, in
/// order. The other items are still held, in that order.
///
/// This is a law of the relations in the contract of a poll, stated of the queue alone. Its body is empty.
pub fn calls_give_in_order<St: Stream, S: ReadySource>()
where
    St::Item: SlotFuture<S::Waker>,
    ensures { GivesInOrder St.Stream St.Item.SlotFuture S.ReadySource }
{}
