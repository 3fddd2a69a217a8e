//! `NumberedQueue`: an ordered queue over any numbered set, which is a stream if the set's futures poll themselves.
ghost use Rattle.std.specs.Prelude.{◌≡◌, ◌↔◌, length, IsTrue};
ghost use Rattle.futures_buffered_ordered.specs.OrderedEntries.{ComesInOrder, IsLength, PollsOrdered};

use crate::numbered_set::{NumberedSet, PollNumberedSet, StreamedSet};
use crate::ordered_entries::OrderedEntries;
use futures::Stream;
use futures::task::{Context, Poll};
use futures_buffered_unordered::fused::{FusedStream, SizeHint};
use futures_buffered_unordered::poll_one::PollFuture;
use std::marker::Model;

/// Futures whose outputs come in the order of a list, with additions at both ends. A set holds the futures in progress.
///
/// A contract sees the set, in which each future has a number, and the entries from the front to the back. An entry in
/// progress has the number of its future. Of a number the contract says only which entry and which future have it. The
/// contract also sees how many entries had a place when the queue was made.
///
/// A push, keeping an output, yielding it, and calls that only count take the same time at any length. If a push finds
/// as many entries as places, the list grows, which over many pushes is the same time for each. No call waits for
/// another thread.
#[derive(Drop)]
pub struct NumberedQueue<Q: NumberedSet, A: Drop> {
    pub(crate) queue: OrderedEntries<Q, A>,
}

impl<Q: NumberedSet, A: Drop> Model for NumberedQueue<Q, A> {
    ghost use Rattle.futures_buffered_ordered.specs.OrderedEntries.{Ordered};
    ghost use Rattle.futures_buffered_ordered.specs.OrderedEntriesInvariant.{KeepsQueue};

    ghost Value = { Ordered Q A };

    ghost view = { λ q. q.queue };

    ghost invariant = { λ q. KeepsQueue Q.with_number Q.count Q.places q.queue };
}

impl<Q: NumberedSet, A: Drop> NumberedQueue<Q, A> {
    /// The number of entries, in progress and kept.
    #[tactic(auto, using(crate::proofs::OrderedEntriesInvariantLemmas::queue_length))]
    pub fn len(&self) -> usize
        ensures { IsLength Q.with_number Q.count self.now result }
    {
        self.queue.len()
    }

    /// Whether there is no entry.
    pub fn is_empty(&self) -> bool
        ensures { IsTrue result ↔ (length self.now.entries ≡ 0) }
    {
        self.queue.is_empty()
    }

    /// Polls the queue once; `rule` says how one held future is polled.
    ///
    /// Returns `Ready(None)` if there is no entry. If the front's output is kept, removes the front and returns its
    /// output, without a poll of the set. Otherwise polls the set again and again, and keeps each output in its entry,
    /// until the front's output has come or the set returns `Pending`. Then returns the front's output, or `Pending`.
    ///
    /// Allocates only what the set's polls do, and takes their time. There is at most one more of these polls than
    /// outputs that they return.
    pub fn poll_with<R>(&mut self, rule: &R, cx: &mut Context<'_>) -> Poll<Option<A>>
    where
        Q: PollNumberedSet<R, Output = A>,
        requires { Q.can_poll self.old.set }
        ensures { PollsOrdered Q.count Q.keeps Q.NumberedPolls
            self.old result self.new cx.old cx.new }
    {
        self.queue.poll_entries(rule, cx)
    }
}

impl<Q: StreamedSet<Output = A>, A: Drop> Stream for NumberedQueue<Q, A> {
    type Item = A;

    ghost can_poll = { λ q. Q.can_poll q.set };

    ghost needs = { λ q. Q.needs q.set };

    ghost yields = { ComesInOrder Q.may_give };

    /// Polls the queue as `poll_with` does, by the rule that polls the future itself.
    fn poll_next(&mut self, cx: &mut Context<'_>) -> Poll<Option<A>>
        requires { Q.can_poll self.old.set }
        ensures { PollsOrdered Q.count Q.keeps Q.NumberedPolls
            self.old result self.new cx.old cx.new }
    {
        self.poll_with(&PollFuture, cx)
    }
}

impl<Q: StreamedSet<Output = A>, A: Drop> FusedStream for NumberedQueue<Q, A> {
    ghost is_over = { λ q. length q.entries ≡ 0 };

    fn is_terminated(&self) -> bool {
        self.is_empty()
    }
}

impl<Q: NumberedSet, A: Drop> SizeHint for NumberedQueue<Q, A> {
    ghost use Rattle.std.specs.Prelude.{Some};

    ghost items_left = { λ q. (length q.entries, Some (length q.entries)) };

    fn size_hint(&self) -> (usize, Option<usize>) {
        (self.len(), Some(self.len()))
    }
}
