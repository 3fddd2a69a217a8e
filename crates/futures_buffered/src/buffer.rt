//! Some futures of a stream at a time, in any queue of futures.
ghost use Rattle.futures_buffered.specs.Below.{MakesSlots};
ghost use Rattle.std.specs.Prelude.{◌≡◌, ◌<◌, ◌≤◌, ◌↔◌, IfSome, IsTrue, None, option_copied};
ghost use Rattle.futures_buffered.specs.Buffer.{DrawsNext, DrawsTask, FillsBuffer, IsNewBuffer, PollsBuffer};
ghost use Rattle.futures_buffered.specs.Buffer.{PollsStream, answer_from, buffer_of, hint_ahead, hint_with};

use crate::future_queue::{FutureQueue, NewQueue};
use futures::Stream;
use futures::task::{Context, Poll};
use futures_buffered_core::ready_core::NewFault;
use futures_buffered_core::ready_shared::SharedReady;
use futures_buffered_unordered::futures_unordered_bounded::POLL_LIMIT;
use futures_buffered_unordered::{FusedStream, SizeHint};
use std::alloc::Global;
use std::fmt;
use std::marker::Model;

/// Futures of a stream, at most as many at a time as the queue has room for.
///
/// A contract sees the stream, or nothing once the stream has ended, and what it sees of the queue. A poll itself does
/// not allocate; the polls of stream and futures, and the calls of the source or of the set of `futures`, may. The poll
/// in which the stream ends drops the stream. A call that polls nothing takes the same time at any number held.
#[derive(Drop)]
pub struct Buffer<St: Drop, Q: Drop> {
    stream: Option<St>,
    queue: Q,
}

impl<St: Drop, Q: Drop> Model for Buffer<St, Q> {
    ghost use Rattle.futures_buffered.specs.Buffer.{Buffering, buffer_code};

    ghost Value = { Buffering St Q };

    ghost coded = { buffer_code St.code Q.code };

    ghost view = { λ s. record { stream = s.stream; queue = s.queue } };
}

impl<St: Drop, Q: Drop> Buffer<St, Q> {
    /// Makes a buffer over this stream and a queue that was made before. Does not poll.
    pub fn with_queue(stream: St, queue: Q) -> Self
        ensures { result ≡ record { stream = Some stream; queue = queue } }
    {
        Buffer {
            stream: Some(stream),
            queue,
        }
    }
}

impl<St: Drop, Q: NewQueue> Buffer<St, Q> {
    /// Makes a buffer over this stream, with at most `n` held at a time and a queue made for them. Does not poll.
    ///
    /// If the call fails, drops the stream. Takes time and allocates in proportion to `n`.
    pub fn over(env: &Q::Env, alloc: Global, stream: St, n: usize) -> Result<Self, NewFault>
        requires { 0 < n }
        ensures { MakesSlots n (IsNewBuffer (Q.made n POLL_LIMIT) stream) result }
    {
        Self::over_limit(env, alloc, stream, n, POLL_LIMIT)
    }

    /// Makes a buffer as `over` does. One poll of the queue's set dequeues at most `limit` ready slots.
    pub fn over_limit(
        env: &Q::Env,
        alloc: Global,
        stream: St,
        n: usize,
        limit: usize,
    ) -> Result<Self, NewFault>
        requires room { 0 < n }
        requires some { 1 ≤ limit }
        ensures { MakesSlots n (IsNewBuffer (Q.made n limit) stream) result }
    {
        let queue = Q::make(env, alloc, n, limit)?;
        Ok(Self::with_queue(stream, queue))
    }
}

impl<St: Drop, Q: NewQueue<Env = (), Source = SharedReady>> Buffer<St, Q> {
    /// Makes a buffer as `over_limit` does, with a shared source. Its futures are woken from any thread.
    pub fn with_limit(alloc: Global, stream: St, n: usize, limit: usize) -> Result<Self, NewFault>
        requires room { 0 < n }
        requires some { 1 ≤ limit }
        ensures { MakesSlots n (IsNewBuffer (Q.made n limit) stream) result }
    {
        Self::over_limit(&(), alloc, stream, n, limit)
    }
}

// Takes one item, if the stream has not ended, there is room, and an item comes. Drops a stream that ends.
#[inline(always)]
pub(crate) fn next_item<St: Stream, I, Q: FutureQueue<I>>(
    stream: &mut Option<St>,
    queue: &Q,
    cx: &mut Context<'_>,
) -> Option<St::Item>
    requires { IfSome stream.old St.can_poll }
    ensures drew { DrawsNext (PollsStream St.yields) Q.count (Q.room queue.now)
        (record { stream = stream.old; queue = queue.now }) result (record { stream = stream.new; queue = queue.now }) }
    ensures next { IfSome stream.new St.can_poll }
    ensures bound { Q.count queue.now ≤ Q.room queue.now }
    ensures task { DrawsTask (PollsStream St.yields) Q.count Q.room St.needs (result ≡ None)
        (record { stream = stream.old; queue = queue.now }) (record { stream = stream.new; queue = queue.now })
        cx.old cx.new }
{
    if queue.len() >= queue.capacity() {
        return None;
    }
    let Some(next) = &mut *stream else {
        return None;
    };
    match next.poll_next(cx) {
        Poll::Ready(Some(item)) => Some(item),
        Poll::Ready(None) => {
            *stream = None;
            None
        }
        Poll::Pending => None,
    }
}

impl<St: Stream, Q: FutureQueue<St::Item>> Buffer<St, Q> {
    /// Returns how many are held: futures in progress, and outputs that wait for their turn.
    pub fn len(&self) -> usize
        ensures value { result ≡ Q.count self.now.queue }
        ensures bound { Q.count self.now.queue ≤ Q.room self.now.queue }
    {
        self.queue.len()
    }

    /// Returns whether nothing is held. The stream may have more items.
    pub fn is_empty(&self) -> bool
        ensures { IsTrue result ↔ (Q.count self.now.queue ≡ 0) }
    {
        self.queue.len() == 0
    }

    /// Returns how many can be held at a time, which never changes.
    pub fn capacity(&self) -> usize
        ensures { result ≡ Q.room self.now.queue }
    {
        self.queue.capacity()
    }

    /// Returns the stream from which the buffer takes items, or `None` once the stream has ended and was dropped.
    pub fn stream(&self) -> Option<&St>
        ensures { option_copied result ≡ self.now.stream }
    {
        self.stream.as_ref()
    }
}

// Takes items while the stream has not ended, there is room, and an item comes. Returns the first answer that a push
// returns, and takes no further item then.
fn fill<St: Stream, Q: FutureQueue<St::Item>>(
    stream: &mut Option<St>,
    queue: &mut Q,
    cx: &mut Context<'_>,
) -> Option<Q::Output>
    requires { (buffer_of St.Stream Q.FutureQueue).can_poll (record { stream = stream.old; queue = queue.old }) }
    ensures { FillsBuffer St.Stream Q.FutureQueue (record { stream = stream.old; queue = queue.old }) result
        (record { stream = stream.new; queue = queue.new }) cx.old cx.new }
{
    'draws: while let Some(item) = next_item(stream, queue, cx) {
        if let Some(answer) = queue.push(item) {
            return Some(answer);
        }
    }
    None
}

// Returns the answer of a poll, by whether the stream goes on and by what the queue returned.
#[inline(always)]
fn after_poll<A>(goes_on: bool, polled: Poll<Option<A>>) -> Poll<Option<A>>
    ensures { result ≡ answer_from goes_on polled }
{
    match polled {
        Poll::Ready(Some(output)) => Poll::Ready(Some(output)),
        Poll::Ready(None) if !goes_on => Poll::Ready(None),
        Poll::Ready(None) | Poll::Pending => Poll::Pending,
    }
}

impl<St: Stream, Q: FutureQueue<St::Item>> Stream for Buffer<St, Q> {
    type Item = Q::Output;

    ghost can_poll = { (buffer_of St.Stream Q.FutureQueue).can_poll };

    ghost needs = { (buffer_of St.Stream Q.FutureQueue).needs };

    ghost yields = { (buffer_of St.Stream Q.FutureQueue).yields };

    /// Takes items from the stream while the queue has room and the stream is ready; then polls the queue once.
    ///
    /// If a push returns an answer, as that of an error into a `TryQueue` does, returns that answer and does not poll the
    /// queue; items taken before stay held, and the stream continues. Returns `Ready(None)` if the stream has ended and
    /// nothing is held, also on later polls.
    ///
    /// The poll itself does not allocate, and waits for no thread. The polls of stream and futures, and the calls of
    /// the source or of the set of `futures`, may. Takes time in proportion to the items taken and the ready slots
    /// dequeued, apart from the polls.
    fn poll_next(&mut self, cx: &mut Context<'_>) -> Poll<Option<Q::Output>>
        requires { (buffer_of St.Stream Q.FutureQueue).can_poll self.old }
        ensures { PollsBuffer St.Stream Q.FutureQueue self.old result self.new cx.old cx.new }
    {
        if let Some(answer) = fill(&mut self.stream, &mut self.queue, cx) {
            return Poll::Ready(Some(answer));
        }
        let polled = self.queue.poll_output(cx);
        after_poll(self.stream.is_some(), polled)
    }
}

/// The buffer is terminated if the stream has ended and nothing is held.
impl<St: Stream, Q: FutureQueue<St::Item>> FusedStream for Buffer<St, Q> {
    ghost use Rattle.std.specs.Prelude.{◌≡◌, None};

    ghost is_over = { λ b. (b.stream ≡ None) × (Q.count b.queue ≡ 0) };

    fn is_terminated(&self) -> bool {
        self.stream.is_none() && self.queue.len() == 0
    }
}

/// The hint adds how many are held to the stream's hint, which is zero once the stream has ended.
impl<St: Stream + SizeHint, Q: FutureQueue<St::Item>> SizeHint for Buffer<St, Q> {
    ghost items_left = { λ b. hint_with (Q.count b.queue) (hint_ahead St.items_left b.stream) };

    fn size_hint(&self) -> (usize, Option<usize>) {
        let held = self.queue.len();
        let (least, most) = match &self.stream {
            Some(stream) => stream.size_hint(),
            None => (0, Some(0)),
        };
        (
            least.saturating_add(held),
            most.and_then(|most| most.checked_add(held)),
        )
    }
}

/// Prints whether the stream has ended, and how many are held.
impl<St: Stream, Q: FutureQueue<St::Item>> fmt::Debug for Buffer<St, Q> {
    fn fmt<W: fmt::Write>(&self, f: &mut fmt::Formatter<W>) -> fmt::Result {
        f.debug_struct(Q::buffer_name())
            .field("has_ended", &self.stream.is_none())
            .field("len", &self.queue.len())
            .finish_non_exhaustive()
    }
}
