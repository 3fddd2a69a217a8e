//! A buffer that is polled to its end, or to the first output that ends the drain.
ghost use Rattle.futures_buffered.specs.Below.{MakesSlots};
ghost use Rattle.std.specs.Prelude.{◌≡◌, ◌<◌, ◌≤◌, option_copied};
ghost use Rattle.futures_buffered.specs.Drain.{IsDrained, IsNewDrain, PollsDrain, drain_of};

use crate::buffer::Buffer;
use crate::drain_output::DrainOutput;
use crate::future_queue::{FutureQueue, NewQueue};
use crate::turns::TakeTurns;
use futures::task::{Context, Poll};
use futures::{Future, Stream};
use futures_buffered_core::ready_core::NewFault;
use futures_buffered_unordered::futures_unordered_bounded::POLL_LIMIT;
use futures_buffered_unordered::{FusedFuture, FusedStream};
use std::alloc::Global;
use std::fmt;
use std::marker::Model;

/// Polls a buffer to its end, or to the first output that ends the drain.
///
/// A contract sees the buffer, or nothing once the drain was ready, and how many turns one poll takes at most. A poll
/// itself does not allocate; the polls of stream and futures, and the calls of the source or of the set of `futures`,
/// may. The poll that is ready drops the buffer, with what it holds. A call that polls nothing takes the same time at
/// any number held.
#[derive(Drop)]
pub struct Drain<St: Drop, Q: Drop> {
    buffer: Option<Buffer<St, Q>>,
    limit: usize,
}

impl<St: Drop, Q: Drop> Model for Drain<St, Q> {
    ghost use Rattle.futures_buffered.specs.Buffer.{Buffering, buffer_code};
    ghost use Rattle.futures_buffered.specs.Drain.{Draining, draining_code};

    ghost Value = { Draining (Buffering St Q) };

    ghost coded = { draining_code (buffer_code St.code Q.code) };

    ghost use Rattle.std.specs.Prelude.{◌≤◌};

    ghost view = { λ s. record { buffer = s.buffer; limit = s.limit } };

    ghost invariant = { λ s. 1 ≤ s.limit };
}

impl<St: Drop, Q: Drop> Drain<St, Q> {
    /// Makes a drain over this buffer. One poll takes at most `limit` turns. Does not poll.
    pub fn over_buffer(buffer: Buffer<St, Q>, limit: usize) -> Self
        requires { 1 ≤ limit }
        ensures { result ≡ record { buffer = Some buffer; limit = limit } }
    {
        Drain {
            buffer: Some(buffer),
            limit,
        }
    }

    /// Returns the buffer that is polled. Returns `None` once the drain was ready: the buffer was dropped then, with
    /// what it held.
    pub fn buffer(&self) -> Option<&Buffer<St, Q>>
        ensures { option_copied result ≡ self.now.buffer }
    {
        self.buffer.as_ref()
    }
}

impl<St: Drop, Q: NewQueue> Drain<St, Q> {
    /// Makes a drain over this stream, with at most `n` held at a time and a queue made for them. Does not poll.
    ///
    /// If the call fails, drops the stream. Takes time and allocates in proportion to `n`.
    pub fn over(env: &Q::Env, alloc: Global, stream: St, n: usize) -> Result<Self, NewFault>
        requires { 0 < n }
        ensures { MakesSlots n (IsNewDrain (Q.made n POLL_LIMIT) POLL_LIMIT stream) result }
    {
        Self::over_limit(env, alloc, stream, n, POLL_LIMIT)
    }

    /// Makes a drain as `over` does. One poll takes at most `limit` turns, and each of its polls of the queue's set
    /// dequeues at most `limit` ready slots.
    pub fn over_limit(
        env: &Q::Env,
        alloc: Global,
        stream: St,
        n: usize,
        limit: usize,
    ) -> Result<Self, NewFault>
        requires room { 0 < n }
        requires some { 1 ≤ limit }
        ensures { MakesSlots n (IsNewDrain (Q.made n limit) limit stream) result }
    {
        let buffer = Buffer::over_limit(env, alloc, stream, n, limit)?;
        Ok(Self::over_buffer(buffer, limit))
    }
}

impl<St: Stream, Q: FutureQueue<St::Item, Output: DrainOutput>> TakeTurns for Drain<St, Q> {
    type Answer = Q::Output;

    ghost taken = { drain_of St.Stream Q.FutureQueue Q.Output.DrainOutput };

    fn turn_limit(&self) -> usize {
        self.limit
    }

    // Polls the buffer once.
    fn turn(&mut self, cx: &mut Context<'_>) -> Option<Poll<Q::Output>> {
        let Some(buffer) = &mut self.buffer else {
            return Some(Poll::Ready(Q::Output::done()));
        };
        match buffer.poll_next(cx) {
            Poll::Pending => Some(Poll::Pending),
            Poll::Ready(Some(output)) => {
                if output.is_done() {
                    return None;
                }
                self.buffer = None;
                Some(Poll::Ready(output))
            }
            Poll::Ready(None) => {
                self.buffer = None;
                Some(Poll::Ready(Q::Output::done()))
            }
        }
    }
}

impl<St: Stream, Q: FutureQueue<St::Item, Output: DrainOutput>> Future for Drain<St, Q> {
    type Output = Q::Output;

    ghost can_poll = { (drain_of St.Stream Q.FutureQueue Q.Output.DrainOutput).can_poll };

    ghost needs = { (drain_of St.Stream Q.FutureQueue Q.Output.DrainOutput).needs };

    ghost gives = { (drain_of St.Stream Q.FutureQueue Q.Output.DrainOutput).gives };

    /// Takes at most as many turns as the limit, each of which polls the buffer once. A further turn follows an output
    /// that does not end the drain.
    ///
    /// Returns the first output that ends the drain, of a push or of a future. If the stream has ended and nothing is
    /// held, returns `Q::Output::done()`. A ready poll drops what is held; a later poll returns `Q::Output::done()` and
    /// polls nothing.
    ///
    /// The poll itself does not allocate, and waits for no thread. The polls of stream and futures, and the calls of
    /// the source or of the set of `futures`, may. Takes time in proportion to the turns, the items taken and the ready
    /// slots dequeued, apart from the polls. At the limit, wakes the task at once.
    fn poll(&mut self, cx: &mut Context<'_>) -> Poll<Q::Output>
        requires { (drain_of St.Stream Q.FutureQueue Q.Output.DrainOutput).can_poll self.old }
        ensures { PollsDrain St.Stream Q.FutureQueue Q.Output.DrainOutput
            self.old result self.new cx.old cx.new }
    {
        self.poll_in_turns(cx)
    }
}

/// The drain is terminated if there is no buffer, or if the buffer's stream has ended and the buffer holds nothing.
impl<St: Stream, Q: FutureQueue<St::Item, Output: DrainOutput>> FusedFuture for Drain<St, Q> {
    ghost is_over = { IsDrained Q.count };

    fn is_terminated(&self) -> bool {
        match &self.buffer {
            Some(buffer) => buffer.is_terminated(),
            None => true,
        }
    }
}

/// Prints whether the drain has ended.
impl<St: Stream, Q: FutureQueue<St::Item, Output: DrainOutput>> fmt::Debug for Drain<St, Q> {
    fn fmt<W: fmt::Write>(&self, f: &mut fmt::Formatter<W>) -> fmt::Result {
        f.debug_struct(Q::Output::drain_name())
            .field("has_ended", &self.buffer.is_none())
            .finish_non_exhaustive()
    }
}
