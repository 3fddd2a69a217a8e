//! Calls a closure with each item of a stream, and runs some of the futures that the closure makes at a time, in any
//! queue of futures that has a limit.
ghost use Rattle.futures_buffered.specs.Below.{MakesSlots};
ghost use Rattle.std.specs.Prelude.{◌≡◌, ◌<◌, ◌≤◌, ◌↔◌, Option, IsTrue, is_some, false, option_copied};
ghost use Rattle.futures_buffered.specs.ForEachConcurrent.{IsNewForEach, CanForEach, DrawsOnce, MayEnd, PollsForEach};
ghost use Rattle.futures_buffered.specs.ForEachConcurrent.{for_each_of, turn_answer};
ghost use Rattle.futures_buffered.specs.Buffer.{DrawsTask, PollsStream};

use crate::buffer::next_item;
use crate::buffer_unordered::CompletionQueue;
use crate::future_queue::{FutureQueue, LimitedQueue, NewQueue};
use crate::turns::TakeTurns;
use futures::task::{Context, Poll};
use futures::{Future, Stream};
use futures_buffered_core::ready_core::NewFault;
use futures_buffered_core::ready_shared::SharedReady;
use futures_buffered_unordered::FusedFuture;
use futures_buffered_unordered::futures_unordered_bounded::POLL_LIMIT;
use std::alloc::Global;
use std::fmt;
use std::marker::Model;

/// Calls a closure with each item of a stream, once and in order. Runs the futures that the closure makes, at most as
/// many at a time as the queue has room for.
///
/// A contract sees the stream, or nothing once the stream has ended, what it sees of the queue, and the closure. A poll
/// itself does not allocate; the stream, the closure, the futures and the calls of the source may. The poll in which
/// the stream ends drops the stream. A call that polls nothing takes the same time at any number held.
#[derive(Drop)]
pub struct ForEachBy<St: Drop, F: Drop, Q: Drop> {
    stream: Option<St>,
    closure: F,
    queue: Q,
}

impl<St: Drop, F: Drop, Q: Drop> Model for ForEachBy<St, F, Q> {
    ghost use Rattle.futures_buffered.specs.ForEachConcurrent.{ForEach, for_each_code};

    ghost Value = { ForEach St F Q };

    ghost coded = { for_each_code St.code F.code Q.code };

    ghost view = { λ s. record {
      buffer = record { stream = s.stream; queue = s.queue };
      closure = s.closure;
    } };
}

/// A for-each that runs at most as many futures at a time as a set has slots.
pub type ForEachConcurrent<St, F, Fut, S = SharedReady> = ForEachBy<St, F, CompletionQueue<Fut, S>>;

impl<St: Drop, F: Drop, Q: NewQueue> ForEachBy<St, F, Q> {
    /// Makes a for-each over this stream and closure, with at most `n` futures at a time and a queue made for them.
    /// Does not poll.
    ///
    /// If the call fails, drops stream and closure. Takes time and allocates in proportion to `n`.
    pub fn over(
        env: &Q::Env,
        alloc: Global,
        stream: St,
        n: usize,
        closure: F,
    ) -> Result<Self, NewFault>
        requires { 0 < n }
        ensures { MakesSlots n (IsNewForEach (Q.made n POLL_LIMIT) stream closure) result }
    {
        Self::over_limit(env, alloc, stream, n, POLL_LIMIT, closure)
    }

    /// Makes a for-each as `over` does. One poll takes at most `limit` turns, and each of its polls of the queue's set
    /// dequeues at most `limit` ready slots.
    pub fn over_limit(
        env: &Q::Env,
        alloc: Global,
        stream: St,
        n: usize,
        limit: usize,
        closure: F,
    ) -> Result<Self, NewFault>
        requires room { 0 < n }
        requires some { 1 ≤ limit }
        ensures { MakesSlots n (IsNewForEach (Q.made n limit) stream closure) result }
    {
        let queue = Q::make(env, alloc, n, limit)?;
        Ok(ForEachBy {
            stream: Some(stream),
            closure,
            queue,
        })
    }
}

impl<St: Drop, F: Drop, Q: NewQueue<Env = (), Source = SharedReady>> ForEachBy<St, F, Q> {
    /// Makes a for-each as `over_limit` does, with a shared source. Its futures are woken from any thread.
    pub fn with_limit(
        alloc: Global,
        stream: St,
        n: usize,
        limit: usize,
        closure: F,
    ) -> Result<Self, NewFault>
        requires room { 0 < n }
        requires some { 1 ≤ limit }
        ensures { MakesSlots n (IsNewForEach (Q.made n limit) stream closure) result }
    {
        Self::over_limit(&(), alloc, stream, n, limit, closure)
    }
}

impl<
    St: Stream,
    F: FnMut(St::Item) -> Fut + Drop,
    Fut,
    Q: LimitedQueue<Fut, Output = ()>,
> ForEachBy<St, F, Q> {
    /// Returns how many futures are held.
    pub fn len(&self) -> usize
        ensures { result ≡ Q.count self.now.buffer.queue }
    {
        self.queue.len()
    }

    /// Returns whether no future is held. The stream may have more items.
    pub fn is_empty(&self) -> bool
        ensures { IsTrue result ↔ (Q.count self.now.buffer.queue ≡ 0) }
    {
        self.queue.len() == 0
    }

    /// Returns how many futures can be held at a time, which never changes.
    pub fn capacity(&self) -> usize
        ensures { result ≡ Q.room self.now.buffer.queue }
    {
        self.queue.capacity()
    }

    /// Returns the stream from which a poll takes items, or `None` once the stream has ended and was dropped.
    pub fn stream(&self) -> Option<&St>
        ensures { option_copied result ≡ self.now.buffer.stream }
    {
        self.stream.as_ref()
    }

    // Takes at most one item, calls the closure with it, and pushes the future that the closure makes. Returns whether
    // an item was taken.
    fn draw(&mut self, cx: &mut Context<'_>) -> bool
        requires { CanForEach St.Stream F.FnMut Q.FutureQueue self.old }
        ensures drew { (item : Option St.Item) × (is_some item ≡ result)
            × DrawsOnce St.Stream F.FnMut Q.FutureQueue self.old item self.new }
        ensures again { CanForEach St.Stream F.FnMut Q.FutureQueue self.new }
        ensures same { MayEnd St.Stream self.new → MayEnd St.Stream self.old }
        ensures room { Q.room self.new.buffer.queue ≡ Q.room self.old.buffer.queue }
        ensures limit { Q.limit self.new.buffer.queue ≡ Q.limit self.old.buffer.queue }
        ensures task { DrawsTask (PollsStream St.yields) Q.count Q.room St.needs (result ≡ false)
            self.old.buffer self.new.buffer cx.old cx.new }
    {
        let Some(item) = next_item(&mut self.stream, &self.queue, cx) else {
            return false;
        };
        let future = (self.closure)(item);
        self.queue.push(future);
        true
    }
}

// Returns the answer of a turn, by whether it took an item, what its poll of the queue returned, and whether the stream
// goes on.
fn after_turn(drew: bool, polled: Poll<Option<()>>, goes_on: bool) -> Option<Poll<()>>
    ensures { result ≡ turn_answer drew polled goes_on }
{
    match polled {
        Poll::Ready(None) if !drew && !goes_on => Some(Poll::Ready(())),
        Poll::Ready(None) | Poll::Pending if !drew => Some(Poll::Pending),
        _ => None,
    }
}

impl<St: Stream, F: FnMut(St::Item) -> Fut + Drop, Fut, Q: LimitedQueue<Fut, Output = ()>> TakeTurns
    for ForEachBy<St, F, Q> {
    type Answer = ();

    ghost taken = { for_each_of St.Stream F.FnMut Q.FutureQueue Q.limit };

    fn turn_limit(&self) -> usize {
        self.queue.limit()
    }

    // Takes at most one item, and polls the queue once.
    fn turn(&mut self, cx: &mut Context<'_>) -> Option<Poll<()>> {
        let drew = self.draw(cx);
        let polled = self.queue.poll_output(cx);
        after_turn(drew, polled, self.stream.is_some())
    }
}

impl<St: Stream, F: FnMut(St::Item) -> Fut + Drop, Fut, Q: LimitedQueue<Fut, Output = ()>> Future
    for ForEachBy<St, F, Q> {
    type Output = ();

    ghost can_poll = { CanForEach St.Stream F.FnMut Q.FutureQueue };

    ghost needs = { (for_each_of St.Stream F.FnMut Q.FutureQueue Q.limit).needs };

    ghost gives = { (for_each_of St.Stream F.FnMut Q.FutureQueue Q.limit).gives };

    /// Takes at most as many turns as the limit of the queue. If there is room, a turn takes at most one item, calls
    /// the closure with it, and holds the future that the closure makes. Then the turn polls the queue once. A further
    /// turn follows if an item was taken or a future was done.
    ///
    /// Returns `Ready` if the stream has ended and nothing is held, also on later polls.
    ///
    /// The poll itself does not allocate, and waits for no thread. The stream, the closure, the futures and the calls
    /// of the source may. Takes time in proportion to the turns and the ready slots dequeued, apart from the polls and
    /// the calls of the closure. At the limit, wakes the task at once.
    fn poll(&mut self, cx: &mut Context<'_>) -> Poll<()>
        requires { CanForEach St.Stream F.FnMut Q.FutureQueue self.old }
        ensures { PollsForEach St.Stream F.FnMut Q.FutureQueue Q.limit
            self.old result self.new cx.old cx.new }
    {
        self.poll_in_turns(cx)
    }
}

/// The for-each is terminated if the stream has ended and no future is held.
impl<
    St: Stream,
    F: FnMut(St::Item) -> Fut + Drop,
    Fut,
    Q: LimitedQueue<Fut, Output = ()>,
> FusedFuture for ForEachBy<St, F, Q> {
    ghost is_over = { (for_each_of St.Stream F.FnMut Q.FutureQueue Q.limit).is_over };

    fn is_terminated(&self) -> bool {
        self.stream.is_none() && self.queue.len() == 0
    }
}

/// Prints whether the stream has ended, and how many are held.
impl<
    St: Stream,
    F: FnMut(St::Item) -> Fut + Drop,
    Fut,
    Q: LimitedQueue<Fut, Output = ()>,
> fmt::Debug for ForEachBy<St, F, Q> {
    fn fmt<W: fmt::Write>(&self, f: &mut fmt::Formatter<W>) -> fmt::Result {
        f.debug_struct("ForEachConcurrent")
            .field("has_ended", &self.stream.is_none())
            .field("len", &self.queue.len())
            .finish_non_exhaustive()
    }
}
