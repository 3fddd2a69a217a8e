//! What a buffer holds: futures, each of which gives one output.
//!
//! A buffer is written once, for any such queue. The outputs of a `CompletionQueue`, and of a `FuturesUnorderedBounded`
//! of `in_flight`, come as the futures finish. An `OrderedQueue` keeps the order of the pushes. A `TryQueue` is made of
//! any of them, and accepts errors also.
ghost use Rattle.futures_buffered.specs.Below.{MakesSlots, StreamOf};
ghost use Rattle.std.specs.Prelude.{◌≡◌, ◌<◌, ◌≤◌, ℕ, Bool, None, Option};
ghost use Rattle.futures_buffered.specs.FutureQueue.{PollsFutureQueue, PushAddsOutput, PushLeavesQueue};

use futures::task::{Context, Poll};
use futures_buffered_core::ready_core::NewFault;
use futures_buffered_core::ready_source::NewSource;
use std::alloc::Global;

/// A queue that holds some futures at a time, and returns one output of each.
///
/// In addition to the calls, an impl states what they may do. It gives relations between what the queue holds before,
/// what the call returns, and what the queue holds after. The relation of a poll also has the task before and after. A
/// push adds one output to those that may come, in the place that `in_order` says, or returns one at once. `len` and
/// `capacity` poll nothing, and take the same time at any number held.
pub trait FutureQueue<I>: Drop {
    ghost use Rattle.futures.specs.declared.task.Poll.{Poll};
    ghost use Rattle.futures.specs.declared.task.context.Context.{Context};

    /// What a future returns when it is done, and what a push may return.
    type Output;

    // How many are held, including outputs that wait for their turn.
    ghost count: { Self → ℕ };

    // How many can be held.
    ghost room: { Self → ℕ };

    // What a push may return, and make of the queue.
    ghost pushes: { Self → I → Option Self.Output → Self → Type 0 };

    // What a poll may return, and make of the queue and of its task.
    ghost polls: { Self → Poll (Option Self.Output) → Self → Context → Context → Type 0 };

    // The items that may be pushed.
    ghost is_fit: { I → Type 0 };

    // What an item may give.
    ghost gives: { I → Self.Output → Type 0 };

    // The queue as a stream: when it may be polled, where a pending poll waits, and which outputs may come.
    ghost as_stream: { StreamOf Self Self.Output };

    // Whether the outputs come in the order of the pushes.
    ghost in_order: { Bool };

    /// Returns how many are held.
    fn len(&self) -> usize
        ensures value { result ≡ count self.now }
        ensures bound { count self.now ≤ room self.now };

    /// Returns how many can be held, which never changes.
    fn capacity(&self) -> usize
        ensures { result ≡ room self.now };

    /// Adds the item's future, so that a later poll polls it; or returns an answer at once, and changes nothing. Does
    /// not poll. A push in flight may wake a task whose poll was pending.
    ///
    /// The queue refuses no item: if an allocation of its push fails, the future waits until a poll can allocate.
    fn push(&mut self, item: I) -> Option<Self::Output>
        requires room { count self.old < room self.old }
        requires held { as_stream.can_poll self.old }
        requires fit { is_fit item }
        ensures pushed { pushes self.old item result self.new }
        ensures queue { PushLeavesQueue count room self.old result self.new }
        ensures adds { PushAddsOutput in_order as_stream.yields (gives item) self.old result self.new }
        ensures again { as_stream.can_poll self.new };

    /// Polls the queue once. Returns `Ready(None)` if nothing is held. The poll itself does not allocate; the futures,
    /// and the calls of a source or of the set of `futures`, may.
    fn poll_output(&mut self, cx: &mut Context<'_>) -> Poll<Option<Self::Output>>
        requires { as_stream.can_poll self.old }
        ensures { PollsFutureQueue polls count room as_stream self.old result self.new cx.old cx.new };

    /// Returns the name under which a buffer over such a queue is printed.
    fn buffer_name() -> &'static str {
        "Buffer"
    }
}

/// A queue of futures with a limit on its polls.
pub trait LimitedQueue<I>: FutureQueue<I> {
    ghost use Rattle.futures.specs.declared.task.Poll.{Poll};
    ghost use Rattle.futures.specs.declared.task.context.Context.{Context};

    // How many ready slots one poll dequeues at most.
    ghost limit: { Self → ℕ };

    /// Returns how many ready slots one poll dequeues at most, which never changes.
    fn limit(&self) -> usize
        ensures value { result ≡ limit self.now }
        ensures some { 1 ≤ result };

    // Neither a push nor a poll changes the limit.
    ghost push_keeps: { (old : Self) (item : I) (new : Self)
        → Self.pushes old item None new → limit new ≡ limit old };

    ghost poll_keeps: { (old : Self) (answer : Poll (Option Self.Output)) (new : Self) (cx left : Context)
        → Self.polls old answer new cx left → limit new ≡ limit old };
}

/// A queue that a buffer can make for itself.
pub trait NewQueue: Drop {
    /// What making a queue needs in addition to the allocator.
    type Env: Drop;

    /// The source of the queue's set.
    type Source: NewSource;

    // What a new queue may be, by how many it can hold and how many ready slots one poll of its set dequeues at most.
    ghost made: { ℕ → ℕ → Self → Type 0 };

    /// Makes an empty queue that can hold `n`. One poll of its set dequeues at most `limit` ready slots.
    ///
    /// Takes time and allocates in proportion to `n`.
    fn make(env: &Self::Env, alloc: Global, n: usize, limit: usize) -> Result<Self, NewFault>
        requires room { 0 < n }
        requires some { 1 ≤ limit }
        ensures { MakesSlots n (made n limit) result };
}
