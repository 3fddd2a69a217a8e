//! Sets, queues and merges in flight, while a task waits for their next output.
ghost use Rattle.std.specs.Prelude.{◌≡◌, Some, IfOk, IsSomeAnd};
ghost use Rattle.futures.specs.Poll.{OnPending};
ghost use Rattle.futures.specs.Task.{Covers, Keeps};
ghost use Rattle.futures_buffered_in_flight.specs.InFlight.{CameInFlight, CanPollAll};
ghost use Rattle.futures_buffered_in_flight.specs.InFlightMerge.{CameOfMerge, CanPollStreams};
ghost use Rattle.futures_buffered_in_flight.specs.InFlightOrdered.{CameInTurn, CanPollOrdered};
ghost use Rattle.futures_buffered_in_flight.specs.Waiting.{PollsUntil};

use crate::in_flight::{Came, FuturesUnorderedBy, Kind};
use crate::in_flight_merge::MergeBounded;
use crate::in_flight_ordered::FuturesOrderedBy;
use futures::executor::block_on;
use futures::task::{Context, Poll};
use futures::{Future, Stream};
use std::alloc::AllocGlobal;
use std::io;
use std::random::RandomSource;
use std::sync::Wait;

/// A stream whose next output comes with what is known of the stream then.
pub trait NextOutput: Stream {
    ghost use Rattle.std.specs.Prelude.{Option};

    /// An output, or an output with its key and its tag.
    type Output;

    // What polls until an output, or until `None`, make of the stream.
    ghost came: { Self → Option Self.Output → Self → Type 0 };

    /// Polls the stream once.
    fn poll_next_output(&mut self, cx: &mut Context<'_>) -> Poll<Option<Self::Output>>
        requires { Self.can_poll self.old }
        ensures until { PollsUntil came self.old result self.new }
        ensures again { OnPending result (Self.can_poll self.new) }
        ensures registered { OnPending result (Covers cx.new (Self.needs self.new)) }
        ensures kept { Keeps cx.old cx.new };
}

/// A future of the next output of a set, a queue or a merge, or of its `None`. It returns the set, the queue or the
/// merge too, so what is known of these stays known.
#[derive(Drop)]
pub struct Waiting<S> {
    // `None` once that was returned.
    held: Option<S>,
}

impl<S: NextOutput> Future for Waiting<S> {
    type Output = (Option<S::Output>, S);

    // What was returned is not there to be polled.
    ghost can_poll = { λ waiting. IsSomeAnd waiting.held S.can_poll };

    ghost needs = { λ waiting place. IsSomeAnd waiting.held (λ polled. S.needs polled place) };

    ghost gives = { λ waiting given. IsSomeAnd waiting.held (λ polled. S.came polled given.0 given.1) };

    fn poll(&mut self, cx: &mut Context<'_>) -> Poll<Self::Output> {
        let Some(polled) = &mut self.held else {
            unreachable!()
        };
        let Poll::Ready(came) = polled.poll_next_output(cx) else {
            return Poll::Pending;
        };
        Poll::Ready((came, self.held.take().unwrap()))
    }
}

impl<F: Future<Output: Drop>, T: Drop, K> NextOutput for FuturesUnorderedBy<F, T, K> {
    type Output = Came<F::Output, T>;

    ghost came = { CameInFlight F.Future };

    fn poll_next_output(&mut self, cx: &mut Context<'_>) -> Poll<Option<Came<F::Output, T>>> {
        self.poll_next_keyed(cx)
    }
}

impl<F: Future<Output: Drop>, T: Drop, K> FuturesUnorderedBy<F, T, K> {
    /// Returns a future of the next output, with its key and tag, or of `None` if no future is held. That future
    /// returns the set too.
    ///
    /// Any executor runs it, as `runtime.block_on(&rt, set.into_next())` of `tokio` does.
    pub fn into_next(self) -> Waiting<Self>
        ensures { result.held ≡ Some self }
    {
        Waiting { held: Some(self) }
    }

    /// Blocks the thread until the next output or `None` comes, and returns it with the set. Drives no socket and no
    /// timer. If the thread cannot wait, drops the set and returns an error.
    pub fn wait<R>(self, rt: &R) -> io::Result<(Option<Came<F::Output, T>>, Self)>
    where
        R: Wait + RandomSource + AllocGlobal,
        requires { CanPollAll F.Future self }
        ensures { IfOk result (λ given. CameInFlight F.Future self given.0 given.1) }
    {
        block_on(rt, self.into_next())
    }
}

impl<F: Future<Output = A>, A: Drop, K: Kind> NextOutput for FuturesOrderedBy<F, A, K> {
    type Output = A;

    ghost came = { CameInTurn F.Future };

    fn poll_next_output(&mut self, cx: &mut Context<'_>) -> Poll<Option<A>> {
        self.poll_output(cx)
    }
}

impl<F: Future<Output = A>, A: Drop, K: Kind> FuturesOrderedBy<F, A, K> {
    /// Returns a future of the output of the front, or of `None` if there is no entry. That future returns the queue
    /// too.
    ///
    /// Any executor runs it, as `runtime.block_on(&rt, queue.into_next())` of `tokio` does.
    pub fn into_next(self) -> Waiting<Self>
        ensures { result.held ≡ Some self }
    {
        Waiting { held: Some(self) }
    }

    /// Blocks the thread until the output of the front or `None` comes, and returns it with the queue. Drives no socket
    /// and no timer. If the thread cannot wait, drops the queue and returns an error.
    pub fn wait<R>(self, rt: &R) -> io::Result<(Option<A>, FuturesOrderedBy<F, A, K>)>
    where
        R: Wait + RandomSource + AllocGlobal,
        requires { CanPollOrdered F.Future self }
        ensures { IfOk result (λ given. CameInTurn F.Future self given.0 given.1) }
    {
        block_on(rt, self.into_next())
    }
}

impl<St: Stream<Item: Drop>> NextOutput for MergeBounded<St> {
    type Output = St::Item;

    ghost came = { CameOfMerge St.Stream };

    fn poll_next_output(&mut self, cx: &mut Context<'_>) -> Poll<Option<St::Item>> {
        self.poll_next(cx)
    }
}

impl<St: Stream<Item: Drop>> MergeBounded<St> {
    /// Returns a future of the next item, or of `None` if no stream is held any more. That future returns the merge
    /// too.
    pub fn into_next(self) -> Waiting<Self>
        ensures { result.held ≡ Some self }
    {
        Waiting { held: Some(self) }
    }

    /// Blocks the thread until the next item or `None` comes, and returns it with the merge. If the thread cannot wait,
    /// drops the merge and returns an error.
    pub fn wait<R>(self, rt: &R) -> io::Result<(Option<St::Item>, Self)>
    where
        R: Wait + RandomSource + AllocGlobal,
        requires { CanPollStreams St.Stream self }
        ensures { IfOk result (λ given. CameOfMerge St.Stream self given.0 given.1) }
    {
        block_on(rt, self.into_next())
    }
}
