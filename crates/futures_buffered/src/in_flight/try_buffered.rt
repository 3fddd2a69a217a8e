//! Adaptors of a stream of futures of `futures` and of errors, as methods of the stream.
//!
//! Each holds the futures in a `FuturesUnorderedBounded` or a `FuturesOrderedBounded`. A future may contain closures.
ghost use Rattle.futures_buffered.specs.Below.{MakesSlots, CanPollQueue};
ghost use Rattle.std.specs.Prelude.{◌<◌, IfOk};
ghost use Rattle.futures_buffered_in_flight.specs.InFlight.{IsNewInFlight};
ghost use Rattle.futures_buffered_in_flight.specs.InFlightOrdered.{CanPollOrdered, IsNewInOrder};
ghost use Rattle.futures_buffered.specs.Buffer.{IsNewBuffer};
ghost use Rattle.futures_buffered.specs.Drain.{HoldsPollable, IsNewDrain};

use crate::buffer::Buffer;
use crate::drain::Drain;
use crate::in_flight::{TryBufferUnordered, TryBufferedOrdered, TryForEachConcurrent};
use crate::try_buffer::TryQueue;
use futures::stream::TryStreamExt;
use futures::{Future, Stream};
use futures_buffered_core::ready_core::NewFault;
use futures_buffered_in_flight::{FuturesOrderedBounded, FuturesUnorderedBounded};
use futures_buffered_unordered::futures_unordered_bounded::POLL_LIMIT;
use std::alloc::Global;

/// Adaptors that keep some futures of a stream in progress, for a stream that returns errors also.
///
/// No method polls anything. If a call fails, it drops the stream, and a closure too. Each takes time and allocates in
/// proportion to the number of futures at a time. A poll allocates in the set of `futures` for each future. If that
/// allocation fails, the future waits, and the poll wakes the task to try again.
pub trait BufferedTryStreamExt: Stream + Sized {
    /// Returns a stream of the outputs of this stream's futures, in the order of this stream. It holds at most `n`
    /// futures at a time: in progress, or done with an output that waits for its turn. A poll returns each error of
    /// this stream as soon as it takes the error from it.
    final fn try_buffered_ordered<F, T, E>(
        self,
        alloc: Global,
        n: usize,
    ) -> Result<TryBufferedOrdered<Self, F>, NewFault>
    where
        Self: Stream<Item = Result<F, E>>,
        F: Future<Output = Result<T, E>>,
        T: Drop,
        E: Drop,
        requires { 0 < n }
        ensures made { MakesSlots n (IsNewBuffer (IsNewInOrder n) self) result }
        ensures held { IfOk result (λ b. CanPollOrdered F.Future b.queue) }
    {
        let queue = FuturesOrderedBounded::new(alloc, n)?;
        Ok(Buffer::with_queue(self, TryQueue::over(queue)))
    }

    /// Returns a stream of the outputs of this stream's futures, as they finish, with at most `n` in progress at a
    /// time. A poll returns each error of this stream as soon as it takes the error from it.
    #[tactic(auto, using(crate::proofs::InFlightLemmas::new_can_poll))]
    final fn try_buffered_unordered<F, T, E>(
        self,
        alloc: Global,
        n: usize,
    ) -> Result<TryBufferUnordered<Self, F>, NewFault>
    where
        Self: Stream<Item = Result<F, E>>,
        F: Future<Output = Result<T, E>>,
        T: Drop,
        E: Drop,
        requires { 0 < n }
        ensures made { MakesSlots n (IsNewBuffer (IsNewInFlight n) self) result }
        ensures held { IfOk result (λ b. CanPollQueue F.Future b.queue) }
    {
        let queue = FuturesUnorderedBounded::new(alloc, n)?;
        Ok(Buffer::with_queue(self, TryQueue::over(queue)))
    }

    /// Returns a future that calls `f` with each `Ok` item of this stream, once and in order. It runs the futures that
    /// `f` makes, at most `limit` at a time. It ends at the first error, of this stream or of a future.
    ///
    /// `futures::TryStreamExt` has a method of this name too. If both traits are in scope, a caller calls this one by
    /// its path: `BufferedTryStreamExt::try_for_each_concurrent(stream, alloc, limit, f)`.
    #[tactic(auto, using(crate::proofs::InFlightLemmas::new_can_poll))]
    final fn try_for_each_concurrent<T, E, Fut, F>(
        self,
        alloc: Global,
        limit: usize,
        f: F,
    ) -> Result<TryForEachConcurrent<Self, F, Fut>, NewFault>
    where
        Self: Stream<Item = Result<T, E>>,
        E: Drop,
        F: FnMut(T) -> Fut + Drop,
        Fut: Future<Output = Result<(), E>>,
        requires { 0 < limit }
        ensures made { MakesSlots limit (IsNewDrain (IsNewInFlight limit) POLL_LIMIT
            (record { stream = self; f = f })) result }
        ensures held { IfOk result (HoldsPollable Fut.Future) }
    {
        let queue = TryQueue::over(FuturesUnorderedBounded::new(alloc, limit)?);
        Ok(Drain::over_buffer(Buffer::with_queue(self.map_ok(f), queue), POLL_LIMIT))
    }
}

impl<St: Stream> BufferedTryStreamExt for St {}
