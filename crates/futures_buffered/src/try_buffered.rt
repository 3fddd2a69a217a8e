//! Adaptors of a stream of futures and errors, as methods of the stream.
//!
//! Each method calls `over` of its type, with a shared source, so the futures are woken from any thread.
ghost use Rattle.futures_buffered.specs.Below.{IsNewSet, MakesSlots, IsNewShared, IsNewBoundedQueue};
ghost use Rattle.std.specs.Prelude.{◌<◌};
ghost use Rattle.futures_buffered.specs.Buffer.{IsNewBuffer};
ghost use Rattle.futures_buffered.specs.Drain.{IsNewDrain};

pub use crate::try_buffer_unordered::TryBufferUnordered;
pub use crate::try_buffered_ordered::TryBufferedOrdered;
pub use crate::try_for_each_concurrent::TryForEachConcurrent;
use futures::Stream;
use futures::stream::TryStreamExt;
use futures_buffered_core::ready_core::NewFault;
use futures_buffered_core::ready_shared::{SharedReady, SharedWaker};
use futures_buffered_unordered::SlotFuture;
use futures_buffered_unordered::futures_unordered_bounded::POLL_LIMIT;
use std::alloc::Global;

/// Adaptors that keep some futures of a stream in progress, for a stream that returns errors also.
///
/// No method polls anything. If a call fails, it drops the stream, and a closure too. Each takes time and allocates in
/// proportion to the number of futures at a time.
pub trait BufferedTryStreamExt: Stream + Sized {
    /// Returns a stream of the outputs of this stream's futures, in the order of this stream. It holds at most `n`
    /// futures at a time: in progress, or done with an output that waits for its turn. A poll returns each error of
    /// this stream as soon as it takes the error from it.
    final fn try_buffered_ordered<F, T, E>(
        self,
        alloc: Global,
        n: usize,
    ) -> Result<TryBufferedOrdered<Self, F, SharedReady>, NewFault>
    where
        Self: Stream<Item = Result<F, E>>,
        F: SlotFuture<SharedWaker, Output = Result<T, E>>,
        T: Drop,
        E: Drop,
        requires { 0 < n }
        ensures { MakesSlots n (IsNewBuffer (IsNewBoundedQueue IsNewShared n POLL_LIMIT) self) result }
    {
        TryBufferedOrdered::over(&(), alloc, self, n)
    }

    /// Returns a stream of the outputs of this stream's futures, as they finish, with at most `n` in progress at a
    /// time. A poll returns each error of this stream as soon as it takes the error from it.
    final fn try_buffered_unordered<F, T, E>(
        self,
        alloc: Global,
        n: usize,
    ) -> Result<TryBufferUnordered<Self, F, SharedReady>, NewFault>
    where
        Self: Stream<Item = Result<F, E>>,
        F: SlotFuture<SharedWaker, Output = Result<T, E>>,
        requires { 0 < n }
        ensures { MakesSlots n (IsNewBuffer (IsNewSet IsNewShared n POLL_LIMIT) self) result }
    {
        TryBufferUnordered::over(&(), alloc, self, n)
    }

    /// Returns a future that calls `f` with each `Ok` item of this stream, once and in order. It runs the futures that
    /// `f` makes, at most `limit` at a time. It ends at the first error, of this stream or of a future.
    ///
    /// `futures::TryStreamExt` has a method of this name too. If both traits are in scope, a caller calls this one by
    /// its path: `BufferedTryStreamExt::try_for_each_concurrent(stream, alloc, limit, f)`.
    final fn try_for_each_concurrent<T, E, Fut, F>(
        self,
        alloc: Global,
        limit: usize,
        f: F,
    ) -> Result<TryForEachConcurrent<Self, F, Fut, SharedReady>, NewFault>
    where
        Self: Stream<Item = Result<T, E>>,
        E: Drop,
        F: FnMut(T) -> Fut + Drop,
        Fut: SlotFuture<SharedWaker, Output = Result<(), E>>,
        requires { 0 < limit }
        ensures { MakesSlots limit (IsNewDrain (IsNewSet IsNewShared limit POLL_LIMIT) POLL_LIMIT
            (record { stream = self; f = f })) result }
    {
        TryForEachConcurrent::over(&(), alloc, self.map_ok(f), limit)
    }
}

impl<St: Stream> BufferedTryStreamExt for St {}
