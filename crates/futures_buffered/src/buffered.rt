//! Adaptors of a stream of futures, as methods of the stream.
//!
//! Each method calls `over` of its type, with a shared source, so the futures are woken from any thread.
ghost use Rattle.futures_buffered.specs.Below.{MakesSlots, IsNewShared, IsNewSet, IsNewBoundedQueue};
ghost use Rattle.std.specs.Prelude.{◌<◌};
ghost use Rattle.futures_buffered.specs.Buffer.{IsNewBuffer};
ghost use Rattle.futures_buffered.specs.ForEachConcurrent.{IsNewForEach};

pub use crate::buffer_unordered::BufferUnordered;
pub use crate::buffered_ordered::BufferedOrdered;
pub use crate::for_each_concurrent::ForEachConcurrent;
use futures::Stream;
use futures_buffered_core::ready_core::NewFault;
use futures_buffered_core::ready_shared::{SharedReady, SharedWaker};
use futures_buffered_unordered::SlotFuture;
use futures_buffered_unordered::futures_unordered_bounded::POLL_LIMIT;
use std::alloc::Global;

/// Adaptors that keep some futures of a stream in progress.
///
/// No method polls anything. If a call fails, it drops the stream, and a closure too. Each takes time and allocates in
/// proportion to the number of futures at a time.
pub trait BufferedStreamExt: Stream + Sized {
    /// Returns a stream of the outputs of this stream's futures, in the order of this stream. It holds at most `n`
    /// futures at a time: in progress, or done with an output that waits for its turn.
    final fn buffered_ordered(
        self,
        alloc: Global,
        n: usize,
    ) -> Result<BufferedOrdered<Self, SharedReady>, NewFault>
    where
        Self::Item: SlotFuture<SharedWaker, Output: Drop>,
        requires { 0 < n }
        ensures { MakesSlots n (IsNewBuffer (IsNewBoundedQueue IsNewShared n POLL_LIMIT) self) result }
    {
        BufferedOrdered::over(&(), alloc, self, n)
    }

    /// Returns a stream of the outputs of this stream's futures, as they finish, with at most `n` in progress at a
    /// time.
    final fn buffered_unordered(
        self,
        alloc: Global,
        n: usize,
    ) -> Result<BufferUnordered<Self, SharedReady>, NewFault>
    where
        Self::Item: SlotFuture<SharedWaker>,
        requires { 0 < n }
        ensures { MakesSlots n (IsNewBuffer (IsNewSet IsNewShared n POLL_LIMIT) self) result }
    {
        BufferUnordered::over(&(), alloc, self, n)
    }

    /// Returns a future that calls `f` with each item of this stream, once and in order. It runs the futures that `f`
    /// makes, at most `limit` at a time.
    ///
    /// `futures::StreamExt` has a method of this name too. If both traits are in scope, a caller calls this one by its
    /// path: `BufferedStreamExt::for_each_concurrent(stream, alloc, limit, f)`.
    final fn for_each_concurrent<Fut, F>(
        self,
        alloc: Global,
        limit: usize,
        f: F,
    ) -> Result<ForEachConcurrent<Self, F, Fut, SharedReady>, NewFault>
    where
        F: FnMut(Self::Item) -> Fut + Drop,
        Fut: SlotFuture<SharedWaker, Output = ()>,
        requires { 0 < limit }
        ensures { MakesSlots limit (IsNewForEach (IsNewSet IsNewShared limit POLL_LIMIT) self f) result }
    {
        ForEachConcurrent::over(&(), alloc, self, limit, f)
    }
}

impl<St: Stream> BufferedStreamExt for St {}
