//! Some futures of a stream at a time, whose outputs come as they finish, for a stream that returns errors also.
ghost use Rattle.futures_buffered.specs.BufferUnordered.{TryLosesNothing};

use crate::buffer_unordered::CompletionQueue;
use crate::try_buffer::TryBuffer;
use futures::Stream;
use futures_buffered_core::ready_shared::SharedReady;
use futures_buffered_core::ready_source::ReadySource;
use futures_buffered_unordered::SlotFuture;

/// Futures of a stream that returns errors also, at most as many at a time as the set has slots. The outputs come as
/// the futures finish. A poll returns an error of the stream as soon as it takes the error from the stream. The buffer
/// continues after an error.
pub type TryBufferUnordered<St, F, S = SharedReady> = TryBuffer<St, CompletionQueue<F, S>>;

/// After any calls of one such buffer that held nothing at first, each future taken has given one of the outputs, or is
/// still held. All other answers are errors, between the outputs.
///
/// This is a law of the relation in the contract of a poll. Its body is empty.
pub fn try_calls_lose_nothing<St, F, T, E, S: ReadySource>()
where
    St: Stream<Item = Result<F, E>>,
    F: SlotFuture<S::Waker, Output = Result<T, E>>,
    ensures { TryLosesNothing St.Stream F.SlotFuture S.ReadySource }
{}
