//! Some futures of a stream at a time, whose outputs come in the order of the futures, for a stream that returns errors
//! also.
ghost use Rattle.futures_buffered.specs.BufferedOrdered.{TryGivesInOrder};

use crate::buffered_ordered::OrderedQueue;
use crate::try_buffer::TryBuffer;
use futures::Stream;
use futures_buffered_core::ready_shared::SharedReady;
use futures_buffered_core::ready_source::ReadySource;
use futures_buffered_unordered::SlotFuture;

/// Futures of a stream that returns errors also. The outputs come in the order in which the stream returned the
/// futures. At most as many as there are slots are held at a time; an output that waits for its turn counts as held. A
/// poll returns an error of the stream as soon as it takes the error from the stream, before what is held. The buffer
/// continues after an error.
pub type TryBufferedOrdered<St, F, S = SharedReady> = TryBuffer<
    St,
    OrderedQueue<F, <F as SlotFuture<<S as ReadySource>::Waker>>::Output, S>,
>;

/// After any calls of one such buffer that held nothing at first, the outputs so far are those of the first futures
/// taken, in order. The other futures are still held, in that order. All other answers are errors, between the outputs.
///
/// This is a law of the relations in the contract of a poll, stated of the queue alone. Its body is empty.
pub fn try_calls_give_in_order<St, F, T, E, S: ReadySource>()
where
    St: Stream<Item = Result<F, E>>,
    F: SlotFuture<S::Waker, Output = Result<T, E>>,
    ensures { TryGivesInOrder St.Stream F.SlotFuture S.ReadySource }
{}
