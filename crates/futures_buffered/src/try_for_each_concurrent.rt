//! Calls a closure with each `Ok` item of a stream, up to the first error. Runs some of the futures that the closure
//! makes at a time.
//!
//! The stream with the closure is a `MapOk` of `futures`. A `TryBuffer` takes items from it, and a `TryDrain` polls the
//! buffer to its end.
use crate::buffer_unordered::CompletionQueue;
use crate::drain::Drain;
use crate::try_buffer::TryQueue;
use futures::stream::MapOk;
use futures_buffered_core::ready_shared::SharedReady;

/// Polls a buffer that returns `Ok(())` and errors, to its end or to the first error.
pub type TryDrain<St, Q> = Drain<St, Q>;

/// Calls a closure with each `Ok` item of a stream, once and in order, up to the first error. Runs the futures that the
/// closure makes, at most as many at a time as the set has slots.
pub type TryForEachConcurrent<St, F, Fut, S = SharedReady> = TryDrain<
    MapOk<St, F>,
    TryQueue<CompletionQueue<Fut, S>>,
>;
