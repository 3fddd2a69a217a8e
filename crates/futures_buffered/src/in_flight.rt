//! The sets, queues, joins, merges and adaptors of this library for futures and streams of `futures`. They have the
//! same names as the types for slots.
//!
//! Sockets, timers and requests, for which clients wait, are futures of `futures`. So most programs write
//! `use futures_buffered::in_flight::BufferedStreamExt;`, and then `stream.buffered_ordered(alloc, n)`. Each type holds
//! such futures as they are, in a set of `futures`, so a future may contain closures.
//!
//! - `buffered`, `try_buffered`: `BufferedStreamExt` and `BufferedTryStreamExt`, the adaptors as methods of a stream.
//! - `iter_ext`: `IterExt`, sets, queues, joins and merges as methods of an iterator.
//! - `queues`: the set and the queue of the crate below, as what a buffer holds.
use crate::buffer::Buffer;
use crate::drain::Drain;
use crate::try_buffer::{TryBuffer, TryQueue};
use futures::stream::{Map, MapOk};
use futures::{Future, Stream};

pub mod buffered;
pub mod iter_ext;
mod queues;
pub mod try_buffered;

pub use buffered::BufferedStreamExt;
pub use futures_buffered_in_flight::in_flight::FuturesUnorderedBy;
pub use futures_buffered_in_flight::in_flight_merge::{merge, merge_unbounded};
pub use futures_buffered_in_flight::{
    Came, FuturesUnordered, FuturesUnorderedBounded, Kept, Key, MergeBounded, MergeUnbounded,
    Waiting,
};
pub use futures_buffered_joins::in_flight_join::{
    JoinAll, JoinBy, TryJoinAll, join_all, outputs_come_by_place, try_join_all,
};
pub use iter_ext::IterExt;
pub use try_buffered::BufferedTryStreamExt;

/// Futures of `futures`, at most as many at a time as the queue has room for, whose outputs come in the order of the
/// pushes.
pub type FuturesOrderedBounded<F> = futures_buffered_in_flight::FuturesOrderedBounded<
    F,
    <F as Future>::Output,
>;

/// Futures of `futures`, any number of them, whose outputs come in the order of the pushes.
pub type FuturesOrdered<F> = futures_buffered_in_flight::FuturesOrdered<F, <F as Future>::Output>;

/// A merge of streams of `futures` while a task waits for its next item.
pub type WaitingMerge<St> = Waiting<MergeBounded<St>>;

/// Futures of `futures` of a stream, at most as many at a time as the set has slots, whose outputs come as they finish.
pub type BufferUnordered<St> = Buffer<St, FuturesUnorderedBounded<<St as Stream>::Item>>;

/// A `BufferUnordered` of a stream that returns errors also.
pub type TryBufferUnordered<St, F> = TryBuffer<St, FuturesUnorderedBounded<F>>;

/// Futures of `futures` of a stream, whose outputs come in the order in which the stream returned the futures. At most
/// as many as the queue has room for are held at a time; an output that waits for its turn counts as held.
pub type BufferedOrdered<St> = Buffer<St, FuturesOrderedBounded<<St as Stream>::Item>>;

/// A `BufferedOrdered` of a stream that returns errors also. A poll returns an error as soon as it takes the error from
/// the stream, before what is held.
pub type TryBufferedOrdered<St, F> = TryBuffer<St, FuturesOrderedBounded<F>>;

/// Calls a closure with each item of a stream, once and in order. Runs the futures that the closure makes, at most as
/// many at a time as the queue has room for.
///
/// The stream with the closure is a `Map` of `futures`. A `Buffer` takes items from it, and a `Drain` polls the buffer
/// to its end.
pub type ForEachConcurrent<St, F, Fut> = Drain<Map<St, F>, FuturesUnorderedBounded<Fut>>;

/// A `ForEachConcurrent` of a stream that returns errors also, up to the first error.
pub type TryForEachConcurrent<St, F, Fut> = Drain<
    MapOk<St, F>,
    TryQueue<FuturesUnorderedBounded<Fut>>,
>;
