//! Adaptors that take futures from a stream and keep some of them in progress, over the sets of
//! `futures_buffered_sets`.
//!
//! The crate exports what a user needs of the crates below, so that a user depends on this crate alone. At the top are
//! the types for `SlotFuture`s and `SlotStream`s. In `in_flight` are the types for futures and streams of `futures`,
//! under the same names. Every other item is under its own module.
//!
//! In the order in which to read them:
//!
//! - `future_queue`: `FutureQueue`, what an adaptor holds, `LimitedQueue` and `NewQueue`.
//! - `buffer`: `Buffer`, the adaptor over any such queue.
//! - `buffer_unordered`: `BufferUnordered`, whose outputs come as the futures finish.
//! - `in_flight`: the same types for futures of `futures`, and the queues that their buffers hold.
//! - `buffered_ordered`: `BufferedOrdered`, whose outputs come in the order of the futures.
//! - `drain`: `Drain`, which polls a buffer to its end, or to the first output that ends the drain; `drain_output` says
//!   which outputs do.
//! - `for_each_concurrent`: `ForEachConcurrent`, which makes its futures of the items by a closure.
//! - `buffered`: `BufferedStreamExt`, these adaptors as methods of a stream.
//! - `try_buffer`: `TryBuffer`, a `Buffer` over a stream that returns errors also, and `TryQueue`, of which it is made.
//! - `try_buffer_unordered` and `try_buffered_ordered`: `TryBufferUnordered` and `TryBufferedOrdered`, whose stream
//!   returns errors also.
//! - `try_for_each_concurrent`: `TryForEachConcurrent`, a `ForEachConcurrent` over such a stream, and `TryDrain`, the
//!   `Drain` of which it is made.
//! - `try_buffered`: `BufferedTryStreamExt`, these as methods of a stream.
//! - `iter_ext`: `IterExt`, the constructors of sets, queues, joins and merges as methods of an iterator.
#![tactic(auto)]

pub mod buffer;
pub mod buffer_unordered;
pub mod buffered;
pub mod buffered_ordered;
pub mod drain;
pub mod drain_output;
pub mod for_each_concurrent;
pub mod future_queue;
pub mod in_flight;
pub mod iter_ext;
pub mod try_buffer;
pub mod try_buffer_unordered;
pub mod try_buffered;
pub mod try_buffered_ordered;
pub mod try_for_each_concurrent;
mod turns;

// What a user needs.
pub use buffer_unordered::BufferUnordered;
pub use buffered::BufferedStreamExt;
pub use buffered_ordered::BufferedOrdered;
pub use for_each_concurrent::ForEachConcurrent;
pub use futures_buffered_core::ready_core::NewFault;
pub use futures_buffered_core::ready_shared::{SharedReady, SharedWaker};
pub use futures_buffered_held::{Either, future, oneshot, spsc, stream};
pub use futures_buffered_sets::{
    FusedFuture, FusedStream, FuturesOrdered, FuturesOrderedBounded, FuturesUnordered,
    FuturesUnorderedBounded, JoinAll, Merge, MergeBounded, MergeUnbounded, SizeHint, SlotFuture,
    SlotHandle, SlotStream, SlotWaker, TryJoinAll, join_all, try_join_all,
};
pub use iter_ext::IterExt;
pub use try_buffer_unordered::TryBufferUnordered;
pub use try_buffered::BufferedTryStreamExt;
pub use try_buffered_ordered::TryBufferedOrdered;

// Sources, and the modules of the crates below.
pub use futures_buffered_core::core_source::CoreSource;
pub use futures_buffered_core::ready_core::{
    Event, MAX_CAPACITY, ReadyCore, Reply, RunFault, Taken, Woke, run,
};
pub use futures_buffered_core::ready_source::{NewSource, ReadySource};
pub use futures_buffered_core::script_source::ScriptSource;
pub use futures_buffered_core::slot_map::PinSlotMap;
pub use futures_buffered_core::{
    core_source, ready_core, ready_shared, ready_source, ready_table, script_source, slot_map,
};
pub use futures_buffered_sets::{
    PollOne, fused, futures_ordered, futures_ordered_bounded, futures_unordered,
    futures_unordered_bounded, join, merge_bounded, merge_unbounded, poll_one, slot_future,
    slot_stream, try_join,
};
