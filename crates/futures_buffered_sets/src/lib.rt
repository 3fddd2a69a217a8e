//! Sets of futures. A poll dequeues the ready slots from a source, and polls only the futures in these slots.
//!
//! Each item is under its own module. The types, and the functions that make joins, are also at the top of the crate.
//!
//! In the order in which to read them:
//!
//! - `slot_future`: `SlotFuture`, what a set holds: a future that is polled with the waker of its slot; `SlotWaker`
//!   wakes a slot.
//! - `poll_one`: `PollOne`, the rule by which one held value is polled, and `PollFuture`, the rule for `SlotFuture`s.
//! - `fused`: the traits `FusedStream`, `FusedFuture` and `SizeHint`, by which a type says whether it has ended and how
//!   much is left.
//! - `futures_unordered_bounded`: `FuturesUnorderedBounded`, as many futures as it has slots, yielded as they finish.
//! - `futures_unordered`: `FuturesUnordered`, any number of futures, in groups of slots.
//! - `futures_ordered_bounded`: `FuturesOrderedBounded`, as many futures in progress as it has slots, yielded in the
//!   order of a list.
//! - `futures_ordered`: `FuturesOrdered`, the same for any number of futures.
//! - `join`: `join_all` and `JoinAll`, all of some futures, whose outputs come together.
//! - `try_join`: `try_join_all` and `TryJoinAll`, the same for futures that may fail.
//! - `slot_stream`: `SlotStream`, what a merge holds: a stream that is polled with the waker of its slot.
//! - `merge_bounded`: `MergeBounded`, also by the name `Merge`: as many streams as it has slots, polled as one.
//! - `merge_unbounded`: `MergeUnbounded`, any number of streams, in groups of slots.
#![tactic(auto)]

pub use futures_buffered_joins::join::{JoinAll, join_all};
pub use futures_buffered_joins::try_join::{TryJoinAll, try_join_all};
pub use futures_buffered_joins::{join, try_join};
pub use futures_buffered_ordered::futures_ordered::FuturesOrdered;
pub use futures_buffered_ordered::futures_ordered_bounded::FuturesOrderedBounded;
pub use futures_buffered_ordered::{futures_ordered, futures_ordered_bounded};
pub use futures_buffered_unordered::fused::{FusedFuture, FusedStream, SizeHint};
pub use futures_buffered_unordered::futures_unordered::FuturesUnordered;
pub use futures_buffered_unordered::futures_unordered_bounded::FuturesUnorderedBounded;
pub use futures_buffered_unordered::merge_bounded::{Merge, MergeBounded};
pub use futures_buffered_unordered::merge_unbounded::MergeUnbounded;
pub use futures_buffered_unordered::poll_one::{PollFuture, PollOne};
pub use futures_buffered_unordered::slot_future::{SlotFuture, SlotHandle, SlotWaker};
pub use futures_buffered_unordered::slot_stream::{PollStream, SlotStream};
pub use futures_buffered_unordered::{
    fused, futures_unordered, futures_unordered_bounded, merge_bounded, merge_unbounded, poll_one,
    slot_future, slot_stream,
};
