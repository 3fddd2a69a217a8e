//! Sets that poll only the futures whose slots were marked: a source returns the marked slots, one after another.
//!
//! In the order in which to read them:
//!
//! - `slot_future`: `SlotFuture`, a future that a set holds, and polls with the waker of its slot.
//! - `poll_one`: `PollOne`, a rule that polls one held value, and `PollFuture`, the rule for `SlotFuture`s.
//! - `fused`: the traits `FusedStream`, `FusedFuture` and `SizeHint`, by which a type says whether it has ended and how
//!   many items are left.
//! - `futures_unordered_bounded`: `FuturesUnorderedBounded`, as many futures as it has slots, whose outputs it yields
//!   as they finish; `bounded_stream` is the same set as a stream.
//! - `ask_group`: `AskGroup`, how a poll of several groups polls one of them.
//! - `futures_unordered`: `FuturesUnordered`, any number of futures in groups of slots, each made twice as large as the
//!   last one; `growing_stream` is the same set as a stream.
//!
//! A merge is such a set of streams, polled as one. The items of each stream are in its own order, interleaved with the
//! items of the others:
//!
//! - `slot_stream`: `SlotStream`, what a merge holds: a stream that is polled with the waker of its slot; and
//!   `PollStream`, the rule that polls it.
//! - `merging`: one poll of the streams that a bounded merge holds.
//! - `merge_bounded`: `MergeBounded`, as many streams as it has slots.
//! - `merge_unbounded`: `MergeUnbounded`, any number of streams, in groups of slots.
#![tactic(auto)]

pub mod ask_group;
mod bounded_stream;
pub mod fused;
pub mod futures_unordered;
pub mod futures_unordered_bounded;
mod growing_stream;
pub mod merge_bounded;
pub mod merge_unbounded;
mod merging;
pub mod poll_one;
pub mod slot_future;
pub mod slot_stream;

pub use fused::{FusedFuture, FusedStream, SizeHint};
pub use futures_unordered::FuturesUnordered;
pub use futures_unordered_bounded::FuturesUnorderedBounded;
pub use merge_bounded::{Merge, MergeBounded};
pub use merge_unbounded::MergeUnbounded;
pub use poll_one::{PollFuture, PollOne};
pub use slot_future::SlotFuture;
pub use slot_stream::{PollStream, SlotStream};
