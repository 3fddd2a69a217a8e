//! Sets, queues and merges that hold futures and streams of the crate `futures` as they are.
//!
//! No lock and no cell is between a set and its futures. Apart from `Kept`, no type has a bound other than `Drop`, so
//! that a future may contain closures. What a poll requires of the futures is in `requires`, as in the sets of
//! `futures`.
//!
//! - `run`: `Key`, which identifies one push, and `Run`, a future whose output comes with its key.
//! - `ledger`: which futures have not ended, and which were cancelled, by seats of one table; `ledger_rule` has its rule.
//! - `bells`: how a cancel wakes a run.
//! - `in_flight`: `FuturesUnorderedBounded`, at most n futures, each with a key by which it can be cancelled;
//!   `in_flight_growing` has `FuturesUnordered`, the set of any number, and `in_flight_polls` the polls of both;
//!   `in_flight_stream` has both as a stream, and `in_flight_queue` both as an adaptor or a queue holds them; `keyless`
//!   takes the keys from an answer.
//! - `in_flight_ordered`: `FuturesOrderedBounded` and `FuturesOrdered`, queues with pushes at both ends, whose outputs
//!   come from the front; `in_flight_ordered_stream` has both as a stream.
//! - `in_flight_merge`: `MergeBounded` and `MergeUnbounded`, one type, a set of futures of the next items of streams;
//!   `merge` and `merge_unbounded` make it from an iterator.
//! - `from_iter`: sets and queues that are made of the items of an iterator.
//! - `kept`: `Kept`, which keeps that a set or a queue may be polled, for loops by hand.
//! - `waiting`: `Waiting`, which holds a set, an ordered queue or a merge while a task waits for its next output, and
//!   then returns it.
#![tactic(auto)]

mod bells;
mod from_iter;
pub mod in_flight;
pub mod in_flight_growing;
pub mod in_flight_merge;
pub mod in_flight_ordered;
mod in_flight_ordered_stream;
mod in_flight_polls;
mod in_flight_queue;
mod in_flight_stream;
pub mod kept;
mod keyless;
mod ledger;
mod ledger_rule;
pub mod run;
pub mod waiting;

pub use in_flight::{Came, FuturesUnorderedBounded};
pub use in_flight_growing::FuturesUnordered;
pub use in_flight_merge::{MergeBounded, MergeUnbounded};
pub use in_flight_ordered::{FuturesOrdered, FuturesOrderedBounded};
pub use kept::Kept;
pub use run::Key;
pub use waiting::Waiting;
