//! Ordered queues: a queue yields an output when it is its future's turn, and not before.
//!
//! In the order in which to read them:
//!
//! - `numbered`: a future with the number of its entry, and the rule by which it is polled.
//! - `numbered_polls`: `NumberedPolls`, how a set of such futures is polled.
//! - `numbered_set`: `NumberedSet` and its kinds, what a queue requires of the set of its futures in progress.
//! - `ordered_entries`: `OrderedEntries`, the entries of a queue over any such set.
//! - `numbered_queue`: `NumberedQueue`, the queue over any such set, and the queue as a stream.
//! - `futures_ordered_bounded`: `FuturesOrderedBounded`, the queue over a bounded set.
//! - `futures_ordered`: `FuturesOrdered`, the queue over a growing set.
#![tactic(auto)]

pub mod futures_ordered;
pub mod futures_ordered_bounded;
pub mod numbered;
pub mod numbered_polls;
pub mod numbered_queue;
pub mod numbered_set;
pub mod ordered_entries;

pub use futures_ordered::{FuturesOrdered, GrowingQueue};
pub use futures_ordered_bounded::{BoundedQueue, FuturesOrderedBounded};
