//! What a slot can hold: futures and streams that are polled with the waker of their slot.
//!
//! In the order in which to read them:
//!
//! - `ready`: `Ready`, which returns a value at its first poll.
//! - `poll_fn`: `PollFn`, which calls a closure at each poll.
//! - `map`: `Map`, a future whose output goes through a closure.
//! - `then`: `Then`, a future and the one that a closure makes of its output.
//! - `either`: `Either`, one of two futures, or of two streams.
//! - `iter`: `Iter`, the items of an iterator as a stream.
//! - `future` and `stream`: the functions that make these.
//! - `oneshot`: a channel for one value, whose `Receiver` is a future. No call of it waits.
//! - `spsc`: a bounded channel from one sender, whose `Receiver` is a stream. No call of it waits.
#![tactic(auto)]

pub mod either;
pub mod future;
pub mod iter;
pub mod map;
pub mod oneshot;
mod oneshot_place;
mod oneshot_plays;
pub mod poll_fn;
pub mod ready;
pub mod spsc;
mod spsc_place;
pub mod stream;
pub mod then;

pub use either::Either;
