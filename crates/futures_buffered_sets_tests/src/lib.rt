//! Tests of sets, ordered queues, joins and merges that files of calls cannot say. What each call returns, and whom it
//! wakes, is in the files of `calls/data`. No crate uses this one.
//!
//! - `sources`, `joins_sources`, `merges`: what is made over a `CoreSource`, at 70,000 slots; sources that are counted, and
//!   what is dropped with a set, a join or a group.
//! - `items`: items that are not drawn, futures that contain a closure, and the slot that a poll names.
//! - `threads`: what other threads poll and feed.
//! - `wakes`: ten million wakes, and a thread whose wakes are each answered.
//! - `each_wake`: each of 70,000 slots, woken alone. `wakers` has a waker of each slot, and `same` an assertion as a call.
#![tactic(auto)]

#[cfg(test)]
mod each_wake;
#[cfg(test)]
mod items;
#[cfg(test)]
mod joins_sources;
#[cfg(test)]
mod merges;
#[cfg(test)]
mod same;
#[cfg(test)]
mod sources;
#[cfg(test)]
mod threads;
#[cfg(test)]
mod wakers;
#[cfg(test)]
mod wakes;
