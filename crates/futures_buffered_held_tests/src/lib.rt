//! Tests of what a slot can hold, by public calls alone: the futures and streams that come with the library. No crate
//! stands on this one.
//!
//! - `values`: values, closures, one of two, and the items of an iterator.
//! - `oneshots`: what a one-shot answers, whom it wakes, and what is dropped.
//! - `oneshot_threads`: one-shots that are sent from threads.
//! - `spsc`, `spsc_threads`: channels from one sender, also if that is on a thread.
//! - `slots`: the slots at which scripts poll a receiver. `rounds`: rounds in which a thread and its test act at once.
//!   `same`: an assertion as a call.
#![tactic(auto)]

#[cfg(test)]
mod oneshot_threads;
#[cfg(test)]
mod oneshots;
#[cfg(test)]
mod rounds;
#[cfg(test)]
mod same;
#[cfg(test)]
mod slots;
#[cfg(test)]
mod spsc;
#[cfg(test)]
mod spsc_threads;
#[cfg(test)]
mod values;
