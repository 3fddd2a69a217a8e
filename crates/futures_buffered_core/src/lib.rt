//! What the sets of futures are built on: which slots are marked and which one is dequeued next, and slots that hold
//! values.
//!
//! In the order in which to read them:
//!
//! - `ready_core`: marks and dequeues as plain data. `ReadyCore` dequeues the slot whose mark is oldest; `run` does a
//!   whole list of events.
//! - `ready_source`: the traits by which a set marks and dequeues slots.
//! - `core_source` and `script_source`: two sources for one caller, `CoreSource` over a core and `ScriptSource` over a
//!   list of results.
//! - `must_wake`: a waker that was taken from the place of the task's waker, and has to be woken.
//! - `waker_place`: the place in which a source keeps the waker of its task, and in which a wake of a slot finds it.
//! - `poller_side`: the poller's seats of the list and of that place.
//! - `ready_shared`: `SharedReady`, a source whose wakers are woken from any thread, over a list of atomic words.
//! - `ready_table`: the same list by single atomic steps, under every schedule of wakers and one poller. `StepMachine`
//!   makes the steps one at a time.
//! - `slot_map`: `PinSlotMap`, slots each of which holds a value or is free.
#![tactic(auto)]

pub mod core_source;
pub mod must_wake;
pub mod poller_side;
pub mod ready_core;
pub mod ready_shared;
pub mod ready_source;
pub mod script_source;
pub mod slot_map;
pub mod waker_place;
mod wrong_name;

pub use futures_buffered_table::ready_table;
