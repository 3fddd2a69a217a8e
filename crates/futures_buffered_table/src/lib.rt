//! A list of ready slots. Many wakers enqueue and one poller dequeues, by single atomic steps. The
//! crate has the list once as plain data, in any order of steps that a caller gives, and once on an
//! atomic table.
//!
//! The words are a mark for each slot, a link for each slot and for the stub, and the tail. The
//! poller keeps the head. The entries from there along the links to the tail are the row: the slots
//! in the order in which they will be dequeued.
//!
//! In the order in which to read the parts:
//!
//! - `answer`: what a list returns, why none was made, and the greatest capacity.
//! - `view`, `words`, `effect`: what a seat knows, the words as they begin, and what the atomic
//!   step of each role does.
//! - `step`, `step_machine`, `schedule`: the same steps one at a time, and a whole list of them.
//! - `rule`, `laws`: the rule that words and views keep on an atomic table, and what it says of
//!   every moment.
//! - `ready_list`, `waking`, `taking`, `closing`: the list on that table.
//! - `ready_table`: the public names of all except `answer`.
#![tactic(auto)]

pub mod answer;
mod closing;
mod effect;
mod laws;
mod ready_list;
pub mod ready_table;
mod rule;
mod schedule;
mod step;
mod step_machine;
mod taking;
mod view;
mod waking;
mod words;
