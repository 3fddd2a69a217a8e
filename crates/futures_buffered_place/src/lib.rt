//! A place for one value with one atomic word. Pollers publish a waker there, and wakes take it. No call waits, and
//! each seat shows what it published and took.
//!
//! In the order in which to read the parts:
//!
//! - `place`: the place, its seats and their calls.
//! - `view`: what a seat knows.
//! - `rule`, `laws`: the rule that the place and all views keep, and what it says of every moment.
#![tactic(auto)]

mod laws;
pub mod place;
mod rule;
mod view;
