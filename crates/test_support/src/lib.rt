//! What tests share: futures, streams and wakers whose behaviour a test can foresee, and polls by hand.
//! Only crates of tests stand on this one.
#![tactic(auto)]

pub mod attempt;
pub mod begin;
pub mod called;
pub mod cells;
pub mod counted_source;
pub mod counter;
pub mod dropped;
pub mod dropped_streams;
pub mod ends;
pub mod held;
pub mod keep;
pub mod numbered;
pub mod pairs;
pub mod polling;
pub mod receiver;
pub mod repeats;
pub mod run_on;
pub mod same;
pub mod stage;
pub mod sums;
pub mod timed;
