//! Joins of futures, whose outputs come together, each at its future's place.
//!
//! In the order in which to read them:
//!
//! - `join`: `join_all` and `JoinAll`, ready with all outputs once the last future is done.
//! - `try_join`: `try_join_all` and `TryJoinAll`, whose futures may fail, ready also at the first error.
//! - `join_rule`: the rule of a join: what the join keeps of an output, and which output ends it.
//! - `placed_set`: what a join requires of the set that holds its futures.
//! - `join_by`: the type of every join, by a rule and over any such set.
//! - `outputs`: what a join keeps until it ends: the set, and the outputs that have come, each at its place.
//! - `slots_join`: joins over a set of slots.
//! - `in_flight_join`: joins of `futures::Future`s, over their set in flight: `join_all` and `try_join_all` of these.
#![tactic(auto)]

pub mod in_flight_join;
pub mod join;
pub mod join_by;
pub mod join_rule;
pub mod outputs;
pub mod placed_set;
mod slots_join;
pub mod try_join;

pub use join::{Join, JoinAll, join_all};
pub use join_by::{JoinBy, JoinName, JoinRule};
pub use placed_set::{PlacedPolls, PlacedSet, PollPlacedSet};
pub use try_join::{TryJoin, TryJoinAll, try_join_all};
