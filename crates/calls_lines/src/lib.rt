//! The objects of the program `calls`: one implementation of `Subject` for each type of the library, and how its objects
//! are made.
//!
//! - `sets`, `queues`, `joins`, `merges`, `adaptors`: what holds futures and streams for slots.
//! - `in_flight`, `in_flight_queues`, `in_flight_joins`, `in_flight_buffers`: what holds those of the kit.
//! - `kinds`: what each kind of object is begun by.
//! - `ask`: the reply to a query.
#![tactic(auto)]

mod adaptors;
mod ask;
mod in_flight;
mod in_flight_buffers;
mod in_flight_joins;
mod in_flight_queues;
mod joins;
pub mod kinds;
mod merges;
mod queues;
mod sets;
