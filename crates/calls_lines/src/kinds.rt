//! What each kind of object is begun by.
use crate::{
    adaptors, in_flight, in_flight_buffers as buffers, in_flight_joins, in_flight_queues, joins,
    merges, queues, sets,
};
use calls_world::lines::{run, run_with_room};
use calls_world::session::Session;
use calls_world::subject::{Begun, Library, NewResult};

/// The types of the library.
pub struct AllTypes;

// Joins, a merge and adaptors in flight.
fn run_adaptors_in_flight(session: &mut Session, begun: Begun<'_>) -> NewResult<usize> {
    match begun.word {
        "in_flight_join" => run(session, in_flight_joins::join, begun),
        "in_flight_try_join" => run(session, in_flight_joins::try_join, begun),
        "in_flight_merge" => run(session, in_flight_joins::merge, begun),
        "in_flight_buffered_unordered" => run_with_room(session, buffers::unordered, begun),
        "in_flight_buffered_ordered" => run_with_room(session, buffers::ordered, begun),
        "in_flight_try_buffered_unordered" => run_with_room(session, buffers::try_unordered, begun),
        "in_flight_try_buffered_ordered" => run_with_room(session, buffers::try_ordered, begun),
        _ => Ok(0),
    }
}

// The other objects in flight, and those above.
fn run_in_flight(session: &mut Session, begun: Begun<'_>) -> NewResult<usize> {
    match (begun.word, begun.is_of_values) {
        ("in_flight", false) => run(session, in_flight::bounded, begun),
        ("in_flight", true) => run(session, in_flight::bounded_of, begun),
        ("in_flight_set", false) => run(session, in_flight::growing, begun),
        ("in_flight_set", true) => run(session, in_flight::growing_of, begun),
        ("in_flight_ordered", false) => run_with_room(session, in_flight_queues::bounded, begun),
        ("in_flight_ordered", true) => run(session, in_flight_queues::bounded_of, begun),
        ("in_flight_queue", false) => run(session, in_flight_queues::growing, begun),
        ("in_flight_queue", true) => run(session, in_flight_queues::growing_of, begun),
        ("in_flight_bounded_merge", false) => run(session, in_flight_joins::bounded_merge, begun),
        ("in_flight_bounded_merge", true) => run(session, in_flight_joins::bounded_merge_of, begun),
        _ => run_adaptors_in_flight(session, begun),
    }
}

// Joins, merges and adaptors for slots, and the objects above.
fn run_adaptors(session: &mut Session, begun: Begun<'_>) -> NewResult<usize> {
    match begun.word {
        "join" => run(session, joins::join, begun),
        "try_join" => run(session, joins::try_join, begun),
        "bounded_merge" => run(session, merges::bounded, begun),
        "merge" => run(session, merges::growing, begun),
        "buffered_unordered" => run_with_room(session, adaptors::unordered, begun),
        "buffered_ordered" => run_with_room(session, adaptors::ordered, begun),
        "try_buffered_unordered" => run_with_room(session, adaptors::try_unordered, begun),
        "try_buffered_ordered" => run_with_room(session, adaptors::try_ordered, begun),
        "for_each" => adaptors::run_for_each(session, begun),
        "try_for_each" => adaptors::run_try_for_each(session, begun),
        _ => run_in_flight(session, begun),
    }
}

impl Library for AllTypes {
    fn run_kind(session: &mut Session, begun: Begun<'_>) -> NewResult<usize> {
        match (begun.word, begun.is_of_values) {
            ("bounded_set", false) => run(session, sets::bounded, begun),
            ("bounded_set", true) => run(session, sets::bounded_of, begun),
            ("set", false) => run(session, sets::growing, begun),
            ("set", true) => run(session, sets::growing_of, begun),
            ("bounded_queue", false) => run(session, queues::bounded, begun),
            ("bounded_queue", true) => run(session, queues::bounded_of, begun),
            ("queue", false) => run(session, queues::growing, begun),
            ("queue", true) => run(session, queues::growing_of, begun),
            _ => run_adaptors(session, begun),
        }
    }
}
