//! A single step of a schedule, and what it returns.
use crate::answer::{Taken, Woke};
use thiserror::Error;

/// How many wake seats a machine has: their numbers are below this.
pub const WAKE_SEATS: usize = 64;

const _: () = prove!(WAKE_SEATS == 64);

/// A step of one seat: of a wake seat, by its number, or of the poll seat.
#[derive(Clone, Copy, Debug, PartialEq, Eq)]
pub enum Step {
    /// An idle wake seat begins to wake a slot.
    Mark { seat: usize, slot: usize },
    /// A wake seat that is not idle continues its wake.
    Go { seat: usize },
    /// The poll seat begins a dequeue or continues it.
    Poll,
}

/// What a step returns.
#[derive(Clone, Copy, Debug, PartialEq, Eq)]
pub enum StepReply {
    /// The seat's call is not over.
    More,
    /// The step ended a wake.
    Woke(Woke),
    /// The step ended a dequeue.
    Taken(Taken),
}

/// Why a schedule was rejected.
#[derive(Clone, Copy, Debug, PartialEq, Eq, Error)]
pub enum StepFault {
    /// The capacity is above `MAX_CAPACITY`. This is tested first.
    #[error("the capacity is too large: at most 4611686018427387903 slots")]
    TooLarge,
    /// An allocation failed. No step was made.
    #[error("out of memory")]
    Memory,
    /// The position in the list of the first step that cannot be made.
    #[error("step {0} cannot be made")]
    Step(usize),
}
