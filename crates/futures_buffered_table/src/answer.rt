//! What a call of a list of ready slots returns, and how many slots a list can have.
use std::alloc::AllocError;
use thiserror::Error;

/// The most slots that a list, a core or one group of a set can have: 4611686018427387903.
pub const MAX_CAPACITY: usize = usize::MAX / 4;

const _: () = prove!(MAX_CAPACITY == 4611686018427387903);

/// What a dequeue returns.
#[derive(Clone, Copy, Debug, PartialEq, Eq)]
pub enum Taken {
    /// This slot was marked, and the dequeue cleared that mark.
    Slot(usize),
    /// There is no enqueued slot. In a list of atomic words, a slot may be marked that its waker has not yet enqueued.
    Empty,
    /// A slot may be ready soon: dequeue again later. A list returns this if it met a mark that was half made. A
    /// `ReadyCore` never does.
    Pause,
}

/// What a mark returns.
#[derive(Clone, Copy, Debug, PartialEq, Eq)]
pub enum Woke {
    /// The slot was not marked.
    Fresh,
    /// The slot was marked, and keeps its place.
    Already,
}

/// Why nothing was made. A constructor whose docs say no more fails for these two reasons alone.
#[derive(Clone, Copy, Debug, PartialEq, Eq, Error)]
pub enum NewFault {
    /// An allocation failed, or what was asked for could not be made just now, as the call's docs say.
    #[error("out of memory")]
    Memory,
    /// More slots, items or entries than there can be: more than `MAX_CAPACITY`, unless the call's docs say another
    /// number. A capacity that is given is tested before any allocation.
    #[error("the capacity is too large: at most 4611686018427387903 slots")]
    TooLarge,
}

impl From<AllocError> for NewFault {
    ghost use Rattle.std.specs.Prelude.{◌≡◌};
    ghost use Rattle.futures_buffered_table.specs.declared.answer.NewFault.TheVariants.{Memory};

    ghost from_gives = { λ _ e. e ≡ Memory };

    fn from(_: AllocError) -> NewFault {
        NewFault::Memory
    }
}
