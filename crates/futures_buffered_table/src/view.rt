//! What a seat knows: where it is in its call, and which steps it made.
use std::collections::LinkedList;

/// An atomic step that a seat made, with what it found.
#[derive(Clone, Copy, Debug, PartialEq, Eq)]
pub enum AtomicStep {
    /// Sets a slot's mark: the slot, and what its mark was.
    MarkSwap(usize, u64),
    /// Clears an entry's link, which then points to no entry: the entry.
    LinkClear(usize),
    /// Swaps an entry into the tail word: the entry, and the one that was there.
    TailSwap(usize, usize),
    /// Writes the link of the first entry, which then points to the second.
    LinkWrite(usize, usize),
    /// Reads an entry's link: the entry, and what the link holds, 0 or one more than an entry.
    LinkRead(usize, u64),
    /// Reads the tail: the entry that it holds.
    TailRead(usize),
    /// Clears a slot's mark: the slot.
    Unmark(usize),
}

/// Where the poller is in a dequeue.
#[derive(Clone, Copy, Debug, PartialEq, Eq)]
pub enum Phase {
    /// Between two dequeues. It reads the link of its head next.
    Start,
    /// Its head is the stub, whose link pointed to no entry. It reads the tail next.
    AtStub,
    /// Its head moved from the stub to a slot. It reads that slot's link next.
    Moved,
    /// Its head is a slot whose link pointed to no entry. It reads the tail next.
    NoNext,
    /// The tail was the head too. It clears the stub's link next.
    Last,
    /// It swaps the stub into the tail next.
    StubCleared,
    /// It swapped the stub in after this entry, whose link it writes next.
    StubPut(usize),
    /// It reads the link of its head again next.
    StubLinked,
    /// Its head moved on from this slot. It unmarks the slot next, and returns it.
    InHand(usize),
}

/// What a seat is about to do.
#[derive(Clone, Copy, Debug, PartialEq, Eq)]
pub enum Role {
    /// A wake seat between two wakes.
    Idle,
    /// It found the slot's mark clear. It clears the slot's link next.
    Won(usize),
    /// It swaps the slot into the tail next.
    Cleared(usize),
    /// It swapped the slot in after the second entry, whose link it writes next.
    Swapped(usize, usize),
    /// The poll seat, with its head.
    Polls(usize, Phase),
}

/// What a seat knows: which entry is the stub, what it is about to do, and the steps that it made.
pub struct View {
    pub stub: usize,
    pub role: Role,
    pub steps: LinkedList<AtomicStep>,
}
