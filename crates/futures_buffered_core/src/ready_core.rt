//! Which slots are marked, and which one is dequeued next.
//!
//! An event is a mark or a dequeue. A dequeue returns the slot with the oldest mark that is not yet dequeued; all marks
//! of that slot are then dequeued. No call waits. After construction only `run` allocates, for its replies.
ghost use Rattle.std.specs.Prelude.{◌≡◌, ◌+◌, ◌<◌, [], ℕ, List, ◌++◌, length, slice_set, OnOk, OnErr, nat_eq, vec_len};
ghost use Rattle.std.specs.List.{IsDistinct};
ghost use Rattle.futures_buffered_core.specs.ReadyCore.{MarkGives, TakeGives, IsNameBelow};
ghost use Rattle.futures_buffered_core.specs.declared.ready_core.Reply.{Reply};
ghost use Rattle.futures_buffered_core.specs.History.{Answers};
ghost use Rattle.futures_buffered_core.specs.WrongName.{AllNamesBelow, IsFirstWrong};
ghost use Rattle.futures_buffered_core.specs.Made.{MakesSlots};

use crate::wrong_name::first_wrong;
pub use futures_buffered_table::answer::{MAX_CAPACITY, NewFault, Taken, Woke};
use std::alloc::Global;
use std::marker::Model;
use thiserror::Error;

/// What is done to a ready core.
#[derive(Clone, Copy, Debug, PartialEq, Eq)]
pub enum Event {
    /// Marks the slot.
    Mark(usize),
    /// Dequeues a slot.
    Take,
}

/// The result of an event.
#[derive(Clone, Copy, Debug, PartialEq, Eq)]
pub enum Reply {
    /// Of a mark.
    Woke(Woke),
    /// Of a dequeue.
    Taken(Taken),
}

/// The marked slots, each once, by the oldest mark of each that is not yet dequeued.
///
/// A contract sees the capacity and the list of marked slots, in that order. The marked slots are in a row of links, as
/// in a `ReadyList`. One entry more than there are slots, the stub, takes the head's place if no slot is marked. Each
/// call except `new` takes the same time at any capacity, and does not allocate.
#[derive(Drop)]
pub struct ReadyCore {
    marks: Vec<bool>,
    // For each slot and for the stub: 0, or 1 more than the entry that follows.
    links: Vec<usize>,
    head: usize,
    tail: usize,
}

impl Model for ReadyCore {
    ghost use Rattle.futures_buffered_core.specs.ReadyCore.{Standing};

    ghost Value = { Standing };

    ghost use Rattle.std.specs.Prelude.{vec_len};
    ghost use Rattle.futures_buffered_core.specs.ReadyCoreInvariant.{KeepsLinks, slots_of};

    ghost view = { λ core. record {
      capacity = vec_len core.marks;
      marked = slots_of core.links.items (vec_len core.marks) core.head;
    } };

    ghost invariant = { λ core.
        KeepsLinks (vec_len core.marks) core.marks.items core.links.items core.head core.tail
        (slots_of core.links.items (vec_len core.marks) core.head) };
}

// Adds the entry after the last. Its link is cleared, and it becomes the tail. The link of the entry that was the tail
// points to it.
fn put_last(links: &mut Vec<usize>, tail: &mut usize, entry: usize)
    requires entry { entry < vec_len links.old }
    requires tail { tail.old < vec_len links.old }
    ensures links { links.new.items
        ≡ slice_set (slice_set links.old.items entry 0) tail.old (entry + 1) }
    ensures tail { tail.new ≡ entry }
{
    links[entry] = 0;
    let before = *tail;
    *tail = entry;
    links[before] = entry + 1;
}

impl ReadyCore {
    /// Makes a core of `cap` slots, none of which is marked.
    ///
    /// Takes time and allocates in proportion to `cap`: `cap` marks and `cap + 1` links. No later call allocates.
    pub fn new(alloc: Global, cap: usize) -> Result<Self, NewFault>
        ensures { MakesSlots cap (λ core. core ≡ record { capacity = cap; marked = [] }) result }
    {
        if cap > MAX_CAPACITY {
            return Err(NewFault::TooLarge);
        }
        let marks = vec![in alloc; false; cap]?;
        let links = vec![in alloc; 0; cap + 1]?;
        Ok(ReadyCore {
            marks,
            links,
            head: cap,
            tail: cap,
        })
    }

    /// The number of slots.
    pub fn capacity(&self) -> usize
        ensures value { result ≡ self.now.capacity }
        ensures once { IsDistinct nat_eq self.now.marked }
    {
        self.marks.len()
    }

    /// Marks a slot. A slot that is marked already keeps its place.
    pub fn mark(&mut self, i: usize) -> Woke
        requires { i < self.old.capacity }
        ensures marked { MarkGives self.old.marked i result self.new.marked }
        ensures capacity { self.new.capacity ≡ self.old.capacity }
    {
        if !self.marks[i] {
            self.marks[i] = true;
            put_last(&mut self.links, &mut self.tail, i);
            return Woke::Fresh;
        }
        Woke::Already
    }

    /// Dequeues the slot whose mark is oldest, and unmarks it. Returns `Empty` if no slot is marked, and never `Pause`.
    pub fn take(&mut self) -> Taken
        ensures taken { TakeGives self.old.marked result self.new.marked }
        ensures below { IsNameBelow self.old.capacity result }
        ensures capacity { self.new.capacity ≡ self.old.capacity }
    {
        // The steps are the steps of a `ReadyList`. No mark is half made here, so a tail that is read is always the
        // head.
        let stub = self.marks.len();
        if self.head == stub {
            let first = self.links[stub];
            if first == 0 {
                if self.tail != stub {
                    return Taken::Pause;
                }
                return Taken::Empty;
            }
            self.head = first - 1;
        }
        let slot = self.head;
        if self.links[slot] == 0 {
            if self.tail != slot {
                return Taken::Pause;
            }
            put_last(&mut self.links, &mut self.tail, stub);
        }
        self.head = self.links[slot] - 1;
        self.marks[slot] = false;
        Taken::Slot(slot)
    }
}

/// Why a list was rejected.
#[derive(Clone, Copy, Debug, PartialEq, Eq, Error)]
pub enum RunFault {
    /// An allocation failed.
    #[error("out of memory")]
    Memory,
    /// The position of the first entry whose slot is not below the capacity. This is tested before any allocation.
    #[error("the entry at {0} names a slot that is not there")]
    Event(usize),
}

/// Does the events in order, and appends a reply for each to `out`.
///
/// It tests all slots first, then makes room for all replies, and only then does the first event. So an error changes
/// nothing. Allocates for the replies. Each event takes the same time at any capacity.
pub fn run(core: &mut ReadyCore, events: &[Event], out: &mut Vec<Reply>) -> Result<(), RunFault>
    // The marks and dequeues of the events decide each reply, after one mark of each slot that is marked at the start.
    ensures right { OnOk result ((replies : List Reply) × (out.new.items ≡ out.old.items ++ replies)
        × Answers core.old.marked events.now replies core.new.marked) }
    ensures capacity { core.new.capacity ≡ core.old.capacity }
    ensures err { OnErr result ((core.new ≡ core.old) × (out.new.items ≡ out.old.items)) }
    ensures wrong { (p : ℕ) → result ≡ Err (RunFault.Event p)
        → IsFirstWrong Event.Mark core.old.capacity events.now p }
    ensures named { OnOk result
        (AllNamesBelow Event.Mark core.old.capacity events.now) }
    ensures below { result ≡ Err RunFault.Memory
        → AllNamesBelow Event.Mark core.old.capacity events.now }
{
    if let Some(p) = first_wrong(events, core.capacity()) {
        return Err(RunFault::Event(p));
    }
    let Ok(()) = out.reserve(events.len()) else {
        return Err(RunFault::Memory);
    };
    for event in events {
        let reply = match event {
            Event::Mark(i) => Reply::Woke(core.mark(*i)),
            Event::Take => Reply::Taken(core.take()),
        };
        out.push_reserved(reply);
    }
    Ok(())
}
