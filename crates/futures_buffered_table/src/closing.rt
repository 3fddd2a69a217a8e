//! The end of a list.
ghost use Rattle.std.specs.Prelude.{◌≡◌, ℕ, ◌+◌, ◌<◌, ◌≤◌, List, ◌++◌, ◌↔◌, All, IsTrue};
ghost use Rattle.futures_buffered_table.specs.declared.view.View.{View};
ghost use Rattle.futures_buffered_table.specs.Words.{mark};
ghost use Rattle.futures_buffered_table.specs.Closing.{steps_of};
ghost use Rattle.futures_buffered_table.specs.Tally.{wins, unmarks};
ghost use Rattle.futures_buffered_table.specs.Whereabouts.{Whereabouts};

use crate::ready_list::{PollSeat, ReadyList, WakeSeat};
use crate::rule::IntoPoller;
use atomic_table::Closed as Words;
use std::alloc::Global;
use std::marker::Model;

/// A list that no thread shares any more. [`Closed::free`] frees its memory.
pub struct Closed {
    words: Words<u8, Global>,
    capacity: usize,
}

impl Model for Closed {
    ghost use Rattle.std.specs.Mem.Slots.{slots_items, slots_len, IsFull};
    ghost use Rattle.futures_buffered_table.specs.Closing.{ClosedWords};
    ghost use Rattle.futures_buffered_table.specs.ClosingInvariant.{KeepsClosed};

    ghost Value = { ClosedWords };

    ghost view = { λ c. record { capacity = c.capacity; words = slots_items c.words.words } };

    ghost invariant = { λ c. let words = c.words.words in IsFull words
        × KeepsClosed (slots_items words) (slots_len words) (slots_len c.words.slots) c.capacity };
}

impl PollSeat {
    // Returns the poll seat with the steps of the wake seat `other`, which goes into it.
    fn join(mut self, list: &ReadyList, other: WakeSeat) -> PollSeat
        requires { (self.list ≡ list.now.list) × (other.list ≡ list.now.list) }
        ensures joined { (result.list ≡ self.list) × (result.head ≡ self.head)
            × (result.steps ≡ self.steps ++ other.steps) }
        ensures unmarks { (e : ℕ) → unmarks e result.steps ≡ unmarks e self.steps }
    {
        let WakeSeat { seat } = other;
        list.table
            .shared
            .join_seat::<IntoPoller>(&mut self.seat, seat);
        self
    }
}

impl Closed {
    /// Returns whether the slot was left marked. Constant time.
    pub fn marked(&self, slot: usize) -> bool
        requires { slot < self.now.capacity }
        ensures { IsTrue result ↔ (mark self.now.words slot ≡ 1) }
    {
        self.words.word(slot) != 0
    }

    /// Frees the memory of the words. A closed list that is not freed keeps it.
    pub fn free(self) {
        let Closed { words, capacity: _ } = self;
        words.free();
    }
}

impl ReadyList {
    // Ends the list, by a poll seat that has the steps of the others.
    fn close_seat(self, poll: PollSeat) -> Closed
        requires { poll.list ≡ self.list }
        ensures capacity { result.capacity ≡ self.capacity }
        ensures placed { (views : List View) × (at : Whereabouts self.capacity result.words views)
            × (at.head ≡ poll.head) }
        ensures none_lost { (e : ℕ) → e < self.capacity →
            wins e poll.steps ≤ unmarks e poll.steps + mark result.words e }
    {
        let ReadyList { table, capacity } = self;
        let PollSeat { seat, head: _ } = poll;
        Closed {
            words: table.close_with(seat),
            capacity,
        }
    }

    /// Ends the list: no thread has a `&` to it any more.
    ///
    /// The steps of the wake seats in `seats` are counted with the poll seat. The steps of a seat
    /// that was dropped are not counted. Does not allocate. Takes time in proportion to the number
    /// of seats, an atomic load for each.
    pub fn close(self, poll: PollSeat, seats: Vec<WakeSeat>) -> Closed
        requires poll { poll.list ≡ self.list }
        requires seats { All (λ s. s.list ≡ self.list) seats.items }
        ensures capacity { result.capacity ≡ self.capacity }

        // At the last, each slot is in its one place, in a row from the poller's head.
        ensures placed { (views : List View) × (at : Whereabouts self.capacity result.words views)
            × (at.head ≡ poll.head) }

        // The marks that these seats won were dequeued, except one if the slot is still marked.
        ensures none_lost { (e : ℕ) → e < self.capacity →
            wins e (steps_of seats.items) ≤ unmarks e poll.steps + mark result.words e }
    {
        let mut all = poll;
        for seat in seats {
            all = all.join(&self, seat);
        }
        self.close_seat(all)
    }
}
