//! The list on atomic words, and its seats.
ghost use Rattle.std.specs.Prelude.{◌≡◌, ◌<◌, ◌^◌, [], IfOk, length};
ghost use Rattle.futures_buffered_table.specs.Beginning.{all_wakes, first_view, steps_at_first, words_at_first};

use crate::answer::{MAX_CAPACITY, NewFault};
use crate::rule::{FirstWaker, ListKey, NewWaker, RowRule};
use crate::view::View;
use crate::words::{fill_words, words_of};
use atomic_table::{Seat, Table};
use std::alloc::{AllocError, Global};
use std::marker::Model;

// A list of at most so many slots has its first words on the stack.
const FEW: usize = 4;

/// The words of the list, which any number of threads may share by a `&`. No call blocks.
#[derive(Drop)]
pub struct ReadyList {
    pub(crate) table: Table<u8, View, ListKey, RowRule, Global>,
    pub(crate) capacity: usize,
}

impl Model for ReadyList {
    ghost use Rattle.futures_buffered_table.specs.ReadyList.{ListIdentity};
    ghost use Rattle.futures_buffered_table.specs.ReadyListInvariant.{KeepsList};

    ghost Value = { ListIdentity };

    ghost view = { λ l. record { list = l.table.shared.table_id; capacity = l.capacity } };

    ghost invariant = { λ l. KeepsList l.table.shared.table_id l.table.shared.key.capacity l.capacity };
}

/// A seat that wakes slots of its list. It takes no bytes. A thread that has none gets one by
/// [`WakeSeat::split`], or with its first wake by [`ReadyList::wake_anew`].
#[derive(Drop)]
pub struct WakeSeat {
    pub(crate) seat: Seat<u8, View>,
}

impl Model for WakeSeat {
    ghost use Rattle.futures_buffered_table.specs.ReadyList.{Waker};
    ghost use Rattle.futures_buffered_table.specs.ReadyListInvariant.{KeepsWaker};

    ghost Value = { Waker };

    ghost view = { λ s. record { list = s.seat.table_id; steps = s.seat.me.0.steps } };

    ghost invariant = { λ s. KeepsWaker s.seat.table_id s.seat.me };
}

impl WakeSeat {
    /// Two seats of one list, the second for another thread. Takes one atomic load, no lock and no
    /// memory.
    pub fn split(mut self, list: &ReadyList) -> (WakeSeat, WakeSeat)
        requires { self.list ≡ list.now.list }
        ensures first { result.0 ≡ self }
        ensures second { (result.1.list ≡ self.list) × (result.1.steps ≡ []) }
    {
        let other = list.table.shared.split_seat::<NewWaker>(&mut self.seat);
        (self, WakeSeat { seat: other })
    }
}

/// The one seat that takes from its list. It takes the bytes of its head alone.
#[derive(Drop)]
pub struct PollSeat {
    pub(crate) seat: Seat<u8, View>,
    pub(crate) head: usize,
}

impl Model for PollSeat {
    ghost use Rattle.futures_buffered_table.specs.ReadyList.{Poller};
    ghost use Rattle.futures_buffered_table.specs.ReadyListInvariant.{KeepsPoller};

    ghost Value = { Poller };

    ghost view = { λ s.
        record { list = s.seat.table_id; head = s.head; steps = s.seat.me.0.steps } };

    ghost invariant = { λ s. KeepsPoller s.seat.table_id s.seat.me s.head };
}

impl ReadyList {
    ghost use Rattle.futures_buffered_table.specs.Answer.{RefusesTooLarge};

    /// A list for this many slots, none of them marked, with its poll seat and a first wake seat.
    ///
    /// Takes time and memory in proportion to the capacity: for a while twice the words that stay.
    /// It is `TooLarge` before any allocation, and `Memory` if an allocation fails; then nothing
    /// is kept.
    pub fn new(alloc: Global, capacity: usize) -> Result<(ReadyList, PollSeat, WakeSeat), NewFault>
        ensures list { IfOk result (λ r. r.0.capacity ≡ capacity) }
        ensures poller { IfOk result
            (λ r. (r.1.list ≡ r.0.list) × (r.1.head ≡ capacity) × (r.1.steps ≡ [])) }
        ensures waker { IfOk result (λ r. (r.2.list ≡ r.0.list) × (r.2.steps ≡ [])) }
        ensures refuses { RefusesTooLarge capacity result }
    {
        let full = false;
        Self::begin(alloc, ListKey { capacity, full })
    }

    /// A list for this many slots, each of them marked, with its poll seat and a first wake seat.
    /// That seat has the steps of a wake of each slot, in order. The words begin as these wakes
    /// would leave them, so no step is made.
    ///
    /// Takes time and memory, and refuses, as [`new`](ReadyList::new) does.
    pub fn new_full(
        alloc: Global,
        capacity: usize,
    ) -> Result<(ReadyList, PollSeat, WakeSeat), NewFault>
        ensures list { IfOk result (λ r. r.0.capacity ≡ capacity) }
        ensures poller { IfOk result
            (λ r. (r.1.list ≡ r.0.list) × (r.1.head ≡ capacity) × (r.1.steps ≡ [])) }
        ensures waker { IfOk result
            (λ r. (r.2.list ≡ r.0.list) × (r.2.steps ≡ all_wakes capacity)) }
        ensures refuses { RefusesTooLarge capacity result }
    {
        let full = true;
        Self::begin(alloc, ListKey { capacity, full })
    }

    // The table of a list that begins as this key says. The words of few slots are filled on the
    // stack, those of more in a vector.
    fn begin_table(
        alloc: Global,
        key: ListKey,
    ) -> Result<(Table<u8, View, ListKey, RowRule, Global>, Seat<u8, View>), AllocError>
        requires { key.capacity < 2 ^ 62 }
        ensures { IfOk result (λ r. (r.0.shared.table_id.words ≡ length (words_at_first key))
            × (r.0.shared.table_id.slots ≡ 0) × (r.1.table_id ≡ r.0.shared.table_id)
            × (r.1.id ≡ 0) × (r.1.me ≡ (first_view key, [])) × (r.0.shared.key ≡ key)) }
    {
        if key.capacity > FEW {
            let words = words_of(alloc, key)?;
            return Table::of_words(alloc, words.as_slice(), &key);
        }
        let mut room = [0; 2 * FEW + 2];
        let words = &mut room[..key.capacity + key.capacity + 2];
        fill_words(words, key);
        Table::of_words(alloc, words, &key)
    }

    // A list that begins as this key says, with its seats. The wake seat has the steps with which
    // it begins.
    fn begin(alloc: Global, key: ListKey) -> Result<(ReadyList, PollSeat, WakeSeat), NewFault>
        ensures list { IfOk result (λ r. r.0.capacity ≡ key.capacity) }
        ensures poller { IfOk result
            (λ r. (r.1.list ≡ r.0.list) × (r.1.head ≡ key.capacity) × (r.1.steps ≡ [])) }
        ensures waker { IfOk result
            (λ r. (r.2.list ≡ r.0.list) × (r.2.steps ≡ steps_at_first key)) }
        ensures refuses { RefusesTooLarge key.capacity result }
    {
        let capacity = key.capacity;
        if capacity > MAX_CAPACITY {
            return Err(NewFault::TooLarge);
        }
        let (table, mut seat) = Self::begin_table(alloc, key)?;
        let other = table.shared.split_seat::<FirstWaker>(&mut seat);
        let poll = PollSeat {
            seat,
            head: capacity,
        };
        Ok((
            ReadyList { table, capacity },
            poll,
            WakeSeat { seat: other },
        ))
    }

    /// The number of slots, with no atomic step.
    pub fn capacity(&self) -> usize
        ensures { result ≡ self.now.capacity }
    {
        self.capacity
    }
}
