//! A wake: the steps of a wake seat.
ghost use Rattle.std.specs.Prelude.{◌≡◌, ℕ, ◌<◌, ◌≤◌, List, [], ◌∷◌, ◌++◌};
ghost use Rattle.futures_buffered_table.specs.Types.{AtomicStep, MarkSwap, LinkClear, TailSwap, LinkWrite, Idle, Won};
ghost use Rattle.futures_buffered_table.specs.Types.{Cleared, Swapped};
ghost use Rattle.futures_buffered_table.specs.Effect.{next_role};
ghost use Rattle.futures_buffered_table.specs.Waking.{IsWake};

use crate::answer::Woke;
use crate::ready_list::{ReadyList, WakeSeat};
use crate::rule::{NewWakerStep, SeatStep};
use crate::view::View;
use atomic_table::Seat;

impl ReadyList {
    ghost use Rattle.futures_buffered_table.specs.ReadyList.{IsInRole, AddsSteps, PutsInRow};

    // Sets the slot's mark, and returns what it was.
    fn swap_mark(&self, seat: &mut Seat<u8, View>, slot: usize) -> u64
        requires role { IsInRole self.now Idle seat.old × (slot < self.now.capacity) }
        ensures low { result ≤ 1 }
        ensures role { IsInRole self.now (next_role self.now.capacity slot Idle result) seat.new }
        ensures adds { AddsSteps seat.old seat.new (MarkSwap slot result ∷ []) }
    {
        self.table.shared.swap::<SeatStep>(seat, slot, 1)
    }

    // Clears the slot's link.
    fn clear_link(&self, seat: &mut Seat<u8, View>, slot: usize)
        requires role { IsInRole self.now (Won slot) seat.old × (slot < self.now.capacity) }
        ensures role { IsInRole self.now (Cleared slot) seat.new }
        ensures adds { AddsSteps seat.old seat.new (LinkClear slot ∷ []) }
    {
        self.table
            .shared
            .store::<SeatStep>(seat, self.capacity + slot, 0);
    }

    // Swaps the slot into the tail word, and returns the entry that was there.
    fn swap_tail(&self, seat: &mut Seat<u8, View>, slot: usize) -> usize
        requires role { IsInRole self.now (Cleared slot) seat.old × (slot < self.now.capacity) }
        ensures low { result ≤ self.now.capacity }
        ensures role { IsInRole self.now (Swapped slot result) seat.new }
        ensures adds { AddsSteps seat.old seat.new (TailSwap slot result ∷ []) }
    {
        self.table
            .shared
            .swap::<SeatStep>(seat, self.capacity + self.capacity + 1, slot as u64) as usize
    }

    // Writes the link of the entry before the slot: it then points to the slot.
    fn write_link(&self, seat: &mut Seat<u8, View>, slot: usize, before: usize)
        requires role { IsInRole self.now (Swapped slot before) seat.old
            × (slot < self.now.capacity) × (before ≤ self.now.capacity) }
        ensures role { IsInRole self.now Idle seat.new }
        ensures adds { AddsSteps seat.old seat.new (LinkWrite before slot ∷ []) }
    {
        self.table
            .shared
            .store::<SeatStep>(seat, self.capacity + before, slot as u64 + 1);
    }

    // Enqueues the slot, which this seat won: it is then the last entry of the row.
    fn put_in(&self, seat: &mut Seat<u8, View>, slot: usize)
        requires role { IsInRole self.now (Won slot) seat.old × (slot < self.now.capacity) }
        ensures role { IsInRole self.now Idle seat.new }
        ensures adds { PutsInRow slot seat.old seat.new }
    {
        self.clear_link(seat, slot);
        let before = self.swap_tail(seat, slot);
        self.write_link(seat, slot, before);
    }

    /// Marks the slot, and enqueues it if it was not marked: one atomic step or four, none of which
    /// is tried again. Takes no lock and does not allocate.
    pub fn wake(&self, seat: &mut WakeSeat, slot: usize) -> Woke
        requires list { seat.old.list ≡ self.now.list }
        requires slot { slot < self.now.capacity }
        ensures list { seat.new.list ≡ seat.old.list }
        ensures shape { (shape : List AtomicStep) × (seat.new.steps ≡ seat.old.steps ++ shape)
            × IsWake slot shape result }
    {
        // What the list keeps of itself is known from here on.
        let _ = &self.table;
        if self.swap_mark(&mut seat.seat, slot) != 0 {
            return Woke::Already;
        }
        self.put_in(&mut seat.seat, slot);
        Woke::Fresh
    }

    // Sets the slot's mark by a seat that is made with this step, and returns what the mark was.
    fn swap_mark_anew(&self, slot: usize) -> (u64, Seat<u8, View>)
        requires { slot < self.now.capacity }
        ensures low { result.0 ≤ 1 }
        ensures role { IsInRole self.now (next_role self.now.capacity slot Idle result.0) result.1 }
        ensures steps { result.1.me.0.steps ≡ MarkSwap slot result.0 ∷ [] }
    {
        self.table.shared.swap_new_seat::<NewWakerStep>(slot, 1)
    }

    /// Wakes the slot as [`wake`](ReadyList::wake) does, by a wake seat that is made with the first
    /// step and then is the caller's. So a thread that has no seat can wake.
    ///
    /// The seat takes no bytes, and making it is no step: one atomic step or four in all, none of
    /// which is tried again. Takes no lock and does not allocate.
    pub fn wake_anew(&self, slot: usize) -> (Woke, WakeSeat)
        requires { slot < self.now.capacity }
        ensures list { result.1.list ≡ self.now.list }
        ensures shape { IsWake slot result.1.steps result.0 }
    {
        // What the list keeps of itself is known from here on.
        let _ = &self.table;
        let (was, mut seat) = self.swap_mark_anew(slot);
        if was != 0 {
            return (Woke::Already, WakeSeat { seat });
        }
        self.put_in(&mut seat, slot);
        (Woke::Fresh, WakeSeat { seat })
    }
}
