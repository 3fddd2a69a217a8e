//! A dequeue: the steps of the poll seat, from its head.
ghost use Rattle.std.specs.Prelude.{◌≡◌, ◌≢◌, ℕ, ◌+◌, ◌<◌, ◌≤◌, List, [], ◌∷◌, ◌++◌};
ghost use Rattle.futures_buffered_table.specs.Types.{Slot, Empty, Pause, AtomicStep, LinkClear, TailSwap, LinkWrite};
ghost use Rattle.futures_buffered_table.specs.Types.{LinkRead, TailRead, Unmark, Start, AtStub, Moved, NoNext, Last};
ghost use Rattle.futures_buffered_table.specs.Types.{StubCleared, StubPut, StubLinked, InHand, Polls};
ghost use Rattle.futures_buffered_table.specs.Effect.{next_role};
ghost use Rattle.futures_buffered_table.specs.Taking.{CallsAtStub, IsAtLast, IsFromSlot, IsTaking, ReadsSlot};
ghost use Rattle.futures_buffered_table.specs.Taking.{TakesFromSlot};

use crate::answer::Taken;
use crate::ready_list::{PollSeat, ReadyList};
use crate::rule::SeatStep;
use crate::view::View;
use atomic_table::Seat;
use std::marker::Model;

/// What the poll seat has done when a dequeue calls [`BeforeEmpty::before_empty`]. The type has no
/// calls.
///
/// A contract sees the steps that the seat has made, from its first dequeue on.
#[derive(Drop)]
pub struct StepsMade<'s> {
    seat: &'s Seat<u8, View>,
}

impl<'s> Model for StepsMade<'s> {
    ghost use Rattle.futures_buffered_table.specs.ReadyList.{Midway};

    ghost Value = { Midway };

    ghost view = { λ s. record { steps = s.seat.now.me.0.steps } };
}

/// What a dequeue calls before the one read that can make it return Empty. This is the read of the
/// tail, if the head is the stub and its link points to no entry.
///
/// If a wake swaps its slot into the tail before that read, and the slot is not yet dequeued, the
/// dequeue returns Pause. If a wake swaps its slot into the tail after that read, it finds what the
/// call left. For that, the call has to leave it under a lock or by a sequentially consistent step.
/// The wake has to look for it after its own steps.
pub trait BeforeEmpty {
    // How a call changes what it found, if the seat has made these steps. It says nothing unless an
    // `impl` writes it.
    ghost leaves: { List AtomicStep → Self → Self → Type 0 } = { λ _ _ _. Unit {0} };

    /// Returns before the tail is read. Its time, allocations and locks are the dequeue's too.
    fn before_empty(&mut self, made: &StepsMade<'_>)
        ensures { leaves made.now.steps self.old self.new };
}

/// Does nothing.
impl BeforeEmpty for () {
    fn before_empty(&mut self, _made: &StepsMade<'_>) {}
}

impl ReadyList {
    ghost use Rattle.futures_buffered_table.specs.ReadyList.{IsInRole, AddsSteps};

    // Reads the link of the head, as a dequeue begins.
    fn read_first(&self, seat: &mut Seat<u8, View>, head: usize) -> usize
        requires role { IsInRole self.now (Polls head Start) seat.old
            × (head ≤ self.now.capacity) }
        ensures low { (result ≤ self.now.capacity + 1)
            × (head ≡ self.now.capacity → result ≤ self.now.capacity) }
        ensures role { IsInRole self.now
            (next_role self.now.capacity 0 (Polls head Start) result) seat.new }
        ensures adds { AddsSteps seat.old seat.new (LinkRead head result ∷ []) }
    {
        self.table
            .shared
            .load::<SeatStep>(seat, self.capacity + head) as usize
    }

    // Reads the tail, if the head is a slot whose link pointed to no entry.
    fn read_tail(&self, seat: &mut Seat<u8, View>, head: usize) -> usize
        requires role { IsInRole self.now (Polls head NoNext) seat.old }
        ensures role { IsInRole self.now
            (next_role self.now.capacity 0 (Polls head NoNext) result) seat.new }
        ensures adds { AddsSteps seat.old seat.new (TailRead result ∷ []) }
    {
        self.table
            .shared
            .load::<SeatStep>(seat, self.capacity + self.capacity + 1) as usize
    }

    // Clears the stub's link.
    fn clear_stub(&self, seat: &mut Seat<u8, View>, head: usize)
        requires role { IsInRole self.now (Polls head Last) seat.old }
        ensures role { IsInRole self.now (Polls head StubCleared) seat.new }
        ensures adds { AddsSteps seat.old seat.new (LinkClear self.now.capacity ∷ []) }
    {
        self.table
            .shared
            .store::<SeatStep>(seat, self.capacity + self.capacity, 0);
    }

    // Swaps the stub into the tail word, and returns the entry that was there.
    fn swap_stub(&self, seat: &mut Seat<u8, View>, head: usize) -> usize
        requires role { IsInRole self.now (Polls head StubCleared) seat.old }
        ensures low { result ≤ self.now.capacity }
        ensures role { IsInRole self.now (Polls head (StubPut result)) seat.new }
        ensures adds { AddsSteps seat.old seat.new (TailSwap self.now.capacity result ∷ []) }
    {
        self.table.shared.swap::<SeatStep>(
            seat,
            self.capacity + self.capacity + 1,
            self.capacity as u64,
        ) as usize
    }

    // Writes the link of the entry before the stub: it then points to the stub.
    fn link_stub(&self, seat: &mut Seat<u8, View>, head: usize, before: usize)
        requires role { IsInRole self.now (Polls head (StubPut before)) seat.old
            × (before ≤ self.now.capacity) }
        ensures role { IsInRole self.now (Polls head StubLinked) seat.new }
        ensures adds { AddsSteps seat.old seat.new (LinkWrite before self.now.capacity ∷ []) }
    {
        self.table
            .shared
            .store::<SeatStep>(seat, self.capacity + before, self.capacity as u64 + 1);
    }

    // Reads the link of the head, a slot: the head moved there from the stub, or the stub is after
    // it now.
    fn read_slot(&self, seat: &mut Seat<u8, View>, head: usize) -> usize
        requires role { ReadsSlot self.now head seat.old × (head ≤ self.now.capacity) }
        ensures low { result ≤ self.now.capacity + 1 }
        ensures role { IsInRole self.now
            (next_role self.now.capacity 0 seat.old.me.0.role result) seat.new }
        ensures adds { AddsSteps seat.old seat.new (LinkRead head result ∷ []) }
    {
        self.table
            .shared
            .load::<SeatStep>(seat, self.capacity + head) as usize
    }

    // Reads the tail, if the head is the stub, whose link pointed to no entry.
    fn read_tail_first(&self, seat: &mut Seat<u8, View>, head: usize) -> usize
        requires role { IsInRole self.now (Polls head AtStub) seat.old }
        ensures role { IsInRole self.now (Polls head Start) seat.new }
        ensures adds { AddsSteps seat.old seat.new (TailRead result ∷ []) }
    {
        self.table
            .shared
            .load::<SeatStep>(seat, self.capacity + self.capacity + 1) as usize
    }

    // Clears the slot's mark.
    fn unmark(&self, seat: &mut Seat<u8, View>, head: usize, slot: usize)
        requires role { IsInRole self.now (Polls head (InHand slot)) seat.old
            × (slot ≤ self.now.capacity) }
        ensures role { IsInRole self.now (Polls head Start) seat.new }
        ensures adds { AddsSteps seat.old seat.new (Unmark slot ∷ []) }
    {
        self.table.shared.store::<SeatStep>(seat, slot, 0);
    }

    // Continues a dequeue whose head is a slot whose link pointed to no entry.
    fn take_last(&self, seat: &mut Seat<u8, View>, head: usize) -> (usize, Taken)
        requires role { IsInRole self.now (Polls head NoNext) seat.old
            × (head < self.now.capacity) }
        ensures { TakesFromSlot self.now head IsAtLast seat.old result seat.new }
    {
        if self.read_tail(seat, head) != head {
            return (head, Taken::Pause);
        }
        self.clear_stub(seat, head);
        let before = self.swap_stub(seat, head);
        self.link_stub(seat, head, before);
        let next = self.read_slot(seat, head);
        if next == 0 {
            return (head, Taken::Pause);
        }
        self.unmark(seat, next - 1, head);
        (next - 1, Taken::Slot(head))
    }

    // Continues a dequeue whose head moved from the stub to this slot.
    fn take_slot(&self, seat: &mut Seat<u8, View>, head: usize) -> (usize, Taken)
        requires role { IsInRole self.now (Polls head Moved) seat.old
            × (head < self.now.capacity) }
        ensures { TakesFromSlot self.now head IsFromSlot seat.old result seat.new }
    {
        let found = self.read_slot(seat, head);
        if found == 0 {
            return self.take_last(seat, head);
        }
        self.unmark(seat, found - 1, head);
        (found - 1, Taken::Slot(head))
    }

    // Dequeues from this head. Returns the head after it, and what the dequeue returns.
    #[inline(always)]
    fn take_from<B: BeforeEmpty>(
        &self,
        seat: &mut Seat<u8, View>,
        head: usize,
        before: &mut B,
    ) -> (usize, Taken)
        requires role { IsInRole self.now (Polls head Start) seat.old
            × (head ≤ self.now.capacity) }
        ensures role { IsInRole self.now (Polls result.0 Start) seat.new
            × (result.0 ≤ self.now.capacity) }
        ensures named { (slot : ℕ) → result.1 ≡ Slot slot → slot < self.now.capacity }
        ensures shape { (shape : List AtomicStep) × AddsSteps seat.old seat.new shape
            × IsTaking self.now.capacity head shape result.1 result.0 }
        ensures calls { CallsAtStub B.leaves self.now.capacity seat.old.me.0.steps
            result.1 result.0 before.old before.new }
    {
        let found = self.read_first(seat, head);
        if head == self.capacity {
            if found == 0 {
                // If a wake swaps the tail before the next read, the dequeue returns Pause. If a
                // wake swaps it later, it finds what this call leaves.
                before.before_empty(&StepsMade { seat });
                let tail = self.read_tail_first(seat, head);
                if tail == self.capacity {
                    return (head, Taken::Empty);
                }
                return (head, Taken::Pause);
            }
            return self.take_slot(seat, found - 1);
        }
        if found == 0 {
            return self.take_last(seat, head);
        }
        self.unmark(seat, found - 1, head);
        (found - 1, Taken::Slot(head))
    }

    /// Dequeues the first slot, in two to eight atomic steps, none of which is tried again.
    ///
    /// Empty says that its tail read found the stub, when the row had no slot. Pause says that some
    /// waker may be between its tail swap and its link write. Takes no lock and does not allocate.
    pub fn take(&self, seat: &mut PollSeat) -> Taken
        requires { seat.old.list ≡ self.now.list }
        ensures list { seat.new.list ≡ seat.old.list }
        ensures named { (slot : ℕ) → result ≡ Slot slot → slot < self.now.capacity }
        ensures shape { (shape : List AtomicStep) × (seat.new.steps ≡ seat.old.steps ++ shape)
            × IsTaking self.now.capacity seat.old.head shape result seat.new.head }
    {
        self.take_with(seat, &mut ())
    }

    /// Dequeues as [`take`](ReadyList::take) does. Calls `before` if the head is the stub and its
    /// link points to no entry, after that link read and before the tail read.
    ///
    /// So it calls `before` once if it returns Empty, and once if it returns Pause with the stub as
    /// head. Otherwise it does not call `before`. The dequeue itself takes no lock and does not
    /// allocate.
    #[inline(always)]
    pub fn take_with<B: BeforeEmpty>(&self, seat: &mut PollSeat, before: &mut B) -> Taken
        requires { seat.old.list ≡ self.now.list }
        ensures list { seat.new.list ≡ seat.old.list }
        ensures named { (slot : ℕ) → result ≡ Slot slot → slot < self.now.capacity }
        ensures shape { (shape : List AtomicStep) × (seat.new.steps ≡ seat.old.steps ++ shape)
            × IsTaking self.now.capacity seat.old.head shape result seat.new.head }
        ensures calls { CallsAtStub B.leaves self.now.capacity seat.old.steps
            result seat.new.head before.old before.new }
    {
        // What the list keeps of itself is known from here on.
        let _ = &self.table;
        let (head, taken) = self.take_from(&mut seat.seat, seat.head, before);
        seat.head = head;
        taken
    }
}
