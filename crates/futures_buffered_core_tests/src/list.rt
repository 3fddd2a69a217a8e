// The calls of a list, on one thread and on five.
ghost use Rattle.std.specs.Prelude.{◌≡◌, true};
ghost use Rattle.futures_buffered_table.specs.declared.answer.Taken.TheVariants.{Empty};

use crate::script::{Scene, play, same, says_mark, says_take};
use futures_buffered_table::answer::{MAX_CAPACITY, NewFault, Taken, Woke};
use futures_buffered_table::ready_table::{
    BeforeEmpty, Closed, PollSeat, ReadyList, StepsMade, WakeSeat,
};
use std::alloc::Global;
use std::marker::Model;
use std::test::Fail;
use std::thread::{self, Threads};

// Wakes a slot of the list that calls it, if there is this slot, and counts its calls.
#[derive(Drop)]
struct Inside<'a> {
    list: &'a ReadyList,
    slot: usize,
    calls: u64,
}

impl<'a> BeforeEmpty for Inside<'a> {
    fn before_empty(&mut self, _made: &StepsMade<'_>) {
        if self.slot < self.list.capacity() {
            let (_, _seat) = self.list.wake_anew(self.slot);
        }
        self.calls = self.calls.wrapping_add(1);
    }
}

/// A list with its poll seat and one wake seat, for tests on one thread.
#[derive(Drop)]
pub struct Alone {
    list: ReadyList,
    poll: PollSeat,
    seat: WakeSeat,
    wakes: u64,
}

impl Model for Alone {
    ghost use Rattle.std.specs.Prelude.{ℕ, ◌≡◌};

    ghost Value = { ℕ };

    ghost view = { λ a. a.list.capacity };

    ghost invariant = { λ a. (a.poll.list ≡ a.list.list) × (a.seat.list ≡ a.list.list) };
}

impl Alone {
    pub fn new(alloc: Global, slots: usize) -> Result<Alone, Fail> {
        let (list, poll, seat) = ReadyList::new(alloc, slots)?;
        Ok(Alone {
            list,
            poll,
            seat,
            wakes: 0,
        })
    }

    // Wakes by the seat. A word that begins with `new_` is a wake by a seat that is made with this wake, and that wakes
    // from then on. So is one of three others.
    fn wakes_slot(&mut self, word: &str, slot: usize) -> bool {
        if slot >= self.list.capacity() {
            return false;
        }
        let said = word.strip_prefix("new_");
        self.wakes = self.wakes.wrapping_add(u64::from(said.is_none()));
        if said.is_none() && self.wakes % 3 != 0 {
            return says_mark(word, self.list.wake(&mut self.seat, slot));
        }
        let (woke, seat) = self.list.wake_anew(slot);
        self.seat = seat;
        says_mark(said.unwrap_or(word), woke)
    }

    // A dequeue that finds no slot makes one call, and any other none.
    fn takes(&mut self, word: &str, n: usize) -> bool {
        let mut inside = Inside {
            list: &self.list,
            slot: usize::MAX,
            calls: 0,
        };
        let taken = self.list.take_with(&mut self.poll, &mut inside);
        says_take(word, n, taken) && inside.calls == u64::from(taken == Taken::Empty)
    }

    /// Closes the list, which has to have just these slots marked.
    pub fn closes_with(self, alloc: Global, wanted: &[usize]) -> Result<(), Fail> {
        let Alone {
            list,
            poll,
            seat,
            ..
        } = self;
        let seats = vec![in alloc; seat]?;
        let capacity = list.capacity();
        let closed = list.close(poll, seats);
        let same = has_just(&closed, capacity, wanted);
        closed.free();
        if same {
            Ok(())
        } else {
            Err("other marks are left".into())
        }
    }
}

impl Scene for Alone {
    fn does(&mut self, word: &str, n: usize) -> bool {
        match word {
            "slots" => self.list.capacity() == n,
            "slot" | "empty" => self.takes(word, n),
            _ => self.wakes_slot(word, n),
        }
    }
}

// Returns whether just these slots are marked.
fn has_just(closed: &Closed, capacity: usize, wanted: &[usize]) -> bool
    requires { closed.now.capacity ≡ capacity }
{
    let mut same = true;
    for slot in 0..capacity {
        same &= closed.marked(slot) == wanted.contains(&slot);
    }
    same
}

/// Plays a script on a list of so many slots, which is then closed with these marks.
pub fn plays(alloc: Global, slots: usize, script: &str, wanted: &[usize]) -> Result<(), Fail> {
    let mut list = Alone::new(alloc, slots)?;
    play(&mut list, [slots, 0], script)?;
    list.closes_with(alloc, wanted)
}

// A new seat wakes as an old one does, and wakes again.
#[test]
fn fresh_and_already(rt: HostRuntime) -> Result<(), Fail> {
    let script = "slots 3, new_mark 2, new_marked 2, marked 2, mark 0, marked 0, new_marked 0, \
        slot 2, new_mark 2, mark 1, slot 0, slot 2, new_mark 0";
    plays(rt.alloc(), 3, script, &[0, 1])
}

// One call at each Empty, none where a slot is taken, be it the last one or not.
#[test]
fn calls_at_empty_alone(rt: HostRuntime) -> Result<(), Fail> {
    let script = "empty, empty, mark 0, slot 0, empty, mark 2, mark 0, mark 1, slot 2, slot 0, \
        slot 1, empty";
    plays(rt.alloc(), 3, script, &[])
}

// A split seat marks no slot.
#[test]
fn a_split_seat_marks_nothing(rt: HostRuntime) -> Result<(), Fail> {
    let (list, mut poll, seat) = ReadyList::new(rt.alloc(), 70)?;
    let (_one, _two) = seat.split(&list);
    same(list.take(&mut poll), Taken::Empty)
}

#[test]
fn too_large(rt: HostRuntime) -> Result<(), Fail> {
    let above = ReadyList::new(rt.alloc(), MAX_CAPACITY + 1);
    same(above.err(), Some(NewFault::TooLarge))?;
    let largest = ReadyList::new(rt.alloc(), MAX_CAPACITY);
    same(largest.err(), Some(NewFault::Memory))
}

#[test]
fn closes_with_a_mark(rt: HostRuntime) -> Result<(), Fail> {
    let (list, mut poll, seat) = ReadyList::new(rt.alloc(), 2)?;
    let (mut one, mut two) = seat.split(&list);
    let woke = [list.wake(&mut one, 0), list.wake(&mut two, 1)];
    let taken = list.take(&mut poll);
    let seats = vec![in rt.alloc(); one, two]?;
    let closed = list.close(poll, seats);
    let marked = [closed.marked(0), closed.marked(1)];
    closed.free();
    let wanted = ([Woke::Fresh; 2], Taken::Slot(0), [false, true]);
    same((woke, taken, marked), wanted)
}

// A wake of this slot inside the call is a Pause. The slot comes next, with no call.
fn pauses_inside(list: &ReadyList, poll: &mut PollSeat, slot: usize) -> bool
    requires { poll.old.list ≡ list.now.list }
    ensures { poll.new.list ≡ poll.old.list }
{
    let mut inside = Inside {
        list,
        slot,
        calls: 0,
    };
    let paused = (list.take_with(poll, &mut inside), inside.calls);
    let next = (list.take_with(poll, &mut inside), inside.calls);
    paused == (Taken::Pause, 1) && next == (Taken::Slot(slot), 1)
}

// The call comes after the link read and before the tail read: a wake inside it is a Pause, and not
// a slot or Empty.
#[test]
fn a_wake_inside_the_call_is_a_pause(rt: HostRuntime) -> Result<(), Fail> {
    let (list, mut poll, _) = ReadyList::new(rt.alloc(), 2)?;
    let first = pauses_inside(&list, &mut poll, 0);
    let second = pauses_inside(&list, &mut poll, 1);
    same(
        (first, second, list.take(&mut poll)),
        (true, true, Taken::Empty),
    )
}

// Whether it was called.
#[derive(Drop)]
struct Called(bool);

impl BeforeEmpty for Called {
    ghost leaves = { λ _ _ new. new.0 ≡ true };

    fn before_empty(&mut self, _made: &StepsMade<'_>) {
        self.0 = true;
    }
}

// The contract alone shows that an Empty was told of.
fn told_of_empty(list: &ReadyList, poll: &mut PollSeat) -> (Taken, bool)
    requires { poll.old.list ≡ list.now.list }
    ensures told { result.0 ≡ Empty → result.1 ≡ true }
{
    let mut called = Called(false);
    let taken = list.take_with(poll, &mut called);
    (taken, called.0)
}

#[test]
fn empty_is_told_of(rt: HostRuntime) -> Result<(), Fail> {
    let (list, mut poll, _) = ReadyList::new(rt.alloc(), 0)?;
    same(told_of_empty(&list, &mut poll), (Taken::Empty, true))
}

fn sums(one: [u64; 8], two: [u64; 8]) -> [u64; 8] {
    let mut all = one;
    for slot in 0..8 {
        all[slot] = all[slot].wrapping_add(two[slot]);
    }
    all
}

// Wakes the slots 0 to 7 in turn, 1000 times, and returns the seat, and how many wakes of each were Fresh.
fn wakes_in_turn(list: &ReadyList, seat: WakeSeat) -> (WakeSeat, [u64; 8])
    requires { (seat.list ≡ list.now.list) × (list.now.capacity ≡ 8) }
    ensures { result.0.list ≡ seat.list }
{
    let mut seat = seat;
    let mut fresh = [0u64; 8];
    for wake in 0..8_000usize {
        if list.wake(&mut seat, wake % 8) == Woke::Fresh {
            fresh[wake % 8] = fresh[wake % 8].wrapping_add(1);
        }
    }
    (seat, fresh)
}

// Two wakers at once.
fn two_wake(
    rt: &impl Threads,
    list: &ReadyList,
    one: WakeSeat,
    two: WakeSeat,
) -> ((WakeSeat, [u64; 8]), (WakeSeat, [u64; 8]))
    requires { (one.list ≡ list.now.list) × (two.list ≡ list.now.list) × (list.now.capacity ≡ 8) }
    ensures { (result.0.0.list ≡ list.now.list) × (result.1.0.list ≡ list.now.list) }
{
    thread::join(rt, || wakes_in_turn(list, one), || wakes_in_turn(list, two))
}

// Dequeues often, and returns the seat, and how often each slot came.
fn takes_often(list: &ReadyList, mut poll: PollSeat) -> (PollSeat, [u64; 8])
    requires { poll.list ≡ list.now.list }
    ensures { result.0.list ≡ poll.list }
{
    let mut slots = [0u64; 8];
    for _ in 0..20_000u64 {
        match list.take(&mut poll) {
            Taken::Slot(slot) if slot < 8 => slots[slot] = slots[slot].wrapping_add(1),
            _ => {}
        }
    }
    (poll, slots)
}

// Two wakers and the poller at once.
fn two_wake_beside<R: Threads + Sync>(
    rt: &R,
    list: &ReadyList,
    one: WakeSeat,
    two: WakeSeat,
    poll: PollSeat,
) -> (
    ((WakeSeat, [u64; 8]), (WakeSeat, [u64; 8])),
    (PollSeat, [u64; 8]),
)
    requires { (one.list ≡ list.now.list) × (two.list ≡ list.now.list) × (poll.list ≡ list.now.list)
        × (list.now.capacity ≡ 8) }
    ensures { (result.0.0.0.list ≡ list.now.list) × (result.0.1.0.list ≡ list.now.list)
        × (result.1.0.list ≡ list.now.list) }
{
    thread::join(
        rt,
        || two_wake(rt, list, one, two),
        || takes_often(list, poll),
    )
}

// Returns 1 for each slot that was left marked, and 0 for each other.
fn marks_of(closed: &Closed) -> [u64; 8]
    requires { closed.now.capacity ≡ 8 }
{
    let mut marks = [0; 8];
    for slot in 0..8 {
        marks[slot] = u64::from(closed.marked(slot));
    }
    marks
}

// Four wakers and the poller at once. Of each slot what was Fresh was taken, except for one if the slot is still marked.
#[test]
fn four_wakers(rt: HostRuntime) -> Result<(), Fail> {
    let (list, poll, seat) = ReadyList::new(rt.alloc(), 8)?;
    let (one, two) = seat.split(&list);
    let (one, three) = one.split(&list);
    let (two, four) = two.split(&list);
    let (first, (second, taken)) = thread::join(
        &rt,
        || two_wake(&rt, &list, one, two),
        || two_wake_beside(&rt, &list, three, four, poll),
    );
    let (((_, a), (_, b)), ((_, c), (_, d))) = (first, second);
    let (poll, slots) = taken;
    let closed = list.close(poll, Vec::new(rt.alloc()));
    let left = marks_of(&closed);
    closed.free();
    same(sums(sums(a, b), sums(c, d)), sums(slots, left))
}
