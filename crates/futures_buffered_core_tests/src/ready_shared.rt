// Outer wakers that are no task's, with other threads: one that wakes while an outer waker acts, and two whose wakes are
// each answered.
use crate::script::{Scene, play, same, says_mark, says_take};
use crate::tasks::{wake, waker_of};
use futures_buffered_core::ready_core::{MAX_CAPACITY, NewFault, Taken};
use futures_buffered_core::ready_shared::{OuterWaker, SharedReady, SharedWaker};
use futures_buffered_core::ready_source::SlotWaker;
use std::alloc::Global;
use std::sync::atomic::AtomicU64;
use std::sync::atomic::Ordering::SeqCst;
use std::test::Fail;
use std::thread::{self, Threads, yield_now};
use std::time::{Clock, Instant};

const TURNS: u64 = 10_000_000;

// How often outer wakers were woken, and how often dropped; whether one has asked, which is 2 once it has the answer,
// and the answer.
#[derive(Default, Drop)]
struct Counts {
    wakes: AtomicU64,
    drops: AtomicU64,
    asked: AtomicU64,
    answered: AtomicU64,
}

impl Counts {
    // The wakes and the drops, a digit for each.
    fn seen(&self) -> u64 {
        let wakes = self.wakes.load(SeqCst).wrapping_mul(10);
        wakes.wrapping_add(self.drops.load(SeqCst))
    }

    // Asks another thread to act, and waits for its answer.
    fn ask(&self) {
        self.asked.store(1, SeqCst);
        if is_set(&self.answered) {
            self.asked.store(2, SeqCst);
        }
    }
}

// Whether a word becomes other than 0 within many turns.
fn is_set(word: &AtomicU64) -> bool {
    for _ in 0..TURNS {
        if word.load(SeqCst) != 0 {
            return true;
        }
        yield_now();
    }
    false
}

// When an outer waker asks.
#[derive(Clone, Copy, PartialEq, Eq)]
enum Asks {
    Never,
    AtItsWake,
    AtItsDrop,
}

// Counts its wake and its drop.
struct Watched<'a> {
    counts: &'a Counts,
    asks: Asks,
}

impl<'a> Drop for Watched<'a> {
    fn drop(self) {
        let Self { counts, asks } = self;
        counts.drops.fetch_add(1, SeqCst);
        if asks == Asks::AtItsDrop {
            counts.ask();
        }
    }
}

impl<'a> OuterWaker for Watched<'a> {
    fn wake_outer(self) {
        self.counts.wakes.fetch_add(1, SeqCst);
        if self.asks == Asks::AtItsWake {
            self.counts.ask();
        }
    }
}

type Source<'a> = SharedReady<Watched<'a>>;

type SlotsWaker<'a> = SharedWaker<Watched<'a>>;

// Puts a new one in, with these counts.
fn put_in<'a>(source: &mut Source<'a>, counts: &'a Counts, asks: Asks) {
    source.set_outer(Watched { counts, asks });
}

// Wakers of slots 1 and 0, and their source.
type Parts<'a> = (SlotsWaker<'a>, SlotsWaker<'a>, Source<'a>);

fn new_parts<'a>(alloc: Global, slots: usize) -> Result<Parts<'a>, Fail> {
    let source = SharedReady::new(alloc, slots)?;
    match (waker_of(&source, 1), waker_of(&source, 0)) {
        (Some(one), Some(two)) => Ok((one, two, source)),
        _ => Err("no such slot".into()),
    }
}

// Wakers of two slots and their source, and the counts of two outer wakers.
#[derive(Drop)]
struct Outers<'a, R> {
    rt: &'a R,
    parts: Parts<'a>,
    first: &'a Counts,
    second: &'a Counts,
}

// Wakes these two once the first outer waker asks, and answers.
fn wake_when_asked(first: &Counts, one: &SlotsWaker<'_>, two: &SlotsWaker<'_>) {
    if is_set(&first.asked) {
        one.wake();
        two.wake();
        first.answered.store(1, SeqCst);
    }
}

impl<'a, R: Threads> Outers<'a, R> {
    // Wakes the slot, or puts the second in, while another thread wakes the two once the first asks it.
    fn act_beside(&mut self, slot: Option<usize>) {
        let (one, two, source) = &mut self.parts;
        let (first, second) = (self.first, self.second);
        thread::join(
            self.rt,
            || wake_when_asked(first, one, two),
            || match slot {
                Some(slot) => wake(source, slot),
                None => put_in(source, second, Asks::Never),
            },
        );
    }

    // Wakes one of the two while another thread puts the second in once the first asks it.
    fn put_beside(&mut self) {
        let (one, _, source) = &mut self.parts;
        let (first, second) = (self.first, self.second);
        thread::join(
            self.rt,
            || {
                one.wake();
            },
            || {
                if is_set(&first.asked) {
                    put_in(source, second, Asks::Never);
                    first.answered.store(1, SeqCst);
                }
            },
        );
    }

    // Returns whether there is such an act.
    fn acts(&mut self, word: &str, n: usize) -> bool {
        let (_, _, source) = &mut self.parts;
        match word {
            "wake" => wake(source, n),
            "first" => put_in(source, self.first, Asks::Never),
            "second" => put_in(source, self.second, Asks::Never),
            "asks_at_its_wake" => put_in(source, self.first, Asks::AtItsWake),
            "asks_at_its_drop" => put_in(source, self.first, Asks::AtItsDrop),
            "wake_beside" => self.act_beside(Some(n)),
            "second_beside" => self.act_beside(None),
            "second_when_asked" => self.put_beside(),
            _ => return false,
        }
        true
    }
}

impl<'a, R: Threads> Scene for Outers<'a, R> {
    fn does(&mut self, word: &str, n: usize) -> bool {
        let (_, _, source) = &mut self.parts;
        match word {
            "mark" | "marked" => n < source.capacity() && says_mark(word, source.mark(n)),
            "slot" | "empty" => says_take(word, n, source.take()),
            // The wakes and drops of the first, and those of the second.
            "seen" => [self.first.seen(), self.second.seen()] == [n as u64 / 100, n as u64 % 100],
            "asked" => self.first.asked.load(SeqCst) == n as u64,
            _ => self.acts(word, n),
        }
    }
}

// Plays a script on a source of three slots.
fn plays<R: Threads>(rt: &R, alloc: Global, script: &str) -> Result<(), Fail> {
    let (first, second) = (Counts::default(), Counts::default());
    let mut outers = Outers {
        rt,
        parts: new_parts(alloc, 3)?,
        first: &first,
        second: &second,
    };
    play(&mut outers, [0, 0], script)
}

// A wake of a marked slot takes nothing out, and a mark wakes nobody.
#[test]
fn a_fresh_wake_takes_the_outer_waker(rt: HostRuntime) -> Result<(), Fail> {
    let script = "empty, mark 1, first, wake 1, seen 0, mark 0, marked 0, wake 2, seen 1100, \
        slot 1, wake 1, seen 1100, first, slot 0, slot 2, slot 1, empty, wake 0, seen 2200";
    plays(&rt, rt.alloc(), script)
}

// Two slots are woken while the outer waker is at its wake, by a thread that it waits for. No wake waits for another,
// and none is lost.
#[test]
fn two_slots_are_woken_from_inside_the_outer_wake(rt: HostRuntime) -> Result<(), Fail> {
    let script = "asks_at_its_wake, wake_beside 2, asked 2, slot 2, slot 1, slot 0, empty";
    plays(&rt, rt.alloc(), script)
}

// The outer waker that is put in while another is at its wake would be woken at once if that wake still had the place.
#[test]
fn the_place_is_free_while_the_outer_waker_is_woken(rt: HostRuntime) -> Result<(), Fail> {
    let script = "asks_at_its_wake, second_when_asked, asked 2, seen 1100, wake 0, seen 1111";
    plays(&rt, rt.alloc(), script)
}

#[test]
fn a_source_that_is_too_large(rt: HostRuntime) -> Result<(), Fail> {
    let above: Result<SharedReady, _> = SharedReady::new(rt.alloc(), MAX_CAPACITY + 1);
    same(above.err(), Some(NewFault::TooLarge))?;
    let largest: Result<SharedReady, _> = SharedReady::new(rt.alloc(), MAX_CAPACITY);
    same(largest.err(), Some(NewFault::Memory))
}

// The first is dropped, and is not woken; a wake then finds the second.
#[test]
fn the_outer_waker_is_replaced(rt: HostRuntime) -> Result<(), Fail> {
    let script = "first, seen 0, second, seen 100, wake 0, seen 111, wake 1, seen 111, first, \
        seen 111";
    plays(&rt, rt.alloc(), script)
}

// The first is dropped once the place is free again and the second is in it: a slot that its drop has woken finds the
// second.
#[test]
fn the_drop_of_an_outer_waker_wakes_a_slot(rt: HostRuntime) -> Result<(), Fail> {
    let script = "asks_at_its_drop, second_beside, asked 2, seen 111, wake 2, slot 1, slot 0, \
        slot 2, empty";
    plays(&rt, rt.alloc(), script)
}

// How long two threads wake.
const MILLISECONDS: u128 = 3_000;

// After so many turns of a wait each further one lets other threads run.
const BUSY_TURNS: u64 = 5_000;

// The round in which the threads wake, which is the last number once they have to stop; the round of which the wake of
// each of two slots has ended; and what the outer waker counts.
#[derive(Default, Drop)]
struct Rounds {
    now: AtomicU64,
    first: AtomicU64,
    second: AtomicU64,
    outer: Counts,
}

// Ends a turn of a wait.
fn turn_over(turn: u64) {
    if turn > BUSY_TURNS {
        yield_now();
    }
}

// Waits for a round to begin: whether it does before the threads have to stop.
fn begins(rounds: &Rounds, round: u64) -> bool {
    for turn in 0..u64::MAX {
        let now = rounds.now.load(SeqCst);
        if now >= round {
            return now == round;
        }
        turn_over(turn);
    }
    false
}

// Makes one wake in each round, after a while that differs from round to round, and between the threads.
fn wake_often(rounds: &Rounds, waker: &SlotsWaker<'_>, ended: &AtomicU64, turns: u64) {
    for round in 1..u64::MAX {
        if !begins(rounds, round) {
            return;
        }
        for _ in 0..round.checked_rem(turns).unwrap_or(0) {
            let _ = rounds.now.load(SeqCst);
        }
        waker.wake();
        ended.store(round, SeqCst);
    }
}

// Dequeues until no slot is marked, and counts how often each slot comes.
fn take_all(source: &mut Source<'_>, named: &mut [u64; 2]) {
    for _ in 0..u64::MAX {
        match source.take() {
            Taken::Slot(0) => named[0] = named[0].wrapping_add(1),
            Taken::Slot(_) => named[1] = named[1].wrapping_add(1),
            Taken::Empty => return,
            Taken::Pause => {}
        }
    }
}

// Waits until the outer waker is woken: whether it is. Once the wakes of this round have ended, it has to be.
fn is_woken(rounds: &Rounds, round: u64) -> bool {
    for turn in 0..u64::MAX {
        let first = rounds.first.load(SeqCst);
        let has_ended = first == round && rounds.second.load(SeqCst) == round;
        let is_woken = rounds.outer.wakes.load(SeqCst) != 0;
        if has_ended || is_woken {
            return is_woken;
        }
        turn_over(turn);
    }
    false
}

// Puts an outer waker in and takes all, whenever the one before was woken, until both slots came: whether each was
// woken.
fn answer_round<'a>(source: &mut Source<'a>, rounds: &'a Rounds, round: u64) -> bool {
    let mut named = [0, 0];
    for _ in 0..u64::MAX {
        if !is_woken(rounds, round) {
            return false;
        }
        rounds.outer.wakes.store(0, SeqCst);
        put_in(source, &rounds.outer, Asks::Never);
        take_all(source, &mut named);
        if named == [1, 1] {
            return true;
        }
    }
    true
}

fn is_over<C: Clock>(clock: &C, start: &Instant) -> bool {
    match start.elapsed(clock) {
        Ok(time) => time.as_millis() >= MILLISECONDS,
        Err(_) => true,
    }
}

// Has both threads wake in round after round until the time is over, and then stop: whether each wake was answered.
fn answer_all<'a, C: Clock>(clock: &C, source: &mut Source<'a>, rounds: &'a Rounds) -> bool {
    let Ok(start) = Instant::now(clock) else {
        return false;
    };
    let mut answered = true;
    put_in(source, &rounds.outer, Asks::Never);
    for round in 1..u64::MAX {
        rounds.now.store(round, SeqCst);
        answered = answer_round(source, rounds, round);
        if !answered || (round % 256 == 0 && is_over(clock, &start)) {
            break;
        }
    }
    rounds.now.store(u64::MAX, SeqCst);
    answered
}

fn wake_both<R: Threads>(rt: &R, rounds: &Rounds, one: &SlotsWaker<'_>, two: &SlotsWaker<'_>) {
    thread::join(
        rt,
        || wake_often(rounds, one, &rounds.first, 29),
        || wake_often(rounds, two, &rounds.second, 31),
    );
}

// Two threads make a wake each in one round after another, and the next round begins once both slots came. So no later
// wake stands in for one that was lost: the caller that dequeues is woken, or the test fails.
#[test]
fn each_wake_of_two_threads_is_answered(rt: HostRuntime) -> Result<(), Fail> {
    let rounds = Rounds::default();
    let (one, two, mut source) = new_parts(rt.alloc(), 2)?;
    let ((), answered) = thread::join(
        &rt,
        || wake_both(&rt, &rounds, &one, &two),
        || answer_all(&rt, &mut source, &rounds),
    );
    same(answered, true)
}
