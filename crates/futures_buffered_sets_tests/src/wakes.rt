// Wakes from threads: ten million from eight threads, and wakes of which each is answered before its thread makes the next,
// so that none can stand in for one that was lost.
use futures::task::Poll;
use futures::test::MockTask;
use futures_buffered_core::ready_shared::{SharedReady, SharedWaker};
use futures_buffered_core::ready_source::SlotWaker;
use futures_buffered_sets::{FuturesUnorderedBounded, SlotFuture};
use std::alloc::{AllocError, AllocGlobal, Global};
use std::random::RandomSource;
use std::sync::Wait;
use std::sync::atomic::AtomicU64;
use std::sync::atomic::Ordering::SeqCst;
use std::test::Fail;
use std::thread::{self, Threads, yield_now};
use std::time::{Clock, Instant};
use test_support::ends::counted;
use test_support::keep::keep;
use test_support::polling::poll_next;
use test_support::run_on::run_on;
use test_support::same::same;

const SLOTS: usize = 256;

const THREADS: usize = 8;

const ROUNDS: u64 = 4_883;

// How many wakes of a slot were counted, and a waker of this slot.
#[derive(Drop)]
struct Bell {
    wakes: AtomicU64,
    waker: SharedWaker,
}

// Ready once all wakes of its slot were counted.
#[derive(Drop)]
struct AllWakes<'a> {
    bell: &'a Bell,
}

impl<'a> SlotFuture<SharedWaker> for AllWakes<'a> {
    type Output = ();

    fn poll(&mut self, _waker: &SharedWaker) -> Poll<()> {
        if self.bell.wakes.load(SeqCst) == THREADS as u64 * ROUNDS {
            Poll::Ready(())
        } else {
            Poll::Pending
        }
    }
}

fn add_bells(source: &SharedReady, bells: &mut Vec<Bell>) -> Result<(), AllocError> {
    for slot in 0..source.capacity() {
        let wakes = AtomicU64::new(0);
        let waker = source.try_waker(slot)?;
        keep(bells, Bell { wakes, waker })?;
    }
    Ok(())
}

// A source, and a bell for each slot.
fn new_bells(alloc: Global) -> Result<(Vec<Bell>, SharedReady), Fail> {
    let source = SharedReady::new(alloc, SLOTS)?;
    let mut bells = Vec::new(alloc);
    add_bells(&source, &mut bells)?;
    Ok((bells, source))
}

fn fill<'a>(set: &mut FuturesUnorderedBounded<AllWakes<'a>, SharedReady>, bells: &'a [Bell]) {
    for bell in bells {
        let _ = set.try_push(AllWakes { bell });
    }
}

fn ring_all(bells: &[Bell]) {
    for bell in bells {
        bell.wakes.fetch_add(1, SeqCst);
        bell.waker.wake();
    }
}

fn ring_often(bells: &[Bell]) {
    for _ in 0..ROUNDS {
        ring_all(bells);
    }
}

fn all_ring<R: Threads + Sync>(rt: &R, alloc: Global, bells: &[Bell]) -> Result<(), AllocError> {
    thread::map_indices(rt, alloc, THREADS, &|_| ring_often(bells))?;
    Ok(())
}

// How many outputs a full set gives while each thread rings all bells.
fn rung<R>(rt: &R, source: SharedReady, bells: &[Bell]) -> Result<usize, Fail>
where
    R: Threads + Wait + RandomSource + AllocGlobal + Sync,
{
    let mut set = FuturesUnorderedBounded::with_source(rt.alloc(), source)?;
    fill(&mut set, bells);
    let (rang, outputs) = thread::join(rt, || all_ring(rt, rt.alloc(), bells), || counted(rt, set));
    rang?;
    Ok(outputs?)
}

// Each future is polled once more after its last wake, so that all of them end.
#[test]
fn no_wake_of_ten_million_is_lost(rt: HostRuntime) -> Result<(), Fail> {
    let (bells, source) = new_bells(rt.alloc())?;
    same(
        (bells.len(), rung(&rt, source, bells.as_slice())?),
        (SLOTS, SLOTS),
    )
}

// How long the thread asks.
const MILLISECONDS: u128 = 3_000;

// After so many turns of a wait each further one lets other threads run.
const BUSY_TURNS: u64 = 200_000;

// The last round that was asked for, the last whose wake has ended, the last that was answered, and whether the thread
// has to stop.
#[derive(Default, Drop)]
struct Seat {
    asked: AtomicU64,
    woken: AtomicU64,
    answered: AtomicU64,
    stops: AtomicU64,
}

// Answers the round that is asked for by then, and stays pending.
#[derive(Drop)]
struct Answers<'a> {
    seat: &'a Seat,
}

impl<'a> SlotFuture<SharedWaker> for Answers<'a> {
    type Output = ();

    fn poll(&mut self, _waker: &SharedWaker) -> Poll<()> {
        let round = self.seat.asked.load(SeqCst);
        self.seat.answered.store(round, SeqCst);
        Poll::Pending
    }
}

type Set<'a> = FuturesUnorderedBounded<Answers<'a>, SharedReady>;

// A set that is full of one future, and the waker of its slot.
fn new_set<'a>(alloc: Global, seat: &'a Seat) -> Result<(SharedWaker, Set<'a>), Fail> {
    let source = SharedReady::new(alloc, 1)?;
    if source.capacity() == 0 {
        return Err("no slot".into());
    }
    let waker = source.try_waker(0)?;
    let mut set = FuturesUnorderedBounded::with_source(alloc, source)?;
    let _ = set.try_push(Answers { seat });
    Ok((waker, set))
}

// Ends a turn of a wait.
fn turn_over(turn: u64) {
    if turn > BUSY_TURNS {
        yield_now();
    }
}

// Whether the round is answered before the thread has to stop.
fn is_answered(seat: &Seat, round: u64) -> bool {
    for turn in 0..u64::MAX {
        if seat.answered.load(SeqCst) == round {
            return true;
        }
        if seat.stops.load(SeqCst) != 0 {
            return false;
        }
        turn_over(turn);
    }
    false
}

// Asks for round after round, by a wake each, after a while that differs from round to round.
fn ask_all(seat: &Seat, waker: &SharedWaker) {
    for round in 1..u64::MAX {
        seat.asked.store(round, SeqCst);
        waker.wake();
        seat.woken.store(round, SeqCst);
        if !is_answered(seat, round) {
            return;
        }
        for _ in 0..round % 41 {
            let _ = seat.stops.load(SeqCst);
        }
    }
}

fn is_over<C: Clock>(clock: &C, start: &Instant) -> bool {
    match start.elapsed(clock) {
        Ok(time) => time.as_millis() >= MILLISECONDS,
        Err(_) => true,
    }
}

// Waits until the task is woken: whether it is. Once the wake has ended and waits for its answer, it has to be.
fn is_woken(task: &MockTask, seat: &Seat) -> bool {
    for turn in 0..u64::MAX {
        if seat.woken.load(SeqCst) > seat.answered.load(SeqCst) {
            return task.is_woken();
        }
        turn_over(turn);
    }
    false
}

// Polls whenever the task was woken, until the time is over, and then stops the thread: whether it always was.
fn answer_all<C: Clock>(clock: &C, task: &MockTask, set: &mut Set<'_>, seat: &Seat) -> bool {
    let Ok(start) = Instant::now(clock) else {
        return false;
    };
    let mut answered = true;
    for poll in 1..u64::MAX {
        answered = is_woken(task, seat);
        if !answered || (poll % 64 == 0 && is_over(clock, &start)) {
            break;
        }
        let _ = poll_next(task, set);
    }
    seat.stops.store(1, SeqCst);
    answered
}

// Polls once, and answers while a thread wakes.
fn answer_beside<R: Threads + Clock + Sync>(
    rt: &R,
    task: &MockTask,
    waker: &SharedWaker,
    set: &mut Set<'_>,
    seat: &Seat,
) -> bool {
    let _ = poll_next(task, set);
    let ((), answered) = thread::join(
        rt,
        || ask_all(seat, waker),
        || answer_all(rt, task, set, seat),
    );
    answered
}

#[test]
fn each_wake_is_answered(rt: HostRuntime) -> Result<(), Fail> {
    let task = MockTask::new(&rt)?;
    let seat = Seat::default();
    run_on(new_set(rt.alloc(), &seat), |(waker, set)| {
        same(answer_beside(&rt, &task, waker, set, &seat), true)
    })
}
