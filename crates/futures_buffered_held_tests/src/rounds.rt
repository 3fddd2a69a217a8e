//! Rounds in which a thread and its test act at once, at the two ends of a one-shot or a channel. Once a round is over,
//! either its answer came, or the slot is marked and the answer comes at the next poll: so no later wake stands in for
//! one that was lost.
use futures::task::Poll;
use futures_buffered_core::ready_core::Taken;
use futures_buffered_core::ready_shared::{SharedReady, SharedWaker};
use std::alloc::AllocGlobal;
use std::sync::Arc;
use std::sync::atomic::AtomicU64;
use std::sync::atomic::Ordering::SeqCst;
use std::test::Fail;
use std::thread::{self, Threads, yield_now};

// So many turns of a wait let no other thread run.
const BUSY_TURNS: u64 = 5_000;

/// The round in which the thread is to act, and the one in which it has. The first is 1.
#[derive(Default, Drop)]
pub struct Rounds {
    begun: AtomicU64,
    over: AtomicU64,
}

/// What the thread does in a round.
pub trait Acts {
    /// Returns whether that went well.
    fn acts(&mut self, round: u64) -> bool;
}

/// What the test does in a round.
pub trait Meets {
    /// Begins the round, and returns whether neither a wake nor an answer was lost in it.
    fn meets(&mut self, rounds: &Rounds, round: u64) -> bool;
}

/// The receiver of a one-shot or a channel.
pub trait Receives {
    fn poll_with(&mut self, waker: &SharedWaker) -> Poll<Option<u64>>;
}

/// Ends a turn of a wait. After many of them it lets other threads run.
pub fn turn_over(turn: u64) {
    if turn > BUSY_TURNS {
        yield_now();
    }
}

// Waits until this is the round.
fn wait_for(round: &AtomicU64, wanted: u64) {
    for turn in 0..u64::MAX {
        if round.load(SeqCst) == wanted {
            return;
        }
        turn_over(turn);
    }
}

impl Rounds {
    pub fn begin(&self, round: u64) {
        self.begun.store(round, SeqCst);
    }

    pub fn is_over(&self, round: u64) -> bool {
        self.over.load(SeqCst) == round
    }

    /// Waits until the thread has acted in this round.
    pub fn wait(&self, round: u64) {
        wait_for(&self.over, round);
    }

    // Lets a while pass, which a caller has differ from round to round.
    fn pause(&self, turns: u64) {
        for _ in 0..turns {
            let _ = self.over.load(SeqCst);
        }
    }
}

/// Whether this slot was marked. No slot is, after it.
pub fn takes(source: &mut SharedReady, slot: usize) -> bool {
    let mut is_marked = false;
    for _ in 0..u64::MAX {
        match source.take() {
            Taken::Slot(named) => is_marked = is_marked || named == slot,
            Taken::Empty => return is_marked,
            Taken::Pause => {}
        }
    }
    is_marked
}

/// Polls at this slot.
pub fn polled<P: Receives>(
    source: &SharedReady,
    slot: usize,
    receiver: &mut P,
) -> Poll<Option<u64>> {
    if slot >= source.capacity() {
        return Poll::Pending;
    }
    match source.try_waker(slot) {
        Ok(waker) => receiver.poll_with(&waker),
        Err(_) => Poll::Pending,
    }
}

/// One round: whether its answer came, with a wake if the poll before it was pending.
pub fn comes<P: Receives>(
    source: &mut SharedReady,
    rounds: &Rounds,
    receiver: &mut P,
    round: u64,
    answer: Option<u64>,
) -> bool {
    let wanted = Poll::Ready(answer);
    rounds.begin(round);
    rounds.pause(round % 31);
    let came = polled(source, 0, receiver);
    rounds.wait(round);
    let is_marked = takes(source, 0);
    came == wanted || (came.is_pending() && is_marked && polled(source, 0, receiver) == wanted)
}

// In how many of the rounds the thread did not do what it should.
fn lost_by_thread<A: Acts>(rounds: &Rounds, acting: &mut A, count: u64) -> u64 {
    let mut lost = 0u64;
    for round in 1..=count {
        wait_for(&rounds.begun, round);
        rounds.pause(round % 29);
        if !acting.acts(round) {
            lost = lost.saturating_add(1);
        }
        rounds.over.store(round, SeqCst);
    }
    lost
}

fn lost_by_test<M: Meets>(rounds: &Rounds, meeting: &mut M, count: u64) -> u64 {
    let mut lost = 0u64;
    for round in 1..=count {
        if !meeting.meets(rounds, round) {
            lost = lost.saturating_add(1);
        }
    }
    lost
}

/// In how many of so many rounds something was lost, on either side.
pub fn lost<R, A, M>(rt: &R, count: u64, mut acting: A, meeting: &mut M) -> Result<u64, Fail>
where
    R: Threads + AllocGlobal,
    A: Acts + Send + Drop + 'static,
    M: Meets,
{
    let rounds = Arc::new(rt.alloc(), Rounds::default())?;
    let shared = Arc::try_clone(&rounds)?;
    let thread = thread::spawn(rt, move || lost_by_thread(&shared, &mut acting, count))?;
    let lost = lost_by_test(&rounds, meeting, count);
    Ok(lost.saturating_add(thread.join(rt)))
}
