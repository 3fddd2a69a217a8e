//! Channels whose senders are on threads: a sending and a going meet a poll in one round after another, each at a new
//! channel, and a sending meets a receiver that moves to another slot. Many values that go through a merge stand in the
//! guide.
use crate::rounds::{Acts, Meets, Receives, Rounds, comes, lost, polled, takes, turn_over};
use crate::same::assert_same;
use futures::task::Poll;
use futures_buffered_core::ready_shared::{SharedReady, SharedWaker};
use futures_buffered_held::spsc::{Receiver, Sender, TryRecvError, channel};
use futures_buffered_unordered::SlotStream;
use std::test::Fail;
use test_support::keep::keep;
use test_support::pairs::pairs;

const ROUNDS: u64 = 45_000;

impl Receives for Receiver<u64> {
    fn poll_with(&mut self, waker: &SharedWaker) -> Poll<Option<u64>> {
        self.poll_next(waker)
    }
}

// In one of three rounds the number of the round is sent, in one the sender goes, and in one it does both.
fn sends(round: u64) -> bool {
    round % 3 != 0
}

fn goes(round: u64) -> bool {
    round % 3 != 1
}

// Senders, of which the last acts in the next round, and those that did not go in their rounds.
#[derive(Drop)]
struct Senders {
    next: Vec<Sender<u64>>,
    stay: Vec<Sender<u64>>,
}

impl Acts for Senders {
    fn acts(&mut self, round: u64) -> bool {
        let Some(mut sender) = self.next.pop() else {
            return false;
        };
        let is_sent = !sends(round) || sender.try_send(round).is_ok();
        if !goes(round) {
            let _ = keep(&mut self.stay, sender);
        } else if round % 2 == 1 {
            let _ = sender.finish();
        }
        is_sent
    }
}

// A round of a value and the end. Looks without a pause until one comes: whether it is the value, and the end is next.
fn both_come(
    source: &SharedReady,
    rounds: &Rounds,
    receiver: &mut Receiver<u64>,
    round: u64,
) -> bool {
    rounds.begin(round);
    let mut first = receiver.try_recv();
    for turn in 0..u64::MAX {
        if first != Err(TryRecvError::Empty) {
            break;
        }
        turn_over(turn);
        first = receiver.try_recv();
    }
    rounds.wait(round);
    first == Ok(round) && polled(source, 0, receiver) == Poll::Ready(None)
}

// The last receiver is that of the round.
impl Meets for (SharedReady, Vec<Receiver<u64>>) {
    fn meets(&mut self, rounds: &Rounds, round: u64) -> bool {
        let (source, receivers) = self;
        let Some(mut receiver) = receivers.pop() else {
            return false;
        };
        match (sends(round), goes(round)) {
            (true, true) => both_come(source, rounds, &mut receiver, round),
            (true, false) => comes(source, rounds, &mut receiver, round, Some(round)),
            (false, _) => comes(source, rounds, &mut receiver, round, None),
        }
    }
}

#[test]
fn nothing_of_forty_five_thousand_rounds_is_lost(rt: HostRuntime) -> Result<(), Fail> {
    let source = SharedReady::new(rt.alloc(), 1)?;
    let (next, receivers) = pairs(rt.alloc(), ROUNDS, || channel(rt.alloc(), 1).ok())?;
    let stay = Vec::new(rt.alloc());
    let lost = lost(
        &rt,
        ROUNDS,
        Senders { next, stay },
        &mut (source, receivers),
    )?;
    assert_same(&rt, lost, 0);
    Ok(())
}

// Sends the number of each round.
impl Acts for Sender<u64> {
    fn acts(&mut self, round: u64) -> bool {
        self.try_send(round).is_ok()
    }
}

// In each odd round the receiver is polled at slot 0 until the value comes, and then at slot 1, where it waits. The
// value of the next round wakes that slot.
impl Meets for (SharedReady, Receiver<u64>) {
    fn meets(&mut self, rounds: &Rounds, round: u64) -> bool {
        let (source, receiver) = self;
        rounds.begin(round);
        if round % 2 == 0 {
            rounds.wait(round);
            return takes(source, 1) && receiver.try_recv() == Ok(round);
        }
        for turn in 0..u64::MAX {
            if polled(source, 0, receiver) == Poll::Ready(Some(round)) {
                break;
            }
            turn_over(turn);
        }
        polled(source, 1, receiver).is_pending()
    }
}

#[test]
fn no_wake_of_a_slot_moved_to_is_lost(rt: HostRuntime) -> Result<(), Fail> {
    let source = SharedReady::new(rt.alloc(), 2)?;
    let (sender, receiver) = channel(rt.alloc(), 2)?;
    let lost = lost(&rt, ROUNDS, sender, &mut (source, receiver))?;
    assert_same(&rt, lost, 0);
    Ok(())
}
