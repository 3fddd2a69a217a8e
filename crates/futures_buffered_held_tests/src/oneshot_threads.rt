//! One-shots that are sent from threads: in a set that is polled meanwhile, and in one round after another, in which a
//! send and a poll meet at a new one-shot. And a sender looks for its receiver while that is polled.
use crate::rounds::{Acts, Meets, Receives, Rounds, comes, lost, polled};
use crate::same::assert_same;
use futures::StreamExt;
use futures::executor::block_on;
use futures::task::Poll;
use futures_buffered_core::ready_shared::{SharedReady, SharedWaker};
use futures_buffered_held::oneshot::{Receiver, Sender, channel};
use futures_buffered_unordered::{FuturesUnorderedBounded, SlotFuture};
use std::alloc::AllocGlobal;
use std::test::Fail;
use std::thread::{self, JoinHandle, Threads};
use test_support::keep::keep;
use test_support::pairs::{add_pairs, pairs};

const ROUNDS: u64 = 50_000;

impl Receives for Receiver<u64> {
    fn poll_with(&mut self, waker: &SharedWaker) -> Poll<Option<u64>> {
        self.poll(waker).map(|answer| answer.ok())
    }
}

// The last sender sends in the round.
impl Acts for Vec<Sender<u64>> {
    fn acts(&mut self, round: u64) -> bool {
        match self.pop() {
            Some(sender) => sender.send(round).is_ok(),
            None => false,
        }
    }
}

// The last receiver is that of the round.
impl Meets for (SharedReady, Vec<Receiver<u64>>) {
    fn meets(&mut self, rounds: &Rounds, round: u64) -> bool {
        let (source, receivers) = self;
        match receivers.pop() {
            Some(mut receiver) => comes(source, rounds, &mut receiver, round, Some(round)),
            None => false,
        }
    }
}

#[test]
fn no_wake_of_fifty_thousand_is_lost(rt: HostRuntime) -> Result<(), Fail> {
    let source = SharedReady::new(rt.alloc(), 1)?;
    let (senders, receivers) = pairs(rt.alloc(), ROUNDS, || channel(rt.alloc()).ok())?;
    let lost = lost(&rt, ROUNDS, senders, &mut (source, receivers))?;
    assert_same(&rt, lost, 0);
    Ok(())
}

// How often the sender looks in a round, and how many rounds there are.
const LOOKS: u64 = 100;

const LOOKING_ROUNDS: u64 = 2_000;

// Looks for the receiver. Whether it is there each time.
impl Acts for Sender<u64> {
    fn acts(&mut self, _round: u64) -> bool {
        for _ in 0..LOOKS {
            if self.is_canceled() {
                return false;
            }
        }
        true
    }
}

// Polls until the sender has looked.
impl Meets for (SharedReady, Receiver<u64>) {
    fn meets(&mut self, rounds: &Rounds, round: u64) -> bool {
        let (source, receiver) = self;
        rounds.begin(round);
        for _ in 0..u64::MAX {
            if rounds.is_over(round) {
                return true;
            }
            let _came = polled(source, 0, receiver);
        }
        false
    }
}

#[test]
fn a_receiver_that_is_polled_is_not_gone(rt: HostRuntime) -> Result<(), Fail> {
    let source = SharedReady::new(rt.alloc(), 1)?;
    let (sender, receiver) = channel(rt.alloc())?;
    let lost = lost(&rt, LOOKING_ROUNDS, sender, &mut (source, receiver))?;
    assert_same(&rt, lost, 0);
    Ok(())
}

// The sender at each place sends its place.
fn send_all(senders: Vec<Sender<u64>>) {
    for (place, sender) in senders.into_iter().enumerate() {
        let _ = sender.send(place as u64);
    }
}

// Five hundred more receivers, and the thread that sends what they wait for.
fn start_one<R: Threads + AllocGlobal>(
    rt: &R,
    receivers: &mut Vec<Receiver<u64>>,
) -> Result<JoinHandle<()>, Fail> {
    let mut senders = Vec::new(rt.alloc());
    add_pairs(&mut senders, receivers, 500, || channel(rt.alloc()).ok())?;
    Ok(thread::spawn(rt, move || send_all(senders))?)
}

fn start<R: Threads + AllocGlobal>(
    rt: &R,
    receivers: &mut Vec<Receiver<u64>>,
    threads: &mut Vec<JoinHandle<()>>,
) -> Result<(), Fail> {
    for _ in 0..4 {
        keep(threads, start_one(rt, receivers)?)?;
    }
    Ok(())
}

fn end<R: Threads>(rt: &R, threads: Vec<JoinHandle<()>>) {
    for thread in threads {
        thread.join(rt);
    }
}

// A thread sends while the task polls, so that sends and polls meet at a one-shot in many orders.
#[test]
fn two_thousand_while_they_are_polled(rt: HostRuntime) -> Result<(), Fail> {
    let (mut receivers, mut threads) = (Vec::new(rt.alloc()), Vec::new(rt.alloc()));
    start(&rt, &mut receivers, &mut threads)?;
    let set = FuturesUnorderedBounded::from_iter(rt.alloc(), receivers)?;
    let all = block_on(&rt, set.collect(rt.alloc()))??;
    end(&rt, threads);
    // A sender that left counts as a thousand.
    let sum = all
        .iter()
        .fold(0u64, |sum, one| sum.saturating_add(one.unwrap_or(1_000)));
    assert_same(&rt, (all.len(), sum), (2_000, 499_000));
    Ok(())
}
