//! Channels in a merge, what a channel refuses, and senders on threads.
use crate::show::{Host, print_all};
use futures::StreamExt;
use futures::executor::block_on;
use futures_buffered::MergeBounded;
use futures_buffered::spsc::{Receiver, Sender, TrySendError, channel};
use std::fmt::Display;
use std::thread::{self, JoinHandle, Threads};

pub fn three_senders(rt: &impl Host) -> anyhow::Result<()> {
    let (mut first, one) = channel::<u64>(rt.alloc(), 4)?;
    let (mut second, two) = channel(rt.alloc(), 4)?;
    let (mut third, three) = channel(rt.alloc(), 4)?;
    let merge = MergeBounded::from_iter(rt.alloc(), vec![in rt.alloc(); one, two, three]?)?;
    let _ = first.try_send(1);
    let _ = first.try_send(2);
    let _ = second.try_send(10);
    let _ = third.try_send(20);
    drop((first, second, third));
    print_all(rt, merge)
}

pub fn refusals(rt: &impl Host) -> anyhow::Result<()> {
    let (mut sender, mut receiver) = channel::<u64>(rt.alloc(), 1)?;
    print_refusal(rt, receiver.try_recv())?;
    print_refusal(rt, sender.try_send(1))?;
    print_refusal(rt, sender.try_send(2))?;
    drop(receiver);
    print_refusal(rt, sender.try_send(3))?;
    let (sender, mut receiver) = channel::<u64>(rt.alloc(), 1)?;
    drop(sender);
    print_refusal(rt, receiver.try_recv())
}

fn print_refusal<T: Drop, E: Display + Drop>(
    rt: &impl Host,
    answer: Result<T, E>,
) -> anyhow::Result<()> {
    match answer {
        Ok(_) => println!(rt; "sent")?,
        Err(refused) => println!(rt; "{refused}")?,
    }
    Ok(())
}

const EACH: u64 = 5_000;

// Sends EACH numbers, from `from` on, each once there is room.
fn send_all(sender: Sender<u64>, from: u64) {
    let (mut sender, mut sent) = (sender, 0u64);
    for _ in 0..u64::MAX {
        if sent == EACH {
            return;
        }
        match sender.try_send(from.saturating_add(sent)) {
            Err(TrySendError::Full(_)) => thread::yield_now(),
            _ => sent = sent.saturating_add(1),
        }
    }
}

// The number that is to come next from each of three senders, or nothing once one came out of turn.
fn turn_of(next: Option<[u64; 3]>, came: u64) -> Option<[u64; 3]> {
    let mut next = next?;
    let wanted = next.get_mut((came / EACH) as usize)?;
    if *wanted != came {
        return None;
    }
    *wanted = wanted.saturating_add(1);
    Some(next)
}

// The receivers of three senders, each of which is on a thread of its own, and the threads.
fn start_three(
    rt: &(impl Host + Threads),
) -> anyhow::Result<(Vec<Receiver<u64>>, Vec<JoinHandle<()>>)> {
    let (mut receivers, mut threads) = (Vec::new(rt.alloc()), Vec::new(rt.alloc()));
    for part in 0..3u64 {
        let (sender, receiver) = channel(rt.alloc(), 7)?;
        receivers.push(receiver)?;
        threads.push(thread::spawn(rt, move || send_all(sender, part * EACH))?)?;
    }
    Ok((receivers, threads))
}

// All that the receivers give.
fn all_of(rt: &impl Host, receivers: Vec<Receiver<u64>>) -> anyhow::Result<Vec<u64>> {
    let merge = MergeBounded::from_iter(rt.alloc(), receivers)?;
    Ok(block_on(rt, merge.collect(rt.alloc()))??)
}

pub fn senders_on_threads(rt: &(impl Host + Threads)) -> anyhow::Result<()> {
    let (receivers, threads) = start_three(rt)?;
    let all = all_of(rt, receivers);
    for thread in threads {
        thread.join(rt);
    }
    let all = all?;
    let next = all.iter().fold(Some([0, EACH, EACH * 2]), |next, came| turn_of(next, *came));
    let is_in_order = next == Some([EACH, EACH * 2, EACH * 3]);
    println!(rt; "{} in order: {is_in_order}", all.len())?;
    Ok(())
}
