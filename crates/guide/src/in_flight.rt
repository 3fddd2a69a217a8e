//! Futures of the crate `futures`: in a join, and pushed by hand into a set or a queue. Its streams, in a merge.
ghost use Rattle.futures_buffered.specs.InFlight.{CanPollAll};
ghost use Rattle.futures_buffered.specs.InFlightMerge.{CanPollStreams};
ghost use Rattle.futures_buffered.specs.InFlightOrdered.{CanPollOrdered};

use crate::show::{Host, print_all};
use anyhow::bail;
use futures::channel::oneshot::{Canceled, Receiver, channel};
use futures::executor::block_on;
use futures::task::{Context, Poll};
use futures::{Future, FutureExt, Stream, future, ready, stream};
use futures_buffered::in_flight::{
    FuturesOrderedBounded, FuturesUnorderedBounded, IterExt, MergeBounded, join_all,
};
use std::alloc::{AllocError, Global};
use std::io;

/// A receiver whose value has been sent.
pub fn sent(alloc: Global, value: u64) -> Result<Receiver<u64>, AllocError> {
    let (sender, receiver) = channel(alloc)?;
    let _ = sender.send(value);
    Ok(receiver)
}

pub fn joined(rt: &impl Host) -> anyhow::Result<()> {
    let alloc = rt.alloc();
    let receivers = vec![in alloc; sent(alloc, 1)?, sent(alloc, 2)?]?;
    let jobs = receivers
        .into_iter()
        .map(|receiver| receiver.map(|sent| sent.unwrap_or(0)));
    println!(rt; "{:?}", block_on(rt, join_all(alloc, jobs)?)?)?;
    Ok(())
}

/// The sum of what the futures give, each added as it comes.
fn sum_of<F: Future<Output = u64>>(
    rt: &impl Host,
    set: FuturesUnorderedBounded<F>,
) -> io::Result<u64>
    requires { CanPollAll F.Future set }
{
    let mut set = set;
    let mut sum: u64 = 0;
    'outputs: for _count in 0..set.len() {
        let (came, rest) = set.wait(rt)?;
        set = rest;
        let Some(came) = came else {
            return Ok(sum);
        };
        sum = sum.wrapping_add(came.output);
    }
    Ok(sum)
}

pub fn summed(rt: &impl Host) -> anyhow::Result<()> {
    let receiver = sent(rt.alloc(), 40)?;
    let mut set = FuturesUnorderedBounded::new(rt.alloc(), 8)?;
    let Ok(_key) = set.try_push(receiver.map(|sent| sent.unwrap_or(0))) else {
        bail!("there is no room for it");
    };
    println!(rt; "{}", sum_of(rt, set)?)?;
    Ok(())
}

pub fn at_both_ends(rt: &impl Host) -> anyhow::Result<()> {
    let alloc = rt.alloc();
    let number = |sent: Result<u64, Canceled>| future::ready(sent.unwrap_or(0));
    let mut queue = FuturesOrderedBounded::new(alloc, 2)?;
    let behind = queue.try_push_back(sent(alloc, 2)?.then(number)).is_ok();
    let before = queue.try_push_front(sent(alloc, 1)?.then(number)).is_ok();
    let is_back = queue.try_push_back(sent(alloc, 3)?.then(number)).is_err();
    println!(rt;
        "{behind}, {before}, 3 is back: {is_back}, {} held",
        queue.len()
    )?;
    print_all(rt, queue)
}

/// The number whose digits the futures give, from the front to the back.
fn number_of<F>(rt: &impl Host, queue: FuturesOrderedBounded<F>) -> anyhow::Result<u64>
where
    F: Future<Output = Result<u64, Canceled>>,
    requires { CanPollOrdered F.Future queue }
{
    let mut queue = queue;
    let mut number: u64 = 0;
    'digits: for _count in 0..queue.len() {
        let (digit, rest) = queue.wait(rt)?;
        queue = rest;
        let Some(digit) = digit else {
            return Ok(number);
        };
        number = number.wrapping_mul(10).wrapping_add(digit?);
    }
    Ok(number)
}

pub fn digits(rt: &impl Host) -> anyhow::Result<()> {
    let alloc = rt.alloc();
    let mut queue = FuturesOrderedBounded::new(alloc, 8)?;
    if queue
        .extend(vec![in alloc; sent(alloc, 4)?, sent(alloc, 2)?]?)
        .is_err()
    {
        bail!("there is no room for them");
    }
    println!(rt; "{}", number_of(rt, queue)?)?;
    Ok(())
}

// Adds the numbers of the feeds. A feed is cancelled at its first number from 100 on.
#[derive(Drop)]
struct Sum<St> {
    feeds: MergeBounded<St>,
    sum: u64,
}

impl<St: Stream<Item = u64>> Future for Sum<St> {
    type Output = u64;

    ghost can_poll = { λ sum. CanPollStreams St.Stream sum.feeds };

    fn poll(&mut self, cx: &mut Context<'_>) -> Poll<u64> {
        let Some(came) = ready!(self.feeds.poll_next_keyed(cx)) else {
            return Poll::Ready(self.sum);
        };
        if came.output < 100 {
            self.sum = self.sum.wrapping_add(came.output);
        } else {
            self.feeds.cancel(came.key);
        }
        cx.yield_now()
    }
}

pub fn feeds(rt: &impl Host) -> anyhow::Result<()> {
    let alloc = rt.alloc();
    let numbers = vec![in alloc; stream::iter(1..4u64), stream::iter(98..102)]?;
    let feeds = numbers.merge(alloc)?;
    println!(rt; "{}", block_on(rt, Sum { feeds, sum: 0 })?)?;
    Ok(())
}
