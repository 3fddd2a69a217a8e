//! Sets that are pushed into while they are drained.
use crate::own::{ReadyAfter, after};
use crate::show::Host;
use futures::executor::block_on;
use futures::task::{Context, Poll};
use futures::{Future, Stream, StreamExt, future};
use futures_buffered::{FuturesUnordered, FuturesUnorderedBounded, NewFault, SharedReady};
use std::io;
use std::ops::Range;

// At most 128 jobs are under way.
type Jobs = FuturesUnorderedBounded<ReadyAfter, SharedReady>;

fn begin_each(jobs: &mut Jobs, numbers: Range<u64>) {
    for number in numbers {
        let _ = jobs.try_push(after(1, number));
    }
}

// Begins one as soon as another has ended. The sum of what these gave.
fn replace_each(rt: &impl Host, jobs: &mut Jobs, numbers: Range<u64>) -> io::Result<u64> {
    let mut sum = 0u64;
    for number in numbers {
        let output = block_on(rt, jobs.next())?;
        sum = sum.wrapping_add(output.unwrap_or(0));
        let _ = jobs.try_push(after(1, number));
    }
    Ok(sum)
}

pub fn at_most_128(rt: &impl Host) -> anyhow::Result<()> {
    let mut jobs = Jobs::new(rt.alloc(), 128)?;
    begin_each(&mut jobs, 0..128);
    let sum = replace_each(rt, &mut jobs, 128..1_024)?;
    let sum = jobs.fold(sum, |sum, output| future::ready(sum.wrapping_add(output)));
    println!(rt; "sum {}", block_on(rt, sum)?)?;
    Ok(())
}

// Halves numbers until each part is 1, and counts these.
#[derive(Drop)]
struct Halving {
    parts: FuturesUnordered<ReadyAfter, SharedReady>,
    ones: u64,
}

impl Halving {
    fn take(&mut self, part: u64) -> Result<(), NewFault> {
        if part < 2 {
            self.ones = self.ones.wrapping_add(part);
            return Ok(());
        }
        self.parts.add(after(1, part / 2))?;
        self.parts.add(after(1, part - part / 2))
    }
}

impl Future for Halving {
    type Output = Result<u64, NewFault>;

    fn poll(&mut self, cx: &mut Context<'_>) -> Poll<Result<u64, NewFault>> {
        match self.parts.poll_next(cx) {
            Poll::Ready(Some(part)) => match self.take(part) {
                Ok(()) => cx.yield_now(),
                Err(fault) => Poll::Ready(Err(fault)),
            },
            Poll::Ready(None) => Poll::Ready(Ok(self.ones)),
            Poll::Pending => Poll::Pending,
        }
    }
}

pub fn pushed_into_while_drained(rt: &impl Host) -> anyhow::Result<()> {
    let mut parts = FuturesUnordered::new(rt.alloc());
    parts.add(after(0, 100))?;
    let halving = Halving { parts, ones: 0 };
    println!(rt; "{} parts of 1", block_on(rt, halving)??)?;
    Ok(())
}
