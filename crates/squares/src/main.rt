//! The squares of some numbers, at most two of them in progress at a time, in the order of the numbers.
#![tactic(auto)]

use futures::executor::block_on;
use futures::task::Poll;
use futures::{StreamExt, stream};
use futures_buffered::{BufferedStreamExt, SlotFuture, SlotHandle};

// Gives the square of its number at its first poll.
#[derive(Drop)]
struct Square(u64);

impl<W: SlotHandle> SlotFuture<W> for Square {
    type Output = u64;

    fn poll(&mut self, _waker: &W) -> Poll<u64> {
        Poll::Ready(self.0.wrapping_mul(self.0))
    }
}

fn main(rt: HostRuntime) -> Result<(), anyhow::Error> {
    let jobs = vec![in rt.alloc(); Square(1), Square(2), Square(3), Square(4)]?;
    let squares = stream::iter(jobs).buffered_ordered(rt.alloc(), 2)?;
    let squares = block_on(&rt, squares.collect(rt.alloc()))??;
    println!(rt; "{squares:?}")?;
    Ok(())
}
