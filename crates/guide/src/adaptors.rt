//! Adaptors of a stream.
use crate::own::{Pause, after};
use crate::show::{Host, print_all};
use futures::executor::block_on;
use futures::{StreamExt, stream};
use futures_buffered::BufferedStreamExt;

pub fn in_order(rt: &impl Host) -> anyhow::Result<()> {
    let numbers = vec![in rt.alloc(); 3, 2, 1]?;
    let outputs = stream::iter(numbers)
        .map(|n| after(n, n))
        .buffered_ordered(rt.alloc(), 2)?;
    print_all(rt, outputs)
}

pub fn for_each(rt: &impl Host) -> anyhow::Result<()> {
    let numbers = vec![in rt.alloc(); 3, 2, 1]?;
    let pauses = BufferedStreamExt::for_each_concurrent(
        stream::iter(numbers),
        rt.alloc(),
        2,
        |n| Pause(after(n, n)),
    )?;
    block_on(rt, pauses)?;
    println!(rt; "done")?;
    Ok(())
}
