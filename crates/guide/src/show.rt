//! How the examples run what they make, and print what it gives.
use futures::executor::block_on;
use futures::{Stream, StreamExt};
use std::alloc::AllocGlobal;
use std::fmt::Debug;
use std::io::Print;
use std::random::RandomSource;
use std::sync::Wait;

/// What the examples need of the machine.
pub trait Host: Wait + RandomSource + AllocGlobal + Print {}

impl<R: Wait + RandomSource + AllocGlobal + Print> Host for R {}

/// Runs the stream to its end on this thread, and prints all that it gave.
pub fn print_all<St: Stream<Item: Debug + Drop>>(rt: &impl Host, stream: St) -> anyhow::Result<()>
    requires { St.can_poll stream }
{
    let items = block_on(rt, stream.collect(rt.alloc()))??;
    println!(rt; "{items:?}")?;
    Ok(())
}
