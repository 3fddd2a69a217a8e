//! What a caller can prove: for each family a short function with a contract of its own, in words that
//! `futures_buffered` gives out.
//!
//! In the order in which to read them:
//!
//! - `doubling`: a future whose contract says what a poll answers.
//! - `ticket`: a future that may not be polled again once it is ready.
//! - `callers`, `channels`: a caller of each family.
//!
//! Below, the callers are called.
mod callers;
mod channels;
mod doubling;
mod ticket;

use crate::own::Numbers;
use crate::proved::doubling::Doubling;
use crate::show::Host;
use futures_buffered::spsc::with_protocol;
use futures_buffered::{FuturesOrderedBounded, FuturesUnorderedBounded, MergeBounded};

fn jobs(rt: &impl Host) -> anyhow::Result<Vec<Doubling>> {
    let jobs = vec![in rt.alloc();
        Doubling { number: 1 },
        Doubling { number: 2 },
        Doubling { number: 3 },
    ]?;
    Ok(jobs)
}

pub fn set(rt: &impl Host) -> anyhow::Result<()> {
    let mut set = FuturesUnorderedBounded::new(rt.alloc(), 3)?;
    callers::push_each(&mut set, &[1, 2, 3]);
    let outputs = callers::set_outputs(rt, set)?;
    println!(rt; "{outputs:?}")?;
    Ok(())
}

pub fn queue(rt: &impl Host) -> anyhow::Result<()> {
    let queue = FuturesOrderedBounded::from_iter(rt.alloc(), jobs(rt)?)?;
    let outputs = callers::queue_outputs(rt, queue)?;
    println!(rt; "{outputs:?}")?;
    Ok(())
}

pub fn join_and_adaptor(rt: &impl Host) -> anyhow::Result<()> {
    let together = callers::join_outputs(rt, jobs(rt)?)?;
    let in_order = callers::doubled(rt, jobs(rt)?)?;
    println!(rt; "{together:?}, {in_order:?}")?;
    Ok(())
}

pub fn merge(rt: &impl Host) -> anyhow::Result<()> {
    let streams = vec![in rt.alloc(); Numbers { next: 0, end: 1 }]?;
    let mut merge = MergeBounded::from_iter(rt.alloc(), streams)?;
    let added = callers::add_if_free(&mut merge, Numbers { next: 1, end: 2 });
    println!(rt; "{added}")?;
    Ok(())
}

pub fn channel(rt: &impl Host) -> anyhow::Result<()> {
    let came = channels::through(rt.alloc(), 7, 8)?;
    let (mut sender, mut receiver) = with_protocol::<u64, channels::Even>(rt.alloc(), 1)?;
    let _ = sender.try_send(6);
    println!(rt; "{came:?}, {:?}", channels::next_even(&mut receiver))?;
    Ok(())
}
