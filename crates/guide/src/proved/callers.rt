//! Callers of a set, an ordered queue, a join, an adaptor and a merge.
ghost use Rattle.std.specs.Prelude.{◌≡◌, ◌+◌, ◌*◌, ◌≤◌, true, false, length, map, vec_len, IfOk};
ghost use Rattle.futures_buffered.specs.FuturesUnorderedBounded.{held_in, slots_in};

use crate::proved::doubling::Doubling;
use crate::show::Host;
use futures::executor::block_on;
use futures::{StreamExt, stream};
use futures_buffered::{
    BufferedStreamExt, FuturesOrderedBounded, FuturesUnorderedBounded, MergeBounded, SharedReady,
    SharedWaker, SlotStream, join_all,
};

/// Adds a future for each number, if there is room for all of them.
pub fn push_each(set: &mut FuturesUnorderedBounded<Doubling, SharedReady>, numbers: &[u32])
    requires { held_in set.old + length numbers.now ≤ slots_in set.old }
    ensures { held_in set.new ≡ held_in set.old + length numbers.now }
{
    for at in 0..numbers.len() {
        set.push(Doubling {
            number: numbers[at],
        });
    }
}

/// The outputs of a set, as many as it holds futures.
pub fn set_outputs(
    rt: &impl Host,
    set: FuturesUnorderedBounded<Doubling, SharedReady>,
) -> anyhow::Result<Vec<u64>>
    ensures { IfOk result (λ outputs. vec_len outputs ≡ held_in set) }
{
    Ok(block_on(rt, set.collect(rt.alloc()))??)
}

/// The outputs of a queue, one of each entry, whether it was in progress or done.
pub fn queue_outputs(
    rt: &impl Host,
    queue: FuturesOrderedBounded<Doubling, SharedReady>,
) -> anyhow::Result<Vec<u64>>
    ensures { IfOk result (λ outputs. vec_len outputs ≡ length queue.entries) }
{
    Ok(block_on(rt, queue.collect(rt.alloc()))??)
}

/// One output of each job, together in one vector.
pub fn join_outputs(rt: &impl Host, jobs: Vec<Doubling>) -> anyhow::Result<Vec<u64>>
    ensures { IfOk result (λ outputs. vec_len outputs ≡ vec_len jobs) }
{
    let join = join_all(rt.alloc(), jobs)?;
    Ok(block_on(rt, join)?)
}

/// Twice the number of each job, in the order of the jobs, with at most three held at a time.
pub fn doubled(rt: &impl Host, jobs: Vec<Doubling>) -> anyhow::Result<Vec<u64>>
    ensures { IfOk result (λ outputs. outputs.items ≡ map (λ job. 2 * job.number) jobs.items) }
{
    let outputs = stream::iter(jobs).buffered_ordered(rt.alloc(), 3)?;
    Ok(block_on(rt, outputs.collect(rt.alloc()))??)
}

/// Adds a stream if a slot is free, and says whether it did. A stream that finds no slot is dropped.
pub fn add_if_free<St: SlotStream<SharedWaker>>(
    merge: &mut MergeBounded<St, SharedReady>,
    stream: St,
) -> bool
    ensures added { result ≡ true → held_in merge.new ≡ held_in merge.old + 1 }
    ensures full { result ≡ false → merge.new ≡ merge.old }
{
    if merge.is_full() {
        return false;
    }
    merge.push(stream);
    true
}
