// Sets, joins and merges whose values another thread sends, and sets that move to another thread.
use futures::executor::block_on;
use futures::{StreamExt, future};
use futures_buffered_core::ready_shared::SharedReady;
use futures_buffered_sets::{
    FuturesUnorderedBounded, MergeBounded, MergeUnbounded, join_all, try_join_all,
};
use std::alloc::AllocGlobal;
use std::random::RandomSource;
use std::sync::Wait;
use std::test::Fail;
use std::thread;
use test_support::attempt::Attempt;
use test_support::cells::{Cells, new_cells, send_each};
use test_support::ends::{collected, counted, ended_beside};
use test_support::receiver::Receiver;
use test_support::same::same;
use test_support::sums::count_and_sum;
use test_support::timed::ready;

type Shared<F> = FuturesUnorderedBounded<F, SharedReady>;

#[test]
fn a_set_is_polled_on_another_thread(rt: HostRuntime) -> Result<(), Fail> {
    let set = Shared::from_iter(rt.alloc(), [ready(1), ready(2)])?;
    let (outputs, ()) = thread::join(&rt, || collected(&rt, set), || ());
    same(outputs??.as_slice(), [1, 2].as_slice())
}

// Wakes itself once.
const YIELDS: Attempt = Attempt {
    result: Ok(0),
    polls_left: 1,
};

#[test]
fn a_set_that_yields_is_polled_on_another_thread(rt: HostRuntime) -> Result<(), Fail> {
    let set = Shared::from_iter(rt.alloc(), [YIELDS, YIELDS])?;
    let (outputs, ()) = thread::join(&rt, || counted(&rt, set), || ());
    same(outputs?, 2)
}

// The first output, and the bits of the others.
fn next_and_fold<R>(rt: &R, mut set: Shared<Receiver<u64, R>>) -> Result<(u64, u64), Fail>
where
    R: Wait + RandomSource + AllocGlobal + Drop,
{
    let first = block_on(rt, set.next())?.ok_or("no first")?;
    let others = block_on(rt, set.fold(0, |sum, x| future::ready(sum | x)))?;
    Ok((first, others))
}

#[test]
fn next_and_fold_while_a_thread_wakes(rt: HostRuntime) -> Result<(), Fail> {
    let Cells { senders, receivers } = new_cells(&rt, rt.alloc(), 4)?;
    let set = Shared::from_iter(rt.alloc(), receivers)?;
    let ((), outputs) = thread::join(
        &rt,
        || send_each(&senders, [1, 2, 4, 8]),
        || next_and_fold(&rt, set),
    );
    let (first, others) = outputs?;
    same((others & first, others | first), (0, 15))
}

#[test]
fn collect_while_a_thread_wakes(rt: HostRuntime) -> Result<(), Fail> {
    let Cells { senders, receivers } = new_cells(&rt, rt.alloc(), 4)?;
    let outputs = Shared::from_iter(rt.alloc(), receivers)?.collect(rt.alloc());
    let outputs = ended_beside(&rt, outputs, move || send_each(&senders, [5, 6, 7, 8]))??;
    same(count_and_sum(outputs.as_slice()), (4, 26))
}

#[test]
fn a_bounded_merge_while_a_thread_wakes(rt: HostRuntime) -> Result<(), Fail> {
    let Cells { senders, receivers } = new_cells(&rt, rt.alloc(), 4)?;
    let merge = MergeBounded::<_, SharedReady>::from_iter(rt.alloc(), receivers)?;
    let items = merge.collect(rt.alloc());
    let items = ended_beside(&rt, items, move || send_each(&senders, [1, 2, 4, 8]))??;
    same(count_and_sum(items.as_slice()), (4, 15))
}

#[test]
fn a_growing_merge_while_a_thread_wakes(rt: HostRuntime) -> Result<(), Fail> {
    let Cells { senders, receivers } = new_cells(&rt, rt.alloc(), 4)?;
    let merge = MergeUnbounded::<_, SharedReady>::from_iter(rt.alloc(), receivers)?;
    let items = merge.collect(rt.alloc());
    let items = ended_beside(&rt, items, move || send_each(&senders, [1, 2, 4, 8]))??;
    same(count_and_sum(items.as_slice()), (4, 15))
}

#[test]
fn a_join_while_a_thread_wakes(rt: HostRuntime) -> Result<(), Fail> {
    let Cells { senders, receivers } = new_cells(&rt, rt.alloc(), 4)?;
    let join = join_all(rt.alloc(), receivers)?;
    let outputs = ended_beside(&rt, join, move || send_each(&senders, [5, 6, 7, 8]))?;
    same(outputs.as_slice(), [5, 6, 7, 8].as_slice())
}

#[test]
fn a_try_join_while_a_thread_wakes(rt: HostRuntime) -> Result<(), Fail> {
    let Cells { senders, receivers } = new_cells(&rt, rt.alloc(), 4)?;
    let join = try_join_all(rt.alloc(), receivers)?;
    let values = [Ok::<u64, u64>(5), Ok(6), Ok(7), Ok(8)];
    let outputs = ended_beside(&rt, join, move || send_each(&senders, values))??;
    same(outputs.as_slice(), [5, 6, 7, 8].as_slice())
}
