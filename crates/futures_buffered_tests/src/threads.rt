// Buffers and a for-each under `block_on`, whose futures another thread wakes.
use crate::same::assert_same;
use futures::{StreamExt, stream};
use futures_buffered::BufferedStreamExt;
use std::alloc::AllocGlobal;
use std::random::RandomSource;
use std::sync::atomic::Ordering::SeqCst;
use std::sync::{Arc, Wait};
use std::test::Fail;
use std::thread::Threads;
use test_support::cells::{Cells, new_cells, send_each};
use test_support::counter::{Counter, new_counter};
use test_support::ends::ended_beside;
use test_support::receiver::Receiver;
use test_support::sums::count_and_sum;

#[test]
fn outputs_as_they_finish_while_a_thread_wakes(rt: HostRuntime) -> Result<(), Fail> {
    let Cells { senders, receivers } = new_cells(&rt, rt.alloc(), 4)?;
    let buffer = stream::iter(receivers).buffered_unordered(rt.alloc(), 2)?;
    let outputs = buffer.collect(rt.alloc());
    let outputs = ended_beside(&rt, outputs, move || send_each(&senders, [1, 2, 4, 8]))??;
    assert_same(&rt, count_and_sum(outputs.as_slice()), (4, 15));
    Ok(())
}

// The last in the stream is sent first.
#[test]
fn outputs_in_order_while_a_thread_wakes(rt: HostRuntime) -> Result<(), Fail> {
    let Cells {
        mut senders,
        receivers,
    } = new_cells(&rt, rt.alloc(), 4)?;
    senders.reverse();
    let buffer = stream::iter(receivers).buffered_ordered(rt.alloc(), 2)?;
    let outputs = buffer.collect(rt.alloc());
    let outputs = ended_beside(&rt, outputs, move || send_each(&senders, [1, 2, 4, 8]))??;
    assert_same(&rt, outputs.as_slice(), [8, 4, 2, 1].as_slice());
    Ok(())
}

// Has the closure called with each receiver, while a thread sends.
fn call_each<R>(rt: &R, cells: Cells<(), R>, calls: Counter) -> Result<(), Fail>
where
    R: Threads + Wait + RandomSource + AllocGlobal + Send + Sync + Drop + 'static,
{
    let Cells { senders, receivers } = cells;
    let call = move |receiver: Receiver<(), R>| {
        calls.fetch_add(1, SeqCst);
        receiver
    };
    let stream = stream::iter(receivers);
    let each = BufferedStreamExt::for_each_concurrent(stream, rt.alloc(), 2, call)?;
    ended_beside(rt, each, move || send_each(&senders, [(); 4]))
}

#[test]
fn a_for_each_while_a_thread_wakes(rt: HostRuntime) -> Result<(), Fail> {
    let calls = new_counter(rt.alloc())?;
    call_each(&rt, new_cells(&rt, rt.alloc(), 4)?, Arc::try_clone(&calls)?)?;
    assert_same(&rt, calls.load(SeqCst), 4);
    Ok(())
}
