//! What holds futures of the kit: a buffer, of futures that a thread completes, and the for-eaches.
use crate::same::assert_same;
use futures::channel::oneshot::{Sender, channel};
use futures::executor::block_on;
use futures::future::ready;
use futures::{FutureExt, StreamExt, TryFutureExt, stream};
use futures_buffered::in_flight::{BufferedStreamExt, BufferedTryStreamExt};
use std::sync::Arc;
use std::sync::atomic::Ordering::SeqCst;
use std::test::Fail;
use std::thread::yield_now;
use test_support::counter::new_counter;
use test_support::ends::ended_beside;
use test_support::pairs::pairs;

// The last of twenty is sent 0.
fn send_all(senders: Vec<Sender<u64>>) {
    for (place, sender) in senders.into_iter().enumerate() {
        let _ = sender.send(19u64.saturating_sub(place as u64));
        yield_now();
    }
}

#[test]
fn in_the_order_of_the_stream(rt: HostRuntime) -> Result<(), Fail> {
    let (mut senders, receivers) = pairs(rt.alloc(), 20, || channel(rt.alloc()).ok())?;
    senders.reverse();
    let outputs = stream::iter(receivers).buffered_ordered(rt.alloc(), 4)?;
    let all = outputs.collect(rt.alloc());
    let all = ended_beside(&rt, all, move || send_all(senders))??;
    let are_in_order = all.iter().enumerate().all(|(n, one)| *one == Ok(n as u64));
    assert_same(&rt, (all.len(), are_in_order), (20, true));
    Ok(())
}

#[test]
fn for_each_item(rt: HostRuntime) -> Result<(), Fail> {
    let sum = new_counter(rt.alloc())?;
    let added = Arc::try_clone(&sum)?;
    let numbers = stream::iter(0..20u64);
    let all = BufferedStreamExt::for_each_concurrent(numbers, rt.alloc(), 4, move |n: u64| {
        added.fetch_add(n, SeqCst);
        ready(n).map(|_| ())
    })?;
    block_on(&rt, all)?;
    assert_same(&rt, sum.load(SeqCst), 190);
    Ok(())
}

// Item 13 fails, and the closure is not called with each of those behind it.
#[test]
fn for_each_item_up_to_an_error(rt: HostRuntime) -> Result<(), Fail> {
    let calls = new_counter(rt.alloc())?;
    let counted = Arc::try_clone(&calls)?;
    let numbers = stream::iter(0..100u64).map(Ok::<_, u64>);
    let all = numbers.try_for_each_concurrent(rt.alloc(), 4, move |n: u64| {
        counted.fetch_add(1, SeqCst);
        ready(Ok(n)).and_then(|n| ready(if n == 13 { Err(n) } else { Ok(()) }))
    })?;
    let ended = block_on(&rt, all)?;
    let calls = calls.load(SeqCst);
    let wanted = (Err(13), true, true);
    assert_same(&rt, (ended, 14 <= calls, calls <= 18), wanted);
    Ok(())
}
