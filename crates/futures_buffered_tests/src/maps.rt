// When a future under `map` or `then` is dropped.
use crate::same::assert_same;
use futures::task::Poll;
use futures::test::MockTask;
use futures_buffered::future::{map, ready, then};
use futures_buffered::{FuturesUnorderedBounded, SharedReady};
use std::alloc::{AllocError, Global};
use std::process::Abort;
use std::sync::Arc;
use std::sync::atomic::Ordering::SeqCst;
use std::test::Fail;
use test_support::begin::task_and_log;
use test_support::counted_source::SourceLog;
use test_support::counter::Counter;
use test_support::dropped::Dropped;
use test_support::polling::poll_next;
use test_support::run_on::run_on;

// A future that counts its drop, and the number that it adds to.
fn counted(log: &SourceLog) -> Result<(Dropped, Counter), AllocError> {
    let seen = Arc::try_clone(&log.items)?;
    Ok((log.dropped()?, seen))
}

fn try_map(rt: &impl Abort, alloc: Global, task: &MockTask, log: &SourceLog) -> Result<(), Fail> {
    let mut set = FuturesUnorderedBounded::<_, SharedReady>::new(alloc, 1)?;
    let (future, seen) = counted(log)?;
    let _ = set.try_push(map(future, move |()| seen.load(SeqCst)));
    assert_same(rt, log.items.load(SeqCst), 0);
    assert_same(rt, poll_next(task, &mut set), Poll::Ready(Some(1)));
    Ok(())
}

#[test]
fn a_mapped_future_is_dropped_before_the_call(rt: HostRuntime) -> Result<(), Fail> {
    run_on(
        task_and_log(&rt),
        |(task, log)| try_map(&rt, rt.alloc(), task, log),
    )
}

fn try_then(rt: &impl Abort, alloc: Global, task: &MockTask, log: &SourceLog) -> Result<(), Fail> {
    let mut set = FuturesUnorderedBounded::<_, SharedReady>::new(alloc, 1)?;
    let (future, seen) = counted(log)?;
    let _ = set.try_push(then(future, move |()| ready(seen.load(SeqCst))));
    assert_same(rt, log.items.load(SeqCst), 0);
    assert_same(rt, poll_next(task, &mut set), Poll::Ready(Some(1)));
    Ok(())
}

#[test]
fn a_future_that_is_followed_is_dropped_before_the_call(rt: HostRuntime) -> Result<(), Fail> {
    run_on(
        task_and_log(&rt),
        |(task, log)| try_then(&rt, rt.alloc(), task, log),
    )
}
