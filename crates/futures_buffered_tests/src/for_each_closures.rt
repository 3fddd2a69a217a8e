// A stream that contains a closure, under a for-each.
use crate::same::assert_same;
use futures::executor::block_on;
use futures::task::Poll;
use futures::test::MockTask;
use futures::{Future, StreamExt, stream};
use futures_buffered::future::ready;
use futures_buffered::{BufferedStreamExt, NewFault};
use std::alloc::{AllocGlobal, Global};
use std::process::Abort;
use std::random::RandomSource;
use std::sync::atomic::Ordering::SeqCst;
use std::sync::{Arc, Wait};
use std::test::Fail;
use test_support::begin::task_and_log;
use test_support::counted_source::SourceLog;
use test_support::counter::{Counter, new_counter};
use test_support::dropped::Dropped;
use test_support::run_on::run_on;

// Adds the double of each of three numbers.
fn add_doubles(rt: &(impl Wait + RandomSource + AllocGlobal), sum: Counter) -> Result<(), Fail> {
    let doubles = stream::iter(1..4u64).map(|number: u64| number.wrapping_mul(2));
    let call = move |double: u64| {
        sum.fetch_add(double, SeqCst);
        ready(())
    };
    let each = BufferedStreamExt::for_each_concurrent(doubles, rt.alloc(), 2, call)?;
    Ok(block_on(rt, each)?)
}

#[test]
fn a_map_under_for_each_concurrent(rt: HostRuntime) -> Result<(), Fail> {
    let sum = new_counter(rt.alloc())?;
    add_doubles(&rt, Arc::try_clone(&sum)?)?;
    assert_same(&rt, sum.load(SeqCst), 12);
    Ok(())
}

// A closure holds the mark.
fn drops_its_closure(
    rt: &(impl Abort + AllocGlobal),
    task: &MockTask,
    log: &SourceLog,
    mark: Dropped,
) -> Result<(), Fail> {
    let call = move |_number: u64| {
        let _ = &mark;
        ready(())
    };
    let numbers = stream::iter(1..4u64);
    let mut each = BufferedStreamExt::for_each_concurrent(numbers, rt.alloc(), 2, call)?;
    let ended = task.enter(|cx| each.poll(cx));
    assert_same(rt, (ended, log.items.load(SeqCst)), (Poll::Ready(()), 0));
    drop(each);
    assert_same(rt, log.items.load(SeqCst), 1);
    Ok(())
}

// What the closure holds goes with the for-each, also with one that ended before.
#[test]
fn a_for_each_drops_its_closure(rt: HostRuntime) -> Result<(), Fail> {
    run_on(
        task_and_log(&rt),
        |(task, log)| drops_its_closure(&rt, task, log, log.dropped()?),
    )
}

// Why a for-each without a bound is refused, if it is. A closure holds the mark.
fn fault_of(alloc: Global, mark: Dropped) -> Option<NewFault> {
    let call = move |_number: u64| {
        let _ = &mark;
        ready(())
    };
    let numbers = stream::iter(1..4u64);
    BufferedStreamExt::for_each_concurrent(numbers, alloc, usize::MAX, call).err()
}

// What the closure holds goes with it.
#[test]
fn a_refused_closure_is_dropped(rt: HostRuntime) -> Result<(), Fail> {
    let log = SourceLog::new(rt.alloc())?;
    let fault = fault_of(rt.alloc(), log.dropped()?);
    assert_same(&rt, fault, Some(NewFault::TooLarge));
    assert_same(&rt, log.items.load(SeqCst), 1);
    Ok(())
}
