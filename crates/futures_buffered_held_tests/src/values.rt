//! Values, closures, one of two, and the items of an iterator. `one_of_two_is_polled` has a value in a set too.
use crate::same::assert_same;
use futures::Stream;
use futures::task::Poll;
use futures::test::MockTask;
use futures_buffered_core::ready_shared::{SharedReady, SharedWaker};
use futures_buffered_core::ready_source::SlotWaker;
use futures_buffered_held::Either;
use futures_buffered_held::future::{map, poll_fn, ready};
use futures_buffered_held::oneshot::{Sender, channel};
use futures_buffered_held::stream::iter;
use futures_buffered_unordered::{FuturesUnorderedBounded, MergeBounded, SlotFuture};
use std::alloc::AllocGlobal;
use std::random::RandomSource;
use std::test::Fail;
use test_support::ends::collected;
use test_support::polling::poll_next;

#[test]
fn a_value_is_given_once(rt: HostRuntime) -> Result<(), Fail> {
    let source: SharedReady = SharedReady::new(rt.alloc(), 1)?;
    let waker = source.try_waker(0)?;
    let mut value = ready(5);
    assert_same(&rt, value.poll(&waker), Poll::Ready(5));
    assert_same(&rt, value.poll(&waker), Poll::Pending);
    Ok(())
}

// What a poll before the sender has sent 21 returns, and one after that.
fn polls_around<St>(
    rt: &(impl RandomSource + AllocGlobal),
    mut set: St,
    sender: Sender<u64>,
) -> Result<(Poll<Option<St::Item>>, Poll<Option<St::Item>>), Fail>
where
    St: Stream<Item: Drop> + Drop,
    requires { (stream : St) → St.can_poll stream }
{
    let task = MockTask::new(rt)?;
    let before = poll_next(&task, &mut set);
    let _ = sender.send(21);
    Ok((before, poll_next(&task, &mut set)))
}

// Ready at its third poll. At each before it has itself polled again.
fn third(polls: &mut u64, waker: &SharedWaker) -> Poll<u64> {
    *polls = polls.saturating_add(1);
    if *polls == 3 {
        return Poll::Ready(*polls);
    }
    waker.wake();
    Poll::Pending
}

#[test]
fn a_closure_is_asked_at_each_poll(rt: HostRuntime) -> Result<(), Fail> {
    let mut polls = 0;
    let futures = vec![in rt.alloc();
        poll_fn(move |waker: &SharedWaker| third(&mut polls, waker)),
    ]?;
    let set = FuturesUnorderedBounded::from_iter(rt.alloc(), futures)?;
    let (sender, _receiver) = channel(rt.alloc())?;
    let polled = polls_around(&rt, set, sender)?;
    assert_same(&rt, polled, (Poll::Ready(Some(3)), Poll::Ready(None)));
    Ok(())
}

#[test]
fn an_output_goes_through_a_closure(rt: HostRuntime) -> Result<(), Fail> {
    let (sender, receiver) = channel(rt.alloc())?;
    let doubled = map(
        receiver,
        |sent: Result<u64, _>| sent.unwrap_or(0).wrapping_mul(2),
    );
    let set = FuturesUnorderedBounded::from_iter(rt.alloc(), vec![in rt.alloc(); doubled]?)?;
    let polled = polls_around(&rt, set, sender)?;
    assert_same(&rt, polled, (Poll::Pending, Poll::Ready(Some(42))));
    Ok(())
}

#[test]
fn one_of_two_is_polled(rt: HostRuntime) -> Result<(), Fail> {
    let (sender, receiver) = channel(rt.alloc())?;
    let futures = vec![in rt.alloc(); Either::Left(receiver), Either::Right(ready(Ok(6)))]?;
    let set = FuturesUnorderedBounded::from_iter(rt.alloc(), futures)?;
    let polled = polls_around(&rt, set, sender)?;
    let wanted = (Poll::Ready(Some(Ok(6))), Poll::Ready(Some(Ok(21))));
    assert_same(&rt, polled, wanted);
    Ok(())
}

#[test]
fn items_of_iterators_take_turns(rt: HostRuntime) -> Result<(), Fail> {
    let streams = vec![in rt.alloc();
        Either::Left(iter(1..3u64)),
        Either::Right(iter(Some(10u64))),
    ]?;
    let merge = MergeBounded::from_iter(rt.alloc(), streams)?;
    let items = collected(&rt, merge)??;
    assert_same(&rt, items.as_slice(), [1, 10, 2].as_slice());
    Ok(())
}
