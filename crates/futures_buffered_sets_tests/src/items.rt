// What a set or a queue takes from an iterator: the items for which it has room, and one more. Then futures and streams that
// contain a closure, in each set, queue, merge and join, and the waker with which each future is polled.
ghost use Rattle.std.specs.Prelude.{◌≡◌};
ghost use Rattle.futures.specs.Poll.{IfReady};

use futures::Stream;
use futures::task::{Context, Poll};
use futures::test::MockTask;
use futures_buffered_core::ready_core::{MAX_CAPACITY, NewFault};
use futures_buffered_core::ready_shared::{SharedReady, SharedWaker};
use futures_buffered_core::ready_source::CoreSource;
use futures_buffered_sets::{
    FuturesOrdered, FuturesOrderedBounded, FuturesUnordered, FuturesUnorderedBounded, MergeBounded,
    MergeUnbounded, PollFuture, SlotFuture, join_all, try_join_all,
};
use std::sync::atomic::Ordering::SeqCst;
use std::test::Fail;
use test_support::begin::task_and_set;
use test_support::called::Called;
use test_support::counted_source::{CountedSource, SourceLog};
use test_support::counter::new_counter;
use test_support::polling::{poll_join, poll_next};
use test_support::run_on::run_on;
use test_support::same::same;
use test_support::timed::{Timed, drawn, ready, ready_up_to};

// What `extend` returns, how many futures there are then, and the item that it left.
type Extended = (Result<(), Timed>, usize, Option<Timed>);

// Of four items two find room. The third is returned, and the fourth is not taken.
fn takes_two(extended: Extended) -> Result<(), Fail> {
    same(extended, (Err(ready(2)), 2, Some(ready(3))))
}

#[test]
fn extend_of_a_bounded_set_stops_at_the_first_refusal(rt: HostRuntime) -> Result<(), Fail> {
    let mut items = ready_up_to(rt.alloc(), 4)?.into_iter();
    let mut set: FuturesUnorderedBounded<Timed, CoreSource> =
        FuturesUnorderedBounded::with_new_source(&(), rt.alloc(), 2, 61)?;
    takes_two((set.extend(&mut items), set.len(), items.next()))
}

// The set has one group of two slots, and no source can be made for another.
#[test]
fn extend_of_a_growing_set_stops_at_the_first_refusal(rt: HostRuntime) -> Result<(), Fail> {
    let mut items = ready_up_to(rt.alloc(), 4)?.into_iter();
    let log = SourceLog::of(rt.alloc(), 1)?;
    let mut set: FuturesUnordered<Timed, CountedSource> = FuturesUnordered::over(
        log,
        rt.alloc(),
        2,
    )?;
    takes_two((set.extend(&mut items), set.len(), items.next()))
}

#[test]
fn extend_stops_at_the_first_refusal(rt: HostRuntime) -> Result<(), Fail> {
    let mut items = ready_up_to(rt.alloc(), 4)?.into_iter();
    let mut queue: FuturesOrderedBounded<Timed, CoreSource> = FuturesOrderedBounded::over(
        &(),
        rt.alloc(),
        2,
    )?;
    takes_two((queue.extend(&mut items), queue.len(), items.next()))
}

// The iterator promises one item more than a group can have slots. The first group is made before an item is taken.
#[test]
fn draws_nothing_where_too_many_items_are_promised(rt: HostRuntime) -> Result<(), Fail> {
    let draws = new_counter(rt.alloc())?;
    let items = (0..MAX_CAPACITY as u64 + 1).map(|value| drawn(value, &draws));
    let set = FuturesUnordered::<_, SharedReady>::from_iter(rt.alloc(), items);
    same(set.err(), Some(NewFault::TooLarge))?;
    let items = (0..MAX_CAPACITY as u64 + 1).map(|value| drawn(value, &draws));
    let queue = FuturesOrdered::<_, SharedReady>::from_iter(rt.alloc(), items);
    same(queue.err(), Some(NewFault::TooLarge))?;
    same(draws.load(SeqCst), 0)
}

// It was added, and its output comes at the first poll.
fn gives_42<St>(rt: &HostRuntime, is_added: bool, mut held: St) -> Result<(), Fail>
where
    St: Stream<Item = u64> + Drop,
    requires { (stream : St) → St.can_poll stream }
{
    let task = MockTask::new(rt)?;
    let polled = poll_next(&task, &mut held);
    same((is_added, polled), (true, Poll::Ready(Some(42))))
}

/// A future, and a stream, whose closure contains a number.
macro_rules! doubles {
    ($number:expr) => {{
        let number: u64 = $number;
        Called::new(move || number.wrapping_mul(2))
    }};
}

#[test]
fn a_closure_in_a_bounded_set(rt: HostRuntime) -> Result<(), Fail> {
    let mut set = FuturesUnorderedBounded::<_, SharedReady>::new(rt.alloc(), 1)?;
    gives_42(&rt, set.try_push(doubles!(21)).is_ok(), set)
}

#[test]
fn a_closure_in_a_growing_set(rt: HostRuntime) -> Result<(), Fail> {
    let mut set = FuturesUnordered::<_, SharedReady>::new(rt.alloc());
    gives_42(&rt, set.push(doubles!(21)).is_ok(), set)
}

#[test]
fn a_closure_in_a_bounded_queue(rt: HostRuntime) -> Result<(), Fail> {
    let mut queue = FuturesOrderedBounded::<_, SharedReady>::new(rt.alloc(), 1)?;
    gives_42(&rt, queue.try_push_back(doubles!(21)).is_ok(), queue)
}

#[test]
fn a_closure_in_a_growing_queue(rt: HostRuntime) -> Result<(), Fail> {
    let mut queue = FuturesOrdered::<_, SharedReady>::new(rt.alloc());
    gives_42(&rt, queue.push_back(doubles!(21)).is_ok(), queue)
}

#[test]
fn a_closure_in_a_merge(rt: HostRuntime) -> Result<(), Fail> {
    let merge = MergeBounded::<_, SharedReady>::from_iter(rt.alloc(), [doubles!(21)])?;
    gives_42(&rt, true, merge)
}

#[test]
fn a_closure_in_a_growing_merge(rt: HostRuntime) -> Result<(), Fail> {
    let mut merge = MergeUnbounded::<_, SharedReady>::new(rt.alloc());
    gives_42(&rt, merge.push(doubles!(21)).is_ok(), merge)
}

#[test]
fn a_closure_in_a_join(rt: HostRuntime) -> Result<(), Fail> {
    let task = MockTask::new(&rt)?;
    let mut join = join_all(rt.alloc(), [doubles!(21)])?;
    let outputs = vec![in rt.alloc(); 42]?;
    same(poll_join(&task, &mut join), Poll::Ready(outputs))
}

#[test]
fn a_closure_in_a_join_that_may_fail(rt: HostRuntime) -> Result<(), Fail> {
    let number = 21u64;
    let task = MockTask::new(&rt)?;
    let future = Called::new(move || Err::<u64, u64>(number.wrapping_mul(2)));
    let mut join = try_join_all(rt.alloc(), [future])?;
    same(poll_join(&task, &mut join), Poll::Ready(Err(42)))
}

// Ready at once, with the slot of its waker.
#[derive(Drop)]
struct WhichSlot;

impl SlotFuture<SharedWaker> for WhichSlot {
    ghost use Rattle.std.specs.Prelude.{◌≡◌};
    ghost use Rattle.futures.specs.Poll.{IfReady};

    type Output = usize;

    ghost polled = { λ slot _ answer _. IfReady answer (λ answered. answered ≡ slot) };

    fn poll(&mut self, waker: &SharedWaker) -> Poll<usize> {
        Poll::Ready(waker.slot())
    }
}

type Set = FuturesUnorderedBounded<WhichSlot, SharedReady>;

// The slot that the set names, and the one that its future answers: they are the same.
fn first_slot(set: &mut Set, cx: &mut Context<'_>) -> Poll<(usize, usize)>
    ensures { IfReady result (λ (slot, answered). answered ≡ slot) }
{
    set.poll_first(&PollFuture, cx)
}

// A poll that removes no future leaves its slot taken.
fn try_three(task: &MockTask, set: &mut Set) -> Result<(), Fail> {
    for slot in 0..3 {
        same(set.try_push(WhichSlot).is_ok(), true)?;
        let polled = task.enter(|cx| first_slot(set, cx));
        same(polled, Poll::Ready((slot, slot)))?;
    }
    Ok(())
}

#[test]
fn each_future_has_the_waker_of_its_slot(rt: HostRuntime) -> Result<(), Fail> {
    run_on(task_and_set(&rt, 3), |(task, set)| try_three(task, set))
}
