//! What lines of calls cannot say of a set of the kit's futures: what its users hold of it, what `extend` draws, and
//! whom a future that waits for the next output wakes.
ghost use Rattle.futures_buffered.specs.InFlightMerge.{CanPollStreams};

use crate::same::assert_same;
use futures::channel::mpsc::{UnboundedReceiver, UnboundedSender, unbounded};
use futures::channel::oneshot::{Canceled, Receiver, Sender, channel};
use futures::task::{Context, Poll};
use futures::test::MockTask;
use futures::{Future, Stream, StreamExt};
use futures_buffered::in_flight::MergeBounded;
use futures_buffered_in_flight::{FuturesOrderedBounded, FuturesUnorderedBounded, Kept, Key};
use std::alloc::{AllocGlobal, Global};
use std::process::Abort;
use std::test::Fail;
use test_support::keep::keep;
use test_support::pairs::pairs;

type Set = FuturesUnorderedBounded<Receiver<u64>>;

type Queue = FuturesOrderedBounded<Receiver<u64>, Result<u64, Canceled>>;

// Each may be polled at any time. A tag is a text.
type TextSet = Kept<FuturesUnorderedBounded<Receiver<u64>, String>>;

// The key of a push under this text, whose sender is kept, or whether a refused push returned its text.
fn push(
    rt: &impl AllocGlobal,
    set: &mut TextSet,
    senders: &mut Vec<Sender<u64>>,
    tag: &str,
) -> Result<Result<Key, bool>, Fail> {
    let (sender, receiver) = channel::<u64>(rt.alloc())?;
    let text = String::from_str(rt.alloc(), tag)?;
    match set.try_push_tagged(receiver, text) {
        Ok(key) => {
            keep(senders, sender)?;
            Ok(Ok(key))
        }
        Err((_receiver, text)) => Ok(Err(text.as_str() == tag)),
    }
}

// Cancels the future of this key, and says whether the set held one under this text.
fn cancels(set: &mut TextSet, key: Result<Key, bool>, tag: &str) -> bool {
    match key {
        Ok(key) => set.cancel(key).is_some_and(|text| text.as_str() == tag),
        Err(_) => false,
    }
}

// Sends the number by the last sender. The key of the next output, if that is the number and came under this text.
fn comes(
    cx: &mut Context<'_>,
    set: &mut TextSet,
    senders: &mut Vec<Sender<u64>>,
    number: u64,
    tag: &str,
) -> Result<Key, bool> {
    if let Some(sender) = senders.pop() {
        let _ = sender.send(number);
    }
    match set.poll_next_keyed(cx) {
        Poll::Ready(Some(came)) if came.output == Ok(number) && came.tag.as_str() == tag => {
            Ok(came.key)
        }
        _ => Err(false),
    }
}

// The first push is cancelled. The outputs of the other two come, that of the last one first.
fn try_tags(
    rt: &(impl AllocGlobal + Abort),
    cx: &mut Context<'_>,
    set: &mut TextSet,
    senders: &mut Vec<Sender<u64>>,
) -> Result<(), Fail> {
    let first = push(rt, set, senders, "one")?;
    let second = push(rt, set, senders, "two")?;
    let third = push(rt, set, senders, "three")?;
    assert_same(rt, push(rt, set, senders, "four")?, Err(true));
    assert_same(rt, cancels(set, first, "one"), true);
    assert_same(rt, cancels(set, first, "one"), false);
    assert_same(rt, comes(cx, set, senders, 3, "three"), third);
    assert_same(rt, comes(cx, set, senders, 2, "two"), second);
    assert_same(
        rt,
        first.ok() < second.ok() && second.ok() < third.ok(),
        true,
    );
    Ok(())
}

fn tagged(rt: &(impl AllocGlobal + Abort), cx: &mut Context<'_>) -> Result<(), Fail> {
    let mut senders = Vec::new(rt.alloc());
    let mut set: TextSet = Kept::new(FuturesUnorderedBounded::new(rt.alloc(), 3)?);
    try_tags(rt, cx, &mut set, &mut senders)
}

// Each output has the tag of its push, and a cancel and a refused push return theirs. Keys have the order of the pushes.
#[test]
fn a_tag_of_text(rt: HostRuntime) -> Result<(), Fail> {
    let task = MockTask::new(&rt)?;
    task.enter(|cx| tagged(&rt, cx))
}

// Whether `extend` was refused, how many are held then, and how many items it left.
type Extended = (bool, usize, usize);

fn set_extended(alloc: Global) -> Result<Extended, Fail> {
    let (_senders, receivers) = pairs(alloc, 5, || channel::<u64>(alloc).ok())?;
    let mut items = receivers.into_iter();
    let mut set: Set = FuturesUnorderedBounded::new(alloc, 2)?;
    let is_refused = set.extend(&mut items).is_err();
    Ok((is_refused, set.len(), items.len()))
}

fn queue_extended(alloc: Global) -> Result<Extended, Fail> {
    let (_senders, receivers) = pairs(alloc, 5, || channel::<u64>(alloc).ok())?;
    let mut items = receivers.into_iter();
    let mut queue: Queue = FuturesOrderedBounded::new(alloc, 2)?;
    let is_refused = queue.extend(&mut items).is_err();
    Ok((is_refused, queue.len(), items.len()))
}

fn merge_extended(alloc: Global) -> Result<Extended, Fail> {
    let (_senders, streams) = pairs(alloc, 5, || unbounded::<u64>(alloc).ok())?;
    let mut items = streams.into_iter();
    let mut merge = MergeBounded::new(alloc, 2);
    let is_refused = merge.extend(&mut items).is_err();
    Ok((is_refused, merge.len(), items.len()))
}

// The refused item comes back, and those after it are not drawn.
#[test]
fn extend_in_flight_stops_at_the_first_refusal(rt: HostRuntime) -> Result<(), Fail> {
    assert_same(&rt, set_extended(rt.alloc())?, (true, 2, 2));
    assert_same(&rt, queue_extended(rt.alloc())?, (true, 2, 2));
    assert_same(&rt, merge_extended(rt.alloc())?, (true, 2, 2));
    Ok(())
}

// The next item of the merge and the key of its stream, after this number was sent.
fn next_keyed(
    cx: &mut Context<'_>,
    merge: &mut MergeBounded<UnboundedReceiver<u64>>,
    sender: &UnboundedSender<u64>,
    number: u64,
) -> Option<(u64, Key)>
    requires { CanPollStreams ⟦<UnboundedReceiver<u64> as Stream>⟧ merge.old }
    ensures { CanPollStreams ⟦<UnboundedReceiver<u64> as Stream>⟧ merge.new }
{
    let _ = sender.unbounded_send(number);
    match merge.poll_next_keyed(cx) {
        Poll::Ready(Some(came)) => Some((came.output, came.key)),
        _ => None,
    }
}

fn merged_by_key(rt: &(impl AllocGlobal + Abort), cx: &mut Context<'_>) -> Result<(), Fail> {
    let (first, stream) = unbounded::<u64>(rt.alloc())?;
    let (second, other) = unbounded::<u64>(rt.alloc())?;
    let mut merge = MergeBounded::new(rt.alloc(), 2);
    let (Ok(key), Ok(other)) = (merge.try_push(stream), merge.try_push(other)) else {
        assert_same(rt, merge.len(), 2);
        return Ok(());
    };
    assert_same(rt, next_keyed(cx, &mut merge, &first, 1), Some((1, key)));
    assert_same(rt, next_keyed(cx, &mut merge, &second, 2), Some((2, other)));
    assert_same(rt, next_keyed(cx, &mut merge, &first, 3), Some((3, key)));
    assert_same(
        rt,
        (merge.cancel(key), merge.cancel(key), merge.len()),
        (true, false, 1),
    );
    let _ = first.unbounded_send(4);
    assert_same(rt, next_keyed(cx, &mut merge, &second, 5), Some((5, other)));
    assert_same(rt, merge.cancel(other), true);
    assert_same(rt, merge.poll_next(cx), Poll::Ready(None));
    Ok(())
}

// A stream has the key of its push at each of its items. The item that a cancelled stream has ready is not returned.
#[test]
fn a_stream_keeps_its_key(rt: HostRuntime) -> Result<(), Fail> {
    let task = MockTask::new(&rt)?;
    task.enter(|cx| merged_by_key(&rt, cx))
}

// Whether it is pending, and whether its task is woken then.
fn waits<N: Future<Output: Drop>>(task: &MockTask, next: N) -> (bool, bool)
    requires { N.can_poll next }
{
    let mut next = next;
    let is_pending = task.enter(|cx| next.poll(cx).is_pending());
    (is_pending, task.is_woken())
}

// The task is not woken before there is an output.
#[test]
fn the_next_is_waited_for(rt: HostRuntime) -> Result<(), Fail> {
    let task = MockTask::new(&rt)?;
    let (_senders, receivers) = pairs(rt.alloc(), 1, || channel::<u64>(rt.alloc()).ok())?;
    let mut set = FuturesUnorderedBounded::from_iter(rt.alloc(), receivers)?;
    assert_same(&rt, waits(&task, set.next()), (true, false));
    Ok(())
}

// Nor by an output.
#[test]
fn the_next_that_is_there_wakes_nobody(rt: HostRuntime) -> Result<(), Fail> {
    let task = MockTask::new(&rt)?;
    let (mut senders, receivers) = pairs(rt.alloc(), 2, || channel::<u64>(rt.alloc()).ok())?;
    let mut set = FuturesUnorderedBounded::from_iter(rt.alloc(), receivers)?;
    let sent = senders.pop().map(|sender| sender.send(5));
    assert_same(&rt, sent, Some(Ok(())));
    assert_same(&rt, waits(&task, set.next()), (false, false));
    Ok(())
}

#[test]
fn the_next_with_its_key_is_waited_for(rt: HostRuntime) -> Result<(), Fail> {
    let task = MockTask::new(&rt)?;
    let (_senders, receivers) = pairs(rt.alloc(), 1, || channel::<u64>(rt.alloc()).ok())?;
    let set = FuturesUnorderedBounded::from_iter(rt.alloc(), receivers)?;
    assert_same(&rt, waits(&task, set.into_next()), (true, false));
    Ok(())
}

#[test]
fn the_front_is_waited_for(rt: HostRuntime) -> Result<(), Fail> {
    let task = MockTask::new(&rt)?;
    let (_senders, receivers) = pairs(rt.alloc(), 1, || channel::<u64>(rt.alloc()).ok())?;
    let queue: Queue = FuturesOrderedBounded::from_iter(rt.alloc(), receivers)?;
    assert_same(&rt, waits(&task, queue.into_next()), (true, false));
    Ok(())
}

#[test]
fn the_next_of_a_merge_is_waited_for(rt: HostRuntime) -> Result<(), Fail> {
    let task = MockTask::new(&rt)?;
    let (_sender, stream) = unbounded::<u64>(rt.alloc())?;
    let mut merge = MergeBounded::new(rt.alloc(), 2);
    assert_same(&rt, merge.try_push(stream).is_ok(), true);
    assert_same(&rt, waits(&task, merge.into_next()), (true, false));
    Ok(())
}
