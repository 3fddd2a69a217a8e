// Each of many slots, woken alone.
use crate::same::assert_same;
use crate::wakers::wakers_of;
use futures::task::Poll;
use futures::test::MockTask;
use futures_buffered_core::ready_shared::{SharedReady, SharedWaker};
use futures_buffered_core::ready_source::SlotWaker;
use futures_buffered_sets::{FuturesUnorderedBounded, SlotFuture};
use std::alloc::Global;
use std::process::Abort;
use std::sync::atomic::AtomicU64;
use std::sync::atomic::Ordering::SeqCst;
use std::test::Fail;
use test_support::polling::poll_next;
use test_support::run_on::run_on;

// More slots than two bytes can count.
const SLOTS: usize = 70_000;

// How many polls of futures were made, and the slot of the last.
#[derive(Drop)]
struct Polls {
    count: AtomicU64,
    slot: AtomicU64,
}

// Stays pending. Each poll notes the slot of its waker.
#[derive(Drop)]
struct Noted<'a> {
    polls: &'a Polls,
}

impl<'a> SlotFuture<SharedWaker> for Noted<'a> {
    type Output = ();

    fn poll(&mut self, waker: &SharedWaker) -> Poll<()> {
        self.polls.count.fetch_add(1, SeqCst);
        self.polls.slot.store(waker.slot() as u64, SeqCst);
        Poll::Pending
    }
}

type Set<'a> = FuturesUnorderedBounded<Noted<'a>, SharedReady>;

fn new_set<'a>(alloc: Global) -> Result<(Vec<SharedWaker>, Set<'a>), Fail> {
    let source = SharedReady::new(alloc, SLOTS)?;
    let wakers = wakers_of(alloc, &source)?;
    Ok((wakers, FuturesUnorderedBounded::with_source(alloc, source)?))
}

// Whether a poll is pending, how many polls of futures were made by then, and the slot of the last.
fn polled(task: &MockTask, set: &mut Set<'_>, polls: &Polls) -> (bool, u64, u64) {
    let is_pending = poll_next(task, set) == Poll::Pending;
    (
        is_pending,
        polls.count.load(SeqCst),
        polls.slot.load(SeqCst),
    )
}

// Each push is followed by a poll, which polls the future that was pushed and no other.
fn fill_each<'a>(rt: &impl Abort, task: &MockTask, set: &mut Set<'a>, polls: &'a Polls) {
    for slot in 0..SLOTS as u64 {
        assert_same(rt, set.try_push(Noted { polls }).is_ok(), true);
        assert_same(
            rt,
            polled(task, set, polls),
            (true, slot.saturating_add(1), slot),
        );
    }
}

// A wake by the waker of a slot wakes the task, and the next poll polls the future in this slot and no other.
fn wake_each(
    rt: &impl Abort,
    task: &MockTask,
    wakers: &Vec<SharedWaker>,
    set: &mut Set<'_>,
    polls: &Polls,
) {
    for (slot, waker) in wakers.iter().enumerate() {
        assert_same(rt, task.is_woken(), false);
        waker.wake();
        assert_same(rt, task.is_woken(), true);
        let count = (SLOTS as u64).saturating_add(slot as u64).saturating_add(1);
        assert_same(rt, polled(task, set, polls), (true, count, slot as u64));
    }
}

#[test]
fn each_of_70_000_slots_is_woken_alone(rt: HostRuntime) -> Result<(), Fail> {
    let task = MockTask::new(&rt)?;
    let polls = Polls {
        count: AtomicU64::new(0),
        slot: AtomicU64::new(0),
    };
    run_on(new_set(rt.alloc()), |(wakers, set)| {
        assert_same(&rt, wakers.len(), SLOTS);
        fill_each(&rt, &task, set, &polls);
        wake_each(&rt, &task, wakers, set, &polls);
        Ok(())
    })
}
