// Sets and queues over sources of the tests' own: what is dropped with a set or a group, and whom a source that pauses has
// woken. Then each constructor that takes a source, at 70,000 slots, which are more than two bytes can count.
use futures::test::MockTask;
use futures_buffered_core::ready_core::{MAX_CAPACITY, NewFault, Taken};
use futures_buffered_core::ready_shared::SharedReady;
use futures_buffered_core::ready_source::{CoreSource, NewSource, ReadySource, ScriptSource};
use futures_buffered_sets::{
    FuturesOrdered, FuturesOrderedBounded, FuturesUnordered, FuturesUnorderedBounded,
};
use std::alloc::Global;
use std::sync::atomic::Ordering::SeqCst;
use std::test::Fail;
use test_support::counted_source::{CountedSource, SourceLog};
use test_support::dropped::Dropped;
use test_support::same::same;
use test_support::stage::{plays, plays_alone};
use test_support::timed::{Timed, ready_up_to};

type Set<S> = FuturesUnorderedBounded<Timed, S>;

type Growing<S> = FuturesUnordered<Timed, S>;

// The source names the second slot, pauses, and names the first.
#[test]
fn wakes_its_task_where_the_source_pauses(rt: HostRuntime) -> Result<(), Fail> {
    let answers = vec![in rt.alloc(); Taken::Slot(1), Taken::Pause, Taken::Slot(0)]?;
    let source = ScriptSource::new(rt.alloc(), 2, answers)?;
    let script = "ready 5, late 6, pending, woken, gives 5, asleep, pending, asleep";
    plays_alone(&rt, Set::with_source(rt.alloc(), source), script)
}

// A source of one slot too many, which keeps the waker of a task that is not woken.
fn large_source(alloc: Global, task: &MockTask) -> Result<ScriptSource, Fail> {
    let mut source = ScriptSource::new(alloc, MAX_CAPACITY + 1, Vec::new(alloc))?;
    task.enter(|cx| source.register(cx));
    same(task.is_woken(), false)?;
    Ok(source)
}

// The drop of a waker of `futures` wakes its task.
#[test]
fn a_refused_source_is_dropped(rt: HostRuntime) -> Result<(), Fail> {
    let task = MockTask::new(&rt)?;
    let refused = (Some(NewFault::TooLarge), true);
    let source = large_source(rt.alloc(), &task)?;
    let fault = Set::with_source(rt.alloc(), source).err();
    same((fault, task.is_woken()), refused)?;
    let source = large_source(rt.alloc(), &task)?;
    let fault = Set::with_source_limit(rt.alloc(), source, 7).err();
    same((fault, task.is_woken()), refused)
}

// No source can be made.
#[test]
fn a_set_that_is_refused_drops_its_items(rt: HostRuntime) -> Result<(), Fail> {
    let log = SourceLog::of(rt.alloc(), 0)?;
    let items = [log.dropped()?, log.dropped()?];
    let made = FuturesUnorderedBounded::<Dropped, CountedSource>::over(&log, rt.alloc(), items);
    let fault = made.err();
    same((fault, log.items.load(SeqCst)), (Some(NewFault::Memory), 2))
}

fn new_bounded(alloc: Global) -> Result<(SourceLog, Set<CountedSource>), Fail> {
    let log = SourceLog::new(alloc)?;
    let source = CountedSource::make(&log, alloc, 3)?;
    let set = FuturesUnorderedBounded::with_source(alloc, source)?;
    Ok((log, set))
}

#[test]
fn a_source_is_dropped_with_its_set(rt: HostRuntime) -> Result<(), Fail> {
    plays(&rt, new_bounded(rt.alloc()), "sources 0, drop, sources 1")
}

// A set whose first group has one slot.
fn new_growing(alloc: Global) -> Result<(SourceLog, Growing<CountedSource>), Fail> {
    let log = SourceLog::new(alloc)?;
    let set = FuturesUnordered::over(log.try_clone()?, alloc, 1)?;
    Ok((log, set))
}

// Of groups with 1, 2 and 4 slots each leaves as soon as it is polled and holds nothing, except for the last.
#[test]
fn a_group_that_leaves_drops_its_source(rt: HostRuntime) -> Result<(), Fail> {
    let script =
        "each_ready 4, gives 0, sources 0, gives 1, sources 1, gives 2, sources 1, gives 3, \
        sources 2, none, sources 2, drop, sources 3";
    plays(&rt, new_growing(rt.alloc()), script)
}

// Of groups with 1, 2, 4 slots and so on up to 64 all have left but the last.
#[test]
fn each_of_six_groups_that_leave_drops_its_source(rt: HostRuntime) -> Result<(), Fail> {
    let script = "each_ready 127, gives_each 127, none, sources 6, drop, sources 7";
    plays(&rt, new_growing(rt.alloc()), script)
}

// Groups with 1, 2 and 4 slots.
#[test]
fn a_set_that_is_cleared_drops_its_sources(rt: HostRuntime) -> Result<(), Fail> {
    let script = "each_ready 7, clear, count 0, sources 3";
    plays(&rt, new_growing(rt.alloc()), script)
}

// Groups of 1, 2, 4 slots and so on up to 32, and then one of 64 more, which a push makes.
#[test]
fn a_poll_of_many_groups_registers_once(rt: HostRuntime) -> Result<(), Fail> {
    let script = "each_late 63, pending, asleep, registered 1, late 7, asleep, pending, asleep, \
        registered 2";
    plays(&rt, new_growing(rt.alloc()), script)
}

const SLOTS: usize = 70_000;

type CoreSet = Set<CoreSource>;

type SharedSet = Set<SharedReady>;

type CoreGrowing = Growing<CoreSource>;

type CoreQueue = FuturesOrderedBounded<Timed, CoreSource>;

type CoreGrowingQueue = FuturesOrdered<Timed, CoreSource>;

// No slot is marked before it is filled. Each takes a future, and gives its output.
const FILLS: &str =
    "marks 70000, marked 70000, each_ready 70000, count 70000, gives_each 70000, none, \
    slots 70000, each_ready 70000, full";

// Each slot is marked, and gives its output.
const GIVES: &str = "slots 70000, count 70000, marked 70000, gives_each 70000, none";

#[test]
fn a_bounded_set_over_a_core_source(rt: HostRuntime) -> Result<(), Fail> {
    let alloc = rt.alloc();
    let source = CoreSource::make(&(), alloc, SLOTS)?;
    plays_alone(&rt, CoreSet::with_source(alloc, source), FILLS)?;
    let source = CoreSource::make(&(), alloc, SLOTS)?;
    plays_alone(&rt, CoreSet::with_source_limit(alloc, source, 7), FILLS)?;
    plays_alone(&rt, CoreSet::with_new_source(&(), alloc, SLOTS, 7), FILLS)?;
    let items = ready_up_to(alloc, SLOTS as u64)?;
    plays_alone(&rt, CoreSet::over(&(), alloc, items), GIVES)?;
    let items = ready_up_to(alloc, SLOTS as u64)?;
    plays_alone(&rt, CoreSet::over_limit(&(), alloc, items, 7), GIVES)
}

// The other set is dropped once this one is made.
fn make_sibling(alloc: Global) -> Result<SharedSet, NewFault> {
    SharedSet::new(alloc, 1)?.make_sibling(alloc, SLOTS)
}

#[test]
fn a_new_set_has_no_mark(rt: HostRuntime) -> Result<(), Fail> {
    plays_alone(&rt, SharedSet::new(rt.alloc(), SLOTS), FILLS)?;
    plays_alone(&rt, make_sibling(rt.alloc()), FILLS)
}

// With one slot at first there are groups of 1, 2, 4 and so on up to 65,536 slots, of which the last one stays.
#[test]
fn a_growing_set_over_core_sources(rt: HostRuntime) -> Result<(), Fail> {
    let alloc = rt.alloc();
    let doubles =
        "each_ready 70000, slots 70000, ready 70000, slots 210000, gives_each 70001, none, \
        slots 140000";
    plays_alone(&rt, CoreGrowing::over((), alloc, SLOTS), doubles)?;
    plays_alone(&rt, CoreGrowing::over_limit((), alloc, SLOTS, 7), doubles)?;
    let grows =
        "each_ready 70000, slots 131071, ready 70000, slots 131071, gives_each 70001, none, \
        slots 65536";
    plays_alone(&rt, CoreGrowing::over((), alloc, 1), grows)
}

// All numbers are added at the back, or at the front, the last one first, and are given. Then the queue is full.
#[test]
fn a_bounded_queue_over_a_core_source(rt: HostRuntime) -> Result<(), Fail> {
    let alloc = rt.alloc();
    let script = "each_ready 70000, count 70000, gives_each 70000, none, down_front 70000, \
        count 70000, gives_each 70000, none, down_front 70000, full_front, full";
    plays_alone(&rt, CoreQueue::over(&(), alloc, SLOTS), script)?;
    plays_alone(&rt, CoreQueue::over_limit(&(), alloc, SLOTS, 7), script)
}

// The same, and then it takes more at both ends.
#[test]
fn a_growing_queue_over_core_sources(rt: HostRuntime) -> Result<(), Fail> {
    let alloc = rt.alloc();
    let script = "each_ready 70000, count 70000, gives_each 70000, none, down_front 70000, \
        count 70000, gives_each 70000, none, down_front 70000, front 0, ready 0";
    plays_alone(&rt, CoreGrowingQueue::over((), alloc, SLOTS), script)?;
    plays_alone(
        &rt,
        CoreGrowingQueue::over_limit((), alloc, SLOTS, 7),
        script,
    )?;
    plays_alone(&rt, CoreGrowingQueue::over((), alloc, 1), script)
}
