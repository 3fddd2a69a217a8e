// Merges over sources of the tests' own: what is dropped when a group leaves, and which group registers. Then merges over
// a core source: of many streams, and what a full one returns.
use futures_buffered_core::ready_core::NewFault;
use futures_buffered_core::ready_source::CoreSource;
use futures_buffered_sets::{Merge, MergeBounded, MergeUnbounded};
use std::alloc::{AllocError, Global};
use std::sync::atomic::Ordering::SeqCst;
use std::test::Fail;
use test_support::counted_source::{CountedSource, SourceLog};
use test_support::dropped_streams::DroppedStream;
use test_support::keep::keep;
use test_support::repeats::Repeats;
use test_support::same::same;
use test_support::stage::{plays, plays_alone};

type Counted = MergeUnbounded<DroppedStream, CountedSource>;

// Of 97 streams 32 have no item, 64 have one, and one has two.
fn add_streams(
    streams: &mut Vec<DroppedStream>,
    log: &SourceLog,
    count: u64,
) -> Result<(), AllocError> {
    for place in 0..count {
        let left = place.saturating_add(32) / 64;
        keep(streams, DroppedStream::new(Some(left), log.dropped()?))?;
    }
    Ok(())
}

fn merge_of(alloc: Global, log: &SourceLog, count: u64) -> Result<Counted, NewFault> {
    let mut streams = Vec::new(alloc);
    add_streams(&mut streams, log, count)?;
    MergeUnbounded::over(log.try_clone()?, alloc, streams)
}

// A merge of so many streams. The first group has 32 slots, and the second 64.
fn new_merge(alloc: Global, count: u64) -> Result<(SourceLog, Counted), Fail> {
    let log = SourceLog::new(alloc)?;
    let merge = merge_of(alloc, &log, count)?;
    Ok((log, merge))
}

#[test]
fn a_group_that_leaves_drops_its_streams_and_its_source(rt: HostRuntime) -> Result<(), Fail> {
    let script =
        "items 0, sources 0, gives 1, asleep, items 32, sources 1, gives_ones 63, items 32, \
        sources 1, gives 1, asleep, items 96, sources 2, gives 1, asleep, items 96, sources 2, none, \
        asleep, items 97, sources 2, drop, items 97, sources 3";
    plays(&rt, new_merge(rt.alloc(), 97), script)
}

#[test]
fn a_merge_that_is_dropped_drops_the_sources_of_all_groups(rt: HostRuntime) -> Result<(), Fail> {
    let script = "items 0, sources 0, drop, items 97, sources 3";
    plays(&rt, new_merge(rt.alloc(), 97), script)
}

#[test]
fn a_merge_that_is_refused_drops_all_streams(rt: HostRuntime) -> Result<(), Fail> {
    let log = SourceLog::of(rt.alloc(), 1)?;
    let fault = merge_of(rt.alloc(), &log, 97).err();
    let drops = (log.items.load(SeqCst), log.drops.load(SeqCst));
    same((fault, drops), (Some(NewFault::Memory), (97, 1)))
}

// A second registration would hold the place of the task's waker, and a wake of a slot of the first group would leave
// that slot to nobody. A push that makes a group registers nothing, and wakes nobody.
#[test]
fn a_poll_of_two_groups_registers_once(rt: HostRuntime) -> Result<(), Fail> {
    let script =
        "each_waits 33, pending, registered 1, asleep, each_waits 2000, registered 1, asleep, \
        pending, registered 2";
    plays(&rt, new_merge(rt.alloc(), 0), script)
}

// The second group takes a further round after the end of a stream.
#[test]
fn a_group_of_two_counts_beside_one_that_registered(rt: HostRuntime) -> Result<(), Fail> {
    let script = "each_waits 32, ends, waits, pending, registered 1, sources 0";
    plays(&rt, new_merge(rt.alloc(), 0), script)
}

#[test]
fn a_group_in_the_middle_that_leaves_drops_its_source(rt: HostRuntime) -> Result<(), Fail> {
    let script = "each_waits 32, each_ends 64, waits, pending, registered 1, sources 1";
    plays(&rt, new_merge(rt.alloc(), 0), script)
}

// Each stream gives its number once, from 0 to `count - 1`. The merge is made by the short name, which is the same type.
fn bounded(alloc: Global, count: u64) -> Result<MergeBounded<Repeats, CoreSource>, NewFault> {
    let streams = (0..count).map(|value| Repeats { value, left: 1 });
    Merge::over(&(), alloc, streams)
}

#[test]
fn a_merge_of_70000_streams_over_another_source(rt: HostRuntime) -> Result<(), Fail> {
    plays_alone(&rt, bounded(rt.alloc(), 70_000), "gives_each 70000, none")
}

#[test]
fn a_full_merge_hands_the_stream_back(rt: HostRuntime) -> Result<(), Fail> {
    let script = "back 5, gives 0, gives 1, none, push 4, ready 5, back 6, gives 4, gives 5, none";
    plays_alone(&rt, bounded(rt.alloc(), 2), script)
}

// A merge of one stream of one item.
fn growing(alloc: Global) -> Result<(SourceLog, MergeUnbounded<DroppedStream, CoreSource>), Fail> {
    let log = SourceLog::new(alloc)?;
    let streams = [DroppedStream::new(Some(1), log.dropped()?)];
    let merge = MergeUnbounded::over((), alloc, streams)?;
    Ok((log, merge))
}

#[test]
fn a_growing_merge_over_a_core_source(rt: HostRuntime) -> Result<(), Fail> {
    let script = "each_twice 1000, count 1001, gives_ones 2001, none, items 1001";
    plays(&rt, growing(rt.alloc()), script)
}
