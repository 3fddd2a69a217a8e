// Tests of a refused `add`: what was refused is dropped, and of the rest nothing has changed.
use futures_buffered::{FuturesOrdered, FuturesUnordered, MergeUnbounded};
use std::alloc::Global;
use std::test::Fail;
use test_support::counted_source::{CountedSource, SourceLog};
use test_support::dropped_streams::DroppedStream;
use test_support::numbered::Numbered;
use test_support::stage::plays;

type Set = FuturesUnordered<Numbered, CountedSource>;

type Queue = FuturesOrdered<Numbered, CountedSource>;

type Merge = MergeUnbounded<DroppedStream, CountedSource>;

// One group of two slots, and no source for another.
fn new_set(alloc: Global) -> Result<(SourceLog, Set), Fail> {
    let log = SourceLog::of(alloc, 1)?;
    let set = FuturesUnordered::over(log.try_clone()?, alloc, 2)?;
    Ok((log, set))
}

#[test]
fn a_loop_of_adds_ends_at_the_first_refusal(rt: HostRuntime) -> Result<(), Fail> {
    let script =
        "add 1, add 2, lacks 3, items 1, count 2, slots 2, gives 1, add 5, lacks 6, count 2, \
        items 3";
    plays(&rt, new_set(rt.alloc()), script)
}

// One group of three slots, and no source for another.
fn new_queue(alloc: Global) -> Result<(SourceLog, Queue), Fail> {
    let log = SourceLog::of(alloc, 1)?;
    let queue = FuturesOrdered::over(log.try_clone()?, alloc, 3)?;
    Ok((log, queue))
}

#[test]
fn a_queue_is_added_to_at_both_ends(rt: HostRuntime) -> Result<(), Fail> {
    let script = "back 2, front 1, back 3, lacks_front 0, count 3, items 1, lacks_back 4, items 2, \
        count 3, gives 1, gives 2, back 6, front 5, gives 5, gives 3, gives 6";
    plays(&rt, new_queue(rt.alloc()), script)
}

// A merge without a group, and a source for one.
fn new_merge(alloc: Global) -> Result<(SourceLog, Merge), Fail> {
    let log = SourceLog::of(alloc, 1)?;
    let merge = MergeUnbounded::over(log.try_clone()?, alloc, Vec::new(alloc))?;
    Ok((log, merge))
}

#[test]
fn a_stream_that_is_refused_is_dropped(rt: HostRuntime) -> Result<(), Fail> {
    let script = "each_add 32, lacks, count 32, items 1, gives 1";
    plays(&rt, new_merge(rt.alloc()), script)
}
