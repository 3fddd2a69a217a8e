//! What tests begin with.
use crate::counted_source::SourceLog;
use futures::test::MockTask;
use futures_buffered_core::ready_shared::SharedReady;
use futures_buffered_unordered::FuturesUnorderedBounded;
use std::alloc::AllocGlobal;
use std::random::RandomSource;
use std::test::Fail;

/// A task, and what a test sees of its sources.
pub fn task_and_log(rt: &(impl RandomSource + AllocGlobal)) -> Result<(MockTask, SourceLog), Fail> {
    let task = MockTask::new(rt)?;
    Ok((task, SourceLog::new(rt.alloc())?))
}

/// A task, and an empty set of so many slots.
pub fn task_and_set<F: Drop>(
    rt: &(impl RandomSource + AllocGlobal),
    slots: usize,
) -> Result<(MockTask, FuturesUnorderedBounded<F, SharedReady>), Fail> {
    let task = MockTask::new(rt)?;
    Ok((task, FuturesUnorderedBounded::new(rt.alloc(), slots)?))
}
