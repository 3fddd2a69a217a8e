// Joins over sources of their own: whom the call that ends a join wakes, and when it drops its source.
use futures::Future;
use futures::test::MockTask;
use futures_buffered_core::ready_core::NewFault;
use futures_buffered_core::ready_source::CoreSource;
use futures_buffered_sets::{JoinAll, TryJoinAll};
use std::alloc::AllocError;
use std::fmt::Debug;
use std::sync::atomic::Ordering::SeqCst;
use std::test::Fail;
use test_support::attempt::{Attempt, at_once};
use test_support::begin::task_and_log;
use test_support::counted_source::{CountedSource, SourceLog};
use test_support::polling::poll_join;
use test_support::same::same;
use test_support::timed::{Timed, late, ready};

type Join = JoinAll<Timed, CountedSource>;

type TryJoin = TryJoinAll<Attempt, CountedSource>;

// Writes what a poll returns, whether it wakes its task, and how often a source was dropped by then.
fn write_poll<J>(
    text: &mut String,
    task: &MockTask,
    log: &SourceLog,
    join: &mut J,
) -> Result<(), AllocError>
where
    J: Future<Output: Debug + Drop>,
    requires { (join : J) → J.can_poll join }
{
    let polled = poll_join(task, join);
    write!(
        text,
        "{polled:?} {} {}; ",
        task.is_woken(),
        log.drops.load(SeqCst)
    )
}

// Two polls of the join are seen to do this.
fn sees<J, M>(rt: &HostRuntime, make: M, wanted: &str) -> Result<(), Fail>
where
    J: Future<Output: Debug + Drop> + Drop,
    M: FnOnce(&SourceLog) -> Result<J, NewFault> + Drop,
    requires polls { (join : J) → J.can_poll join }
    requires makes { M.IsAlwaysCallable make }
{
    let (task, log) = task_and_log(rt)?;
    let mut join = make(&log)?;
    let mut seen = String::new(rt.alloc());
    write_poll(&mut seen, &task, &log, &mut join)?;
    write_poll(&mut seen, &task, &log, &mut join)?;
    same(seen.as_str(), wanted)
}

// Such a source keeps the task's waker, which wakes the task as it is dropped with the source.
#[test]
fn a_join_over_a_core_source(rt: HostRuntime) -> Result<(), Fail> {
    let futures = [ready(1), ready(2), ready(3)];
    let make = |_log: &SourceLog| JoinAll::<Timed, CoreSource>::over(&(), rt.alloc(), futures);
    sees(&rt, make, "Ready([1, 2, 3]) true 0; Ready([]) false 0; ")
}

#[test]
fn the_call_that_ends_a_join_drops_its_source_and_wakes_nobody(
    rt: HostRuntime,
) -> Result<(), Fail> {
    let make = |log: &SourceLog| Join::over(log, rt.alloc(), [ready(1), ready(2), ready(3)]);
    sees(&rt, make, "Ready([1, 2, 3]) false 1; Ready([]) false 1; ")
}

#[test]
fn a_pending_join_keeps_its_source_and_wakes_nobody(rt: HostRuntime) -> Result<(), Fail> {
    let make = |log: &SourceLog| Join::over(log, rt.alloc(), [ready(1), late(2), ready(3)]);
    sees(&rt, make, "Pending false 0; Pending false 0; ")
}

#[test]
fn the_call_that_ends_a_try_join_drops_its_source_and_wakes_nobody(
    rt: HostRuntime,
) -> Result<(), Fail> {
    let futures = [at_once(Ok(1)), at_once(Ok(2)), at_once(Ok(3))];
    let make = |log: &SourceLog| TryJoin::over(log, rt.alloc(), futures);
    sees(
        &rt,
        make,
        "Ready(Ok([1, 2, 3])) false 1; Ready(Ok([])) false 1; ",
    )
}

#[test]
fn the_call_that_answers_an_error_drops_the_source_and_wakes_nobody(
    rt: HostRuntime,
) -> Result<(), Fail> {
    let futures = [at_once(Ok(1)), at_once(Err(7)), at_once(Ok(3))];
    let make = |log: &SourceLog| TryJoin::over(log, rt.alloc(), futures);
    sees(&rt, make, "Ready(Err(7)) false 1; Ready(Ok([])) false 1; ")
}

// How many futures a long join is made of.
const MANY: u64 = 2_000;

#[test]
fn the_end_of_a_long_join_drops_its_source(rt: HostRuntime) -> Result<(), Fail> {
    let outputs: Vec<u64> = (0..MANY).collect(rt.alloc())?;
    let wanted = format!(in rt.alloc(); "Ready({outputs:?}) false 1; Ready([]) false 1; ")?;
    let make = |log: &SourceLog| Join::over(log, rt.alloc(), (0..MANY).map(|n| ready(n)));
    sees(&rt, make, wanted.as_str())
}

// The attempt of this number, which is that of the attempt that fails or not.
fn attempt(n: u64, fails: u64) -> Attempt {
    at_once(if n == fails { Err(n) } else { Ok(n) })
}

#[test]
fn the_end_of_a_long_try_join_drops_its_source(rt: HostRuntime) -> Result<(), Fail> {
    let outputs: Vec<u64> = (0..MANY).collect(rt.alloc())?;
    let wanted = format!(in rt.alloc(); "Ready(Ok({outputs:?})) false 1; Ready(Ok([])) false 1; ")?;
    let right = (0..MANY).map(|n| attempt(n, MANY));
    let make = |log: &SourceLog| TryJoin::over(log, rt.alloc(), right);
    sees(&rt, make, wanted.as_str())?;
    let wrong = (0..MANY).map(|n| attempt(n, MANY - 1));
    let make_wrong = |log: &SourceLog| TryJoin::over(log, rt.alloc(), wrong);
    sees(
        &rt,
        make_wrong,
        "Ready(Err(1999)) false 1; Ready(Ok([])) false 1; ",
    )
}
