//! Polls by hand: one poll in a task, of what may always be polled.
use futures::task::Poll;
use futures::test::MockTask;
use futures::{Future, Stream};

/// One poll of a set, a queue or a merge.
pub fn poll_next<St: Stream>(task: &MockTask, stream: &mut St) -> Poll<Option<St::Item>>
    requires { (stream : St) → St.can_poll stream }
{
    task.enter(|cx| stream.poll_next(cx))
}

/// One poll of a join.
pub fn poll_join<F: Future>(task: &MockTask, join: &mut F) -> Poll<F::Output>
    requires { (future : F) → F.can_poll future }
{
    task.enter(|cx| join.poll(cx))
}
