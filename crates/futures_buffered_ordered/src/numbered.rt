//! A future that carries the number of its entry, since a set says nothing of the order.
ghost use Rattle.futures_buffered_ordered.specs.Numbered.{CanPollFuture, PollsNumbered};

use futures::task::Poll;
use futures_buffered_unordered::poll_one::PollOne;
use futures_buffered_unordered::slot_future::SlotHandle;

/// A future in the set of a queue, with the number of its entry.
#[derive(Drop)]
pub struct Numbered<T> {
    /// The future in progress.
    pub future: T,
    /// The number of its entry, which no other entry in progress has.
    pub number: usize,
}

/// The rule that polls the future alone, by another rule. A poll returns an output with the number.
#[derive(Clone, Copy)]
pub struct PollNumbered<'a, R> {
    rule: &'a R,
}

impl<'a, R> PollNumbered<'a, R> {
    /// Makes the rule over `rule`.
    pub fn new(rule: &'a R) -> Self {
        PollNumbered { rule }
    }
}

impl<'a, T: Drop, W: SlotHandle, R: PollOne<T, W>> PollOne<Numbered<T>, W> for PollNumbered<'a, R> {
    type Output = (usize, R::Output);

    ghost can_poll = { CanPollFuture R.can_poll };

    ghost polled = { PollsNumbered R.polled };

    fn poll_one(&self, held: &mut Numbered<T>, waker: &W) -> Poll<(usize, R::Output)> {
        match self.rule.poll_one(&mut held.future, waker) {
            Poll::Pending => Poll::Pending,
            Poll::Ready(output) => Poll::Ready((held.number, output)),
        }
    }
}
