//! One of two futures, or of two streams.
use futures::task::Poll;
use futures_buffered_unordered::slot_future::{SlotFuture, SlotHandle};
use futures_buffered_unordered::slot_stream::SlotStream;

/// A value of either type. As a future it returns the output of the future that it holds; as a stream it returns the
/// items of the stream that it holds.
#[derive(Drop)]
pub enum Either<A, B> {
    Left(A),
    Right(B),
}

impl<W: SlotHandle, A: SlotFuture<W>, B: SlotFuture<W, Output = A::Output>> SlotFuture<W>
    for Either<A, B> {
    ghost use Rattle.futures_buffered_held.specs.Either.{PollsSide};
    ghost use Rattle.futures_buffered_held.specs.declared.either.Either.TheVariants.{Left, Right};

    type Output = A::Output;

    ghost can_poll = { elim [ Left a ↦ A.can_poll a | Right b ↦ B.can_poll b ] };

    ghost polled = { λ slot. PollsSide (A.polled slot) (B.polled slot) };

    fn poll(&mut self, waker: &W) -> Poll<A::Output> {
        match self {
            Either::Left(a) => a.poll(waker),
            Either::Right(b) => b.poll(waker),
        }
    }
}

impl<W: SlotHandle, A: SlotStream<W>, B: SlotStream<W, Item = A::Item>> SlotStream<W>
    for Either<A, B> {
    ghost use Rattle.futures_buffered_held.specs.Either.{PollsSide};
    ghost use Rattle.futures_buffered_held.specs.declared.either.Either.TheVariants.{Left, Right};

    type Item = A::Item;

    ghost can_poll = { elim [ Left a ↦ A.can_poll a | Right b ↦ B.can_poll b ] };

    ghost polled = { λ slot. PollsSide (A.polled slot) (B.polled slot) };

    fn poll_next(&mut self, waker: &W) -> Poll<Option<A::Item>> {
        match self {
            Either::Left(a) => a.poll_next(waker),
            Either::Right(b) => b.poll_next(waker),
        }
    }
}
