//! Ordered queues of futures.
use crate::ask::{Call, ask};
use crate::kinds::AllTypes;
use calls_world::reply::{Item, Reply, of_full, of_next, of_push};
use calls_world::session::{Session, first_of};
use calls_world::subject::{NewResult, Subject};
use calls_world::text::Text;
use calls_world::values::{Made, NumberFuture, new_value, new_values};
use calls_world::world::SharedWorld;
use futures::Stream;
use futures::task::Context;
use futures_buffered::IterExt;
use futures_buffered_core::ready_shared::SharedReady;
use futures_buffered_core::ready_source::{NewSource, ReadySource};
use futures_buffered_sets::{
    FusedStream, FuturesOrdered, FuturesOrderedBounded, SizeHint, SlotFuture,
};

pub type Queue = FuturesOrderedBounded<NumberFuture, SharedReady>;

pub type GrowingQueue = FuturesOrdered<NumberFuture, SharedReady>;

impl<F: Made + SlotFuture<S::Waker>, S: ReadySource> Subject<AllTypes>
    for FuturesOrderedBounded<F, S>
where
    F::Output: Item,
{
    ghost can_poll = { (future : F) → F.can_poll future };

    fn poll(&mut self, cx: &mut Context<'_>, _outputs: &mut Vec<u64>) -> Reply {
        of_next(self.poll_next(cx))
    }

    fn call(&mut self, word: &str, ids: &[usize], world: &SharedWorld, text: &mut Text) -> Reply {
        match Call::of(word) {
            Call::PushBack => {
                let pushed = self.try_push_back(new_value(world, ids));
                of_full(pushed, self.is_full(), Reply::Refused)
            }
            Call::PushFront => {
                let pushed = self.try_push_front(new_value(world, ids));
                of_full(pushed, self.is_full(), Reply::Refused)
            }
            Call::Extend => {
                let extended = self.extend(new_values(world, ids));
                of_full(extended, self.is_full(), Reply::Refused)
            }
            call => ask!(self, call, text; Clear Len Capacity Limit IsFull SizeHint IsTerminated),
        }
    }
}

impl<F: Made + SlotFuture<S::Waker>, S: NewSource> Subject<AllTypes> for FuturesOrdered<F, S>
where
    F::Output: Item,
{
    ghost can_poll = { (future : F) → F.can_poll future };

    fn poll(&mut self, cx: &mut Context<'_>, _outputs: &mut Vec<u64>) -> Reply {
        of_next(self.poll_next(cx))
    }

    fn call(&mut self, word: &str, ids: &[usize], world: &SharedWorld, text: &mut Text) -> Reply {
        match Call::of(word) {
            Call::PushBack => of_push(self.push_back(new_value(world, ids)), Reply::Refused),
            Call::PushFront => of_push(self.push_front(new_value(world, ids)), Reply::Refused),
            Call::Extend => of_push(self.extend(new_values(world, ids)), Reply::Refused),
            call => ask!(self, call, text; Clear Len Limit SizeHint IsTerminated),
        }
    }
}

pub fn bounded(session: &Session, numbers: &[usize]) -> NewResult<Queue> {
    let (alloc, n) = (session.alloc, first_of(numbers));
    match session.options.limit {
        Some(limit) if limit > 0 && session.options.takes_source => {
            FuturesOrderedBounded::over_limit(&(), alloc, n, limit)
        }
        Some(limit) if limit > 0 => FuturesOrderedBounded::with_limit(alloc, n, limit),
        _ if session.options.takes_source => FuturesOrderedBounded::over(&(), alloc, n),
        _ => FuturesOrderedBounded::new(alloc, n),
    }
}

pub fn bounded_of(session: &Session, ids: &[usize]) -> NewResult<Queue> {
    let futures: Vec<NumberFuture> = new_values(&session.world, ids);
    futures.into_ordered_stream(session.alloc)
}

pub fn growing(session: &Session, numbers: &[usize]) -> NewResult<GrowingQueue> {
    let (alloc, n) = (session.alloc, first_of(numbers));
    match session.options.limit {
        Some(limit) if limit > 0 && session.options.takes_source => {
            FuturesOrdered::over_limit((), alloc, n, limit)
        }
        Some(limit) if limit > 0 => FuturesOrdered::with_limit(alloc, n, limit),
        _ if session.options.takes_source => FuturesOrdered::over((), alloc, n),
        _ if numbers.is_empty() => Ok(FuturesOrdered::new(alloc)),
        _ => FuturesOrdered::with_capacity(alloc, n),
    }
}

pub fn growing_of(session: &Session, ids: &[usize]) -> NewResult<GrowingQueue> {
    let futures: Vec<NumberFuture> = new_values(&session.world, ids);
    let alloc = session.alloc;
    if session.options.is_filtered {
        return FuturesOrdered::from_iter(alloc, futures.into_iter().filter(|_| true));
    }
    futures.into_ordered_stream_unbounded(alloc)
}
