//! Queues of the kit's futures.
ghost use Rattle.std.specs.Prelude.{◌<◌};

use crate::ask::{Call, ask};
use crate::kinds::AllTypes;
use calls_world::reply::{Reply, of_full, of_next, of_push};
use calls_world::session::{Session, first_of};
use calls_world::subject::{NewResult, Subject};
use calls_world::text::Text;
use calls_world::values::{NumberFuture, new_value, new_values};
use calls_world::world::SharedWorld;
use futures::Stream;
use futures::task::Context;
use futures_buffered::in_flight::{FuturesOrdered, FuturesOrderedBounded, IterExt, Kept};
use futures_buffered_sets::FusedStream;

/// A queue that keeps that its futures may be polled.
pub type KitQueue = Kept<FuturesOrderedBounded<NumberFuture>>;

impl Subject<AllTypes> for KitQueue {
    fn poll(&mut self, cx: &mut Context<'_>, _outputs: &mut Vec<u64>) -> Reply {
        of_next(self.poll_next(cx))
    }

    fn call(&mut self, word: &str, ids: &[usize], world: &SharedWorld, text: &mut Text) -> Reply {
        match Call::of(word) {
            Call::PushBack => {
                let pushed = self.try_push_back(new_value(world, ids));
                of_full(pushed, self.get().is_full(), Reply::Nothing)
            }
            Call::PushFront => {
                let pushed = self.try_push_front(new_value(world, ids));
                of_full(pushed, self.get().is_full(), Reply::Nothing)
            }
            Call::Clear => Reply::Done(self.clear()),
            call => ask!(self.get(), call, text; Len Capacity IsFull),
        }
    }
}

/// A queue that grows.
pub type KitGrowingQueue = Kept<FuturesOrdered<NumberFuture>>;

impl Subject<AllTypes> for KitGrowingQueue {
    fn poll(&mut self, cx: &mut Context<'_>, _outputs: &mut Vec<u64>) -> Reply {
        of_next(self.poll_next(cx))
    }

    fn call(&mut self, word: &str, ids: &[usize], world: &SharedWorld, text: &mut Text) -> Reply {
        match Call::of(word) {
            Call::PushBack => of_push(self.push_back(new_value(world, ids)), Reply::Refused),
            Call::PushFront => of_push(self.push_front(new_value(world, ids)), Reply::Refused),
            Call::Clear => Reply::Done(self.clear()),
            call => ask!(self.get(), call, text; Len Capacity IsTerminated),
        }
    }
}

/// A queue with room for as many as the line says.
pub fn bounded(session: &Session, n: usize) -> NewResult<KitQueue>
    requires { 0 < n }
{
    Ok(Kept::new(FuturesOrderedBounded::new(session.alloc, n)?))
}

/// A queue of the futures of the line.
pub fn bounded_of(session: &Session, ids: &[usize]) -> NewResult<KitQueue> {
    let futures: Vec<NumberFuture> = new_values(&session.world, ids);
    Ok(Kept::new(futures.into_ordered_stream(session.alloc)?))
}

/// A queue that grows, of as many slots as the line says, or of one.
pub fn growing(session: &Session, numbers: &[usize]) -> NewResult<KitGrowingQueue> {
    let alloc = session.alloc;
    if numbers.is_empty() {
        return Ok(Kept::new(FuturesOrdered::new(alloc)?));
    }
    Ok(Kept::new(FuturesOrdered::with_capacity(alloc, first_of(numbers))?))
}

/// A queue that grows of the futures of the line.
pub fn growing_of(session: &Session, ids: &[usize]) -> NewResult<KitGrowingQueue> {
    let futures: Vec<NumberFuture> = new_values(&session.world, ids);
    Ok(Kept::new(futures.into_ordered_stream_unbounded(session.alloc)?))
}
