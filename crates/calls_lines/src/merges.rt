//! Merges of streams.
use crate::ask::{Call, ask};
use crate::kinds::AllTypes;
use calls_world::reply::{Item, Reply, of_next, of_push};
use calls_world::session::Session;
use calls_world::subject::{NewResult, Subject};
use calls_world::text::Text;
use calls_world::values::{Made, NumberStream, new_value, new_values};
use calls_world::world::SharedWorld;
use futures::Stream;
use futures::task::Context;
use futures_buffered::IterExt;
use futures_buffered_core::ready_shared::SharedReady;
use futures_buffered_core::ready_source::{NewSource, ReadySource};
use futures_buffered_sets::{FusedStream, MergeBounded, MergeUnbounded, SizeHint, SlotStream};

pub type Merge = MergeBounded<NumberStream, SharedReady>;

pub type GrowingMerge = MergeUnbounded<NumberStream, SharedReady>;

impl<St: Made + SlotStream<S::Waker>, S: ReadySource> Subject<AllTypes> for MergeBounded<St, S>
where
    St::Item: Item,
{
    ghost can_poll = { (stream : St) → St.can_poll stream };

    fn poll(&mut self, cx: &mut Context<'_>, _outputs: &mut Vec<u64>) -> Reply {
        of_next(self.poll_next(cx))
    }

    fn call(&mut self, word: &str, ids: &[usize], world: &SharedWorld, text: &mut Text) -> Reply {
        match Call::of(word) {
            Call::Push => of_push(self.try_push(new_value(world, ids)), Reply::Full),
            Call::Extend => of_push(self.extend(new_values(world, ids)), Reply::Full),
            call => ask!(self, call, text; Clear Len IsEmpty Capacity IsFull SizeHint IsTerminated),
        }
    }
}

impl<St: Made + SlotStream<S::Waker>, S: NewSource> Subject<AllTypes> for MergeUnbounded<St, S>
where
    St::Item: Item,
{
    ghost can_poll = { (stream : St) → St.can_poll stream };

    fn poll(&mut self, cx: &mut Context<'_>, _outputs: &mut Vec<u64>) -> Reply {
        of_next(self.poll_next(cx))
    }

    fn call(&mut self, word: &str, ids: &[usize], world: &SharedWorld, text: &mut Text) -> Reply {
        match Call::of(word) {
            Call::Push => of_push(self.push(new_value(world, ids)), Reply::Refused),
            Call::Extend => of_push(self.extend(new_values(world, ids)), Reply::Refused),
            call => ask!(self, call, text; Clear Len IsEmpty Capacity SizeHint IsTerminated),
        }
    }
}

pub fn bounded(session: &Session, ids: &[usize]) -> NewResult<Merge> {
    let streams: Vec<NumberStream> = new_values(&session.world, ids);
    let alloc = session.alloc;
    match session.options.limit {
        Some(limit) if limit > 0 && session.options.takes_source => {
            MergeBounded::over_limit(&(), alloc, streams, limit)
        }
        Some(limit) if limit > 0 => MergeBounded::with_limit(alloc, streams, limit),
        _ if session.options.takes_source => MergeBounded::over(&(), alloc, streams),
        _ => streams.merge(alloc),
    }
}

pub fn growing(session: &Session, ids: &[usize]) -> NewResult<GrowingMerge> {
    let streams: Vec<NumberStream> = new_values(&session.world, ids);
    let alloc = session.alloc;
    let is_of_none = ids.is_empty() && !session.options.takes_source;
    match session.options.limit {
        Some(limit) if limit > 0 && is_of_none => Ok(MergeUnbounded::with_limit(alloc, limit)),
        Some(limit) if limit > 0 => MergeUnbounded::over_limit((), alloc, streams, limit),
        _ if is_of_none => Ok(MergeUnbounded::new(alloc)),
        _ if session.options.takes_source => MergeUnbounded::over((), alloc, streams),
        _ if session.options.is_filtered => {
            MergeUnbounded::from_iter(alloc, streams.into_iter().filter(|_| true))
        }
        _ => streams.merge_unbounded(alloc),
    }
}
