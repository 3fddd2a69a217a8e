//! Sets of futures.
use crate::ask::{Call, ask};
use crate::kinds::AllTypes;
use calls_world::reply::{Item, Reply, of_next, of_push};
use calls_world::session::{Session, first_of};
use calls_world::subject::{NewResult, Subject};
use calls_world::text::Text;
use calls_world::values::{Made, NumberFuture, new_value, new_values};
use calls_world::world::{Fault, SharedWorld};
use futures::Stream;
use futures::task::Context;
use futures_buffered::IterExt;
use futures_buffered_core::ready_core::NewFault;
use futures_buffered_core::ready_shared::SharedReady;
use futures_buffered_core::ready_source::{NewSource, ReadySource};
use futures_buffered_sets::futures_unordered::FIRST_GROUP;
use futures_buffered_sets::{
    FusedStream, FuturesUnordered, FuturesUnorderedBounded, SizeHint, SlotFuture,
};
use std::alloc::Global;
use std::sync::atomic::AtomicU64;
use std::sync::atomic::Ordering::SeqCst;

pub type Set = FuturesUnorderedBounded<NumberFuture, SharedReady>;

pub type GrowingSet = FuturesUnordered<NumberFuture, SharedReady>;

impl<F: Made + SlotFuture<S::Waker>, S: ReadySource> Subject<AllTypes>
    for FuturesUnorderedBounded<F, S>
where
    F::Output: Item,
{
    ghost can_poll = { (future : F) → F.can_poll future };

    fn poll(&mut self, cx: &mut Context<'_>, _outputs: &mut Vec<u64>) -> Reply {
        of_next(self.poll_next(cx))
    }

    fn call(&mut self, word: &str, ids: &[usize], world: &SharedWorld, text: &mut Text) -> Reply {
        match Call::of(word) {
            Call::Push => of_push(self.try_push(new_value(world, ids)), Reply::Full),
            Call::Extend => of_push(self.extend(new_values(world, ids)), Reply::Full),
            call => ask!(self, call, text; Clear Len Capacity Limit IsFull SizeHint IsTerminated),
        }
    }
}

pub fn bounded(session: &Session, numbers: &[usize]) -> NewResult<Set> {
    let (alloc, n) = (session.alloc, first_of(numbers));
    match session.options.limit {
        Some(limit) if limit > 0 && session.options.takes_source => {
            FuturesUnorderedBounded::with_new_source(&(), alloc, n, limit)
        }
        Some(limit) if limit > 0 => FuturesUnorderedBounded::with_limit(alloc, n, limit),
        _ if session.options.takes_source => {
            FuturesUnorderedBounded::with_source(alloc, SharedReady::new(alloc, n)?)
        }
        _ => FuturesUnorderedBounded::new(alloc, n),
    }
}

pub fn bounded_of(session: &Session, ids: &[usize]) -> NewResult<Set> {
    let futures: Vec<NumberFuture> = new_values(&session.world, ids);
    let alloc = session.alloc;
    match session.options.limit {
        Some(limit) if limit > 0 => FuturesUnorderedBounded::over_limit(&(), alloc, futures, limit),
        _ if session.options.takes_source => FuturesUnorderedBounded::over(&(), alloc, futures),
        _ if session.options.is_filtered => {
            FuturesUnorderedBounded::from_iter(alloc, futures.into_iter().filter(|_| true))
        }
        _ => futures.into_unordered_stream(alloc),
    }
}

impl<F: Made + SlotFuture<S::Waker>, S: NewSource> Subject<AllTypes> for FuturesUnordered<F, S>
where
    F::Output: Item,
{
    ghost can_poll = { (future : F) → F.can_poll future };

    fn poll(&mut self, cx: &mut Context<'_>, _outputs: &mut Vec<u64>) -> Reply {
        of_next(self.poll_next(cx))
    }

    fn call(&mut self, word: &str, ids: &[usize], world: &SharedWorld, text: &mut Text) -> Reply {
        match Call::of(word) {
            Call::Push => of_push(self.push(new_value(world, ids)), Reply::Refused),
            Call::Extend => of_push(self.extend(new_values(world, ids)), Reply::Refused),
            call => ask!(self, call, text; Clear Len Capacity Limit SizeHint IsTerminated),
        }
    }
}

pub fn growing(session: &Session, numbers: &[usize]) -> NewResult<GrowingSet> {
    let (alloc, n) = (session.alloc, first_of(numbers));
    match session.options.limit {
        Some(limit) if limit > 0 && session.options.takes_source => {
            FuturesUnordered::over_limit((), alloc, n, limit)
        }
        Some(limit) if limit > 0 => FuturesUnordered::with_limit(alloc, n, limit),
        _ if session.options.takes_source => FuturesUnordered::over((), alloc, n),
        _ if numbers.is_empty() => Ok(FuturesUnordered::new(alloc)),
        _ => FuturesUnordered::with_capacity(alloc, n),
    }
}

// Counts an item that the filter lets through.
fn is_drawn(draws: &AtomicU64) -> bool {
    draws.fetch_add(1, SeqCst);
    true
}

// Whether a set that drew so many items asks for memory: for its first group at none, and for each further one behind
// groups that are full.
fn asks_for_memory(draws: u64) -> bool {
    let first = FIRST_GROUP as u64;
    let slots = draws.saturating_sub(1).saturating_add(first);
    draws == 0 || (draws > first && slots.is_power_of_two())
}

// If memory is refused, no item is drawn behind the one that it was for.
fn growing_of_filtered(
    alloc: Global,
    world: &SharedWorld,
    futures: Vec<NumberFuture>,
) -> NewResult<GrowingSet> {
    let draws = AtomicU64::new(0);
    let items = futures.into_iter().filter(|_| is_drawn(&draws));
    let made = FuturesUnordered::from_iter(alloc, items);
    if matches!(made, Err(NewFault::Memory)) && !asks_for_memory(draws.load(SeqCst)) {
        world.fail(Fault::Misuse);
    }
    made
}

pub fn growing_of(session: &Session, ids: &[usize]) -> NewResult<GrowingSet> {
    let futures: Vec<NumberFuture> = new_values(&session.world, ids);
    let alloc = session.alloc;
    if session.options.is_filtered {
        growing_of_filtered(alloc, &session.world, futures)
    } else {
        futures.into_unordered_stream_unbounded(alloc)
    }
}
