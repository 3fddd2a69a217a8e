//! Adaptors: buffers over a stream of futures, and the for-each.
ghost use Rattle.std.specs.Prelude.{◌<◌, ◌≤◌};

use crate::ask::{Call, ask};
use crate::kinds::AllTypes;
use calls_world::lines::run_made;
use calls_world::reply::{Item, Reply, of_end, of_next};
use calls_world::session::{Session, first_of};
use calls_world::subject::{Begun, NewResult, Subject};
use calls_world::text::Text;
use calls_world::values::{
    Source, TryFuture, TrySource, TryUnitFuture, TryUnitSource, UnitFuture, UnitSource,
};
use calls_world::world::SharedWorld;
use futures::stream::TryStreamExt;
use futures::task::Context;
use futures::{Future, Stream};
use futures_buffered::buffer::Buffer;
use futures_buffered::for_each_concurrent::ForEachConcurrent;
use futures_buffered::future_queue::{FutureQueue, NewQueue};
use futures_buffered::try_for_each_concurrent::TryForEachConcurrent;
use futures_buffered::{
    BufferUnordered, BufferedOrdered, BufferedStreamExt, BufferedTryStreamExt, TryBufferUnordered,
    TryBufferedOrdered,
};
use futures_buffered_core::ready_shared::SharedReady;
use futures_buffered_core::ready_source::ReadySource;
use futures_buffered_sets::{FusedFuture, FusedStream, SizeHint, SlotFuture};

// No line chose how the object is made: it is made by the method of its source.
fn is_usual(session: &Session) -> bool {
    session.options.limit.is_none() && !session.options.takes_source
}

fn new_buffer<St: Drop, Q: NewQueue<Env = (), Source = SharedReady>>(
    session: &Session,
    source: St,
    n: usize,
) -> NewResult<Buffer<St, Q>>
    requires { 0 < n }
{
    match session.options.limit {
        Some(limit) if limit > 0 && session.options.takes_source => {
            Buffer::over_limit(&(), session.alloc, source, n, limit)
        }
        Some(limit) if limit > 0 => Buffer::with_limit(session.alloc, source, n, limit),
        _ => Buffer::over(&(), session.alloc, source, n),
    }
}

impl<St: Stream + SizeHint, Q: FutureQueue<St::Item>> Subject<AllTypes> for Buffer<St, Q>
where
    Q::Output: Item,
{
    ghost can_poll = { (buffer : Self) → ⟦<Buffer<St, Q> as Stream>⟧.can_poll buffer };

    fn poll(&mut self, cx: &mut Context<'_>, _outputs: &mut Vec<u64>) -> Reply {
        of_next(self.poll_next(cx))
    }

    fn call(&mut self, word: &str, _: &[usize], _: &SharedWorld, text: &mut Text) -> Reply {
        match Call::of(word) {
            Call::HasStream => Reply::Is(self.stream().is_some()),
            call => ask!(self, call, text; SizeHint Len IsEmpty Capacity IsTerminated),
        }
    }
}

pub fn unordered(session: &Session, n: usize) -> NewResult<BufferUnordered<Source>>
    requires { 0 < n }
{
    let source: Source = session.source();
    if is_usual(session) {
        source.buffered_unordered(session.alloc, n)
    } else {
        new_buffer(session, source, n)
    }
}

pub fn ordered(session: &Session, n: usize) -> NewResult<BufferedOrdered<Source>>
    requires { 0 < n }
{
    let source: Source = session.source();
    if is_usual(session) {
        source.buffered_ordered(session.alloc, n)
    } else {
        new_buffer(session, source, n)
    }
}

pub fn try_unordered(
    session: &Session,
    n: usize,
) -> NewResult<TryBufferUnordered<TrySource, TryFuture>>
    requires { 0 < n }
{
    let source: TrySource = session.source();
    if is_usual(session) {
        source.try_buffered_unordered(session.alloc, n)
    } else {
        new_buffer(session, source, n)
    }
}

pub fn try_ordered(
    session: &Session,
    n: usize,
) -> NewResult<TryBufferedOrdered<TrySource, TryFuture>>
    requires { 0 < n }
{
    let source: TrySource = session.source();
    if is_usual(session) {
        source.try_buffered_ordered(session.alloc, n)
    } else {
        new_buffer(session, source, n)
    }
}

impl<St: Stream, F, Fut, S: ReadySource> Subject<AllTypes> for ForEachConcurrent<St, F, Fut, S>
where
    F: FnMut(St::Item) -> Fut + Drop,
    Fut: SlotFuture<S::Waker, Output = ()>,
{
    ghost can_poll = { (for_each : Self) → ⟦<ForEachConcurrent<St, F, Fut, S> as Future>⟧.can_poll for_each };

    fn poll(&mut self, cx: &mut Context<'_>, _outputs: &mut Vec<u64>) -> Reply {
        of_end(Future::poll(self, cx).map(Ok))
    }

    fn call(&mut self, word: &str, _: &[usize], _: &SharedWorld, text: &mut Text) -> Reply {
        match Call::of(word) {
            Call::HasStream => Reply::Is(self.stream().is_some()),
            call => ask!(self, call, text; Len IsEmpty Capacity IsTerminated),
        }
    }
}

fn new_for_each<F: FnMut(UnitFuture) -> UnitFuture + Drop>(
    session: &Session,
    source: UnitSource,
    n: usize,
    call: F,
) -> NewResult<ForEachConcurrent<UnitSource, F, UnitFuture, SharedReady>>
    requires { 0 < n }
{
    let alloc = session.alloc;
    match session.options.limit {
        Some(limit) if limit > 0 && session.options.takes_source => {
            ForEachConcurrent::over_limit(&(), alloc, source, n, limit, call)
        }
        Some(limit) if limit > 0 => ForEachConcurrent::with_limit(alloc, source, n, limit, call),
        _ if session.options.takes_source => ForEachConcurrent::over(&(), alloc, source, n, call),
        _ => BufferedStreamExt::for_each_concurrent(source, alloc, n, call),
    }
}

pub fn run_for_each(session: &mut Session, begun: Begun<'_>) -> NewResult<usize> {
    let n = first_of(begun.numbers);
    if n == 0 {
        return Ok(0);
    }
    let source: UnitSource = session.source();
    let world = session.world.share();
    let call = move |item: UnitFuture| item.called(&world);
    let made = new_for_each(session, source, n, call);
    run_made(session, made, begun)
}

impl<F: FnMut(TryUnitFuture) -> TryUnitFuture + Drop> Subject<AllTypes>
    for TryForEachConcurrent<TryUnitSource, F, TryUnitFuture, SharedReady> {
    ghost can_poll = { (closure : F) (item : _) → F.pre closure item };

    fn poll(&mut self, cx: &mut Context<'_>, _outputs: &mut Vec<u64>) -> Reply {
        of_end(Future::poll(self, cx))
    }

    fn call(&mut self, word: &str, _: &[usize], _: &SharedWorld, text: &mut Text) -> Reply {
        match Call::of(word) {
            Call::Len => match self.buffer() {
                Some(buffer) => Reply::Number(buffer.len()),
                None => Reply::Number(0),
            },
            Call::HasStream => match self.buffer() {
                Some(buffer) => Reply::Is(buffer.stream().is_some()),
                None => Reply::Is(false),
            },
            call => ask!(self, call, text; IsTerminated),
        }
    }
}

fn new_try_for_each<F: FnMut(TryUnitFuture) -> TryUnitFuture + Drop>(
    session: &Session,
    source: TryUnitSource,
    n: usize,
    call: F,
) -> NewResult<TryForEachConcurrent<TryUnitSource, F, TryUnitFuture, SharedReady>>
    requires { 0 < n }
{
    let alloc = session.alloc;
    match session.options.limit {
        Some(limit) if limit > 0 => {
            TryForEachConcurrent::over_limit(&(), alloc, source.map_ok(call), n, limit)
        }
        _ if session.options.takes_source => {
            TryForEachConcurrent::over(&(), alloc, source.map_ok(call), n)
        }
        _ => BufferedTryStreamExt::try_for_each_concurrent(source, alloc, n, call),
    }
}

pub fn run_try_for_each(session: &mut Session, begun: Begun<'_>) -> NewResult<usize> {
    let n = first_of(begun.numbers);
    if n == 0 {
        return Ok(0);
    }
    let source: TryUnitSource = session.source();
    let world = session.world.share();
    let call = move |item: TryUnitFuture| item.called(&world);
    let made = new_try_for_each(session, source, n, call);
    run_made(session, made, begun)
}
