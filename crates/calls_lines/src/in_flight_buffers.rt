//! Buffers of the kit's futures.
ghost use Rattle.std.specs.Prelude.{◌<◌, IfOk};

use crate::kinds::AllTypes;
use calls_world::reply::{Item, Reply, of_next};
use calls_world::session::Session;
use calls_world::subject::{NewResult, Subject};
use calls_world::text::Text;
use calls_world::values::{Source, TryFuture, TrySource};
use calls_world::world::SharedWorld;
use futures::Stream;
use futures::task::{Context, Poll};
use futures_buffered::in_flight::{
    BufferUnordered, BufferedOrdered, BufferedStreamExt, BufferedTryStreamExt, TryBufferUnordered,
    TryBufferedOrdered,
};
use std::marker::Model;

/// An adaptor of a stream of the kit's futures. No clause says that it may be polled after its end, so it is dropped
/// there.
#[derive(Drop)]
pub struct KitBuffer<B: Stream> {
    buffer: Option<B>,
}

impl<B: Stream> Model for KitBuffer<B> {
    ghost use Rattle.std.specs.Prelude.{IfSome};

    ghost Value = { Unit {0} };

    ghost view = { λ _. tt };

    ghost invariant = { λ b. IfSome b.buffer B.can_poll };
}

impl<B: Stream> Subject<AllTypes> for KitBuffer<B>
where
    B::Item: Item,
{
    fn poll(&mut self, cx: &mut Context<'_>, _outputs: &mut Vec<u64>) -> Reply {
        let Some(buffer) = &mut self.buffer else {
            return Reply::Nothing;
        };
        let polled = buffer.poll_next(cx);
        if let Poll::Ready(None) = &polled {
            self.buffer = None;
        }
        of_next(polled)
    }

    fn call(&mut self, _: &str, _: &[usize], _: &SharedWorld, _: &mut Text) -> Reply {
        Reply::Nothing
    }
}

fn kept<B: Stream>(made: NewResult<B>) -> NewResult<KitBuffer<B>>
    requires { IfOk made B.can_poll }
{
    let buffer = Some(made?);
    Ok(KitBuffer { buffer })
}

pub fn unordered(session: &Session, n: usize) -> NewResult<KitBuffer<BufferUnordered<Source>>>
    requires { 0 < n }
{
    let source: Source = session.source();
    kept(source.buffered_unordered(session.alloc, n))
}

pub fn ordered(session: &Session, n: usize) -> NewResult<KitBuffer<BufferedOrdered<Source>>>
    requires { 0 < n }
{
    let source: Source = session.source();
    kept(source.buffered_ordered(session.alloc, n))
}

pub fn try_unordered(
    session: &Session,
    n: usize,
) -> NewResult<KitBuffer<TryBufferUnordered<TrySource, TryFuture>>>
    requires { 0 < n }
{
    let source: TrySource = session.source();
    kept(source.try_buffered_unordered(session.alloc, n))
}

pub fn try_ordered(
    session: &Session,
    n: usize,
) -> NewResult<KitBuffer<TryBufferedOrdered<TrySource, TryFuture>>>
    requires { 0 < n }
{
    let source: TrySource = session.source();
    kept(source.try_buffered_ordered(session.alloc, n))
}
