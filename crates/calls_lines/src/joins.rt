//! Joins.
use crate::ask::{Call, ask};
use crate::kinds::AllTypes;
use calls_world::reply::{Reply, of_outputs, of_results};
use calls_world::session::Session;
use calls_world::subject::{NewResult, Subject};
use calls_world::text::Text;
use calls_world::values::{NumberFuture, Output, TryFuture, new_values};
use calls_world::world::SharedWorld;
use futures::Future;
use futures::task::Context;
use futures_buffered::IterExt;
use futures_buffered_core::ready_shared::SharedReady;
use futures_buffered_core::ready_source::ReadySource;
use futures_buffered_sets::{FusedFuture, JoinAll, SlotFuture, TryJoinAll};

impl<F: SlotFuture<S::Waker, Output = Output>, S: ReadySource> Subject<AllTypes> for JoinAll<F, S> {
    ghost can_poll = { (future : F) → F.can_poll future };

    fn poll(&mut self, cx: &mut Context<'_>, outputs: &mut Vec<u64>) -> Reply {
        of_outputs(Future::poll(self, cx), outputs)
    }

    fn call(&mut self, word: &str, _: &[usize], _: &SharedWorld, text: &mut Text) -> Reply {
        ask!(self, Call::of(word), text; IsTerminated)
    }
}

impl<F, S: ReadySource> Subject<AllTypes> for TryJoinAll<F, S>
where
    F: SlotFuture<S::Waker, Output = Result<Output, u64>>,
{
    ghost can_poll = { (future : F) → F.can_poll future };

    fn poll(&mut self, cx: &mut Context<'_>, outputs: &mut Vec<u64>) -> Reply {
        of_results(Future::poll(self, cx), outputs)
    }

    fn call(&mut self, word: &str, _: &[usize], _: &SharedWorld, text: &mut Text) -> Reply {
        ask!(self, Call::of(word), text; IsTerminated)
    }
}

pub fn join(session: &Session, ids: &[usize]) -> NewResult<JoinAll<NumberFuture, SharedReady>> {
    let futures: Vec<NumberFuture> = new_values(&session.world, ids);
    if session.options.takes_source {
        JoinAll::over(&(), session.alloc, futures)
    } else {
        futures.join_all(session.alloc)
    }
}

pub fn try_join(session: &Session, ids: &[usize]) -> NewResult<TryJoinAll<TryFuture, SharedReady>> {
    let futures: Vec<TryFuture> = new_values(&session.world, ids);
    if session.options.takes_source {
        TryJoinAll::over(&(), session.alloc, futures)
    } else {
        futures.try_join_all(session.alloc)
    }
}
