//! Joins of the kit's futures, and merges of its streams.
use crate::ask::{Call, ask};
use crate::in_flight::{Keys, keep_key, key_of, make_place};
use crate::kinds::AllTypes;
use calls_world::memory;
use calls_world::reply::{Item, Reply, of_full, of_next, of_outputs, of_results};
use calls_world::session::{Session, first_of};
use calls_world::subject::{NewResult, Subject};
use calls_world::text::Text;
use calls_world::values::{NumberFuture, NumberStream, Output, TryFuture, new_value, new_values};
use calls_world::world::SharedWorld;
use futures::task::{Context, Poll};
use futures::{Future, Stream};
use futures_buffered::in_flight::{Came, IterExt, JoinBy, MergeBounded, MergeUnbounded};
use futures_buffered::join::AllOutputs;
use futures_buffered::try_join::UntilError;
use std::marker::Model;

/// A join of futures of the kit that may be polled.
#[derive(Drop)]
pub struct Joined<R, F: Future, A: Drop> {
    join: JoinBy<R, F, A>,
}

impl<R, F: Future, A: Drop> Model for Joined<R, F, A> {
    ghost use Rattle.std.specs.Prelude.{Option};
    ghost use Rattle.futures_buffered.specs.InFlightJoin.{CanPollFlying, Flying};

    ghost Value = { Option (Flying F A) };

    ghost view = { λ s. s.join };

    ghost invariant = { λ s. CanPollFlying F.Future s.join };
}

pub type KitJoin = Joined<AllOutputs, NumberFuture, Output>;

pub type KitTryJoin = Joined<UntilError, TryFuture, Output>;

impl Subject<AllTypes> for KitJoin {
    fn poll(&mut self, cx: &mut Context<'_>, outputs: &mut Vec<u64>) -> Reply {
        of_outputs(self.join.poll(cx), outputs)
    }

    fn call(&mut self, word: &str, _: &[usize], _: &SharedWorld, text: &mut Text) -> Reply {
        ask!(self.join, Call::of(word), text;)
    }
}

pub fn join(session: &Session, ids: &[usize]) -> NewResult<KitJoin> {
    let futures: Vec<NumberFuture> = new_values(&session.world, ids);
    let join = futures.join_all(session.alloc)?;
    Ok(Joined { join })
}

impl Subject<AllTypes> for KitTryJoin {
    fn poll(&mut self, cx: &mut Context<'_>, outputs: &mut Vec<u64>) -> Reply {
        of_results(self.join.poll(cx), outputs)
    }

    fn call(&mut self, word: &str, _: &[usize], _: &SharedWorld, text: &mut Text) -> Reply {
        ask!(self.join, Call::of(word), text;)
    }
}

pub fn try_join(session: &Session, ids: &[usize]) -> NewResult<KitTryJoin> {
    let futures: Vec<TryFuture> = new_values(&session.world, ids);
    let join = futures.try_join_all(session.alloc)?;
    Ok(Joined { join })
}

/// A merge of streams of the kit, and the keys of those that were pushed. A call of a subject asks nothing of it, so
/// each stream may be polled at any time.
#[derive(Drop)]
pub struct KitMerge {
    merge: MergeUnbounded<NumberStream>,
    keys: Keys,
}

impl Model for KitMerge {
    ghost use Rattle.futures_buffered.specs.InFlightMerge.{CanPollStreams};

    ghost Value = { Unit {0} };

    ghost view = { λ _. tt };

    ghost invariant = { λ m. CanPollStreams ⟦<NumberStream as Stream>⟧ m.merge };
}

impl KitMerge {
    fn push(&mut self, value: NumberStream, id: usize) -> Reply {
        if !make_place(&mut self.keys, id) {
            return Reply::Refused;
        }
        match self.merge.try_push(value) {
            Ok(key) => keep_key(&mut self.keys, id, key),
            Err(back) => of_full(Err(back), self.merge.is_full(), Reply::Refused),
        }
    }

    fn cancel(&mut self, id: usize) -> Reply {
        let Some(key) = key_of(self.keys.as_slice(), id) else {
            return Reply::Nothing;
        };
        if self.merge.cancel(key) {
            Reply::Done(())
        } else {
            Reply::None
        }
    }

    // The reply with an item. The number whose push has its key goes to `numbers`.
    fn given(&self, came: Came<Output>, numbers: &mut Vec<u64>) -> Reply {
        match self.keys.iter().position(|key| *key == Some(came.key)) {
            Some(id) if !memory::push(numbers, id as u64) => Reply::Nothing,
            _ => came.output.reply(),
        }
    }
}

impl Subject<AllTypes> for KitMerge {
    fn poll(&mut self, cx: &mut Context<'_>, outputs: &mut Vec<u64>) -> Reply {
        // Before a push no key is known, so these polls are without keys.
        if self.keys.is_empty() {
            return of_next(self.merge.poll_next(cx));
        }
        match self.merge.poll_next_keyed(cx) {
            Poll::Pending => Reply::Pending,
            Poll::Ready(None) => Reply::None,
            Poll::Ready(Some(came)) => self.given(came, outputs),
        }
    }

    fn call(&mut self, word: &str, ids: &[usize], world: &SharedWorld, text: &mut Text) -> Reply {
        match Call::of(word) {
            Call::Push => self.push(new_value(world, ids), first_of(ids)),
            Call::Cancel => self.cancel(first_of(ids)),
            call => ask!(self.merge, call, text; Clear Len IsEmpty Capacity IsFull),
        }
    }
}

/// A merge without a limit of the streams of the line.
pub fn merge(session: &Session, ids: &[usize]) -> NewResult<KitMerge> {
    let streams: Vec<NumberStream> = new_values(&session.world, ids);
    let merge = streams.merge_unbounded(session.alloc)?;
    let keys = Vec::new(session.alloc);
    Ok(KitMerge { merge, keys })
}

/// A merge of as many streams at most as the line says.
pub fn bounded_merge(session: &Session, numbers: &[usize]) -> NewResult<KitMerge> {
    let merge = MergeBounded::new(session.alloc, first_of(numbers));
    let keys = Vec::new(session.alloc);
    Ok(KitMerge { merge, keys })
}

/// A merge of the streams of the line, with room for no other.
pub fn bounded_merge_of(session: &Session, ids: &[usize]) -> NewResult<KitMerge> {
    let streams: Vec<NumberStream> = new_values(&session.world, ids);
    let merge = streams.merge(session.alloc)?;
    let keys = Vec::new(session.alloc);
    Ok(KitMerge { merge, keys })
}
