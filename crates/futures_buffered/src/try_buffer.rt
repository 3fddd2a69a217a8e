//! Some futures of a stream at a time, in any queue of futures, for a stream that returns errors also.
ghost use Rattle.std.specs.Prelude.{◌≡◌, IfOk, false};
ghost use Rattle.futures_buffered.specs.TryBuffer.{PushesOk, TryItemGives};

use crate::buffer::Buffer;
use crate::future_queue::{FutureQueue, NewQueue};
use futures::task::{Context, Poll};
use futures_buffered_core::ready_core::NewFault;
use std::alloc::Global;
use std::marker::Model;

/// A queue to which futures and errors are pushed. A push adds a future to the queue inside. A push of an error returns
/// the error at once and changes nothing. A contract sees what it sees of the queue inside.
#[derive(Drop)]
pub struct TryQueue<Q: Drop> {
    queue: Q,
}

impl<Q: Drop> Model for TryQueue<Q> {
    ghost Value = { Q };

    ghost coded = { Q.code };

    ghost view = { λ s. s.queue };
}

impl<Q: Drop> TryQueue<Q> {
    /// Makes a `TryQueue` over this queue of futures, which does not change.
    pub fn over(queue: Q) -> Self
        ensures { result ≡ queue }
    {
        TryQueue { queue }
    }
}

impl<Q: NewQueue> NewQueue for TryQueue<Q> {
    type Env = Q::Env;

    type Source = Q::Source;

    ghost made = { Q.made };

    fn make(env: &Q::Env, alloc: Global, n: usize, limit: usize) -> Result<Self, NewFault> {
        let queue = Q::make(env, alloc, n, limit)?;
        Ok(TryQueue { queue })
    }
}

impl<F, T, E, Q> FutureQueue<Result<F, E>> for TryQueue<Q>
where
    Q: FutureQueue<F, Output = Result<T, E>>,
{
    type Output = Result<T, E>;

    ghost count = { Q.count };

    ghost room = { Q.room };

    ghost pushes = { PushesOk Q.pushes };

    ghost polls = { Q.polls };

    ghost is_fit = { λ item. IfOk item Q.is_fit };

    ghost gives = { TryItemGives Q.gives };

    ghost as_stream = { Q.as_stream };

    ghost in_order = { false };

    fn len(&self) -> usize {
        self.queue.len()
    }

    fn capacity(&self) -> usize {
        self.queue.capacity()
    }

    #[tactic(auto, using(crate::proofs::TryBufferLemmas::ok_adds, crate::proofs::TryBufferLemmas::error_adds))]
    fn push(&mut self, item: Result<F, E>) -> Option<Result<T, E>> {
        match item {
            Ok(future) => self.queue.push(future),
            Err(error) => Some(Err(error)),
        }
    }

    fn poll_output(&mut self, cx: &mut Context<'_>) -> Poll<Option<Result<T, E>>> {
        self.queue.poll_output(cx)
    }

    fn buffer_name() -> &'static str {
        "TryBuffer"
    }
}

/// Futures of a stream that returns errors also, at most as many at a time as the queue has room for. A poll returns an
/// error of the stream as soon as it takes the error from the stream, before what is held. The buffer continues after
/// an error.
pub type TryBuffer<St, Q> = Buffer<St, TryQueue<Q>>;
