//! The ordered queue as a stream, with how many outputs are left and whether it is terminated.
ghost use Rattle.futures_buffered_in_flight.specs.InFlightOrdered.{AnswersInTurn, CanPollOrdered, ComesOfEach};
ghost use Rattle.futures_buffered_in_flight.specs.InFlightOrdered.{OrderedWaitsAt};

use crate::in_flight::Kind;
use crate::in_flight_ordered::FuturesOrderedBy;
use futures::task::{Context, Poll};
use futures::{Future, Stream};
use futures_buffered_unordered::fused::{FusedStream, SizeHint};
use std::fmt;

impl<F: Future<Output = A>, A: Drop, K: Kind> Stream for FuturesOrderedBy<F, A, K> {
    type Item = A;

    ghost can_poll = { CanPollOrdered F.Future };

    ghost needs = { OrderedWaitsAt };

    ghost yields = { ComesOfEach F.Future };

    /// Polls as `poll_output` does.
    fn poll_next(&mut self, cx: &mut Context<'_>) -> Poll<Option<A>>
        requires { CanPollOrdered F.Future self.old }
        ensures { AnswersInTurn F.Future K.GROWS self.old result self.new cx.old cx.new }
    {
        self.poll_output(cx)
    }
}

/// The queue is terminated while there is no entry: the next poll returns `None` then. A later push starts the queue
/// again.
impl<F: Future<Output = A>, A: Drop, K: Kind> FusedStream for FuturesOrderedBy<F, A, K> {
    ghost use Rattle.std.specs.Prelude.{◌≡◌, length};

    ghost is_over = { λ queue. length queue.entries ≡ 0 };

    fn is_terminated(&self) -> bool {
        self.is_empty()
    }
}

impl<F: Drop, A: Drop, K: Kind> SizeHint for FuturesOrderedBy<F, A, K> {
    ghost use Rattle.std.specs.Prelude.{Some, length};

    ghost items_left = { λ queue. (length queue.entries, Some (length queue.entries)) };

    fn size_hint(&self) -> (usize, Option<usize>) {
        (self.len(), Some(self.len()))
    }
}

/// Prints the number of futures and outputs held.
impl<F: Drop, A: Drop, K: Kind> fmt::Debug for FuturesOrderedBy<F, A, K> {
    fn fmt<W: fmt::Write>(&self, f: &mut fmt::Formatter<W>) -> fmt::Result {
        let name = if K::GROWS {
            "FuturesOrdered"
        } else {
            "FuturesOrderedBounded"
        };
        f.debug_struct(name)
            .field("len", &self.len())
            .finish_non_exhaustive()
    }
}
