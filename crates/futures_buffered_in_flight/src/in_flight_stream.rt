//! The set as a stream, with how many outputs are left and whether it is terminated.
ghost use Rattle.futures_buffered_core.specs.SlotMap.{held_count};
ghost use Rattle.futures_buffered_in_flight.specs.InFlight.{CanPollAll, ComesFromSlots, FlightsWaitAt};

use crate::in_flight::{FuturesUnorderedBy, Kind};
use crate::keyless::without_keys;
use futures::task::{Context, Poll};
use futures::{Future, Stream};
use futures_buffered_unordered::fused::{FusedStream, SizeHint};
use std::fmt;

impl<F: Future<Output: Drop>, T: Drop, K> Stream for FuturesUnorderedBy<F, T, K> {
    type Item = F::Output;

    ghost can_poll = { CanPollAll F.Future };

    ghost needs = { FlightsWaitAt };

    ghost yields = { ComesFromSlots F.Future };

    /// Polls as `poll_next_keyed` does. Returns an output without key and tag.
    fn poll_next(&mut self, cx: &mut Context<'_>) -> Poll<Option<F::Output>> {
        without_keys(self.poll_next_keyed(cx))
    }
}

/// The set is terminated while no future is held: the next poll returns `None` then. A later push starts the set again.
impl<F: Future<Output: Drop>, T: Drop, K> FusedStream for FuturesUnorderedBy<F, T, K> {
    ghost use Rattle.std.specs.Prelude.{◌≡◌};

    ghost is_over = { λ set. held_count set.slots ≡ 0 };

    fn is_terminated(&self) -> bool {
        self.is_empty()
    }
}

impl<F: Drop, T: Drop, K> SizeHint for FuturesUnorderedBy<F, T, K> {
    ghost use Rattle.std.specs.Prelude.{Some};

    ghost items_left = { λ set. (held_count set.slots, Some (held_count set.slots)) };

    fn size_hint(&self) -> (usize, Option<usize>) {
        (self.len(), Some(self.len()))
    }
}

/// Prints the number of futures held.
impl<F: Drop, T: Drop, K: Kind> fmt::Debug for FuturesUnorderedBy<F, T, K> {
    fn fmt<W: fmt::Write>(&self, f: &mut fmt::Formatter<W>) -> fmt::Result {
        let name = if K::GROWS {
            "FuturesUnordered"
        } else {
            "FuturesUnorderedBounded"
        };
        f.debug_struct(name)
            .field("len", &self.len())
            .finish_non_exhaustive()
    }
}
