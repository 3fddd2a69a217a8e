//! The answer of a poll of a set, without keys and tags.
ghost use Rattle.std.specs.Prelude.{◌≡◌};
ghost use Rattle.futures_buffered_in_flight.specs.InFlight.{without_key};

use crate::in_flight::Came;
use futures::task::Poll;

/// Returns the answer without keys and tags.
pub fn without_keys<A: Drop, T: Drop>(answer: Poll<Option<Came<A, T>>>) -> Poll<Option<A>>
    ensures { result ≡ without_key answer }
{
    match answer {
        Poll::Pending => Poll::Pending,
        Poll::Ready(None) => Poll::Ready(None),
        Poll::Ready(Some(came)) => Poll::Ready(Some(came.output)),
    }
}
