//! Traits that `futures` leaves out: they say whether a stream or a future has ended, and how many items are left.
ghost use Rattle.std.specs.Prelude.{◌≡◌, ◌↔◌, ℕ, IsTrue, Option, None};

use futures::{Future, Stream};

/// A stream that says whether it has ended.
pub trait FusedStream: Stream {
    // Holds of a stream that has ended: its next poll returns `None`.
    ghost is_over: { Self → Type 0 };

    /// Whether the stream has ended. If so, its next poll returns `None`. If not, its next poll may end it.
    fn is_terminated(&self) -> bool
        ensures { IsTrue result ↔ is_over self.now };
}

/// A future that says whether it has ended.
pub trait FusedFuture: Future {
    // Holds of a future that has ended.
    ghost is_over: { Self → Type 0 };

    /// Whether the future has ended.
    fn is_terminated(&self) -> bool
        ensures { IsTrue result ↔ is_over self.now };
}

/// A type that bounds the number of items that are left, as `size_hint` of an iterator does.
pub trait SizeHint {
    // The least and the greatest number of items that are left. `None` says that no greatest number is known. By
    // default nothing is known.
    ghost items_left: { Self → ℕ × Option ℕ } = { λ _. (0, None) };

    /// The least and the greatest number of items that are left.
    fn size_hint(&self) -> (usize, Option<usize>)
        ensures { result ≡ items_left self.now };
}
