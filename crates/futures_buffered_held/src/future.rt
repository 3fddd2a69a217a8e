//! Futures to hold as they are, and the functions that make them. Neither the futures nor the functions allocate.
ghost use Rattle.std.specs.Prelude.{◌≡◌, Some};
ghost use Rattle.futures_buffered_held.specs.declared.then.Then.TheVariants.{First};

pub use crate::map::Map;
pub use crate::poll_fn::PollFn;
pub use crate::ready::Ready;
pub use crate::then::Then;

/// Returns a future that is ready with this value at its first poll.
pub fn ready<T>(value: T) -> Ready<T>
    ensures { result ≡ Some value }
{
    Ready { value: Some(value) }
}

/// Returns a future that calls this closure at each poll. A poll requires that the closure may be called with any
/// waker, and again after each call.
pub fn poll_fn<C>(call: C) -> PollFn<C>
    ensures { result ≡ call }
{
    PollFn { call }
}

/// Returns a future whose output is what `change` makes of the output of `future`.
pub fn map<F, C>(future: F, change: C) -> Map<F, C>
    ensures { result ≡ Some (future, change) }
{
    Map {
        inner: Some((future, change)),
    }
}

/// Returns a future that continues as the future that `change` makes of the output of `future`.
pub fn then<F, B, C>(future: F, change: C) -> Then<F, B, C>
    ensures { result ≡ First future change }
{
    Then::First(future, change)
}
