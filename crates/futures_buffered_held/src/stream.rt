//! Streams to hold as they are, and the functions that make them.
pub use crate::iter::Iter;

/// Returns a stream of the items of `items`.
pub fn iter<I: IntoIterator>(items: I) -> Iter<I::IntoIter>
    ensures { I.into_iter_gives items result }
{
    Iter {
        items: items.into_iter(),
    }
}
