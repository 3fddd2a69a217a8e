//! One poll of the streams that a bounded merge holds.
ghost use Rattle.futures_buffered_unordered.specs.PollsBounded.{unless_registered};
ghost use Rattle.futures_buffered_unordered.specs.Merging.{CanAsk, PollsMergeBounded};

use crate::merge_bounded::MergeBounded;
use crate::slot_stream::{PollStream, SlotStream};
use futures::task::{Context, Poll};
use futures_buffered_core::ready_source::ReadySource;

// Polls the merge once, in rounds. A stream that ends is dropped, and a new round begins. Each round registers the task
// first, unless the task is registered for another group of the merge. A further registration would hold the place of
// its waker, and a wake of a slot of that group would find the place taken.
pub(crate) fn poll_streams<St: SlotStream<S::Waker>, S: ReadySource>(
    set: &mut MergeBounded<St, S>,
    cx: &mut Context<'_>,
    is_registered: bool,
) -> Poll<Option<St::Item>>
    requires { CanAsk St.SlotStream S.ReadySource set.old cx.old is_registered }
    ensures { PollsMergeBounded St.SlotStream (unless_registered is_registered S.ReadySource)
        set.old result set.new cx.old cx.new }
{
    'rounds: while !set.is_empty() {
        match set.poll_round(&PollStream, cx, is_registered) {
            Poll::Ready((i, Some(item))) => {
                let _woke = set.mark_slot(i);
                return Poll::Ready(Some(item));
            }
            Poll::Ready((i, None)) => set.empty_slot(i),
            Poll::Pending => return Poll::Pending,
        }
    }
    Poll::Ready(None)
}
