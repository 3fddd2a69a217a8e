//! Commands to an ordered queue.
ghost use Rattle.std.specs.Prelude.{◌≡◌, IfOk, OnErr};
ghost use Rattle.futures.specs.Task.{Keeps};
ghost use Rattle.fbuf_lines.specs.OrderedLines.{QueueGives, QueueMayLack};

use crate::command::Command;
use crate::ready_after::{PollReadyAfter, ReadyAfter};
use crate::reply::Reply;
use futures::task::Context;
use futures_buffered_core::ready_source::CoreSource;
use futures_buffered_sets::futures_ordered_bounded::FuturesOrderedBounded;
use std::alloc::AllocError;

/// An ordered queue of the script's futures, over a ready core.
pub type ScriptQueue = FuturesOrderedBounded<ReadyAfter, CoreSource>;

// Carries out a command on an ordered queue. A refused future changes nothing.
pub(crate) fn queue_reply(
    queue: &mut ScriptQueue,
    command: Command,
    cx: &mut Context<'_>,
) -> Result<Reply, AllocError>
    ensures reply { IfOk result (λ reply. QueueGives queue.old command reply queue.new) }
    ensures memory { OnErr result (queue.new ≡ queue.old) }
    ensures refused { OnErr result (QueueMayLack queue.old command) }
    ensures kept { Keeps cx.old cx.new }
{
    match command {
        Command::Back(future) if !queue.is_full() => match queue.try_push_back(future) {
            Ok(()) => Ok(Reply::Done),
            Err(_) => Err(AllocError),
        },
        Command::Front(future) if !queue.is_full() => match queue.try_push_front(future) {
            Ok(()) => Ok(Reply::Done),
            Err(_) => Err(AllocError),
        },
        Command::Back(_) | Command::Front(_) => Ok(Reply::Full),
        Command::Wake(slot) if slot < queue.capacity() => {
            Ok(Reply::of_woke(queue.mark_slot(slot)))
        }
        Command::Poll => Ok(Reply::of_poll(queue.poll_with(&PollReadyAfter, cx))),
        Command::Len => Ok(Reply::Count(queue.len())),
        _ => Ok(Reply::Bad),
    }
}
