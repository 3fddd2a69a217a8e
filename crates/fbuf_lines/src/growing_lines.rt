//! Commands to a growing set.
ghost use Rattle.std.specs.Prelude.{◌≡◌, IfOk, OnErr};
ghost use Rattle.futures.specs.Task.{Keeps};
ghost use Rattle.fbuf_lines.specs.GrowingLines.{GrowingGives, GrowingMayLack};

use crate::command::Command;
use crate::ready_after::{PollReadyAfter, ReadyAfter};
use crate::reply::Reply;
use futures::task::Context;
use futures_buffered_core::ready_source::CoreSource;
use futures_buffered_unordered::futures_unordered::FuturesUnordered;
use std::alloc::AllocError;

/// A growing set of the script's futures, each group over a ready core.
pub type ScriptGrowing = FuturesUnordered<ReadyAfter, CoreSource>;

// Carries out a command on a growing set. A refused push changes nothing.
pub(crate) fn growing_reply(
    set: &mut ScriptGrowing,
    command: Command,
    cx: &mut Context<'_>,
) -> Result<Reply, AllocError>
    ensures reply { IfOk result (λ reply. GrowingGives set.old command reply set.new) }
    ensures memory { OnErr result (set.new ≡ set.old) }
    ensures refused { OnErr result (GrowingMayLack set.old command) }
    ensures kept { Keeps cx.old cx.new }
{
    match command {
        Command::Push(future) => match set.push(future) {
            Ok(()) => Ok(Reply::Done),
            Err(_) => Err(AllocError),
        },
        Command::Poll => Ok(Reply::of_poll(set.poll_with(&PollReadyAfter, cx))),
        Command::Len => Ok(Reply::Count(set.len())),
        _ => Ok(Reply::Bad),
    }
}
