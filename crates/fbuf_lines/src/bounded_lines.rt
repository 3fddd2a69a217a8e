//! Commands to a bounded set.
ghost use Rattle.std.specs.Prelude.{◌≡◌, ◌<◌, ◌≤◌, IfOk};
ghost use Rattle.futures.specs.Task.{Keeps};
ghost use Rattle.fbuf_lines.specs.BoundedLines.{BoundedGives, new_bounded};

use crate::command::Command;
use crate::ready_after::{PollReadyAfter, ReadyAfter};
use crate::reply::Reply;
use futures::task::Context;
use futures_buffered_core::ready_core::{MAX_CAPACITY, NewFault};
use futures_buffered_core::ready_source::{CoreSource, NewSource};
use futures_buffered_sets::futures_unordered_bounded::FuturesUnorderedBounded;
use std::alloc::Global;

/// A bounded set of the script's futures, over a ready core.
pub type ScriptSet = FuturesUnorderedBounded<ReadyAfter, CoreSource>;

// Makes an empty set of this capacity.
pub(crate) fn new_set(alloc: Global, capacity: usize, limit: usize) -> Result<ScriptSet, NewFault>
    requires { 1 ≤ limit }
    ensures ok { IfOk result (λ set.
        (set ≡ new_bounded capacity limit) × (capacity ≤ MAX_CAPACITY)) }
    ensures large { result ≡ Err NewFault.TooLarge → MAX_CAPACITY < capacity }
    ensures memory { result ≡ Err NewFault.Memory → capacity ≤ MAX_CAPACITY }
{
    let source = CoreSource::make(&(), alloc, capacity)?;
    FuturesUnorderedBounded::with_source_limit(alloc, source, limit)
}

// Carries out a command on a bounded set.
pub(crate) fn set_reply(set: &mut ScriptSet, command: Command, cx: &mut Context<'_>) -> Reply
    ensures reply { BoundedGives set.old command result set.new }
    ensures kept { Keeps cx.old cx.new }
{
    match command {
        Command::Push(future) => match set.try_push(future) {
            Ok(()) => Reply::Done,
            Err(_) => Reply::Full,
        },
        Command::Wake(slot) if slot < set.capacity() => Reply::of_woke(set.mark_slot(slot)),
        Command::Poll => Reply::of_poll(set.poll_with(&PollReadyAfter, cx)),
        Command::Len => Reply::Count(set.len()),
        _ => Reply::Bad,
    }
}
