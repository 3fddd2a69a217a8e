//! Callers of a channel.
ghost use Rattle.std.specs.Prelude.{◌≡◌, ◌%◌, IfOk, IfSome};

use futures_buffered::NewFault;
use futures_buffered::spsc::{Protocol, Receiver, channel};
use std::alloc::Global;

/// Two values go through a channel, and come in the order in which they were sent.
pub fn through(alloc: Global, one: u64, two: u64) -> Result<Option<(u64, u64)>, NewFault>
    ensures { IfOk result (λ came. IfSome came (λ both. (both.0 ≡ one) × (both.1 ≡ two))) }
{
    let (mut sender, mut receiver) = channel::<u64>(alloc, 2)?;
    if sender.try_send(one).is_err() || sender.try_send(two).is_err() {
        return Ok(None);
    }
    receiver.compare(&mut sender);
    let Ok(first) = receiver.try_recv() else {
        return Ok(None);
    };
    let Some(mut finished) = sender.finish() else {
        return Ok(None);
    };
    receiver.compare_finished(&mut finished);
    let Ok(second) = receiver.try_recv() else {
        return Ok(None);
    };
    Ok(Some((first, second)))
}

/// Even numbers alone are sent.
#[derive(Clone, Copy)]
pub struct Even;

impl Protocol<u64> for Even {
    ghost use Rattle.std.specs.Prelude.{◌≡◌, ◌%◌};

    ghost allows = { λ _ value. value % 2 ≡ 0 };
}

/// The next value, of which the protocol says that it is even, in whichever thread.
pub fn next_even(receiver: &mut Receiver<u64, Even>) -> Option<u64>
    ensures { IfSome result (λ value. value % 2 ≡ 0) }
{
    receiver.try_recv().ok()
}
