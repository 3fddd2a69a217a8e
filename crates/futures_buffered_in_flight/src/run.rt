//! A future with the key of its push, so that its output can be distinguished from other outputs.
ghost use Rattle.std.specs.Prelude.{◌≡◌, IfSome, true};
ghost use Rattle.std.specs.Arc.{arc_value};
ghost use Rattle.futures_buffered_in_flight.specs.Bells.{notes_of};
ghost use Rattle.futures_buffered_in_flight.specs.Ledger.{IsNotice};

use crate::bells::Bells;
use crate::ledger::{Notice, Ticket};
use futures::Future;
use futures::task::{Context, Poll};
use std::sync::Arc;

/// The number of a push, and the slot of its future. The first 2^64 - 1 pushes of a set have different numbers, so none
/// of their keys is used twice. Their keys are in the order of the pushes.
#[derive(Clone, Copy, Debug, PartialEq, Eq, PartialOrd, Ord, Hash)]
pub struct Key {
    pub push: u64,
    pub slot: usize,
}

/// A future that is not in the set of `futures` yet, because an allocation failed or its push has the last number.
#[derive(Drop)]
pub struct Waits<F> {
    pub ticket: Ticket,
    pub future: F,
}

/// A future in the set of `futures`. It returns its output with its ticket, or a notice in place of the output if it was
/// cancelled.
#[derive(Drop)]
pub struct Run<F> {
    pub ticket: Ticket,
    pub bells: Arc<Bells>,
    pub future: F,
    ghost same: { ticket.live ≡ true → notes_of (arc_value bells) ≡ ticket.id },
}

impl<F> Run<F> {
    // Returns a notice if this run was cancelled. Takes one load, unless a run of the set was cancelled.
    fn notice(&self) -> Option<Notice>
        requires { self.now.ticket.live ≡ true }
        ensures { IfSome result (λ notice. IsNotice self.now.ticket notice) }
    {
        self.bells.notice(self.ticket.key())
    }
}

impl<F: Future> Future for Run<F> {
    ghost use Rattle.futures_buffered_in_flight.specs.InFlightLedger.{CanPollRun, RunGives};

    type Output = (Ticket, Result<F::Output, Notice>);

    ghost can_poll = { CanPollRun F.can_poll };

    ghost needs = { λ run source. F.needs run.future source };

    ghost gives = { RunGives F.gives };

    fn poll(&mut self, cx: &mut Context<'_>) -> Poll<(Ticket, Result<F::Output, Notice>)> {
        if let Some(notice) = self.notice() {
            return Poll::Ready((self.ticket.take(), Err(notice)));
        }
        match self.future.poll(cx) {
            Poll::Ready(output) => Poll::Ready((self.ticket.take(), Ok(output))),
            Poll::Pending => {
                self.bells.leave_waker(self.ticket.key().slot, cx);
                Poll::Pending
            }
        }
    }
}
