//! The polls of a set: a poll starts each future that waits for memory, and then polls the set of `futures`.
ghost use Rattle.std.specs.Prelude.{◌≡◌, ◌⊎◌, ◌<◌, ◌≤◌, ◌+◌, [], IfErr, IfSome, IfNone, length};
ghost use Rattle.futures.specs.Poll.{IfReady, OnPending};
ghost use Rattle.futures.specs.Queued.{AllPollable, AnyGives, GivesNoMore};
ghost use Rattle.futures.specs.Task.{Covers, Keeps};
ghost use Rattle.futures_buffered_core.specs.SlotMap.{held_count};
ghost use Rattle.futures_buffered_unordered.specs.FuturesUnorderedBounded.{IsWoken};
ghost use Rattle.futures_buffered_in_flight.specs.InFlight.{CanPollAll, FlightsGiveNoMore, FlightsWaitAt, GivesWithKey};
ghost use Rattle.futures_buffered_in_flight.specs.InFlight.{PollsInFlight, room_taken, run_count, runs_in};
ghost use Rattle.futures_buffered_in_flight.specs.InFlightLedger.{RunGives};
ghost use Rattle.futures_buffered_in_flight.specs.InFlightTurns.{RunsLeft, Starts, Takes};
ghost use Rattle.futures_buffered_in_flight.specs.Ledger.{IsGivenBy, IsNotice};
ghost use Rattle.futures_buffered_in_flight.specs.declared.run.Run.{Run};

use crate::in_flight::{Came, FuturesUnorderedBy};
use crate::ledger::{Notice, Ticket};
use crate::run::Waits;
use futures::task::{Context, Poll};
use futures::{Future, Stream};

impl<F: Future<Output: Drop>, T: Drop, K> FuturesUnorderedBy<F, T, K> {
    // Ends the run of this ticket, which was cancelled, as its notice shows.
    fn end_told(&mut self, ticket: Ticket, notice: Notice)
        requires given { IsGivenBy self.old.ledger ticket }
        requires notice { IsNotice ticket notice }
        requires room { length self.old.waiting + 1 ≤ room_taken self.old }
        ensures fewer { self.new.cancelled + 1 ≡ self.old.cancelled }
        ensures ledger { (self.new.ledger.id ≡ self.old.ledger.id) × (self.new.ledger.clears ≡ self.old.ledger.clears) }
        ensures rest { (self.new.slots ≡ self.old.slots) × (self.new.next ≡ self.old.next)
            × (self.new.waiting ≡ self.old.waiting) × (self.new.running ≡ self.old.running) }
    {
        self.ledger.check(notice);
        self.end_cancelled(ticket);
        self.rest();
    }

    // Lets the runs look no longer whether they were cancelled, if no cancelled future is left.
    fn rest(&self) {
        if self.cancelled == 0 {
            self.bells.rest();
        }
    }

    // Drops the future that waited longest, if it was cancelled. Otherwise pushes it into the set of `futures`, or it
    // waits again.
    #[tactic(auto, using(crate::proofs::InFlightLemmas::started))]
    fn start_one(&mut self)
        requires { CanPollAll F.Future self.old }
        ensures { Starts F.Future self.old self.new }
    {
        let Some(value) = self.waiting.pop_front() else {
            return;
        };
        if self.contains(value.ticket.key()) {
            self.start(value);
        } else {
            let Waits { ticket, future: _ } = value;
            self.end_cancelled(ticket);
            self.rest();
        }
    }

    // Starts each future that waits, in turn.
    #[tactic(auto, using(crate::proofs::InFlightLemmas::starts_none, crate::proofs::InFlightLemmas::starts_on))]
    fn start_all(&mut self)
        requires { CanPollAll F.Future self.old }
        ensures { Starts F.Future self.old self.new }
    {
        'starts: for _start in 0..self.waiting.len() {
            self.start_one();
        }
    }

    // Wakes the task if a future waits for memory.
    fn ask_again(&self, cx: &mut Context<'_>)
        ensures started { (self.now.waiting ≡ []) ⊎ IsWoken cx.new }
        ensures kept { Keeps cx.old cx.new }
    {
        if !self.waiting.is_empty() {
            let _: Poll<()> = cx.yield_now();
        }
    }

    // Polls the set of `futures` once.
    #[tactic(auto, using(crate::proofs::InFlightLemmas::narrows_within))]
    fn poll_running(
        &mut self,
        cx: &mut Context<'_>,
    ) -> Poll<Option<(Ticket, Result<F::Output, Notice>)>>
        requires { AllPollable (λ (run : Run F). F.can_poll run.future) (runs_in self.old.running) }
        ensures pollable { AllPollable (λ (run : Run F). F.can_poll run.future) (runs_in self.new.running) }
        ensures gave { IfReady result
            (λ o. IfSome o (AnyGives (RunGives F.gives) (runs_in self.old.running))) }
        ensures given { IfReady result (λ o. IfSome o (λ came. IsGivenBy self.old.ledger came.0)) }
        ensures gives { GivesNoMore (GivesWithKey F.gives)
            (runs_in self.old.running) (runs_in self.new.running) }
        ensures counts { RunsLeft (run_count self.old.running) result (run_count self.new.running) }
        ensures rest { (self.new.slots ≡ self.old.slots) × (self.new.next ≡ self.old.next)
            × (self.new.waiting ≡ self.old.waiting) × (self.new.cancelled ≡ self.old.cancelled) }
        ensures ledger { self.new.ledger ≡ self.old.ledger }
        ensures registered { OnPending result (Covers cx.new (FlightsWaitAt self.new)) }
        ensures kept { Keeps cx.old cx.new }
    {
        let Some(running) = &mut self.running else {
            return Poll::Ready(None);
        };
        if running.is_empty() {
            return Poll::Ready(None);
        }
        let came = match running.poll_next(cx) {
            Poll::Pending => return Poll::Pending,
            Poll::Ready(Some(came)) => came,
            Poll::Ready(None) => unreachable!(),
        };
        Poll::Ready(Some(came))
    }

    // Follows a pending poll of the set of `futures`. Wakes the task if a cancelled future is left.
    fn stay(&self, cx: &mut Context<'_>)
        ensures ended { (self.now.cancelled ≡ 0) ⊎ IsWoken cx.new }
        ensures kept { Keeps cx.old cx.new }
    {
        if self.cancelled > 0 {
            let _: Poll<()> = cx.yield_now();
        }
    }

    // Drops the cancelled futures that are left in a set that holds no future.
    #[tactic(auto, using(crate::proofs::InFlightLemmas::none_can_poll))]
    pub(crate) fn end(&mut self)
        requires held { CanPollAll F.Future self.old }
        requires none { held_count self.old.slots ≡ 0 }
        ensures none { (self.new.cancelled ≡ 0) × (self.new.waiting ≡ []) }
        ensures rest { (self.new.slots ≡ self.old.slots) × (self.new.next ≡ self.old.next) }
        ensures same { self.old.cancelled ≡ 0 → self.new ≡ self.old }
        ensures less { FlightsGiveNoMore F.Future self.old self.new }
        ensures again { CanPollAll F.Future self.new }
    {
        if self.cancelled > 0 {
            self.drop_all();
        }
    }

    // Takes the answer of a run that has ended. Returns the output with its key and tag if the future is held, or `None`
    // if it was cancelled.
    fn take_answer(
        &mut self,
        ticket: Ticket,
        answer: Result<F::Output, Notice>,
    ) -> Option<Came<F::Output, T>>
        requires given { IsGivenBy self.old.ledger ticket }
        requires notice { IfErr answer (IsNotice ticket) }
        requires room { length self.old.waiting + 1 ≤ room_taken self.old }
        ensures came { IfSome result (λ came. Takes self.old ticket answer came self.new) }
        ensures none { IfNone result ((self.new.slots ≡ self.old.slots) × (self.new.cancelled + 1 ≡ self.old.cancelled)) }
        ensures ledger { (self.new.ledger.id ≡ self.old.ledger.id) × (self.new.ledger.clears ≡ self.old.ledger.clears) }
        ensures rest { (self.new.next ≡ self.old.next) × (self.new.waiting ≡ self.old.waiting)
            × (self.new.running ≡ self.old.running) }
    {
        match answer {
            Ok(output) => match self.take_place(ticket.key()) {
                Some(freed) => {
                    self.end_cancelled(ticket);
                    Some(freed.with(output))
                }
                None => {
                    self.end_cancelled(ticket);
                    None
                }
            },
            Err(notice) => {
                self.end_told(ticket, notice);
                None
            }
        }
    }

    // Makes one turn of a poll. Returns the result of the poll, or `None` if a cancelled future has ended and the poll
    // continues.
    #[tactic(auto, using(crate::proofs::InFlightLemmas::turned, crate::proofs::InFlightLemmas::waited, crate::proofs::InFlightLemmas::came_out, crate::proofs::InFlightLemmas::starts_none, crate::proofs::InFlightLemmas::pended))]
    fn turn(&mut self, cx: &mut Context<'_>) -> Option<Poll<Option<Came<F::Output, T>>>>
        requires held { CanPollAll F.Future self.old }
        requires some { 0 < held_count self.old.slots }
        requires started { (self.old.waiting ≡ []) ⊎ IsWoken cx.old }
        ensures came { IfSome result (λ answer. PollsInFlight F.Future self.old answer self.new cx.old cx.new) }
        ensures none { IfNone result (Starts F.Future self.old self.new
            × (self.new.waiting ≡ self.old.waiting) × Keeps cx.old cx.new) }
    {
        if self.flying() == 0 {
            return Some(cx.yield_now());
        }
        match self.poll_running(cx) {
            Poll::Pending => {
                self.stay(cx);
                Some(Poll::Pending)
            }
            Poll::Ready(None) => unreachable!(),
            Poll::Ready(Some((ticket, answer))) => match self.take_answer(ticket, answer) {
                Some(came) => Some(Poll::Ready(Some(came))),
                None => None,
            },
        }
    }

    /// Polls the futures that were pushed or woken since their last poll, until one of them returns its output. The
    /// first poll by another task wakes each future, so that each is polled again.
    ///
    /// Returns an output with the key and the tag of its future, or `None` if and only if no future is held. First
    /// starts the futures that wait for memory. Makes at most 128 polls of futures for each future that had been
    /// cancelled, and 128 more. A poll that returns `None` drops the cancelled futures; a pending poll drops them, or
    /// wakes the task to poll again.
    ///
    /// Allocates only what the futures allocate, and what the set of `futures` does. That set allocates for a future
    /// that waits, for the number of a future that has ended, and at the first poll by a task. Wakes the task if a
    /// future still waits for memory, and at the limit. After a `cancel`, may wake the task and another future once
    /// more.
    #[tactic(auto, using(crate::proofs::InFlightLemmas::polls_from, crate::proofs::InFlightLemmas::pended, crate::proofs::InFlightLemmas::ends, crate::proofs::InFlightLemmas::starts_on))]
    pub fn poll_next_keyed(&mut self, cx: &mut Context<'_>) -> Poll<Option<Came<F::Output, T>>>
        requires { CanPollAll F.Future self.old }
        ensures { PollsInFlight F.Future self.old result self.new cx.old cx.new }
    {
        if self.slots.is_empty() {
            self.end();
            return Poll::Ready(None);
        }
        self.start_all();
        self.ask_again(cx);
        'turns: for _turn in 0..=self.cancelled {
            if let Some(answer) = self.turn(cx) {
                return answer;
            }
        }
        cx.yield_now()
    }
}
