//! Futures whose poll takes some turns: a `Drain` and a `ForEachConcurrent`.
ghost use Rattle.std.specs.Prelude.{◌≡◌, ◌≤◌};
ghost use Rattle.futures_buffered.specs.Turns.{PollsInTurns, TakesTurn, TurnsOf};

use futures::task::{Context, Poll};

/// A future whose poll takes some turns.
pub trait TakeTurns: Drop {
    /// What the poll returns at last.
    type Answer;

    // What a turn and a poll require, return and leave.
    ghost taken: { TurnsOf Self Self.Answer };

    /// Returns how many turns one poll takes at most, which never changes.
    fn turn_limit(&self) -> usize
        ensures value { result ≡ taken.limit self.now }
        ensures some { 1 ≤ result };

    /// Takes one turn. If the poll ends with this turn, returns what the poll returns.
    fn turn(&mut self, cx: &mut Context<'_>) -> Option<Poll<Self::Answer>>
        requires { taken.can_poll self.old }
        ensures { TakesTurn taken self.old result self.new cx.old cx.new };

    /// Takes turns until one ends the poll. At the limit, wakes the task and returns `Pending`.
    final fn poll_in_turns(&mut self, cx: &mut Context<'_>) -> Poll<Self::Answer>
        requires { taken.can_poll self.old }
        ensures { PollsInTurns taken self.old result self.new cx.old cx.new }
    {
        'turns: for _turn in 0..self.turn_limit() {
            if let Some(answer) = self.turn(cx) {
                return answer;
            }
        }
        cx.yield_now()
    }
}
