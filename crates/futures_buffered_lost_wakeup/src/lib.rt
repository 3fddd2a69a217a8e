//! No wake is lost: a law over every order of the steps of any wakes and of one poller, which polls for any tasks; and a
//! law that says that these are the steps of the calls.
//!
//! The steps at the list are those of `futures_buffered_table`, by the roles of its seats. The steps at the place of the
//! task's waker are those that the contracts of `futures_buffered_place` name, with what each found. Of a waker only
//! the task that it wakes is left. `specs/Agents.antt` says which step a wake, the poller and a sibling may make next.
//! `specs/Scene.antt` says what the steps change, and what never happens. `specs/Runs.antt` says that each shape of
//! steps that a contract allows to a call is one way of such an agent. In `futures_buffered_core`, `PollerSide` and
//! `WakerPlace::wake` say how many steps at the list come before each step at the place.
//!
//! What the law takes for granted is in `docs/PROVED.md`, under its premises.
#![tactic(auto)]

ghost use Rattle.std.specs.Prelude.{ℕ};
ghost use Rattle.futures_buffered_lost_wakeup.specs.Scene.{NoWakeIsLost};
ghost use Rattle.futures_buffered_lost_wakeup.specs.Runs.{CallsAreRuns};

/// In every order of steps: if each wake has ended, the task that polled last is not woken, and no poll is under way, of
/// this source or of a sibling, then no slot is marked.
///
/// So if a slot is marked, a wake or a poll is under way, or the task that polled last is to poll again.
pub fn no_wake_is_lost()
    ensures { NoWakeIsLost }
{}

/// The steps that a call adds to its seats, by its contract, are a run of an agent of the law, whichever task each
/// waker wakes.
pub fn calls_are_runs<O>()
    ensures { (task_of : O → ℕ) → CallsAreRuns O task_of }
{}
