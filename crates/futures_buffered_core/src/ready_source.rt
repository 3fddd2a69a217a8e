//! The traits by which a set marks and dequeues slots, and registers its task.
//!
//! A source has a content of its own, of which a contract knows only what the source's relations say. `CoreSource` is a
//! ready core for one caller, and `ScriptSource` returns a list of results; both have exact relations.
ghost use Rattle.std.specs.Prelude.{◌≡◌, ◌<◌, ℕ, IfOk};
ghost use Rattle.futures.specs.Task.{Covers, Keeps};
ghost use Rattle.futures.specs.declared.task.context.Context.{Context};
ghost use Rattle.futures_buffered_table.specs.declared.answer.Woke.{Woke};
ghost use Rattle.futures_buffered_table.specs.declared.answer.Taken.{Taken};
ghost use Rattle.futures_buffered_core.specs.Made.{MakesSlots};
ghost use Rattle.futures_buffered_core.specs.ReadySource.{IsMadeMarked, IsNamed, SourceLaws, SourceSteps};
ghost use Rattle.futures_buffered_core.specs.ReadySource.{WaitsAlike, WaitsForGood};

pub use crate::core_source::{CoreSource, NoopWaker};
use crate::ready_core::{NewFault, Taken, Woke};
pub use crate::script_source::ScriptSource;
use futures::task::Context;
use std::alloc::Global;

/// A slot's waker as a set sees it: which slot it wakes, and no call that wakes it. So a set can pass a waker on, and
/// cannot wake with it.
pub trait SlotHandle {
    // The slots of which it is a waker: the one that a wake marks. A waker that does nothing is a waker of each slot.
    ghost wakes: { Self → ℕ → Type 0 };
}

/// Wakes one slot, any number of times, also after the set that it came from is dropped.
pub trait SlotWaker: SlotHandle {
    /// What a wake returns: of a `SharedWaker` the seats that made its steps. A caller may drop it.
    type Made: Drop;

    // What a wake of this waker may return.
    ghost makes: { Self → Self.Made → Type 0 };

    /// Marks the slot, unless it is a waker that does nothing. If the mark is newly set and the task's waker is kept
    /// for wakes, takes that waker and wakes the task. Returns what shows its steps.
    fn wake(&self) -> Self::Made
        ensures { makes self.now result };
}

/// Dequeues slots that were marked.
///
/// A source states what its calls may do, by relations between its content before, the result, and its content after.
/// The laws below say that each slot that `take` returns is below the capacity, and that the capacity does not change.
/// Only the calls that make a source may allocate. No call may wait for another thread.
pub trait ReadySource: Drop {
    /// What wakes one slot.
    type Waker: SlotHandle;

    // The capacity: how many slots it has.
    ghost slots: { Self → ℕ };

    // What a mark of a slot may return, and how it may change the content.
    ghost marks: { Self → ℕ → Woke → Self → Type 0 };

    // How a registration may change the content, and what a dequeue may return and how it may change the content.
    ghost steps: { SourceSteps Self };

    // How a registration may change the context of the poll that registers.
    ghost registers_poll: { Self → Context → Context → Type 0 };

    // The sources of `futures` at which a registration waits, by their numbers.
    ghost needs: { Self → ℕ → Type 0 };

    /// The number of slots.
    fn capacity(&self) -> usize
        ensures { result ≡ slots self.now };

    /// Marks a slot. Does not allocate. Does not wake the task.
    fn mark(&mut self, i: usize) -> Woke
        requires { i < slots self.old }
        ensures { marks self.old i result self.new };

    /// Dequeues a slot. Does not allocate.
    fn take(&mut self) -> Taken
        ensures { steps.takes self.old result self.new };

    /// Returns a reference to the waker of the slot that was dequeued last. That waker is of this slot until the next
    /// slot is dequeued; a copy of it is of this slot permanently. Does not allocate.
    fn waker(&self, i: usize) -> &Self::Waker
        requires { IsNamed steps.takes self.now i }
        ensures { Self.Waker.wakes result.now i };

    /// Keeps the waker of the task that polls in place of the one kept before, or polls what the source waits for with
    /// `cx`. The task is registered where it waits, or is woken. The task keeps each earlier registration and wake.
    fn register(&mut self, cx: &mut Context<'_>)
        ensures registered { steps.registers self.old self.new }
        ensures poll { registers_poll self.old cx.old cx.new }
        ensures covered { Covers cx.new (needs self.old) }
        ensures kept { Keeps cx.old cx.new };

    // Each dequeued slot is below the capacity, the capacity does not change, and no dequeue or registration adds a
    // place at which the source waits.
    ghost laws: { SourceLaws marks steps needs slots };
}

/// A source that a set can make for itself, and to which it can add siblings.
pub trait NewSource: ReadySource {
    /// What making one needs besides memory.
    type Env: Drop;

    // What a new source of this capacity may be.
    ghost made: { ℕ → Self → Type 0 };

    /// A source of `cap` slots. Takes time and memory in proportion to `cap`, so that no later mark or
    /// dequeue allocates.
    fn make(env: &Self::Env, alloc: Global, cap: usize) -> Result<Self, NewFault>
        ensures { MakesSlots cap (made cap) result };

    /// A source of `cap` slots, each of them marked, as by a call of `make` and a mark of each slot, in order.
    ///
    /// Takes time and memory, and refuses, as `make` does.
    fn make_marked(env: &Self::Env, alloc: Global, cap: usize) -> Result<Self, NewFault>
        ensures { MakesSlots cap (IsMadeMarked made Self.marks cap) result }
    {
        let mut source = Self::make(env, alloc, cap)?;
        'slots: for i in 0..cap {
            let _woke = source.mark(i);
        }
        Ok(source)
    }

    /// A sibling: a source of `cap` slots that waits at the same places of a task's wakes as this one. So if one poll
    /// polls both, one registration covers both, if the source that registers is polled first.
    ///
    /// Takes time and memory as `make` does. The content of this source does not change, also if the call fails.
    fn make_sibling(&mut self, alloc: Global, cap: usize) -> Result<Self, NewFault>
        ensures source { MakesSlots cap (made cap) result }
        ensures beside { IfOk result (WaitsAlike Self.needs self.old) }
        ensures same { self.new ≡ self.old };

    /// Drops the source. A source that keeps the task's waker may first publish it for its siblings, so that the drop
    /// does not wake the task.
    fn leave_siblings(self)
    where
        Self: Sized,
    {}

    // A new source has the capacity that was asked for.
    ghost made_slots: { (cap : ℕ) (new : Self) → made cap new → Self.slots new ≡ cap };

    // It waits at the same places permanently, so siblings stay siblings.
    ghost waits: { WaitsForGood Self.marks Self.steps Self.needs };
}
