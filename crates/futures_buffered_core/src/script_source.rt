//! The source of a test: it returns what a list says.
ghost use Rattle.std.specs.Prelude.{◌≡◌, ◌≢◌, ◌<◌, ℕ, IfOk, OnOk, length};
ghost use Rattle.futures.specs.Task.{IsArmed, Keeps};
ghost use Rattle.futures_buffered_core.specs.ReadySource.{WaitsNowhere, laws_of_takes, only_takes};
ghost use Rattle.futures_buffered_core.specs.ScriptSource.{MarksNothing, TakesNext};
ghost use Rattle.futures_buffered_core.specs.WrongName.{AllNamesBelow, IsFirstWrong};

use crate::core_source::NoopWaker;
use crate::ready_core::{RunFault, Taken, Woke};
use crate::ready_source::ReadySource;
use crate::wrong_name::first_wrong;
use futures::task::{Context, Poll, Source, Waker};
use std::alloc::Global;
use std::marker::Model;
use std::vec;

/// Returns the results of a list in order, and then `Empty` permanently. So a test chooses which slots a set dequeues.
/// Its wakers do nothing. The task that it keeps is woken if another task registers, or when the source is dropped. No
/// other call wakes it.
///
/// A contract sees the capacity and the results that are left.
#[derive(Drop)]
pub struct ScriptSource {
    capacity: usize,
    answers: vec::IntoIter<Taken>,
    noop: NoopWaker,
    source: Source,
    task: Option<Waker>,
}

impl Model for ScriptSource {
    ghost use Rattle.futures_buffered_core.specs.ScriptSource.{Script};
    ghost use Rattle.futures_buffered_core.specs.WrongName.{NamesAllBelow};
    ghost use Rattle.futures_buffered_table.specs.declared.answer.Taken.TheVariants.{Slot};

    ghost Value = { Script };

    ghost use Rattle.std.specs.Prelude.{length};
    ghost use Rattle.std.specs.Vec.Iter.{into_iter_items};

    ghost view = { λ s. record { capacity = s.capacity; left = into_iter_items s.answers } };

    ghost invariant = { λ s. let left = into_iter_items s.answers in
        NamesAllBelow Slot s.capacity left (length left) };
}

impl ScriptSource {
    /// Makes a source of `cap` slots that returns these results. `cap` can be any number.
    ///
    /// Fails with `RunFault::Event`, which has the position of the first result whose slot is not below `cap`. Does not
    /// allocate, so `RunFault::Memory` is never returned. Takes time in proportion to the number of results.
    pub fn new(_alloc: Global, cap: usize, answers: Vec<Taken>) -> Result<Self, RunFault>
        ensures ok { IfOk result (λ s. s ≡ record { capacity = cap; left = answers.items }) }
        ensures named { OnOk result
            (AllNamesBelow Taken.Slot cap answers.items) }
        ensures wrong { (p : ℕ) → result ≡ Err (RunFault.Event p)
            → IsFirstWrong Taken.Slot cap answers.items p }
        ensures never_memory { result ≢ Err RunFault.Memory }
    {
        if let Some(p) = first_wrong(&answers, cap) {
            return Err(RunFault::Event(p));
        }
        Ok(ScriptSource {
            capacity: cap,
            answers: answers.into_iter(),
            noop: NoopWaker,
            source: Source::new(),
            task: None,
        })
    }
}

impl ReadySource for ScriptSource {
    type Waker = NoopWaker;

    ghost slots = { λ s. s.capacity };

    ghost marks = { MarksNothing };

    ghost steps = { only_takes TakesNext };

    ghost registers_poll = { λ _ old new. IsArmed new × Keeps old new };

    ghost needs = { WaitsNowhere };

    ghost laws = { laws_of_takes MarksNothing TakesNext (λ s. s.capacity) (λ old i new h. h.1)
        (λ old i woke new h. Prim.cc (h.1)) (λ old taken new h. h.2) };

    fn capacity(&self) -> usize {
        self.capacity
    }

    /// Changes nothing: the results are those of the list.
    fn mark(&mut self, _i: usize) -> Woke {
        Woke::Fresh
    }

    fn take(&mut self) -> Taken {
        self.answers.next().unwrap_or(Taken::Empty)
    }

    /// Returns the same waker for each slot, whichever slot was dequeued last.
    fn waker(&self, _i: usize) -> &NoopWaker
        requires { _i < self.now.capacity }
    {
        &self.noop
    }

    fn register(&mut self, cx: &mut Context<'_>) {
        let _pending: Poll<()> = cx.register(&self.source, &mut self.task);
    }
}
