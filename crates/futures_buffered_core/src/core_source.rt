//! The source of one caller: a ready core, whose wakers do nothing.
ghost use Rattle.std.specs.Prelude.{◌<◌};
ghost use Rattle.futures.specs.Task.{IsArmed, Keeps};
ghost use Rattle.futures_buffered_core.specs.ReadyCore.{Marks, Takes, core_laws};
ghost use Rattle.futures_buffered_core.specs.ReadySource.{WaitsNowhere, never_waits, only_takes};

use crate::ready_core::{NewFault, ReadyCore, Taken, Woke};
use crate::ready_source::{NewSource, ReadySource, SlotHandle, SlotWaker};
use futures::task::{Context, Poll, Source, Waker};
use std::alloc::Global;
use std::marker::Model;

/// A waker that does nothing.
#[derive(Drop)]
pub struct NoopWaker;

impl SlotHandle for NoopWaker {
    ghost use Rattle.std.specs.Prelude.{⊤};

    ghost wakes = { λ _ _. ⊤ };
}

impl SlotWaker for NoopWaker {
    ghost use Rattle.std.specs.Prelude.{⊤};

    type Made = ();

    ghost makes = { λ _ _. ⊤ };

    fn wake(&self) {}
}

/// A ready core for one caller. Its wakers do nothing, so only its set marks slots, and no mark wakes the task that it
/// keeps. That task is woken if another task registers, or when the source is dropped.
///
/// A contract sees what it sees of the core: the capacity, and the marked slots by their oldest marks that are not yet
/// dequeued. A registration changes nothing of the core.
#[derive(Drop)]
pub struct CoreSource {
    core: ReadyCore,
    noop: NoopWaker,
    source: Source,
    task: Option<Waker>,
}

impl Model for CoreSource {
    ghost use Rattle.futures_buffered_core.specs.ReadyCore.{Standing};

    ghost Value = { Standing };

    ghost view = { λ s. s.core };
}

impl ReadySource for CoreSource {
    type Waker = NoopWaker;

    ghost slots = { λ s. s.capacity };

    ghost marks = { Marks };

    ghost steps = { only_takes Takes };

    ghost registers_poll = { λ _ old new. IsArmed new × Keeps old new };

    ghost needs = { WaitsNowhere };

    ghost laws = { core_laws };

    fn capacity(&self) -> usize {
        self.core.capacity()
    }

    fn mark(&mut self, i: usize) -> Woke {
        self.core.mark(i)
    }

    fn take(&mut self) -> Taken {
        self.core.take()
    }

    /// Returns the same waker for each slot, whichever slot was dequeued last.
    fn waker(&self, _i: usize) -> &NoopWaker
        requires { _i < self.now.capacity }
    {
        &self.noop
    }

    fn register(&mut self, cx: &mut Context<'_>) {
        let _: Poll<()> = cx.register(&self.source, &mut self.task);
    }
}

impl NewSource for CoreSource {
    ghost use Rattle.std.specs.Prelude.{◌≡◌, []};

    type Env = ();

    ghost made = { λ cap new. new ≡ record { capacity = cap; marked = [] } };

    ghost made_slots = { λ cap new h. Prim.cc (h) };

    ghost waits = { never_waits Marks Takes };

    fn make(_env: &(), alloc: Global, cap: usize) -> Result<CoreSource, NewFault> {
        let core = ReadyCore::new(alloc, cap)?;
        Ok(CoreSource {
            core,
            noop: NoopWaker,
            source: Source::new(),
            task: None,
        })
    }

    fn make_sibling(&mut self, alloc: Global, cap: usize) -> Result<CoreSource, NewFault> {
        CoreSource::make(&(), alloc, cap)
    }
}
