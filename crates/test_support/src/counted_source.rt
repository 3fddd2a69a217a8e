//! A source whose drops and registrations are counted, that is made only as often as a test allows, and that leaves the
//! task's waker to the test.
ghost use Rattle.std.specs.Prelude.{◌<◌};
ghost use Rattle.futures_buffered_core.specs.ReadyCore.{Marks, Takes, core_laws};
ghost use Rattle.futures_buffered_core.specs.ReadySource.{WaitsNowhere, never_waits, only_takes};

use crate::counter::{Counter, new_counter};
use crate::dropped::Dropped;
use futures::task::{Context, Poll, Source, Waker};
use futures_buffered_core::core_source::{CoreSource, NoopWaker};
use futures_buffered_core::ready_core::{MAX_CAPACITY, NewFault, Taken, Woke};
use futures_buffered_core::ready_source::{NewSource, ReadySource};
use std::alloc::{AllocError, Global};
use std::marker::Model;
use std::sync::atomic::AtomicU64;
use std::sync::atomic::Ordering::SeqCst;
use std::sync::{Arc, Mutex};

/// What a test sees of its sources. A source that is dropped wakes nobody while this is kept, since the task's waker
/// stays here.
#[derive(Clone, Drop)]
pub struct SourceLog {
    pub drops: Counter,
    pub registrations: Counter,
    // How many futures and streams that count their drops were dropped.
    pub items: Counter,
    // How many more sources are made. After that memory lacks.
    left: Counter,
    task: Arc<Mutex<Option<Waker>>>,
}

impl SourceLog {
    /// Of as many sources as are asked for.
    pub fn new(alloc: Global) -> Result<SourceLog, AllocError> {
        SourceLog::of(alloc, u64::MAX)
    }

    /// Of so many sources, and no more.
    pub fn of(alloc: Global, sources: u64) -> Result<SourceLog, AllocError> {
        Ok(SourceLog {
            drops: new_counter(alloc)?,
            registrations: new_counter(alloc)?,
            items: new_counter(alloc)?,
            left: Arc::new(alloc, AtomicU64::new(sources))?,
            task: Arc::new(alloc, Mutex::new(None))?,
        })
    }

    /// The same log.
    pub fn try_clone(&self) -> Result<SourceLog, AllocError> {
        self.clone()
    }

    /// Returns a part of a future or a stream. The part counts its drop in `items`.
    pub fn dropped(&self) -> Result<Dropped, AllocError> {
        Ok(Dropped::new(Arc::try_clone(&self.items)?))
    }
}

/// A ready core under one caller. Its drop adds one to the log.
#[derive(Drop)]
pub struct CountedSource {
    core: CoreSource,
    source: Source,
    log: SourceLog,
    // Dropped with the source.
    mark: Dropped,
}

impl Model for CountedSource {
    ghost use Rattle.futures_buffered_core.specs.ReadyCore.{Standing};

    ghost Value = { Standing };

    ghost view = { λ s. s.core };
}

impl ReadySource for CountedSource {
    ghost use Rattle.futures.specs.Task.{IsArmed, Keeps};

    type Waker = NoopWaker;

    ghost slots = { λ s. s.capacity };

    ghost marks = { Marks };

    ghost steps = { only_takes Takes };

    ghost registers_poll = { λ _ old new. IsArmed new × Keeps old new };

    ghost needs = { WaitsNowhere };

    ghost laws = { core_laws };

    fn capacity(&self) -> usize {
        self.core.capacity()
    }

    fn mark(&mut self, i: usize) -> Woke {
        self.core.mark(i)
    }

    fn take(&mut self) -> Taken {
        self.core.take()
    }

    fn waker(&self, i: usize) -> &NoopWaker
        requires { i < self.now.capacity }
    {
        self.core.waker(i)
    }

    fn register(&mut self, cx: &mut Context<'_>) {
        self.log.registrations.fetch_add(1, SeqCst);
        let _: Poll<()> = match self.log.task.try_lock() {
            Some(mut kept) => cx.register(&self.source, &mut kept),
            None => cx.yield_now(),
        };
    }
}

impl NewSource for CountedSource {
    ghost use Rattle.std.specs.Prelude.{◌≡◌, []};

    type Env = SourceLog;

    ghost made = { λ cap new. new ≡ record { capacity = cap; marked = [] } };

    ghost made_slots = { λ cap new h. Prim.cc (h) };

    ghost waits = { never_waits Marks Takes };

    fn make(env: &SourceLog, alloc: Global, cap: usize) -> Result<CountedSource, NewFault> {
        if cap <= MAX_CAPACITY && env.left.load(SeqCst) == 0 {
            return Err(NewFault::Memory);
        }
        let core = CoreSource::make(&(), alloc, cap)?;
        env.left.fetch_sub(1, SeqCst);
        let log = env.try_clone()?;
        let mark = Dropped::new(Arc::try_clone(&env.drops)?);
        Ok(CountedSource {
            core,
            source: Source::new(),
            log,
            mark,
        })
    }

    fn make_sibling(&mut self, alloc: Global, cap: usize) -> Result<CountedSource, NewFault> {
        CountedSource::make(&self.log, alloc, cap)
    }
}
