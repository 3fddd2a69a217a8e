//! Bells, one for each slot, in tables that a set makes with its slots. A bell wakes a run that was cancelled.
ghost use Rattle.std.specs.Prelude.{◌≡◌, IfOk, IfSome, OnOk, ◌<◌, slice_index_or};
ghost use Rattle.std.specs.Arc.{arc_value};
ghost use Rattle.futures.specs.Task.{Keeps};
ghost use Rattle.futures_buffered_in_flight.specs.Bells.{notes_of};

use crate::in_flight::Came;
use crate::ledger::{Ledger, Notes, Notice};
use crate::run::Key;
use futures::spin::lock;
use futures::task::{Context, Poll, Source, Waker};
use std::alloc::{AllocError, Global};
use std::sync::atomic::AtomicU64;
use std::sync::atomic::Ordering::SeqCst;
use std::sync::{Arc, Mutex};

// The bell of a slot. Its waker serves each run in the slot whose task has the same number. The set of `futures` uses a
// number again and again, and slots and numbers become free in the same order, apart from cancels. So a run mostly has
// the number of the run before it in its slot, and a pending poll costs two loads here.
#[derive(Drop)]
struct Bell {
    // One more than the number of the waker's task, or 0 if there is no waker.
    task: AtomicU64,
    waker: Mutex<Option<Waker>>,
}

impl Bell {
    // Takes the waker, which wakes its task. Returns whether there was one.
    fn wake(&self) -> bool {
        if self.task.load(SeqCst) == 0 {
            return false;
        }
        self.task.store(0, SeqCst);
        let woken = lock(&self.waker).map(|mut waker| waker.take());
        drop(woken);
        true
    }
}

/// The key and the tag of a future whose slot was freed. The value is not `Drop`: `with` makes it part of the future's
/// output, and [`Tables::ring`] ends the future. So a cancel that rings no bell does not compile.
pub struct Freed<T> {
    key: Key,
    tag: T,
}

impl<T> Freed<T> {
    pub fn new(key: Key, tag: T) -> Freed<T>
        ensures { (result.key ≡ key) × (result.tag ≡ tag) }
    {
        Freed { key, tag }
    }

    /// Returns the output with its key and its tag.
    pub fn with<A>(self, output: A) -> Came<A, T>
        ensures { result ≡ record { key = self.key; tag = self.tag; output = output } }
    {
        let Freed { key, tag } = self;
        Came { key, tag, output }
    }
}

/// A table of bells, in at most two allocations.
#[derive(Drop)]
pub struct Bells {
    // 1 if a run was cancelled and has not ended, otherwise 0.
    rung: AtomicU64,
    pub notes: Arc<Notes>,
    source: Source,
    bells: Vec<Bell>,
}

impl Bells {
    /// Makes a table of `n` bells. Allocates at most twice, and takes time in proportion to `n`.
    pub fn new(alloc: Global, n: usize, notes: Arc<Notes>) -> Result<Arc<Bells>, AllocError>
        ensures { IfOk result (λ made. (arc_value made).notes ≡ notes) }
    {
        let mut bells = Vec::with_capacity(alloc, n)?;
        for _slot in 0..n {
            bells.push(Bell {
                task: AtomicU64::new(0),
                waker: Mutex::new(None),
            })?;
        }
        let bells = Bells {
            rung: AtomicU64::new(0),
            notes,
            source: Source::new(),
            bells,
        };
        Ok(Arc::new(alloc, bells)?)
    }

    /// Returns a notice if the run of this push was cancelled. Takes one load, unless a run of the set was cancelled and
    /// has not ended.
    pub fn notice(&self, key: Key) -> Option<Notice>
        ensures { IfSome result (λ notice. (notice.id ≡ arc_value self.now.notes)
            × (key.push < slice_index_or notice.told key.slot 0)) }
    {
        if self.rung.load(SeqCst) == 0 {
            return None;
        }
        self.notes.look(key)
    }

    /// Leaves a waker of the polling task in the bell of this slot, if the bell has none of this task. Wakes the task of
    /// the waker that was there.
    pub fn leave_waker(&self, slot: usize, cx: &mut Context<'_>)
        ensures { Keeps cx.old cx.new }
    {
        let Some(bell) = self.bells.get(slot) else {
            return;
        };
        let name = (cx.task() as u64).wrapping_add(1);
        if bell.task.load(SeqCst) == name {
            return;
        }
        let Some(mut waker) = lock(&bell.waker) else {
            let _: Poll<()> = cx.yield_now();
            return;
        };
        let _: Poll<()> = cx.register(&self.source, &mut waker);
        bell.task.store(name, SeqCst);
    }

    /// Makes each run look whether it was cancelled, and wakes the task whose waker the slot of this push has. That is
    /// the task of this run, or of an earlier run in the slot.
    pub fn ring(&self, key: Key) {
        self.rung.store(1, SeqCst);
        if let Some(bell) = self.bells.get(key.slot) {
            // A run that was not polled yet is polled in any case.
            bell.wake();
        }
    }

    /// Ends the looks: each run that was cancelled has ended.
    pub fn rest(&self) {
        self.rung.store(0, SeqCst);
    }

    /// Wakes the task of one run that left a waker, and returns whether any run did. Takes time in proportion to the
    /// number of bells.
    pub fn wake_any(&self) -> bool {
        self.bells.iter().any(|bell| bell.wake())
    }

    /// Drops all wakers, since the set of `futures` that they lead to was dropped. That wakes the tasks whose polls
    /// left them.
    pub fn let_all_go(&self) {
        for bell in &self.bells {
            bell.wake();
        }
    }
}

/// The tables of a set. The newest table has a bell for each slot, and the older tables together have no more bells
/// than it.
///
/// A run looks at the table that was the newest when the run started, which has a bell for its slot.
#[derive(Drop)]
pub struct Tables {
    pub newest: Arc<Bells>,
    // The tables that the set outgrew, until all runs are dropped.
    older: Vec<Arc<Bells>>,
}

impl Tables {
    /// Makes one table of `n` bells, whose runs read these notes.
    pub fn new(alloc: Global, n: usize, notes: Arc<Notes>) -> Result<Tables, AllocError>
        ensures { IfOk result (λ tables. notes_of (arc_value tables.newest) ≡ arc_value notes) }
    {
        let newest = Bells::new(alloc, n, notes)?;
        Ok(Tables {
            newest,
            older: Vec::new(alloc),
        })
    }

    /// Returns the table for a run that starts, or `None` if it is shared too often.
    pub fn newest(&self) -> Option<Arc<Bells>>
        ensures { IfSome result (λ bells. arc_value bells ≡ arc_value self.now.newest) }
    {
        Arc::try_clone(&self.newest).ok()
    }

    /// If the newest table has fewer than `slots` bells, makes a newer one for all slots, with at least twice the
    /// bells, and numbers in the ledger. If an allocation fails, the tables do not change.
    pub fn reserve(
        &mut self,
        alloc: Global,
        slots: usize,
        ledger: &mut Ledger,
    ) -> Result<(), AllocError>
        ensures notes { notes_of (arc_value self.new.newest) ≡ notes_of (arc_value self.old.newest) }
        ensures ledger { ledger.new ≡ ledger.old }
    {
        let bells = self.newest.bells.len();
        if slots <= bells {
            return Ok(());
        }
        let slots = slots.max(bells.saturating_mul(2));
        self.older.reserve(1)?;
        ledger.reserve(alloc, slots)?;
        let notes = Arc::try_clone(&self.newest.notes)?;
        let newest = Bells::new(alloc, slots, notes)?;
        self.older
            .push_reserved(std::mem::replace(&mut self.newest, newest));
        Ok(())
    }

    /// Makes the run of this future look whether it was cancelled, wakes it if its poll was pending, and returns its tag. Goes over all
    /// tables, one for each doubling. A run that waited for memory looks at a newer table than the newest one at its
    /// push. The slot of a table may have the task of another run, which is woken too.
    pub fn ring<T>(&self, freed: Freed<T>) -> T
        ensures { result ≡ freed.tag }
    {
        let Freed { key, tag } = freed;
        self.newest.ring(key);
        for bells in &self.older {
            bells.ring(key);
        }
        tag
    }

    /// Ends the looks of runs: each run that was cancelled has ended.
    pub fn rest(&self) {
        self.newest.rest();
        for bells in &self.older {
            bells.rest();
        }
    }

    /// Wakes the task of one run that left a waker, if any run did.
    pub fn wake_any(&self) {
        let _ = self.newest.wake_any() || self.older.iter().any(|bells| bells.wake_any());
    }

    /// Drops all wakers and the older tables, since all runs were dropped. That wakes the tasks whose polls left the
    /// wakers.
    pub fn let_all_go(&mut self)
        ensures { notes_of (arc_value self.new.newest) ≡ notes_of (arc_value self.old.newest) }
    {
        self.newest.let_all_go();
        for bells in &self.older {
            bells.let_all_go();
        }
        self.older.clear();
    }
}
