//! Scripts on two tasks, 1 and 2, and on sources.
use crate::script::{Scene, says_mark, says_take};
use futures::task::{Poll, Source, Waker};
use futures::test::MockTask;
use futures_buffered_core::ready_core::NewFault;
use futures_buffered_core::ready_shared::{OuterWaker, SharedReady, SharedWaker};
use futures_buffered_core::ready_source::{
    CoreSource, NewSource, ReadySource, ScriptSource, SlotWaker,
};
use std::alloc::Global;
use std::fmt::Debug;
use std::io;
use std::test::Fail;

/// Returns a waker of this slot.
pub fn waker_of<O: OuterWaker>(source: &SharedReady<O>, slot: usize) -> Option<SharedWaker<O>> {
    if slot < source.capacity() {
        source.try_waker(slot).ok()
    } else {
        None
    }
}

/// Wakes the slot by a waker of it.
pub fn wake<O: OuterWaker>(source: &SharedReady<O>, slot: usize) {
    if let Some(waker) = waker_of(source, slot) {
        waker.wake();
    }
}

/// A source, with what differs between sources.
pub trait Kind: ReadySource {
    fn wake_slot(&mut self, _slot: usize) {}

    fn hand_in(&mut self, _waker: Waker) {}

    fn sibling(&mut self, _alloc: Global, _slots: usize) -> Result<Self, NewFault> {
        Err(NewFault::Memory)
    }

    fn leave(self)
    where
        Self: Sized,
    {}
}

impl Kind for ScriptSource {}

impl Kind for CoreSource {
    fn wake_slot(&mut self, slot: usize) {
        if slot < self.capacity() {
            self.waker(slot).wake();
        }
    }

    fn sibling(&mut self, alloc: Global, slots: usize) -> Result<CoreSource, NewFault> {
        self.make_sibling(alloc, slots)
    }

    fn leave(self) {
        self.leave_siblings();
    }
}

impl Kind for SharedReady {
    fn wake_slot(&mut self, slot: usize) {
        wake(self, slot);
    }

    fn hand_in(&mut self, waker: Waker) {
        self.set_outer(waker);
    }

    fn sibling(&mut self, alloc: Global, slots: usize) -> Result<SharedReady, NewFault> {
        self.make_sibling(alloc, slots)
    }

    fn leave(self) {
        self.leave_siblings();
    }
}

/// Two tasks; which of them are woken as far as the script says, in two bits; and the sources, with the number of the
/// one that the next step is at.
#[derive(Drop)]
pub struct Tasks<S: Drop> {
    alloc: Global,
    one: MockTask,
    two: MockTask,
    woken: usize,
    sources: Vec<S>,
    at: usize,
}

// Makes a task that is not woken.
fn resting_task(rt: &HostRuntime) -> io::Result<MockTask> {
    let task = MockTask::new(rt)?;
    task.enter(|_cx| ());
    Ok(task)
}

fn choose<'a>(one: &'a MockTask, two: &'a MockTask, n: usize) -> &'a MockTask {
    if n == 1 { one } else { two }
}

// Registers the task in a poll.
fn register<S: Kind>(task: &MockTask, source: &mut S) {
    task.enter(|cx| source.register(cx));
}

// Hands in a waker of this task.
fn hand_in<S: Kind>(task: &MockTask, source: &mut S) {
    let place = Source::new();
    let mut kept = None;
    let _: Poll<()> = task.enter(|cx| cx.register(&place, &mut kept));
    if let Some(waker) = kept {
        source.hand_in(waker);
    }
}

impl<S: Kind> Tasks<S> {
    /// Two tasks that rest, and this source, number 0.
    pub fn new<E>(rt: &HostRuntime, made: Result<S, E>) -> Result<Tasks<S>, Fail>
    where
        E: Debug + Drop,
    {
        let mut sources = Vec::new(rt.alloc());
        if sources.push(made?).is_err() {
            return Err("no memory".into());
        }
        Ok(Tasks {
            sources,
            alloc: rt.alloc(),
            one: resting_task(rt)?,
            two: resting_task(rt)?,
            woken: 0,
            at: 0,
        })
    }

    fn are_woken(&self) -> usize {
        usize::from(self.one.is_woken()) | usize::from(self.two.is_woken()).wrapping_mul(2)
    }

    // Adds a sibling of the last source, if the word does not say that it is refused.
    fn adds_sibling(&mut self, word: &str, slots: usize) -> bool {
        let Some(last) = self.sources.last_mut() else {
            return false;
        };
        match last.sibling(self.alloc, slots) {
            Ok(sibling) => word == "sibling" && self.sources.push(sibling).is_ok(),
            Err(NewFault::TooLarge) => word == "large_sibling",
            Err(NewFault::Memory) => word == "lacking_sibling",
        }
    }

    // Makes a step in a poll of this task.
    fn enters(&mut self, word: &str, n: usize) -> bool {
        let task = choose(&self.one, &self.two, n);
        let Some(source) = self.sources.get_mut(self.at) else {
            return false;
        };
        match word {
            "poll" => register(task, source),
            "hand_in" => hand_in(task, source),
            _ => task.enter(|_cx| ()),
        }
        self.woken &= !n;
        true
    }

    fn does_at(&mut self, word: &str, n: usize) -> bool {
        let Some(source) = self.sources.get_mut(self.at) else {
            return false;
        };
        match word {
            "mark" | "marked" => n < source.capacity() && says_mark(word, source.mark(n)),
            "slot" | "empty" | "pause" => says_take(word, n, source.take()),
            "slots" => source.capacity() == n,
            "wake" => {
                source.wake_slot(n);
                true
            }
            _ => false,
        }
    }
}

/// `woken` says which task the step before woke; a step after which it does not stand wakes none.
impl<S: Kind> Scene for Tasks<S> {
    fn is_quiet(&mut self, word: &str, n: usize) -> bool {
        if word == "woken" {
            self.woken |= n;
        }
        self.are_woken() == self.woken
    }

    fn does(&mut self, word: &str, n: usize) -> bool {
        match word {
            "woken" => true,
            "at" => {
                self.at = n;
                true
            }
            "poll" | "hand_in" | "rest" => self.enters(word, n),
            "sibling" | "large_sibling" | "lacking_sibling" => self.adds_sibling(word, n),
            "leave" if self.at < self.sources.len() => {
                self.sources.remove(self.at).leave();
                true
            }
            "drop" => {
                self.sources.clear();
                true
            }
            _ => self.does_at(word, n),
        }
    }
}
