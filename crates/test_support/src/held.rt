//! Sets, queues and merges that a script fills and polls.
use crate::counted_source::SourceLog;
use crate::dropped_streams::DroppedStream;
use crate::numbered::Numbered;
use crate::polling::poll_next;
use crate::repeats::{Repeats, same};
use crate::timed::{Timed, late, ready};
use futures::task::Poll;
use futures::test::MockTask;
use futures_buffered_core::ready_core::{NewFault, Woke};
use futures_buffered_core::ready_source::{NewSource, ReadySource};
use futures_buffered_ordered::{FuturesOrdered, FuturesOrderedBounded};
use futures_buffered_unordered::{
    FuturesUnordered, FuturesUnorderedBounded, MergeBounded, MergeUnbounded,
};

/// A set, a queue or a merge whose items are numbers.
pub trait Held: Drop {
    /// Makes a step of this type, and returns whether the step does what the word says.
    fn does(&mut self, log: &SourceLog, word: &str, n: u64) -> bool;

    /// One poll.
    fn polled(&mut self, task: &MockTask) -> Poll<Option<u64>>;
}

// Returns the future that the word is for, with this number.
fn timed(word: &str, n: u64) -> Option<Timed> {
    match word {
        "ready" | "front" => Some(ready(n)),
        "late" => Some(late(n)),
        _ => None,
    }
}

// Marks the first slots, and returns how many of them were not marked.
fn fresh_marks<S: ReadySource>(set: &mut FuturesUnorderedBounded<Timed, S>, slots: u64) -> u64 {
    let mut fresh = 0u64;
    for slot in 0..slots as usize {
        if slot < set.capacity() && set.mark_slot(slot) == Woke::Fresh {
            fresh = fresh.saturating_add(1);
        }
    }
    fresh
}

/// `marks` says that none of the first slots was marked, and `marked` that each was. Both mark them.
impl<S: ReadySource> Held for FuturesUnorderedBounded<Timed, S> {
    fn does(&mut self, _log: &SourceLog, word: &str, n: u64) -> bool {
        match word {
            "count" => self.len() as u64 == n,
            "slots" => self.capacity() as u64 == n,
            "marks" => fresh_marks(self, n) == n,
            "marked" => fresh_marks(self, n) == 0,
            _ => timed(word, n).is_some_and(|future| self.try_push(future).is_ok()),
        }
    }

    fn polled(&mut self, task: &MockTask) -> Poll<Option<u64>> {
        poll_next(task, self)
    }
}

impl<S: NewSource> Held for FuturesUnordered<Timed, S> {
    fn does(&mut self, _log: &SourceLog, word: &str, n: u64) -> bool {
        match word {
            "count" => self.len() as u64 == n,
            "slots" => self.capacity() as u64 == n,
            "clear" => {
                self.clear();
                true
            }
            _ => timed(word, n).is_some_and(|future| self.push(future).is_ok()),
        }
    }

    fn polled(&mut self, task: &MockTask) -> Poll<Option<u64>> {
        poll_next(task, self)
    }
}

impl<S: ReadySource> Held for FuturesOrderedBounded<Timed, S> {
    fn does(&mut self, _log: &SourceLog, word: &str, n: u64) -> bool {
        match timed(word, n) {
            Some(future) if word == "front" => self.try_push_front(future).is_ok(),
            Some(future) => self.try_push_back(future).is_ok(),
            None => word == "count" && self.len() as u64 == n,
        }
    }

    fn polled(&mut self, task: &MockTask) -> Poll<Option<u64>> {
        poll_next(task, self)
    }
}

impl<S: NewSource> Held for FuturesOrdered<Timed, S> {
    fn does(&mut self, _log: &SourceLog, word: &str, n: u64) -> bool {
        match timed(word, n) {
            Some(future) if word == "front" => self.push_front(future).is_ok(),
            Some(future) => self.push_back(future).is_ok(),
            None => word == "count" && self.len() as u64 == n,
        }
    }

    fn polled(&mut self, task: &MockTask) -> Poll<Option<u64>> {
        poll_next(task, self)
    }
}

// Returns whether the word says what the addition returned. `lacks` says that its allocation failed.
fn says_added(word: &str, added: Result<(), NewFault>) -> bool {
    match added {
        Ok(()) => !word.starts_with("lacks"),
        Err(fault) => word.starts_with("lacks") && fault == NewFault::Memory,
    }
}

fn add_to_set<S: NewSource>(
    set: &mut FuturesUnordered<Numbered, S>,
    log: &SourceLog,
    number: u64,
) -> Result<(), NewFault> {
    set.add(Numbered::new(&log.items, number)?)?;
    Ok(())
}

impl<S: NewSource> Held for FuturesUnordered<Numbered, S> {
    fn does(&mut self, log: &SourceLog, word: &str, n: u64) -> bool {
        match word {
            "count" => self.len() as u64 == n,
            "slots" => self.capacity() as u64 == n,
            "add" | "lacks" => says_added(word, add_to_set(self, log, n)),
            _ => false,
        }
    }

    fn polled(&mut self, task: &MockTask) -> Poll<Option<u64>> {
        poll_next(task, self)
    }
}

fn add_to_queue<S: NewSource>(
    queue: &mut FuturesOrdered<Numbered, S>,
    log: &SourceLog,
    word: &str,
    number: u64,
) -> Result<(), NewFault> {
    let future = Numbered::new(&log.items, number)?;
    if word.ends_with("front") {
        queue.add_front(future)?;
    } else {
        queue.add_back(future)?;
    }
    Ok(())
}

impl<S: NewSource> Held for FuturesOrdered<Numbered, S> {
    fn does(&mut self, log: &SourceLog, word: &str, n: u64) -> bool {
        match word {
            "count" => self.len() as u64 == n,
            "back" | "front" | "lacks_back" | "lacks_front" => {
                says_added(word, add_to_queue(self, log, word, n))
            }
            _ => false,
        }
    }

    fn polled(&mut self, task: &MockTask) -> Poll<Option<u64>> {
        poll_next(task, self)
    }
}

fn add_to_merge<S: NewSource>(
    merge: &mut MergeUnbounded<DroppedStream, S>,
    log: &SourceLog,
    left: Option<u64>,
) -> Result<(), NewFault> {
    merge.add(DroppedStream::new(left, log.dropped()?))?;
    Ok(())
}

/// `waits` adds a stream that stays pending, `ends` a stream without items, `add` a stream of one item, and `twice` one
/// of two. `lacks` says that the allocation of `add` failed.
impl<S: NewSource> Held for MergeUnbounded<DroppedStream, S> {
    fn does(&mut self, log: &SourceLog, word: &str, n: u64) -> bool {
        match word {
            "count" => self.len() as u64 == n,
            "waits" => add_to_merge(self, log, None).is_ok(),
            "ends" => add_to_merge(self, log, Some(0)).is_ok(),
            "twice" => add_to_merge(self, log, Some(2)).is_ok(),
            "add" | "lacks" => says_added(word, add_to_merge(self, log, Some(1))),
            _ => false,
        }
    }

    fn polled(&mut self, task: &MockTask) -> Poll<Option<u64>> {
        poll_next(task, self)
    }
}

/// `push` adds by the call that returns nothing, if there is room. `back` says that the merge is full, and returns the
/// stream.
impl<S: ReadySource> Held for MergeBounded<Repeats, S> {
    fn does(&mut self, _log: &SourceLog, word: &str, n: u64) -> bool {
        match word {
            "ready" => self.try_push(same(n, 1)).is_ok(),
            "back" => self.is_full() && self.try_push(same(n, 1)) == Err(same(n, 1)),
            "push" if !self.is_full() => {
                self.push(same(n, 1));
                true
            }
            _ => false,
        }
    }

    fn polled(&mut self, task: &MockTask) -> Poll<Option<u64>> {
        poll_next(task, self)
    }
}
