//! Wakes that are counted where they are made: nothing else adds to a count, and no wake goes uncounted.
ghost use Rattle.std.specs.Prelude.{◌≡◌, ◌+◌, ◌<◌, ◌^◌};

use futures_buffered_core::ready_source::SlotWaker;
use std::marker::Model;
use std::sync::atomic::AtomicU64;
use std::sync::atomic::Ordering::SeqCst;

/// How often a slot was woken, for the future that it holds.
#[derive(Drop)]
pub struct WakeCount {
    wakes: AtomicU64,
}

impl WakeCount {
    /// Makes a count of no wakes.
    pub fn new() -> WakeCount {
        WakeCount {
            wakes: AtomicU64::new(0),
        }
    }

    /// Returns how many wakes were counted, in any thread. The last wake may be under way.
    pub fn wakes(&self) -> u64 {
        self.wakes.load(SeqCst)
    }
}

/// Wakes that were made, as many as its value says. A waker that made wakes returns it, or it is the sum of others.
#[derive(Drop)]
pub struct MadeWakes {
    wakes: u64,
}

impl Model for MadeWakes {
    ghost use Rattle.std.specs.Prelude.{ℕ};

    ghost Value = { ℕ };

    ghost view = { λ made. made.wakes };
}

impl MadeWakes {
    /// Returns no wakes.
    pub fn none() -> MadeWakes
        ensures { result ≡ 0 }
    {
        MadeWakes { wakes: 0 }
    }

    /// Returns these wakes and the others together, at most as many as a `u64` can count.
    pub fn and(self, others: MadeWakes) -> MadeWakes
        ensures { self + others < 2 ^ 64 → result ≡ self + others }
    {
        MadeWakes {
            wakes: self.wakes.saturating_add(others.wakes),
        }
    }

    /// Returns how many wakes these are.
    pub fn count(&self) -> u64
        ensures { result ≡ self.now }
    {
        self.wakes
    }
}

/// A waker that counts each wake, and then makes it. Its value is how many wakes it has made.
#[derive(Drop)]
pub struct CountingWaker<'a, W> {
    waker: W,
    count: &'a WakeCount,
    made: u64,
}

impl<'a, W> Model for CountingWaker<'a, W> {
    ghost use Rattle.std.specs.Prelude.{ℕ};

    ghost Value = { ℕ };

    ghost view = { λ waker. waker.made };
}

impl<'a, W: SlotWaker + Drop> CountingWaker<'a, W> {
    /// Makes a counting waker that has made no wake.
    pub fn new(waker: W, count: &'a WakeCount) -> CountingWaker<'a, W>
        ensures { result ≡ 0 }
    {
        CountingWaker {
            waker,
            count,
            made: 0,
        }
    }

    /// Adds one to the count, and then wakes the slot. Waits for no thread, and does not allocate.
    pub fn wake(&mut self)
        requires { self.old + 1 < 2 ^ 64 }
        ensures { self.new ≡ self.old + 1 }
    {
        self.count.wakes.fetch_add(1, SeqCst);
        self.waker.wake();
        self.made += 1;
    }

    /// Returns the wakes that it made.
    pub fn made(self) -> MadeWakes
        ensures { result ≡ self.entry }
    {
        MadeWakes { wakes: self.made }
    }
}
