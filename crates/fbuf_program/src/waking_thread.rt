//! A thread that makes wakes, and that has to be joined.
ghost use Rattle.std.specs.Prelude.{◌≡◌, ℕ, ◌<◌, ◌^◌, IfSome, sum};

use crate::counting_waker::MadeWakes;
use std::marker::Model;
use std::thread::{self, Promise, PromisedHandle, Threads};

// The promise of a thread to make this many wakes.
#[derive(Clone, Copy)]
struct Makes(usize);

impl Promise<MadeWakes> for Makes {
    ghost use Rattle.std.specs.Prelude.{◌≡◌};

    ghost kept_by = { λ promise made. made ≡ promise.0 };
}

/// A thread that makes as many wakes as its value says. It is not `Drop`, so its owner has to join it.
pub struct WakingThread {
    handle: PromisedHandle<MadeWakes, Makes>,
}

impl Model for WakingThread {
    ghost use Rattle.std.specs.Prelude.{ℕ};

    ghost Value = { ℕ };

    ghost view = { λ thread. thread.handle.promise.0 };
}

impl WakingThread {
    /// Starts a thread that calls the closure, which makes this many wakes. If no thread can be started, returns
    /// `None` and drops the closure.
    pub fn start<R, F>(rt: &R, wakes: usize, run: F) -> Option<WakingThread>
    where
        R: Threads,
        F: FnOnce() -> MadeWakes + Send + Drop + 'static,
        requires runs { F.pre run }
        requires makes { (made : ℕ) → F.post run made → made ≡ wakes }
        ensures { IfSome result (λ thread. thread ≡ wakes) }
    {
        match thread::spawn_with(rt, Makes(wakes), run) {
            Ok(handle) => Some(WakingThread { handle }),
            Err(_) => None,
        }
    }

    /// Waits until the thread has ended, and returns the wakes that it made.
    pub fn join<R: Threads>(self, rt: &R) -> MadeWakes
        ensures { result ≡ self }
    {
        let WakingThread { handle } = self;
        handle.join(rt)
    }
}

/// Waits until each thread has ended, and adds up the wakes that they made.
#[tactic(auto, using(crate::proofs::WakingThreadLemmas::sum_pushed, crate::proofs::WakingThreadLemmas::sum_of_none))]
pub fn join_each<R: Threads>(rt: &R, threads: Vec<WakingThread>) -> MadeWakes
    ensures { sum threads.items < 2 ^ 64 → result ≡ sum threads.items }
{
    let mut threads = threads;
    let mut all = MadeWakes::none();
    for _count in 0..threads.len() {
        let Some(thread) = threads.pop() else {
            unreachable!()
        };
        all = all.and(thread.join(rt));
    }
    threads.destroy_empty();
    all
}
