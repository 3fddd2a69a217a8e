//! Runs of threads over one set: past gates that see each wake, and as a call of the program.
ghost use Rattle.std.specs.Prelude.{◌≡◌, ◌<◌};

use crate::fakes::{ROOMY, Sink, Source};
use crate::same::assert_same;
use fbuf_program::counting_waker::{CountingWaker, MadeWakes, WakeCount};
use fbuf_program::program_words::run_words;
use fbuf_program::threads::{Gate, MAX_WAKES, OpenGate, ThreadsFault, threads_run};
use fbuf_program::watched::Watched;
use futures_buffered_core::ready_source::{SlotHandle, SlotWaker};
use std::alloc::{AllocError, Global};
use std::env::Args;
use std::sync::Arc;
use std::sync::atomic::AtomicU64;
use std::sync::atomic::Ordering::SeqCst;
use std::test::Fail;
use std::thread::yield_now;

const TURNS: u64 = 1000000000;

// A byte for each time that one of two threads passes the gate, before and behind each of its two wakes. It counts how
// often the thread did.
const EACH_ONCE: u64 = 0x0101_0101_0101_0101;

// Both threads came to their first wakes.
const BOTH_CAME: u64 = 0x0000_0001_0000_0001;

// Holds each of two threads before its first wake until the other has come there too. One that goes on alone is counted
// twice.
#[derive(Drop)]
struct Meeting {
    passages: Arc<AtomicU64>,
}

impl Gate for Meeting {
    ghost opens = { λ _ thread wake. (thread < 2) × (wake < 2) };

    fn before(&self, thread: usize, wake: usize) {
        let passage = 1u64 << (32 * thread + 16 * wake);
        self.passages.fetch_add(passage, SeqCst);
        if wake != 0 {
            return;
        }
        for _ in 0..TURNS {
            if self.passages.load(SeqCst) & BOTH_CAME == BOTH_CAME {
                return;
            }
            yield_now();
        }
        self.passages.fetch_add(passage, SeqCst);
    }

    fn after(&self, thread: usize, wake: usize) {
        self.passages
            .fetch_add(1u64 << (32 * thread + 16 * wake + 8), SeqCst);
    }
}

#[test]
fn two_wakers_at_once(rt: HostRuntime) -> Result<(), Fail> {
    let passages = Arc::new(rt.alloc(), AtomicU64::new(0))?;
    let gate = Meeting {
        passages: Arc::try_clone(&passages)?,
    };
    let mut output = Vec::new(rt.alloc());
    let ended = threads_run(rt, rt.alloc(), 2, 2, gate, &mut output);
    assert_same(&rt, ended, Ok(()));
    assert_same(&rt, passages.load(SeqCst), EACH_ONCE);
    let line = b"threads 2 wakes 4 outputs 0 1\n";
    assert_same(&rt, output.as_slice(), line.as_slice());
    Ok(())
}

// Futures that are to count no wake are done before they leave a waker.
#[test]
fn a_run_of_no_wakes_fails(rt: HostRuntime) -> Result<(), Fail> {
    let mut output = Vec::new(rt.alloc());
    let ended = threads_run(rt, rt.alloc(), 2, 0, OpenGate, &mut output);
    assert_same(&rt, ended, Err(ThreadsFault::Memory));
    assert!(rt; output.is_empty());
    Ok(())
}

// Notes how many wakes came, and how many of them were counted when they came.
#[derive(Drop)]
struct Noting<'a> {
    count: &'a WakeCount,
    came: &'a AtomicU64,
    were_counted: &'a AtomicU64,
}

impl<'a> SlotHandle for Noting<'a> {
    ghost use Rattle.std.specs.Prelude.{⊤};

    ghost wakes = { λ _ _. ⊤ };
}

impl<'a> SlotWaker for Noting<'a> {
    ghost use Rattle.std.specs.Prelude.{⊤};

    type Made = ();

    ghost makes = { λ _ _. ⊤ };

    fn wake(&self) {
        let before = self.came.fetch_add(1, SeqCst);
        if self.count.wakes() > before {
            self.were_counted.fetch_add(1, SeqCst);
        }
    }
}

fn wake_often(waker: CountingWaker<'_, Noting<'_>>) -> MadeWakes
    requires { waker ≡ 0 }
{
    let mut waker = waker;
    for _count in 0..MAX_WAKES {
        waker.wake();
    }
    waker.made()
}

// As many wakes as a thread of a run makes at most.
#[test]
fn each_wake_is_counted_and_then_made(rt: HostRuntime) -> Result<(), Fail> {
    let (count, came, were_counted) = (WakeCount::new(), AtomicU64::new(0), AtomicU64::new(0));
    let noting = Noting {
        count: &count,
        came: &came,
        were_counted: &were_counted,
    };
    let made = wake_often(CountingWaker::new(noting, &count));
    assert_same(&rt, made.count(), MAX_WAKES as u64);
    assert_same(&rt, came.load(SeqCst), MAX_WAKES as u64);
    assert_same(&rt, were_counted.load(SeqCst), MAX_WAKES as u64);
    Ok(())
}

// A word that finds no room is dropped here, so that a caller's `?` has none to drop.
fn keep_word(alloc: Global, all: &mut Vec<String>, word: &str) -> Result<(), AllocError> {
    all.push(String::from_str(alloc, word)?)?;
    Ok(())
}

fn args(alloc: Global, words: &[&str]) -> Result<Args, AllocError> {
    let mut all = Vec::new(alloc);
    for word in words {
        keep_word(alloc, &mut all, word)?;
    }
    Ok(all.into_iter())
}

#[test]
fn a_run_of_threads_flushes_its_line(rt: HostRuntime) -> Result<(), Fail> {
    let words = args(rt.alloc(), &["fbuf", "threads", "1", "1"])?;
    let mut input = Watched::new(Source::new(b"len\n", ROOMY));
    let mut output = Watched::new(Sink::new(rt.alloc(), ROOMY));
    let mut errors = Vec::new(rt.alloc());
    let status = run_words(&rt, Ok(words), &mut input, &mut output, &mut errors);
    assert_same(&rt, (status, output.into_inner().flushes), (0, 1));
    Ok(())
}
