//! Scripts on what is polled in one task: what a test does and what comes of it, a word for each step, with a number if
//! it needs one.
use crate::counted_source::SourceLog;
use crate::held::Held;
use futures::task::Poll;
use futures::test::MockTask;
use futures_buffered_core::ready_core::NewFault;
use std::alloc::AllocGlobal;
use std::random::RandomSource;
use std::sync::atomic::Ordering::SeqCst;
use std::test::Fail;

// A task, the log of the sources, and what is polled until the script drops it.
#[derive(Drop)]
struct Stage<H: Held> {
    task: MockTask,
    log: SourceLog,
    held: Option<H>,
}

// Makes the step for each number below `n`, upwards or downwards.
fn does_each<H: Held>(held: &mut H, log: &SourceLog, word: &str, n: u64, is_down: bool) -> bool {
    for number in 0..n {
        let at = if is_down { n - 1 - number } else { number };
        if !held.does(log, word, at) {
            return false;
        }
    }
    true
}

// Returns whether the next items are the numbers below `n`, or as many ones.
fn gives_each<H: Held>(held: &mut H, task: &MockTask, n: u64, are_ones: bool) -> bool {
    for number in 0..n {
        let wanted = if are_ones { 1 } else { number };
        if held.polled(task) != Poll::Ready(Some(wanted)) {
            return false;
        }
    }
    true
}

fn adds<H: Held>(held: &mut H, log: &SourceLog, word: &str, n: u64) -> bool {
    if let Some(word) = word.strip_prefix("each_") {
        return does_each(held, log, word, n, false);
    }
    match word.strip_prefix("down_") {
        Some(word) => does_each(held, log, word, n, true),
        None => held.does(log, word, n),
    }
}

fn does_on<H: Held>(held: &mut H, task: &MockTask, log: &SourceLog, word: &str, n: u64) -> bool {
    match word {
        "gives" => held.polled(task) == Poll::Ready(Some(n)),
        "gives_each" => gives_each(held, task, n, false),
        "gives_ones" => gives_each(held, task, n, true),
        "none" => held.polled(task) == Poll::Ready(None),
        "pending" => held.polled(task) == Poll::Pending,
        // A ready future is refused.
        "full" => !held.does(log, "ready", n),
        "full_front" => !held.does(log, "front", n),
        _ => adds(held, log, word, n),
    }
}

impl<H: Held> Stage<H> {
    // Makes a step, and returns whether the step does what the word says.
    fn does(&mut self, word: &str, n: u64) -> bool {
        match word {
            "woken" => self.task.is_woken(),
            "asleep" => !self.task.is_woken(),
            "sources" => self.log.drops.load(SeqCst) == n,
            "items" => self.log.items.load(SeqCst) == n,
            "registered" => self.log.registrations.load(SeqCst) == n,
            "drop" => {
                self.held = None;
                true
            }
            _ => match &mut self.held {
                Some(held) => does_on(held, &self.task, &self.log, word, n),
                None => false,
            },
        }
    }

    // Makes each step of the script, as `ready 5, gives 5, none`. Fails at the first that does not do what it says.
    fn play(&mut self, script: &str) -> Result<(), Fail> {
        for (place, step) in script.split(", ").enumerate() {
            let (word, number) = step.split_once(' ').unwrap_or((step, "0"));
            if !self.does(word, number.parse().unwrap_or(u64::MAX)) {
                return Err(Fail::new(format_args!(
                    "step {place} does not do what it says: {step}"
                )));
            }
        }
        Ok(())
    }
}

/// Plays a script in a new task. `sources` and `items` say how many the set has dropped, and `registered` how often a
/// source was registered with.
pub fn plays<H: Held>(
    rt: &(impl RandomSource + AllocGlobal),
    made: Result<(SourceLog, H), Fail>,
    script: &str,
) -> Result<(), Fail> {
    let (log, held) = made?;
    let task = MockTask::new(rt)?;
    let mut stage = Stage {
        task,
        log,
        held: Some(held),
    };
    stage.play(script)
}

/// Plays a script on what has no log.
pub fn plays_alone<H: Held>(
    rt: &(impl RandomSource + AllocGlobal),
    made: Result<H, NewFault>,
    script: &str,
) -> Result<(), Fail> {
    let held = made?;
    match SourceLog::new(rt.alloc()) {
        Ok(log) => plays(rt, Ok((log, held)), script),
        Err(_) => Err("no memory".into()),
    }
}
