//! A session: what holds while the lines of a file are gone through, and what they say of values, tasks and the next
//! object.
use crate::counter::Counter;
use crate::memory::{self, twice};
use crate::reply::Reply;
use crate::report::Report;
use crate::text::Text;
use crate::values::{Given, ItemSource};
use crate::words::{number, span, split_word};
use crate::world::{Fault, SOURCE, SharedWorld};
use futures::test::MockTask;
use futures_buffered_core::ready_core::ReadyCore;
use std::alloc::{AllocError, AllocGlobal, Global};
use std::io;
use std::random::RandomSource;

/// How many tasks there are.
const TASKS: usize = 4;

/// What lines chose for the object that is begun next.
#[derive(Clone, Copy, Default)]
pub struct Options {
    pub limit: Option<usize>,
    /// What the source says of the number of its items.
    pub hint: Option<(usize, Option<usize>)>,
    /// It is made of what a filter lets through, so that its length is not known before.
    pub is_filtered: bool,
    /// It is made by the constructor that takes a source, or what sources are made by.
    pub takes_source: bool,
}

/// Makes the calls that the lines of a file ask for, and compares.
#[derive(Drop)]
pub struct Session {
    pub alloc: Global,
    pub tasks: Vec<MockTask>,
    /// The number of the task that was entered last by a poll.
    pub task: usize,
    pub world: SharedWorld,
    pub options: Options,
    /// What `run` runs on.
    pub core: Option<ReadyCore>,
    pub counter: Counter,
    pub report: Report,
    /// Whether there was an object up to here.
    pub had_object: bool,
    /// The reply to the line.
    pub reply: Text,
    /// The outputs of a join.
    pub outputs: Vec<u64>,
    /// The outputs of all polls of the line.
    pub drained: Vec<u64>,
    /// What the object said of itself before a call, and what it says behind it.
    pub before: Text,
    pub after: Text,
}

fn push_tasks<R: RandomSource + AllocGlobal>(rt: &R, tasks: &mut Vec<MockTask>) -> io::Result<()> {
    for _ in 0..TASKS {
        if !memory::push(tasks, twice(|| MockTask::new(rt))?) {
            return Err(io::Error::from(AllocError));
        }
    }
    Ok(())
}

/// A session in which nothing was said yet. If `is_counted`, what calls ask for is counted.
pub fn new_session<R: RandomSource + AllocGlobal>(rt: &R, is_counted: bool) -> io::Result<Session> {
    let alloc = rt.alloc();
    let mut tasks = Vec::new(alloc);
    push_tasks(rt, &mut tasks)?;
    Ok(Session {
        alloc,
        tasks,
        task: 0,
        world: SharedWorld::new(alloc),
        options: Options::default(),
        core: None,
        counter: Counter::new(alloc, is_counted),
        report: Report::new(alloc),
        had_object: false,
        reply: Text::new(alloc),
        outputs: memory::list(alloc),
        drained: memory::list(alloc),
        before: Text::new(alloc),
        after: Text::new(alloc),
    })
}

/// The number of a task that a line names, or the usual one.
pub fn task_of(rest: &str, usual: usize) -> usize {
    if rest.is_empty() {
        return usual;
    }
    number(rest).unwrap_or(TASKS)
}

/// The first number of a line, or 0.
pub fn first_of(numbers: &[usize]) -> usize {
    numbers.first().copied().unwrap_or(0)
}

// A lower and an upper bound, of which the last may be none.
fn hint_of(rest: &str) -> Option<(usize, Option<usize>)> {
    let (least, most) = rest.split_once(' ')?;
    let most = match most {
        "-" => None,
        most => Some(number(most)?),
    };
    Some((number(least)?, most))
}

impl Session {
    /// Begins a test: all is as at the start.
    pub fn begin_test(&mut self, name: &str) {
        self.report.begin_test(name);
        self.world.reset();
        for task in self.tasks.as_slice() {
            task.enter(|_cx| ());
        }
        self.core = None;
        self.task = 0;
        self.had_object = false;
        self.options = Options::default();
    }

    /// The source that lines chose.
    pub fn source<T: Given>(&self) -> ItemSource<T> {
        ItemSource::new(&self.world, self.options.hint)
    }

    /// Whether that task was woken since it was entered last.
    pub fn woken(&self, task: usize) -> Reply {
        match self.tasks.get(task) {
            Some(task) => Reply::IsWoken(task.is_woken()),
            None => Reply::IsWoken(false),
        }
    }

    /// What went wrong up to the reply of the line, which is appended to it.
    pub fn append_faults(&mut self) {
        if self.reply.has_failed {
            self.world.fail(Fault::Memory);
        }
        match self.world.fault() {
            Some(Fault::Misuse) => self.reply.append(" (a value did what its kind does not)"),
            Some(Fault::Memory) => self.reply.append(" (out of memory)"),
            None => {}
        }
        if self.counter.is_exceeded {
            self.reply.append(" (asked for memory)");
        }
    }

    // Wakes the values that the line names, each of which has kept a waker.
    fn wake(&self, rest: &str) -> Option<Reply> {
        let ids = match rest {
            "source" => SOURCE..1,
            rest => span(rest)?,
        };
        let mut has_each = true;
        for id in ids {
            has_each = self.world.wake(id) && has_each;
        }
        Some(if has_each {
            self.woken(self.task)
        } else {
            Reply::None
        })
    }

    fn send(&self, rest: &str) -> Option<Reply> {
        let (id, value) = rest.split_once(' ')?;
        let (id, value) = (number(id)?, number(value)?);
        Some(match self.world.take_sender(id) {
            Some(sender) => match sender.send(value as u64) {
                Ok(()) => Reply::Done(()),
                Err(_) => Reply::Back,
            },
            None => Reply::None,
        })
    }

    // The reply to `drop`, once the object is gone.
    fn append_drop(&mut self) -> Option<Reply> {
        if !self.had_object {
            return None;
        }
        self.had_object = false;
        self.world.append_dropped(&mut self.reply);
        Some(Reply::Written)
    }

    /// Does what the line says of which no object knows. `None` if it says no such thing.
    pub fn set(&mut self, word: &str, rest: &str) -> Option<Reply> {
        match word {
            "future" | "stream" => {
                let (ids, words) = split_word(rest);
                self.world.define(span(ids)?, words)?;
            }
            "source" => {
                self.options.hint = None;
                self.world.define(SOURCE..1, rest)?;
            }
            "source_hint" => self.options.hint = Some(hint_of(rest)?),
            "with_limit" => self.options.limit = Some(number(rest)?),
            "filtered" => self.options.is_filtered = true,
            "over" => self.options.takes_source = true,
            "enter" => self.tasks.get(task_of(rest, 0))?.enter(|_cx| ()),
            "woken" => return Some(self.woken(task_of(rest, self.task))),
            "wake" => return self.wake(rest),
            "forget" => self.world.put_waker(number(rest)?, None),
            "send" => return self.send(rest),
            "drop_sender" => match self.world.take_sender(number(rest)?) {
                Some(_sender) => {}
                None => return Some(Reply::None),
            },
            "drop" => return self.append_drop(),
            "core" => return self.begin_core(rest),
            "run" => return self.run(rest),
            "steps" => return self.steps(rest),
            _ => return None,
        }
        Some(Reply::Done(()))
    }
}
