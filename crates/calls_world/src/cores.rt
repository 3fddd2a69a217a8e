//! A list of events on a ready core, and one of steps on a machine, which is made for them.
use crate::reply::Reply;
use crate::report::Report;
use crate::session::Session;
use crate::text::Text;
use crate::words::{Listed, number, push_words, split_word};
use futures_buffered_core::ready_core::{self, Event, ReadyCore, RunFault, Taken, Woke};
use futures_buffered_table::ready_table::{self, Step, StepFault, StepReply};
use std::alloc::Global;

// What is done so often stands in a line as `take*3`.
fn split_times(word: &str) -> Option<(&str, usize)> {
    match word.split_once('*') {
        Some((word, times)) => Some((word, number(times)?)),
        None => Some((word, 1)),
    }
}

impl Listed for Event {
    fn read(word: &str) -> Option<(Event, usize)> {
        let (words, times) = split_times(word)?;
        let event = match words {
            "take" => Event::Take,
            words => Event::Mark(number(words.strip_prefix("mark ")?)?),
        };
        Some((event, times))
    }

    fn after(self, _places: usize) -> Event {
        self
    }
}

fn step_of(words: &str) -> Option<Step> {
    if words == "step" {
        return Some(Step::Poll);
    }
    let (word, rest) = words.split_once(' ')?;
    Some(match (word, rest.split_once(' ')) {
        ("go", None) => Step::Go {
            seat: number(rest)?,
        },
        ("mark", Some((seat, slot))) => Step::Mark {
            seat: number(seat)?,
            slot: number(slot)?,
        },
        _ => return None,
    })
}

impl Listed for Step {
    fn read(word: &str) -> Option<(Step, usize)> {
        let (words, times) = split_times(word)?;
        Some((step_of(words)?, times))
    }

    fn after(self, _places: usize) -> Step {
        self
    }
}

/// A reply of a core or of a machine.
trait Replied: Copy + Drop + PartialEq {
    fn append(self, text: &mut Text);
}

impl Replied for StepReply {
    fn append(self, text: &mut Text) {
        match self {
            StepReply::More => text.append("more"),
            StepReply::Woke(Woke::Fresh) => text.append("fresh"),
            StepReply::Woke(Woke::Already) => text.append("already"),
            StepReply::Taken(Taken::Slot(slot)) => text.append(format_args!("slot {slot}")),
            StepReply::Taken(Taken::Empty) => text.append("empty"),
            StepReply::Taken(Taken::Pause) => text.append("pause"),
        }
    }
}

impl Replied for ready_core::Reply {
    fn append(self, text: &mut Text) {
        match self {
            ready_core::Reply::Woke(woke) => StepReply::Woke(woke).append(text),
            ready_core::Reply::Taken(taken) => StepReply::Taken(taken).append(text),
        }
    }
}

// One that comes three times or more in a row stands once, with how often.
fn append_times<T: Replied>(text: &mut Text, reply: T, times: usize) {
    if !text.string.is_empty() {
        text.append(", ");
    }
    reply.append(text);
    if times == 2 {
        text.append(", ");
        reply.append(text);
    } else if times > 2 {
        text.append(format_args!("*{times}"));
    }
}

// Appends the replies in order.
fn append_replies<T: Replied>(text: &mut Text, replies: &[T]) -> Reply {
    if replies.is_empty() {
        text.append("-");
    }
    for run in replies.chunk_by(|reply, next| *reply == *next) {
        if let Some(reply) = run.first() {
            append_times(text, *reply, run.len());
        }
    }
    Reply::Written
}

// If memory is refused, and there is no reply, the run is made once more.
fn run_twice(
    core: &mut ReadyCore,
    events: &[Event],
    replies: &mut Vec<ready_core::Reply>,
    report: &mut Report,
) -> Result<(), RunFault> {
    match ready_core::run(core, events, replies) {
        Err(RunFault::Memory) if replies.is_empty() => {}
        done => return done,
    }
    let done = ready_core::run(core, events, replies);
    report.count_again(done.is_ok());
    done
}

// If memory is refused, the steps are made once more.
fn steps_twice(
    alloc: Global,
    slots: usize,
    steps: &[Step],
    report: &mut Report,
) -> Result<Vec<StepReply>, StepFault> {
    match ready_table::steps(alloc, slots, steps) {
        Err(StepFault::Memory) => {}
        done => return done,
    }
    let done = ready_table::steps(alloc, slots, steps);
    report.count_again(done.is_ok());
    done
}

impl Session {
    /// Keeps a new core of as many slots as the line says, for `run`.
    pub fn begin_core(&mut self, rest: &str) -> Option<Reply> {
        let (alloc, slots) = (self.alloc, number(rest)?);
        Some(match self.report.twice(|| ReadyCore::new(alloc, slots)) {
            Ok(core) => {
                self.core = Some(core);
                Reply::Done(())
            }
            Err(fault) => Reply::from(fault),
        })
    }

    fn run_events(&mut self, events: &[Event]) -> Reply {
        let Some(core) = &mut self.core else {
            return Reply::None;
        };
        let mut replies = Vec::new(self.alloc);
        match run_twice(core, events, &mut replies, &mut self.report) {
            Ok(()) => append_replies(&mut self.reply, replies.as_slice()),
            Err(_) if !replies.is_empty() => Reply::Changed,
            Err(RunFault::Event(place)) => Reply::Wrong(place),
            Err(RunFault::Memory) => Reply::Refused,
        }
    }

    /// Does the events of the line on the core that is kept.
    pub fn run(&mut self, rest: &str) -> Option<Reply> {
        let mut events = Vec::new(self.alloc);
        if rest.is_empty() || push_words(&mut events, rest, ", ").is_none() {
            return None;
        }
        Some(self.run_events(events.as_slice()))
    }

    fn step_machine(&mut self, slots: usize, steps: &[Step]) -> Reply {
        match steps_twice(self.alloc, slots, steps, &mut self.report) {
            Ok(replies) => append_replies(&mut self.reply, replies.as_slice()),
            Err(StepFault::Step(place)) => Reply::Stuck(place),
            Err(StepFault::TooLarge) => Reply::TooLarge,
            Err(StepFault::Memory) => Reply::Refused,
        }
    }

    /// Makes the steps of the line on a new machine of as many slots as it says.
    pub fn steps(&mut self, rest: &str) -> Option<Reply> {
        let mut steps = Vec::new(self.alloc);
        let (slots, words) = split_word(rest);
        match number(slots) {
            Some(slots) if !words.is_empty() && push_words(&mut steps, words, ", ").is_some() => {
                Some(self.step_machine(slots, steps.as_slice()))
            }
            _ => None,
        }
    }
}
