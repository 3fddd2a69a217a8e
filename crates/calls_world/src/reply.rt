//! What a line replies, and how that is written.
use crate::memory;
use crate::values::Output;
use futures::task::Poll;
use futures_buffered_core::ready_core::NewFault;
use std::fmt::{self, Display};

/// What a line replies.
#[derive(Clone, Copy)]
pub enum Reply {
    /// There is no such call, object or task.
    Nothing,
    Done(()),
    /// It is written already.
    Written,
    // What a poll gives. The outputs of a join stand beside it.
    Pending,
    Some(u64),
    SomeOk(u64),
    SomeError(u64),
    Ready,
    ReadyOk,
    ReadyError(u64),
    /// The end, or no such value.
    None,
    Full,
    TooLarge,
    /// A request for memory was refused.
    Refused,
    /// It was refused, and what the object says of itself has changed, or a value did not come back.
    Changed,
    /// The value did not reach the receiver.
    Back,
    // What an object or a task says of itself.
    Number(usize),
    Hint((usize, Option<usize>)),
    Is(bool),
    IsWoken(bool),
    /// The place of an event whose slot there is not.
    Wrong(usize),
    /// The place of a step that cannot be made.
    Stuck(usize),
}

impl Reply {
    // The words of a reply without a number.
    fn words(&self) -> &'static str {
        match *self {
            Reply::Nothing => "bad",
            Reply::Done(()) => "ok",
            Reply::Pending => "pending",
            Reply::Ready => "ready",
            Reply::ReadyOk => "ready ok",
            Reply::None => "none",
            Reply::Full => "full",
            Reply::TooLarge => "too large",
            Reply::Refused => "memory",
            Reply::Changed => "refused with a change",
            Reply::Is(true) => "yes",
            Reply::Is(false) => "no",
            Reply::IsWoken(true) => "woken",
            Reply::IsWoken(false) => "quiet",
            Reply::Back => "back",
            _ => "",
        }
    }
}

impl Display for Reply {
    fn fmt<W: fmt::Write>(&self, f: &mut fmt::Formatter<W>) -> fmt::Result {
        match *self {
            Reply::Some(number) => write!(f, "some {number}"),
            Reply::SomeOk(number) => write!(f, "some ok {number}"),
            Reply::SomeError(error) => write!(f, "some err {error}"),
            Reply::ReadyError(error) => write!(f, "ready err {error}"),
            Reply::Number(number) => write!(f, "{number}"),
            Reply::Hint((least, Some(most))) => write!(f, "{least} {most}"),
            Reply::Hint((least, None)) => write!(f, "{least} -"),
            Reply::Wrong(place) => write!(f, "wrong {place}"),
            Reply::Stuck(place) => write!(f, "stuck {place}"),
            _ => f.write_str(self.words()),
        }
    }
}

/// Why nothing was made.
impl From<NewFault> for Reply {
    fn from(fault: NewFault) -> Reply {
        match fault {
            NewFault::Memory => Reply::Refused,
            NewFault::TooLarge => Reply::TooLarge,
        }
    }
}

/// What a poll of a set, a queue, a merge or a buffer gives.
pub trait Item: Drop {
    /// The reply with it.
    fn reply(self) -> Reply;
}

impl Item for Output {
    fn reply(self) -> Reply {
        Reply::Some(self.into_number())
    }
}

impl Item for Result<Output, u64> {
    fn reply(self) -> Reply {
        match self {
            Ok(output) => Reply::SomeOk(output.into_number()),
            Err(error) => Reply::SomeError(error),
        }
    }
}

/// The reply of what gives one after another.
pub fn of_next<T: Item>(polled: Poll<Option<T>>) -> Reply {
    match polled {
        Poll::Pending => Reply::Pending,
        Poll::Ready(None) => Reply::None,
        Poll::Ready(Some(item)) => item.reply(),
    }
}

// The reply beside these outputs, if there is memory for their numbers.
fn of_all(outputs: Vec<Output>, numbers: &mut Vec<u64>, reply: Reply) -> Reply {
    let mut had_memory = true;
    for output in outputs {
        had_memory = memory::push(numbers, output.into_number()) && had_memory;
    }
    if had_memory { reply } else { Reply::Nothing }
}

/// The reply of a join.
pub fn of_outputs(polled: Poll<Vec<Output>>, numbers: &mut Vec<u64>) -> Reply {
    match polled {
        Poll::Pending => Reply::Pending,
        Poll::Ready(outputs) => of_all(outputs, numbers, Reply::Ready),
    }
}

/// The reply of a join whose futures may fail.
pub fn of_results(polled: Poll<Result<Vec<Output>, u64>>, numbers: &mut Vec<u64>) -> Reply {
    match polled {
        Poll::Pending => Reply::Pending,
        Poll::Ready(Ok(outputs)) => of_all(outputs, numbers, Reply::ReadyOk),
        Poll::Ready(Err(error)) => Reply::ReadyError(error),
    }
}

/// The reply of a for-each, or of a try-for-each.
pub fn of_end(polled: Poll<Result<(), u64>>) -> Reply {
    match polled {
        Poll::Pending => Reply::Pending,
        Poll::Ready(Ok(())) => Reply::Ready,
        Poll::Ready(Err(error)) => Reply::ReadyError(error),
    }
}

/// The reply of an object that takes values, and what it replies as it refuses one.
pub fn of_push<T: Drop>(pushed: Result<(), T>, refused: Reply) -> Reply {
    match pushed {
        Ok(()) => Reply::Done(()),
        Err(_) => refused,
    }
}

/// The reply of an object of so many slots: that it is full, if so, and else what it replies as it refuses a value.
pub fn of_full<T: Drop>(pushed: Result<(), T>, is_full: bool, refused: Reply) -> Reply {
    of_push(pushed, if is_full { Reply::Full } else { refused })
}
