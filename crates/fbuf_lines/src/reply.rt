//! The reply to a line of a script.
ghost use Rattle.std.specs.Prelude.{◌≡◌, ◌++◌, ◌+◌, ◌≤◌, length, vec_len, vec_capacity};
ghost use Rattle.std.specs.Prelude.{OnOk, OnErr};
ghost use Rattle.std.specs.Fmt.{decimal};
ghost use Rattle.fbuf_lines.specs.Reply.{reply_line, line_feed};

use futures::task::Poll;
use futures_buffered_core::ready_core::{Taken, Woke};
use futures_buffered_core::ready_table::StepReply;
use itoa::Buffer;
use std::alloc::AllocError;

/// The reply to one line.
#[derive(Clone, Copy, Debug, PartialEq, Eq)]
pub enum Reply {
    /// `ok`: the target was begun, the future was pushed, or the limit was set.
    Done,
    /// `full`: no slot is free, and nothing changed.
    Full,
    /// `large`: the capacity is too large, and the target before stays.
    TooLarge,
    /// `some V`: a poll returned this output.
    Output(u64),
    /// `pending`: a poll was pending.
    Pending,
    /// `none`: a poll returned `None`, since nothing is held.
    Ended,
    /// `fresh`: the slot was not marked.
    Fresh,
    /// `already`: the slot was marked.
    Already,
    /// A number: so many are held.
    Count(usize),
    /// `more`: the step did not end its call.
    More,
    /// `slot I`: a dequeue ended with this slot.
    Slot(usize),
    /// `empty`: a dequeue ended, since no slot was in the list.
    Empty,
    /// `pause`: a dequeue ended, since a waker is about to write a link.
    Pause,
    /// `stuck`: the seat cannot make the step now, or there is no such seat or slot; nothing changed.
    Stuck,
    /// `bad`: the line is not in the grammar, or cannot be carried out now; nothing changed.
    Bad,
}

// Room for any reply: the longest is `some`, a space, a number of 20 digits and a line feed.
const REPLY_ROOM: usize = 48;

// Appends the word before the number, the number and a line feed. If an allocation fails, appends
// nothing.
fn append_number(text: &mut Vec<u8>, before: &[u8], number: u64) -> Result<(), AllocError>
    requires { length before.now ≤ 8 }
    ensures ok { OnOk result
        (text.new.items ≡ text.old.items ++ before.now ++ decimal number ++ line_feed) }
    ensures err { OnErr result (text.new.items ≡ text.old.items) }
{
    text.reserve(REPLY_ROOM)?;
    let mut digits = Buffer::new();
    append_reserved(text, before);
    append_reserved(text, digits.format(number).as_bytes());
    append_reserved(text, b"\n");
    Ok(())
}

fn append_reserved(text: &mut Vec<u8>, piece: &[u8])
    requires { vec_len text.old + length piece.now ≤ vec_capacity text.old }
    ensures items { text.new.items ≡ text.old.items ++ piece.now }
    ensures len { vec_len text.new ≡ vec_len text.old + length piece.now }
    ensures capacity { vec_capacity text.new ≡ vec_capacity text.old }
{
    for byte in piece {
        text.push_reserved(*byte);
    }
}

impl Reply {
    ghost use Rattle.fbuf_lines.specs.Reply.{woke_reply, poll_reply, step_reply};

    /// Returns the reply to a mark. Does not allocate.
    pub fn of_woke(woke: Woke) -> Reply
        ensures { result ≡ woke_reply woke }
    {
        match woke {
            Woke::Fresh => Reply::Fresh,
            Woke::Already => Reply::Already,
        }
    }

    /// Returns the reply to a poll. Does not allocate.
    pub fn of_poll(polled: Poll<Option<u64>>) -> Reply
        ensures { result ≡ poll_reply polled }
    {
        match polled {
            Poll::Ready(Some(value)) => Reply::Output(value),
            Poll::Ready(None) => Reply::Ended,
            Poll::Pending => Reply::Pending,
        }
    }

    /// Returns the reply to a step. Does not allocate.
    pub fn of_step(reply: StepReply) -> Reply
        ensures { result ≡ step_reply reply }
    {
        match reply {
            StepReply::More => Reply::More,
            StepReply::Woke(woke) => Reply::of_woke(woke),
            StepReply::Taken(Taken::Slot(slot)) => Reply::Slot(slot),
            StepReply::Taken(Taken::Empty) => Reply::Empty,
            StepReply::Taken(Taken::Pause) => Reply::Pause,
        }
    }

    /// Appends the reply's line, of at most 26 bytes, to the text. Allocates if the text has no room
    /// left. If that fails, returns `Err` and appends nothing.
    pub fn append_to(self, text: &mut Vec<u8>) -> Result<(), AllocError>
        ensures ok { OnOk result (text.new.items ≡ text.old.items ++ reply_line self) }
        ensures err { OnErr result (text.new.items ≡ text.old.items) }
    {
        match self {
            Reply::Done => text.extend_from_slice(b"ok\n"),
            Reply::Full => text.extend_from_slice(b"full\n"),
            Reply::TooLarge => text.extend_from_slice(b"large\n"),
            Reply::Output(value) => append_number(text, b"some ", value),
            Reply::Pending => text.extend_from_slice(b"pending\n"),
            Reply::Ended => text.extend_from_slice(b"none\n"),
            Reply::Fresh => text.extend_from_slice(b"fresh\n"),
            Reply::Already => text.extend_from_slice(b"already\n"),
            Reply::Count(count) => append_number(text, b"", count as u64),
            Reply::More => text.extend_from_slice(b"more\n"),
            Reply::Slot(slot) => append_number(text, b"slot ", slot as u64),
            Reply::Empty => text.extend_from_slice(b"empty\n"),
            Reply::Pause => text.extend_from_slice(b"pause\n"),
            Reply::Stuck => text.extend_from_slice(b"stuck\n"),
            Reply::Bad => text.extend_from_slice(b"bad\n"),
        }
    }
}
