//! What one poll of a future or a stream does.
use crate::words::{Listed, number};

/// How a poll ends, or what it does before that.
#[derive(Clone, Copy)]
pub enum Action {
    Pending,
    Value(u64),
    /// The value's own number.
    Own,
    /// A value whose drop is seen.
    Output(u64),
    Error(u64),
    /// A future is ready with the slot of its waker.
    Slot,
    End,
    /// As the receiver of a one-shot answers, in this poll and in each one behind it.
    Receive,
    /// The receiver's sender is gone.
    Cancel,
    /// Wakes the waker that this value kept last. The next step belongs to the same poll.
    Kick(usize),
}

/// One step of a list.
#[derive(Clone, Copy)]
pub struct Step {
    /// It wakes its own waker before that.
    pub wakes: bool,
    pub action: Action,
}

fn action_of(word: &str) -> Option<Action> {
    if let Some((kind, rest)) = word.split_once(':') {
        let value = number(rest)?;
        return match kind {
            "output" => Some(Action::Output(value as u64)),
            "err" => Some(Action::Error(value as u64)),
            "kick" => Some(Action::Kick(value)),
            _ => None,
        };
    }
    Some(match word {
        "pending" => Action::Pending,
        "=" => Action::Own,
        "slot" => Action::Slot,
        "end" => Action::End,
        "receive" => Action::Receive,
        _ => Action::Value(number(word)? as u64),
    })
}

impl Listed for Step {
    // `1..70` is an item for each of these numbers.
    fn read(word: &str) -> Option<(Step, usize)> {
        let (wakes, rest) = match word.strip_prefix("waking:") {
            Some(rest) => (true, rest),
            None if word == "yield" => (true, "pending"),
            None => (false, word),
        };
        if let Some(action) = action_of(rest) {
            return Some((Step { wakes, action }, 1));
        }
        let (first, count) = usize::read(word)?;
        let action = Action::Value(first as u64);
        Some((Step { wakes, action }, count))
    }

    fn after(self, places: usize) -> Step {
        match self.action {
            Action::Value(number) => Step {
                action: Action::Value(number.saturating_add(places as u64)),
                ..self
            },
            _ => self,
        }
    }
}

/// How many items and errors come before the end.
pub fn items_in(steps: &[Step]) -> usize {
    let mut count = 0usize;
    for step in steps {
        match step.action {
            Action::End => return count,
            Action::Pending | Action::Receive | Action::Cancel | Action::Kick(_) => {}
            _ => count = count.saturating_add(1),
        }
    }
    count
}
