//! A script: what one future, stream or source does, poll by poll.
ghost use Rattle.futures.specs.Task.{IsArmed, Keeps};
ghost use Rattle.futures.specs.Poll.{OnPending};

use crate::step::{Action, Step, items_in};
use crate::world::{Event, SharedWorld};
use futures::task::{Context, Poll, Source};
use futures_buffered_core::ready_shared::SharedWaker;
use futures_buffered_held::oneshot::{Canceled, Receiver};
use futures_buffered_unordered::slot_future::{SlotFuture, SlotWaker};
use std::rc::Rc;

/// The script of one value. Its polls and its drop are seen.
pub struct Script {
    pub id: usize,
    steps: Option<Rc<Vec<Step>>>,
    // The place of the next step.
    at: usize,
    /// No poll may follow.
    pub is_over: bool,
    receiver: Option<Receiver<u64>>,
    // What it keeps the waker of a task by.
    source: Source,
    pub world: SharedWorld,
}

impl Drop for Script {
    fn drop(self) {
        let Script {
            id,
            steps: _steps,
            at: _,
            is_over: _,
            receiver: _receiver,
            source: _source,
            world,
        } = self;
        world.see_drop(id);
    }
}

fn asks_receiver(steps: &[Step]) -> bool {
    steps
        .iter()
        .any(|step| matches!(step.action, Action::Receive))
}

impl Script {
    /// The script of the value with this number, from its start.
    pub fn new(world: &SharedWorld, id: usize) -> Script {
        let steps = world.make(id);
        let receiver = match &steps {
            Some(steps) if asks_receiver(steps.as_slice()) => world.new_receiver(id),
            _ => None,
        };
        Script {
            id,
            steps,
            at: 0,
            is_over: false,
            receiver,
            source: Source::new(),
            world: world.share(),
        }
    }

    /// How many items and errors come before the end of a script from its start.
    pub fn items(&self) -> usize {
        match &self.steps {
            Some(steps) => items_in(steps.as_slice()),
            None => 0,
        }
    }

    fn next_step(&self) -> Option<Step> {
        match &self.steps {
            Some(steps) => steps.get(self.at).copied(),
            None => None,
        }
    }

    // Goes on to the next step that ends a poll. One that asks the receiver stays the next.
    fn take_step(&mut self) -> Step {
        let mut wakes = false;
        for _ in 0..u64::MAX {
            let Some(step) = self.next_step() else {
                break;
            };
            wakes = wakes || step.wakes;
            if !matches!(step.action, Action::Receive) {
                self.at = self.at.saturating_add(1);
            }
            match step.action {
                Action::Kick(id) => {
                    let _ = self.world.wake(id);
                }
                Action::Own => {
                    let action = Action::Value(self.id as u64);
                    return Step { wakes, action };
                }
                action => return Step { wakes, action },
            }
        }
        let action = Action::Pending;
        Step { wakes, action }
    }

    // Begins a poll: it is seen, others are woken, and what follows is given.
    fn begin_poll(&mut self) -> Step {
        if self.is_over {
            self.world.see(Event::PolledAfterEnd(self.id));
            return Step {
                wakes: false,
                action: Action::Pending,
            };
        }
        self.world.see(Event::Polled(self.id));
        self.take_step()
    }

    // Asks the receiver.
    fn receive(&mut self, waker: &SharedWaker) -> Action {
        let Some(receiver) = &mut self.receiver else {
            return Action::End;
        };
        match receiver.poll(waker) {
            Poll::Pending => Action::Pending,
            Poll::Ready(Ok(value)) => Action::Value(value),
            Poll::Ready(Err(Canceled)) => Action::Cancel,
        }
    }

    /// One poll in a slot.
    pub fn poll_in_slot(&mut self, waker: &SharedWaker) -> Action {
        let Step { wakes, action } = self.begin_poll();
        if wakes || matches!(action, Action::Pending) {
            self.world.keep(self.id, waker);
        }
        if wakes {
            waker.wake();
        }
        match action {
            Action::Receive => self.receive(waker),
            Action::Slot => Action::Value(waker.slot() as u64),
            action => action,
        }
    }

    // Keeps the waker of the task.
    fn keep(&self, cx: &mut Context<'_>)
        ensures armed { IsArmed cx.new }
        ensures kept { Keeps cx.old cx.new }
    {
        let Some(mut guard) = self.world.open() else {
            let _: Poll<()> = cx.yield_now();
            return;
        };
        let world = &mut *guard;
        let _: Poll<()> = match world.task_waker(self.id) {
            Some(waker) => cx.register(&self.source, waker),
            None => cx.yield_now(),
        };
    }

    /// One poll in a task: what the script does, if that is not to be pending.
    pub fn poll_in_task(&mut self, cx: &mut Context<'_>) -> Poll<Action>
        ensures armed { OnPending result (IsArmed cx.new) }
        ensures kept { Keeps cx.old cx.new }
    {
        let Step { wakes, action } = self.begin_poll();
        if wakes {
            self.keep(cx);
            let _ = self.world.wake(self.id);
        }
        match action {
            Action::Pending => {
                self.keep(cx);
                Poll::Pending
            }
            action => Poll::Ready(action),
        }
    }
}
