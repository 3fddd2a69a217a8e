//! The slots at which a script polls the receiver of a one-shot or a channel.
use futures::task::Poll;
use futures::test::MockTask;
use futures_buffered_core::ready_core::{NewFault, Taken};
use futures_buffered_core::ready_shared::{SharedReady, SharedWaker};
use futures_buffered_core::ready_source::ReadySource;
use std::alloc::Global;

/// What a poll that cannot be made returns: no script sends this number.
pub const NO_POLL: Poll<Option<u64>> = Poll::Ready(Some(u64::MAX));

/// Two sources of as many slots, and the slot of the next poll. Polls are at the first source.
#[derive(Drop)]
pub struct Slots {
    source: Option<SharedReady>,
    other: Option<SharedReady>,
    at: usize,
}

impl Slots {
    pub fn new(alloc: Global, count: usize) -> Result<Slots, NewFault> {
        let source = SharedReady::new(alloc, count)?;
        let other = SharedReady::new(alloc, count)?;
        Ok(Slots {
            source: Some(source),
            other: Some(other),
            at: 0,
        })
    }

    /// Registers the task, and returns a waker of the slot.
    pub fn waker(&mut self, task: &MockTask) -> Option<SharedWaker> {
        let source = self.source.as_mut()?;
        task.enter(|cx| source.register(cx));
        if self.at >= source.capacity() {
            return None;
        }
        source.try_waker(self.at).ok()
    }

    fn ready_slot(&mut self) -> Option<usize> {
        match self.source.as_mut()?.take() {
            Taken::Slot(slot) => Some(slot),
            _ => None,
        }
    }

    /// `at` says at which slot later polls are, and `slot` which slot the source finds ready.
    pub fn does(&mut self, word: &str, n: u64) -> bool {
        match word {
            "at" => {
                self.at = n as usize;
                true
            }
            "slot" => self.ready_slot() == Some(n as usize),
            "no_slot" => self.ready_slot() == None,
            "swap" => {
                std::mem::swap(&mut self.source, &mut self.other);
                true
            }
            "drop_source" => self.source.take().is_some(),
            _ => false,
        }
    }
}
