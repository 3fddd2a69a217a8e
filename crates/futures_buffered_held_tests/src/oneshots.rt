//! Which waker a one-shot wakes, what it says of its receiver, what a receipt shows, and what is dropped. What else it
//! answers stands in `one_shots.calls`.
ghost use Rattle.std.specs.Prelude.{◌≡◌, IfOk, IfSome};

use crate::same::assert_same;
use crate::slots::{NO_POLL, Slots};
use futures::task::Poll;
use futures::test::MockTask;
use futures_buffered_core::ready_core::NewFault;
use futures_buffered_core::ready_shared::{SharedReady, SharedWaker};
use futures_buffered_held::oneshot::{Canceled, Receipt, Receiver, Sender, channel};
use futures_buffered_unordered::SlotFuture;
use std::alloc::{AllocError, Global};
use std::test::Fail;
use test_support::counted_source::SourceLog;
use test_support::held::Held;
use test_support::numbered::Numbered;
use test_support::stage::plays_alone;

// The two ends, what a refused sending gave back, a receipt, and the slots of the receiver.
#[derive(Drop)]
struct OneShot {
    sender: Option<Sender<Numbered>>,
    receiver: Option<Receiver<Numbered>>,
    back: Option<Numbered>,
    receipt: Option<Receipt<Numbered>>,
    slots: Slots,
}

fn new_ends(alloc: Global, slots: usize) -> Result<OneShot, NewFault> {
    let slots = Slots::new(alloc, slots)?;
    let (sender, receiver) = channel(alloc)?;
    Ok(OneShot {
        sender: Some(sender),
        receiver: Some(receiver),
        back: None,
        receipt: None,
        slots,
    })
}

impl OneShot {
    // Whether the sender took the value. One that is refused is kept.
    fn send(&mut self, log: &SourceLog, n: u64) -> Option<bool> {
        let value = Numbered::new(&log.items, n).ok()?;
        self.back = match self.sender.take() {
            Some(sender) => sender.send(value).err(),
            None => Some(value),
        };
        Some(self.back.is_none())
    }

    // The same, with a receipt, which is kept.
    fn send_with_receipt(&mut self, log: &SourceLog, n: u64) -> Option<bool> {
        let value = Numbered::new(&log.items, n).ok()?;
        self.receipt = match self.sender.take() {
            Some(sender) => sender.send_with_receipt(value).ok(),
            None => None,
        };
        Some(self.receipt.is_some())
    }

    fn is_canceled(&self) -> Option<bool> {
        Some(self.sender.as_ref()?.is_canceled())
    }
}

impl Held for OneShot {
    fn does(&mut self, log: &SourceLog, word: &str, n: u64) -> bool {
        match word {
            "send" => self.send(log, n) == Some(true),
            "refused" => self.send(log, n) == Some(false),
            "receipt" => self.send_with_receipt(log, n) == Some(true),
            "is_open" => self.is_canceled() == Some(false),
            "is_canceled" => self.is_canceled() == Some(true),
            "drop_sender" => self.sender.take().is_some(),
            "drop_receiver" => self.receiver.take().is_some(),
            "drop_back" => self.back.take().is_some(),
            "drop_receipt" => self.receipt.take().is_some(),
            _ => self.slots.does(word, n),
        }
    }

    fn polled(&mut self, task: &MockTask) -> Poll<Option<u64>> {
        let (Some(waker), Some(receiver)) = (self.slots.waker(task), self.receiver.as_mut()) else {
            return NO_POLL;
        };
        receiver
            .poll(&waker)
            .map(|answer| answer.ok().map(|value| value.number))
    }
}

// The poll that gives the value leaves its slot as it is.
#[test]
fn the_waker_of_the_last_poll_is_woken(rt: HostRuntime) -> Result<(), Fail> {
    let script = "pending, at 1, pending, send 7, slot 1, no_slot, gives 7, no_slot, none, no_slot";
    plays_alone(&rt, new_ends(rt.alloc(), 2), script)
}

// The poll that says so leaves its slot as it is.
#[test]
fn a_sender_that_goes_wakes_a_late_slot_once(rt: HostRuntime) -> Result<(), Fail> {
    let script = "at 100, pending, drop_sender, slot 100, none, no_slot";
    plays_alone(&rt, new_ends(rt.alloc(), 130), script)
}

// The slot has the same number in both sources.
#[test]
fn a_receiver_that_moved_to_another_source(rt: HostRuntime) -> Result<(), Fail> {
    let script = "pending, swap, pending, send 7, slot 0, swap, no_slot";
    plays_alone(&rt, new_ends(rt.alloc(), 1), script)
}

// A value that does not come is dropped with the receiver, whoever keeps the receipt, and one that is handed back by
// whoever has it.
#[test]
fn a_value_that_does_not_come(rt: HostRuntime) -> Result<(), Fail> {
    let taken = "receipt 7, items 0, drop_receiver, items 1, drop_receipt, items 1";
    plays_alone(&rt, new_ends(rt.alloc(), 1), taken)?;
    let refused = "is_open, drop_receiver, is_canceled, refused 7, items 0, drop_back, items 1";
    plays_alone(&rt, new_ends(rt.alloc(), 1), refused)
}

// What a poll gives after a send is what was sent.
fn passes(alloc: Global, waker: &SharedWaker, value: u64) -> Result<Option<u64>, AllocError>
    ensures { IfOk result (λ came. IfSome came (λ x. x ≡ value)) }
{
    let (sender, mut receiver) = channel::<u64>(alloc)?;
    let Ok(receipt) = sender.send_with_receipt(value) else {
        return Ok(None);
    };
    let Poll::Ready(Ok(came)) = receiver.poll(waker) else {
        return Ok(None);
    };
    receipt.compare(&mut receiver);
    Ok(Some(came))
}

#[test]
fn a_receipt_shows_what_came(rt: HostRuntime) -> Result<(), Fail> {
    let source: SharedReady = SharedReady::new(rt.alloc(), 1)?;
    let waker = source.try_waker(0)?;
    assert_same(&rt, passes(rt.alloc(), &waker, 7)?, Some(7));
    Ok(())
}

#[test]
fn a_receipt_that_is_compared_before_the_answer(rt: HostRuntime) -> Result<(), Fail> {
    let (sender, mut receiver) = channel::<u64>(rt.alloc())?;
    let Ok(receipt) = sender.send_with_receipt(7) else {
        return Err("the value was refused".into());
    };
    receipt.compare(&mut receiver);
    Ok(())
}

#[test]
fn the_word_that_the_sender_left(rt: HostRuntime) -> Result<(), Fail> {
    let text = format!(in rt.alloc(); "{Canceled}")?;
    let wanted = "the sender of a one-shot left before it sent a value";
    assert_same(&rt, text.as_str(), wanted);
    Ok(())
}
