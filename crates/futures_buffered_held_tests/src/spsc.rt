//! A channel from one sender: what comes and in which order, whom a sending wakes, what is refused, and what is
//! dropped.
use crate::same::assert_same;
use crate::slots::{NO_POLL, Slots};
use futures::task::Poll;
use futures::test::MockTask;
use futures_buffered_core::ready_core::{MAX_CAPACITY, NewFault};
use futures_buffered_core::ready_shared::SharedReady;
use futures_buffered_held::spsc::{Receiver, Sender, TryRecvError, TrySendError, channel};
use futures_buffered_unordered::{MergeBounded, SlotStream};
use std::alloc::Global;
use std::test::Fail;
use test_support::counted_source::SourceLog;
use test_support::held::Held;
use test_support::numbered::Numbered;
use test_support::pairs::pairs;
use test_support::polling::poll_next;
use test_support::stage::plays_alone;

// The two ends, and the slots of the receiver.
#[derive(Drop)]
struct Channel {
    sender: Option<Sender<Numbered>>,
    receiver: Option<Receiver<Numbered>>,
    slots: Slots,
}

fn new_ends(alloc: Global, slots: usize, capacity: usize) -> Result<Channel, NewFault> {
    let slots = Slots::new(alloc, slots)?;
    let (sender, receiver) = channel(alloc, capacity)?;
    Ok(Channel {
        sender: Some(sender),
        receiver: Some(receiver),
        slots,
    })
}

impl Channel {
    // What the sender says of the value, if there is a sender.
    fn sent(&mut self, log: &SourceLog, n: u64) -> Option<Result<(), TrySendError<u64>>> {
        let sender = self.sender.as_mut()?;
        let value = Numbered::new(&log.items, n).ok()?;
        Some(match sender.try_send(value) {
            Ok(()) => Ok(()),
            Err(TrySendError::Full(back)) => Err(TrySendError::Full(back.number)),
            Err(TrySendError::Closed(back)) => Err(TrySendError::Closed(back.number)),
        })
    }

    fn received(&mut self) -> Option<Result<u64, TryRecvError>> {
        let answer = self.receiver.as_mut()?.try_recv();
        Some(answer.map(|value| value.number))
    }

    fn is_closed(&mut self) -> Option<bool> {
        Some(self.sender.as_mut()?.is_closed())
    }

    // Whether the sender finds its receiver there at its end.
    fn finishes(&mut self) -> Option<bool> {
        Some(self.sender.take()?.finish().is_some())
    }
}

impl Held for Channel {
    fn does(&mut self, log: &SourceLog, word: &str, n: u64) -> bool {
        match word {
            "send" => self.sent(log, n) == Some(Ok(())),
            "no_room" => self.sent(log, n) == Some(Err(TrySendError::Full(n))),
            "closed" => self.sent(log, n) == Some(Err(TrySendError::Closed(n))),
            "got" => self.received() == Some(Ok(n)),
            "nothing" => self.received() == Some(Err(TryRecvError::Empty)),
            "over" => self.received() == Some(Err(TryRecvError::Disconnected)),
            "is_open" => self.is_closed() == Some(false),
            "is_closed" => self.is_closed() == Some(true),
            "finish" => self.finishes() == Some(true),
            "finish_alone" => self.finishes() == Some(false),
            "drop_sender" => self.sender.take().is_some(),
            "drop_receiver" => self.receiver.take().is_some(),
            _ => self.slots.does(word, n),
        }
    }

    fn polled(&mut self, task: &MockTask) -> Poll<Option<u64>> {
        let (Some(waker), Some(receiver)) = (self.slots.waker(task), self.receiver.as_mut()) else {
            return NO_POLL;
        };
        receiver
            .poll_next(&waker)
            .map(|next| next.map(|value| value.number))
    }
}

// Five turns of a ring of seven places, with three values in it at each seam.
#[test]
fn values_come_in_order_over_many_turns(rt: HostRuntime) -> Result<(), Fail> {
    let script = "send 1, send 2, send 3, each_send 4, gives 1, gives 2, gives 3, gives 0, \
        each_send 4, gives 1, gives 2, gives 3, gives 0, each_send 4, gives 1, gives 2, gives 3, \
        gives 0, each_send 4, gives 1, gives 2, gives 3, gives 0, each_send 4, gives 1, gives 2, \
        gives 3, gives 0, each_send 4, gives 1, gives 2, gives 3, gives 0, each_send 4, gives 1, \
        gives 2, gives 3, gives 0, each_send 4, gives 1, gives 2, gives 3, gives 0, gives 1, \
        gives 2, gives 3, pending";
    plays_alone(&rt, new_ends(rt.alloc(), 1, 7), script)
}

#[test]
fn a_full_channel_gives_the_value_back(rt: HostRuntime) -> Result<(), Fail> {
    let script = "each_send 20, no_room 20, is_open, got 0, send 20, no_room 21";
    plays_alone(&rt, new_ends(rt.alloc(), 1, 20), script)
}

// The slot of a receiver that waits is not woken by a sending that finds no room. Once the receiver is gone, the channel
// is closed, and not full.
#[test]
fn a_channel_without_places(rt: HostRuntime) -> Result<(), Fail> {
    let script = "pending, no_room 1, no_slot, nothing, drop_receiver, closed 2";
    plays_alone(&rt, new_ends(rt.alloc(), 1, 0), script)
}

#[test]
fn a_receiver_that_is_gone(rt: HostRuntime) -> Result<(), Fail> {
    let script = "is_open, send 1, drop_receiver, is_closed, closed 2, finish_alone";
    plays_alone(&rt, new_ends(rt.alloc(), 1, 2), script)
}

// What was sent comes first, and then the end, each time that it is polled.
#[test]
fn a_sender_that_is_gone(rt: HostRuntime) -> Result<(), Fail> {
    let script = "each_send 2, drop_sender, gives_each 2, none, none, over";
    plays_alone(&rt, new_ends(rt.alloc(), 1, 2), script)
}

// One sending after a pending poll wakes, and those behind it do not. `try_recv` and a poll that gives a value leave no
// waker, and neither `try_recv` nor `is_closed` takes one away.
#[test]
fn the_waker_of_the_last_poll_is_woken_once(rt: HostRuntime) -> Result<(), Fail> {
    let script =
        "send 6, no_slot, gives 6, pending, at 1, pending, nothing, is_open, no_slot, send 7, \
        slot 1, send 8, no_slot, gives 7, gives 8, send 9, no_slot";
    plays_alone(&rt, new_ends(rt.alloc(), 2, 4), script)
}

// The sender is dropped, or finishes. The end wakes nobody.
#[test]
fn a_sender_that_goes_wakes_the_slot(rt: HostRuntime) -> Result<(), Fail> {
    let drops = "pending, drop_sender, slot 0, none, no_slot";
    plays_alone(&rt, new_ends(rt.alloc(), 1, 1), drops)?;
    let finishes = "pending, finish, slot 0, none, no_slot";
    plays_alone(&rt, new_ends(rt.alloc(), 1, 1), finishes)
}

// Nobody wakes for a receiver that is gone, and nothing keeps its waker: the task's waker goes with the source, and
// wakes as it is dropped.
#[test]
fn a_receiver_that_goes_while_it_waits(rt: HostRuntime) -> Result<(), Fail> {
    let script = "pending, drop_receiver, no_slot, asleep, drop_source, woken";
    plays_alone(&rt, new_ends(rt.alloc(), 1, 1), script)
}

// The values in the ring stand over its seam. Those of the second channel outlive their sender.
#[test]
fn values_that_do_not_come_are_dropped_with_the_receiver(rt: HostRuntime) -> Result<(), Fail> {
    let over_the_seam =
        "each_send 20, gives_each 15, each_send 15, items 15, drop_receiver, items 35";
    plays_alone(&rt, new_ends(rt.alloc(), 1, 20), over_the_seam)?;
    let after_the_sender = "each_send 20, drop_sender, items 0, drop_receiver, items 20";
    plays_alone(&rt, new_ends(rt.alloc(), 1, 20), after_the_sender)
}

// A merge of receivers, and their senders.
#[derive(Drop)]
struct Merged {
    senders: Vec<Sender<u64>>,
    merge: MergeBounded<Receiver<u64>, SharedReady>,
}

fn new_merged(alloc: Global) -> Result<Merged, NewFault> {
    let (senders, receivers) = pairs(alloc, 3, || channel(alloc, 4).ok())?;
    let merge = MergeBounded::over(&(), alloc, receivers)?;
    Ok(Merged { senders, merge })
}

impl Merged {
    // Whether the sender at this place takes the number.
    fn sends(&mut self, place: usize, number: u64) -> bool {
        match self.senders.get_mut(place) {
            Some(sender) => sender.try_send(number).is_ok(),
            None => false,
        }
    }
}

impl Held for Merged {
    fn does(&mut self, _log: &SourceLog, word: &str, n: u64) -> bool {
        match word {
            "first_sends" => self.sends(0, n),
            "last_sends" => self.sends(2, n),
            "keep_senders" => {
                self.senders.truncate(n as usize);
                true
            }
            "count" => self.merge.len() as u64 == n,
            _ => false,
        }
    }

    fn polled(&mut self, task: &MockTask) -> Poll<Option<u64>> {
        poll_next(task, &mut self.merge)
    }
}

// One poll that gives an item takes one ready slot. The senders go, the last one alone.
#[test]
fn three_receivers_in_a_merge(rt: HostRuntime) -> Result<(), Fail> {
    let script =
        "pending, asleep, last_sends 30, woken, first_sends 10, last_sends 31, gives 30, gives 10, \
        gives 31, pending, keep_senders 1, pending, asleep, count 1, keep_senders 0, woken, none";
    plays_alone(&rt, new_merged(rt.alloc()), script)
}

// Memory for the largest capacity is never there, nor for one whose bytes are all that addresses reach.
#[test]
fn refused_memory(rt: HostRuntime) {
    let refused = [
        (MAX_CAPACITY + 1, NewFault::TooLarge),
        (MAX_CAPACITY, NewFault::Memory),
        (1 << 48, NewFault::Memory),
    ];
    for (capacity, fault) in refused {
        let made = channel::<u64>(rt.alloc(), capacity);
        assert_same(&rt, made.err(), Some(fault));
    }
}
