//! A bounded channel from one sender to one receiver, whose receiver a merge holds.
//!
//! Its values go through the ring of `rtrb`, and each send wakes the slot of the receiver if the receiver waits
//! (`spsc_place`). No call waits for the other end, and only the constructors allocate.
//!
//! A sender that finds no room gets its value back, and no call tells it when there is room again. The receiving task
//! can wake the sender, as by a one-shot or a channel that goes the other way.
ghost use Rattle.std.specs.Prelude.{◌≡◌, ◌++◌, length, IfSome};
ghost use Rattle.std.specs.declared.alloc.Global.{Global};
ghost use Rattle.rtrb.specs.declared.consumer.Consumer.{Consumer};
ghost use Rattle.rtrb.specs.declared.producer.Producer.{Producer};
ghost use Rattle.futures_buffered_core.specs.Made.{MakesSlots};
ghost use Rattle.futures_buffered_held.specs.Spsc.{IsNewChannel, Sends, ReceivesNext, KeepsSendingOrder, poll_of, sent};
ghost use Rattle.futures_buffered_held.specs.Spsc.{received, known_items, producer_capacity, consumer_capacity};
ghost use Rattle.futures_buffered_held.specs.Spsc.{all_sent, IsPair, Finishes, IsFinishedOf, SameProducer};
ghost use Rattle.futures_buffered_held.specs.Spsc.{ProducerLooked, ConsumerLooked};

use crate::spsc_place::WaitingPlace;
use futures::task::Poll;
use futures_buffered_core::ready_core::{MAX_CAPACITY, NewFault};
use futures_buffered_core::ready_shared::SharedWaker;
use futures_buffered_unordered::slot_future::SlotWaker;
use futures_buffered_unordered::slot_stream::SlotStream;
pub use rtrb::{AnyItems, Finished, Protocol};
use rtrb::{Consumer, Producer, PushError, RingBuffer};
use std::alloc::{AllocError, Global};
use std::marker::Model;
use std::sync::Arc;
use thiserror::Error;

type Waiting = Arc<WaitingPlace<SharedWaker>>;

/// The end that sends. It can move to another thread.
///
/// A contract sees the producer of the ring: the values that were sent, in order, and how many places are known to be
/// free.
pub struct Sender<T: Drop, P: Protocol<T> = AnyItems> {
    ring: Producer<T, Global, P>,
    waiting: Waiting,
}

impl<T: Drop, P: Protocol<T>> Model for Sender<T, P> {
    ghost Value = { Producer T Global P };

    ghost view = { λ sender. sender.ring };
}

/// The end that receives, as a stream for a merge. It can move to another thread.
///
/// A poll does not allocate. If no value is there, a poll publishes a second waker of its slot. If the merge has as
/// many wakers as can be counted, the poll marks its slot instead. The receiver is then polled again until a value is
/// there.
///
/// A contract sees the consumer of the ring: the values that were received, in order, and those that are known to come
/// next.
pub struct Receiver<T: Drop, P: Protocol<T> = AnyItems> {
    ring: Consumer<T, Global, P>,
    waiting: Waiting,
}

impl<T: Drop, P: Protocol<T>> Model for Receiver<T, P> {
    ghost Value = { Consumer T Global P };

    ghost view = { λ receiver. receiver.ring };
}

/// Why a value was not sent. The error returns the value.
#[derive(Drop, Debug, PartialEq, Eq, Error)]
pub enum TrySendError<T> {
    /// Each place has a value that was not received yet.
    #[error("the channel is full")]
    Full(T),
    /// The receiver is gone.
    #[error("the receiver of the channel is gone")]
    Closed(T),
}

/// Why no value was received.
#[derive(Clone, Copy, Debug, PartialEq, Eq, Error)]
pub enum TryRecvError {
    /// No value is there yet.
    #[error("the channel is empty")]
    Empty,
    /// The sender is gone, and each value that it sent was received.
    #[error("the channel is empty, and its sender is gone")]
    Disconnected,
}

/// Makes a channel with room for `capacity` values. If `capacity` is 0, each send is refused.
///
/// Returns `TooLarge` if `capacity` is above `MAX_CAPACITY`, and `Memory` if an allocation fails. Takes time and
/// allocates in proportion to `capacity`, by three allocations.
pub fn channel<T: Drop>(
    alloc: Global,
    capacity: usize,
) -> Result<(Sender<T>, Receiver<T>), NewFault>
    ensures { MakesSlots capacity (λ ends. IsNewChannel capacity ends.0 ends.1) result }
{
    with_protocol::<T, AnyItems>(alloc, capacity)
}

/// Makes a channel as `channel` does. A send requires that `P` allows its value after the values before it, so the
/// receiving caller knows that of each value.
pub fn with_protocol<T: Drop, P: Protocol<T>>(
    alloc: Global,
    capacity: usize,
) -> Result<(Sender<T, P>, Receiver<T, P>), NewFault>
    ensures { MakesSlots capacity (λ ends. IsNewChannel capacity ends.0 ends.1) result }
{
    if capacity > MAX_CAPACITY {
        return Err(NewFault::TooLarge);
    }
    let (waiting, other) = new_place(alloc)?;
    let (sender, receiver) = RingBuffer::with_protocol::<Global, P>(alloc, capacity)?;
    Ok((
        Sender {
            ring: sender,
            waiting,
        },
        Receiver {
            ring: receiver,
            waiting: other,
        },
    ))
}

// Makes what both ends share in addition to the ring.
fn new_place(alloc: Global) -> Result<(Waiting, Waiting), AllocError> {
    let waiting = Arc::new(alloc, WaitingPlace::new())?;
    let other = Arc::try_clone(&waiting)?;
    Ok((waiting, other))
}

impl<T: Drop, P: Protocol<T>> Sender<T, P> {
    /// Sends the value. Returns the value if it is refused. Wakes the slot of the receiver if the receiver waits.
    ///
    /// A value that is sent while the receiver is being dropped may be dropped with the sender.
    pub fn try_send(&mut self, value: T) -> Result<(), TrySendError<T>>
        requires { P.allows (sent self.old) value }
        ensures same { SameProducer self.old self.new }
        ensures sent { Sends self.old value result self.new }
    {
        if self.ring.is_abandoned() {
            return Err(TrySendError::Closed(value));
        }
        match self.ring.push(value) {
            Ok(()) => {
                self.waiting.wake();
                Ok(())
            }
            Err(PushError::Full(value)) => Err(TrySendError::Full(value)),
        }
    }

    /// Returns whether the receiver is gone. Once it is gone, each send is refused.
    pub fn is_closed(&mut self) -> bool
        ensures { ProducerLooked self.old self.new }
    {
        self.ring.is_abandoned()
    }

    /// Returns for how many values the channel was made. That number never changes.
    pub fn capacity(&self) -> usize
        ensures { result ≡ producer_capacity self.now }
    {
        self.ring.capacity()
    }

    /// Ends the sender as a drop does, and returns what shows all values that were sent. Returns `None` if the receiver
    /// was dropped first.
    pub fn finish(self) -> Option<Finished<T, Global, P>>
        ensures { IfSome result (λ finished. Finishes self finished) }
    {
        let Sender { ring, waiting } = self;
        let finished = ring.finish();
        waiting.wake();
        finished
    }
}

/// Wakes the slot of the receiver. The receiver's stream ends once it has returned all values that were sent.
impl<T: Drop, P: Protocol<T>> Drop for Sender<T, P> {
    fn drop(self) {
        let Sender { ring, waiting } = self;
        drop(ring);
        waiting.wake();
    }
}

impl<T: Drop, P: Protocol<T>> Receiver<T, P> {
    // Looks whether the sender is gone before it looks for a value, so that a value that was sent before that comes
    // first.
    fn next(&mut self) -> Poll<Option<T>>
        ensures { ReceivesNext P.allows self.old result self.new }
    {
        let is_over = self.ring.is_abandoned();
        match self.ring.pop() {
            Ok(value) => Poll::Ready(Some(value)),
            Err(_) if is_over => Poll::Ready(None),
            Err(_) => Poll::Pending,
        }
    }

    /// Returns the next value if one is there. Publishes no waker.
    pub fn try_recv(&mut self) -> Result<T, TryRecvError>
        ensures { ReceivesNext P.allows self.old (poll_of result) self.new }
    {
        match self.next() {
            Poll::Ready(Some(value)) => Ok(value),
            Poll::Ready(None) => Err(TryRecvError::Disconnected),
            Poll::Pending => Err(TryRecvError::Empty),
        }
    }

    /// Returns for how many values the channel was made. That number never changes.
    pub fn capacity(&self) -> usize
        ensures { result ≡ consumer_capacity self.now }
    {
        self.ring.capacity()
    }

    /// Shows, to a caller that has both ends, that the values received and the values still to come are all that were
    /// sent, in order. Returns how many are still to come.
    pub fn compare(&mut self, sender: &mut Sender<T, P>) -> usize
        requires { IsPair sender.old self.old }
        ensures same { ConsumerLooked self.old self.new × ProducerLooked sender.old sender.new }
        ensures count { result ≡ length (known_items self.new) }
        ensures all { received self.new ++ known_items self.new ≡ sent sender.new }
    {
        self.ring.slots_beside(&mut sender.ring)
    }

    /// Shows and returns the same once the sender has finished.
    pub fn compare_finished(&mut self, finished: &mut Finished<T, Global, P>) -> usize
        requires { IsFinishedOf finished.old self.old }
        ensures same { ConsumerLooked self.old self.new }
        ensures finished { IsFinishedOf finished.new self.new × (all_sent finished.new ≡ all_sent finished.old) }
        ensures count { result ≡ length (known_items self.new) }
        ensures all { received self.new ++ known_items self.new ≡ all_sent finished.new }
    {
        self.ring.slots_after(finished)
    }

    // Publishes a second waker. If there are as many wakers as can be counted, marks the slot.
    fn wait(&self, waker: &SharedWaker) {
        match waker.try_clone() {
            Ok(waker) => self.waiting.leave(waker),
            Err(_) => {
                waker.wake();
            }
        }
    }
}

/// Drops the values that were not received. A value that is sent during this call may be dropped with the sender
/// instead.
impl<T: Drop, P: Protocol<T>> Drop for Receiver<T, P> {
    fn drop(self) {
        let Receiver { mut ring, waiting } = self;
        for _value in 0..ring.capacity() {
            if ring.pop().is_err() {
                break;
            }
        }
        drop(ring);
        drop(waiting.take_out());
    }
}

impl<T: Drop, P: Protocol<T>> SlotStream<SharedWaker> for Receiver<T, P> {
    ghost use Rattle.futures_buffered_held.specs.Spsc.{ReceivesNext};

    type Item = T;

    ghost polled = { λ _. ReceivesNext P.allows };

    fn poll_next(&mut self, waker: &SharedWaker) -> Poll<Option<T>> {
        if let Ok(value) = self.ring.pop() {
            return Poll::Ready(Some(value));
        }
        self.wait(waker);
        self.next()
    }
}

/// The items that polls of one receiver return, in a merge or without one, are the values received since, in the order
/// of the sends. They come after the values received before, and the first of them are those that a comparison showed
/// to come next.
///
/// This is a law of the relation in the contract of a poll. Its body is empty.
pub fn polls_keep_sending_order<T: Drop, P: Protocol<T>>()
    ensures { KeepsSendingOrder T Global P P.allows }
{}
