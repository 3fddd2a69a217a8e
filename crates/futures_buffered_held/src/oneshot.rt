//! A channel for one value.
//!
//! Sender and receiver share one word, a place for a value and one for a waker. The word says from the start that the
//! receiver waits, and each pending poll of the receiver publishes its waker. A sender publishes its value, and says by
//! one swap of the word that it is done. The old word says what the sender takes: the waker if the receiver waits, and
//! its own value if the receiver is gone. So no call waits for the other, and no wake is lost, in whatever order the
//! steps come:
//!
//! - A receiver takes its waker back before it publishes another. A sender that is done between these two steps finds
//!   no waker, and does not wake the task: the receiver finds that the sender is done when it says again that it waits.
//! - A sender that finds a waker wakes it.
//!
//! Every step is sequentially consistent, so all steps have one order.
ghost use Rattle.std.specs.Prelude.{◌≡◌, [], IfOk, IfErr, IfSome, MatchResult};
ghost use Rattle.futures_buffered_held.specs.declared.oneshot_place.View.TheVariants.{Waiting};
ghost use Rattle.futures_buffered_held.specs.OneshotPlace.{PlaceAnswers};
ghost use Rattle.futures_buffered_held.specs.Oneshot.{unanswered, slip};

use crate::oneshot_place;
use futures::task::Poll;
use futures_buffered_core::ready_shared::SharedWaker;
use futures_buffered_unordered::slot_future::{SlotFuture, SlotWaker};
use std::alloc::{AllocError, Global};
use std::marker::Model;
use std::sync::Arc;
use thiserror::Error;

type Place<T> = oneshot_place::Place<T, SharedWaker>;

type Seat<T> = oneshot_place::Seat<T, SharedWaker>;

/// The end that sends one value. No call waits for the receiver.
///
/// A contract sees to which one-shot it belongs.
pub struct Sender<T: Drop> {
    place: Arc<Place<T>>,
    seat: Seat<T>,
}

impl<T: Drop> Model for Sender<T> {
    ghost use Rattle.std.specs.Prelude.{◌≡◌, []};
    ghost use Rattle.std.specs.Arc.{arc_value};
    ghost use Rattle.atomic_table.specs.Seated.{TableId, table_id_coded};
    ghost use Rattle.futures_buffered_held.specs.declared.oneshot_place.View.TheVariants as views;

    ghost Value = { TableId };

    ghost coded = { table_id_coded };

    ghost view = { λ sender. sender.seat.table_id };

    ghost invariant = { λ sender. (sender.seat.table_id ≡ arc_value sender.place)
        × (sender.seat.me ≡ (views.Sender, [])) };
}

/// A future for the value that is sent, or for the fact that the sender is gone. No call waits for the sender.
///
/// A poll does not allocate. Unless the answer is there at once, a poll publishes a second waker of its slot. If the
/// set has as many wakers as can be counted, the poll marks its slot instead. The receiver is then polled again until
/// the value is there. A poll after the answer returns `Canceled`.
///
/// A contract sees to which one-shot it belongs, and its answer.
pub struct Receiver<T: Drop> {
    // None once the receiver has its answer.
    place: Option<Arc<Place<T>>>,
    seat: Seat<T>,
}

impl<T: Drop> Model for Receiver<T> {
    ghost use Rattle.std.specs.Prelude.{◌≡◌, [], MatchOption};
    ghost use Rattle.std.specs.Arc.{arc_value};
    ghost use Rattle.futures_buffered_held.specs.declared.oneshot_place.View.TheVariants.{Waiting, Got};
    ghost use Rattle.futures_buffered_held.specs.OneshotPlace.{received};
    ghost use Rattle.futures_buffered_held.specs.Oneshot.{Reception, reception_code, answer_of};

    ghost Value = { Reception T };

    ghost coded = { reception_code T.code };

    ghost view = { λ r. record { oneshot = r.seat.table_id; answer = answer_of r.place (received r.seat.me.0) } };

    ghost invariant = { λ r. MatchOption r.place (r.seat.me.0 ≡ Got (received r.seat.me.0))
        (λ place. (r.seat.table_id ≡ arc_value place) × (r.seat.me ≡ (Waiting, []))) };
}

/// Shows that a value was sent. A receipt keeps what both ends share.
///
/// A contract sees by which one-shot the value was sent, and the value.
pub struct Receipt<T: Drop> {
    place: Arc<Place<T>>,
    seat: Seat<T>,
}

impl<T: Drop> Model for Receipt<T> {
    ghost use Rattle.std.specs.Prelude.{◌≡◌, []};
    ghost use Rattle.std.specs.Arc.{arc_value};
    ghost use Rattle.futures_buffered_held.specs.declared.oneshot_place.View.TheVariants.{Sent};
    ghost use Rattle.futures_buffered_held.specs.OneshotPlace.{sent_by};
    ghost use Rattle.futures_buffered_held.specs.Oneshot.{Slip, slip_code};

    ghost Value = { Slip T };

    ghost coded = { slip_code T.code };

    ghost view = { λ r. record { oneshot = r.seat.table_id; sent = sent_by r.seat.me.0 } };

    ghost invariant = { λ r. (r.seat.table_id ≡ arc_value r.place)
        × ((x : T) × (r.seat.me.0 ≡ Sent x)) × (r.seat.me.1 ≡ []) };
}

/// The sender was dropped before it sent a value.
#[derive(Clone, Copy, Debug, PartialEq, Eq, Error)]
#[error("the sender of a one-shot left before it sent a value")]
pub struct Canceled;

/// Makes a channel for one value. A set over `SharedReady` can hold its receiver. Allocates four times for what both
/// ends share, and frees one of the four at once; no call of the two ends allocates.
pub fn channel<T: Drop>(alloc: Global) -> Result<(Sender<T>, Receiver<T>), AllocError>
    ensures { IfOk result (λ ends. ends.1 ≡ unanswered ends.0) }
{
    let (place, sender, receiver) = Place::new(alloc)?;
    let place = Arc::new(alloc, place)?;
    let other = Arc::try_clone(&place)?;
    Ok((
        Sender {
            place,
            seat: sender,
        },
        Receiver {
            place: Some(other),
            seat: receiver,
        },
    ))
}

// Wakes the slot of the receiver if the receiver waits.
fn wake(waker: Option<SharedWaker>) {
    if let Some(waker) = waker {
        waker.wake();
    }
}

impl<T: Drop> Sender<T> {
    /// Sends the value. Returns the value if the receiver is gone. If the receiver has published a waker, wakes its
    /// slot once.
    pub fn send(self, value: T) -> Result<(), T>
        ensures back { IfErr result (λ back. back ≡ value) }
    {
        let _receipt = self.send_with_receipt(value)?;
        Ok(())
    }

    /// Sends as `send` does, and returns a receipt.
    pub fn send_with_receipt(self, value: T) -> Result<Receipt<T>, T>
        ensures { MatchResult result (λ receipt. receipt ≡ slip self value) (λ back. back ≡ value) }
    {
        let Sender { place, mut seat } = self;
        wake(place.send(&mut seat, value)?);
        let seat = place.receipt(&mut seat);
        Ok(Receipt { place, seat })
    }

    /// Returns whether the receiver was dropped before a value was sent.
    pub fn is_canceled(&self) -> bool {
        self.place.is_gone()
    }
}

/// The receiver's answer is `Canceled`. If the receiver has published a waker, the drop wakes its slot.
impl<T: Drop> Drop for Sender<T> {
    fn drop(self) {
        let Sender { place, mut seat } = self;
        wake(place.cancel(&mut seat));
    }
}

/// Drops a value that was sent and not received.
impl<T: Drop> Drop for Receiver<T> {
    fn drop(self) {
        let Receiver { place, mut seat } = self;
        if let Some(place) = place {
            place.leave(&mut seat);
        }
    }
}

impl<T: Drop> Drop for Receipt<T> {
    fn drop(self) {
        let Receipt { place: _, seat: _ } = self;
    }
}

impl<T: Drop> Receipt<T> {
    /// Shows that the receiver's answer, if it has one, is the value that was sent.
    pub fn compare(self, receiver: &mut Receiver<T>)
        requires { receiver.old.oneshot ≡ self.oneshot }
        ensures equal { IfSome receiver.old.answer (λ answer. answer ≡ self.sent) }
        ensures same { receiver.new ≡ receiver.old }
    {
        let Receipt { place, seat } = self;
        if receiver.place.is_none() {
            place.compare(&mut receiver.seat, seat);
        }
    }
}

// Returns the answer, or `None` if there is none yet. If there are as many wakers as can be counted, marks the slot.
fn asked<T: Drop>(place: &Place<T>, seat: &mut Seat<T>, waker: &SharedWaker) -> Option<Option<T>>
    requires { (seat.old.table_id ≡ place.now) × (seat.old.me ≡ (Waiting, [])) }
    ensures same { seat.new.table_id ≡ seat.old.table_id }
    ensures answer { PlaceAnswers result seat.new.me }
{
    if let Some(answer) = place.look(seat) {
        return Some(answer);
    }
    match waker.try_clone() {
        Ok(waker) => place.register(seat, waker),
        Err(_) => {
            waker.wake();
            None
        }
    }
}

impl<T: Drop> SlotFuture<SharedWaker> for Receiver<T> {
    ghost use Rattle.futures_buffered_held.specs.Oneshot.{Receives};

    type Output = Result<T, Canceled>;

    ghost polled = { λ _. Receives };

    fn poll(&mut self, waker: &SharedWaker) -> Poll<Result<T, Canceled>> {
        let Some(place) = self.place.take() else {
            return Poll::Ready(Err(Canceled));
        };
        match asked(&place, &mut self.seat, waker) {
            Some(Some(value)) => Poll::Ready(Ok(value)),
            Some(None) => Poll::Ready(Err(Canceled)),
            None => {
                self.place = Some(place);
                Poll::Pending
            }
        }
    }
}
