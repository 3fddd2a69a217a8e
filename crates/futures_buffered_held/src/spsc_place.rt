//! The place at which the receiver of a channel publishes the waker of its slot, and its sender finds it.
//!
//! A lock has the waker. Both ends only try the lock, so no call waits. A flag says that there is a waker to look for.
//! A sender first puts its value into the ring, or goes, and then looks here. A receiver first publishes its waker, and
//! then looks into the ring. So no wake is lost, in whatever order the steps come:
//!
//! - A sender that finds no flag, or finds the lock held, came before the receiver had published its waker. The
//!   receiver finds the value, or that the sender is gone.
//! - A receiver that finds the lock held came while its sender took the previous waker. The receiver wakes its own
//!   slot, and is polled again.
//!
//! Every step is sequentially consistent, so all steps have one order.
use futures_buffered_unordered::slot_future::SlotWaker;
use std::sync::Mutex;
use std::sync::atomic::AtomicBool;
use std::sync::atomic::Ordering::SeqCst;

/// The place of one waker, between one sender and one receiver. No call waits, and none allocates.
#[derive(Drop)]
pub(crate) struct WaitingPlace<W> {
    is_left: AtomicBool,
    waker: Mutex<Option<W>>,
}

impl<W: SlotWaker + Drop> WaitingPlace<W> {
    pub(crate) const fn new() -> WaitingPlace<W> {
        WaitingPlace {
            is_left: AtomicBool::new(false),
            waker: Mutex::new(None),
        }
    }

    /// Publishes the waker, and drops the previous one. If the sender is at the place, wakes the slot instead.
    pub(crate) fn leave(&self, waker: W) {
        let _before = match self.waker.try_lock() {
            Some(mut place) => {
                self.is_left.store(true, SeqCst);
                place.replace(waker)
            }
            None => {
                waker.wake();
                None
            }
        };
    }

    /// Takes the waker that was published, unless the other end is at the place.
    pub(crate) fn take_out(&self) -> Option<W> {
        if !self.is_left.load(SeqCst) {
            return None;
        }
        let mut place = self.waker.try_lock()?;
        self.is_left.store(false, SeqCst);
        place.take()
    }

    /// Wakes the slot whose waker was published, once.
    pub(crate) fn wake(&self) {
        if let Some(waker) = self.take_out() {
            waker.wake();
        }
    }
}
