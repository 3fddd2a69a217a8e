//! A cell that is sent one value.
use futures::task::Poll;
use futures_buffered_core::ready_shared::SharedWaker;
use futures_buffered_core::ready_source::SlotWaker;
use futures_buffered_unordered::{SlotFuture, SlotStream};
use std::alloc::{AllocError, Global};
use std::sync::{Arc, Mutex, Wait};

#[derive(Drop)]
struct Cell<T> {
    value: Option<T>,
    waker: Option<SharedWaker>,
}

#[derive(Drop)]
pub struct Sender<T, R> {
    rt: R,
    cell: Arc<Mutex<Cell<T>>>,
}

/// Pending until a value is sent, then ready with it. As a stream, it gives that once. It is not woken if its waker
/// can't be kept.
#[derive(Drop)]
pub struct Receiver<T, R> {
    rt: R,
    cell: Arc<Mutex<Cell<T>>>,
    is_over: bool,
}

pub fn one_shot<T: Drop, R: Clone + Drop>(
    env: &R,
    alloc: Global,
) -> Result<(Sender<T, R>, Receiver<T, R>), AllocError> {
    let cell = Cell {
        value: None,
        waker: None,
    };
    let cell = Arc::new(alloc, Mutex::new(cell))?;
    let receiver = Receiver {
        rt: env.clone()?,
        cell: Arc::try_clone(&cell)?,
        is_over: false,
    };
    let rt = env.clone()?;
    Ok((Sender { rt, cell }, receiver))
}

impl<T: Drop, R: Wait + Drop> Sender<T, R> {
    /// Sends the value, and wakes the receiver once the lock of the cell is let go. A value sent before and not taken
    /// is dropped.
    pub fn send(&self, value: T) {
        let waker = {
            let mut guard = self.cell.lock(&self.rt);
            let cell = &mut *guard;
            cell.value = Some(value);
            cell.waker.take()
        };
        if let Some(waker) = waker {
            waker.wake();
        }
    }
}

impl<T: Drop, R: Wait + Drop> SlotFuture<SharedWaker> for Receiver<T, R> {
    type Output = T;

    fn poll(&mut self, waker: &SharedWaker) -> Poll<T> {
        let mut guard = self.cell.lock(&self.rt);
        let cell = &mut *guard;
        if let Some(value) = cell.value.take() {
            return Poll::Ready(value);
        }
        cell.waker = waker.try_clone().ok();
        Poll::Pending
    }
}

impl<T: Drop, R: Wait + Drop> SlotStream<SharedWaker> for Receiver<T, R> {
    type Item = T;

    fn poll_next(&mut self, waker: &SharedWaker) -> Poll<Option<T>> {
        if self.is_over {
            return Poll::Ready(None);
        }
        let Poll::Ready(value) = self.poll(waker) else {
            return Poll::Pending;
        };
        self.is_over = true;
        Poll::Ready(Some(value))
    }
}
