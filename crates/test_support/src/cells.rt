//! Rows of cells that are sent one value each.
use crate::pairs::pairs;
use crate::receiver::{Receiver, Sender, one_shot};
use std::alloc::{AllocError, Global};
use std::sync::Wait;

/// The receiver at each place is that of the sender at this place.
#[derive(Drop)]
pub struct Cells<T, R> {
    pub senders: Vec<Sender<T, R>>,
    pub receivers: Vec<Receiver<T, R>>,
}

pub fn new_cells<T: Drop, R: Clone + Drop>(
    rt: &R,
    alloc: Global,
    count: usize,
) -> Result<Cells<T, R>, AllocError> {
    let (senders, receivers) = pairs(alloc, count as u64, || one_shot(rt, alloc).ok())?;
    Ok(Cells { senders, receivers })
}

/// Each sender in turn sends its value.
pub fn send_each<T: Copy + Drop, R: Wait + Drop>(senders: &Vec<Sender<T, R>>, values: [T; 4]) {
    for (value, sender) in values.iter().zip(senders) {
        sender.send(*value);
    }
}
