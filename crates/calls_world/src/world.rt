//! What values and session share: the steps of each value, the wakers and senders that were kept, and what one call
//! did.
use crate::memory;
use crate::step::Step;
use crate::text::Text;
use crate::words::push_words;
use futures::task::Waker;
use futures_buffered_core::ready_shared::SharedWaker;
use futures_buffered_held::oneshot::{Receiver, Sender, channel};
use futures_buffered_unordered::slot_future::SlotWaker;
use std::alloc::Global;
use std::cell::{RefCell, RefMut};
use std::ops::Range;
use std::rc::Rc;

/// The number of the source, whose place is the first.
pub const SOURCE: usize = 0;

/// What goes wrong.
#[derive(Clone, Copy)]
pub enum Fault {
    /// A value was named that there is not, or did what its kind does not.
    Misuse,
    /// A request for memory was refused twice.
    Memory,
}

/// What a poll did with one value.
#[derive(Clone, Copy, PartialEq, Eq)]
pub enum Event {
    Polled(usize),
    PolledAfterEnd(usize),
    /// The closure of a for-each was called with it.
    Called(usize),
}

// Whether the value behind the one before is polled, or the same is done once more. A value that is polled twice stands
// twice.
fn is_one_run(event: &Event, next: &Event) -> bool {
    match (*event, *next) {
        (Event::Polled(id), Event::Polled(next)) if id != SOURCE => id.checked_add(1) == Some(next),
        (event, next) => event == next,
    }
}

fn append_run(text: &mut Text, event: Event, times: usize) {
    match event {
        Event::Polled(SOURCE) => text.append_word("source"),
        Event::Polled(id) => return text.append_run(id as u64, times),
        Event::PolledAfterEnd(SOURCE) => text.append_word("!source"),
        Event::PolledAfterEnd(id) => text.append_word(format_args!("!{id}")),
        Event::Called(id) => text.append_word(format_args!("call:{id}")),
    }
    if times > 1 {
        text.append(format_args!("*{times}"));
    }
}

// Appends what was done, in order.
fn append_events(text: &mut Text, events: &[Event]) {
    if events.is_empty() {
        text.append_word("-");
    }
    for run in events.chunk_by(is_one_run) {
        if let Some(event) = run.first() {
            append_run(text, *event, run.len());
        }
    }
}

// Appends what was dropped: the numbers of values, which stand in rising order, the source behind them, and the
// outputs.
fn append_dropped(text: &mut Text, values: &[u64], outputs: &[u64]) {
    match values.split_first() {
        None if outputs.is_empty() => text.append_word("-"),
        None => {}
        Some((0, rest)) => {
            text.append_numbers(rest);
            text.append_word("source");
        }
        Some(_) => text.append_numbers(values),
    }
    for output in outputs {
        text.append_word(format_args!("={output}"));
    }
}

// What is kept for the values with one number.
#[derive(Default, Drop)]
struct Place {
    steps: Option<Rc<Vec<Step>>>,
    waker: Option<SharedWaker>,
    // It kept a waker of a task, which is used up when it is woken.
    keeps_task: bool,
    task_waker: Option<Waker>,
    sender: Option<Sender<u64>>,
}

/// What the handles share.
#[derive(Drop)]
pub struct World {
    places: Vec<Place>,
    events: Vec<Event>,
    dropped: Vec<u64>,
    dropped_outputs: Vec<u64>,
    // How many values there are.
    living: usize,
    // Both ends of a one-shot were made, which takes memory, since effects were forgotten last.
    has_made_ends: bool,
    // What went wrong.
    fault: Option<Fault>,
}

impl World {
    fn need(&mut self, had_memory: bool) {
        if !had_memory {
            self.fault = Some(Fault::Memory);
        }
    }

    // Has the table grow up to that place. Whether there was memory for it.
    fn make_places(&mut self, end: usize) -> bool {
        for _ in self.places.len()..end {
            if !memory::push(&mut self.places, Place::default()) {
                return false;
            }
        }
        true
    }

    fn define(&mut self, ids: Range<usize>, steps: &Option<Rc<Vec<Step>>>) {
        let is_well = self.make_places(ids.end) && steps.is_some();
        self.need(is_well);
        for id in ids {
            if let Some(place) = self.places.get_mut(id) {
                place.steps = steps.as_ref().and_then(|steps| steps.clone().ok());
            }
        }
    }

    // The steps of a value of which there is one more now.
    fn make(&mut self, id: usize) -> Option<Rc<Vec<Step>>> {
        self.living = self.living.saturating_add(1);
        self.places.get(id)?.steps.as_ref()?.clone().ok()
    }

    /// The place in which this value keeps the waker of the task that polls it.
    pub fn task_waker(&mut self, id: usize) -> Option<&mut Option<Waker>> {
        let place = self.places.get_mut(id)?;
        place.keeps_task = true;
        Some(&mut place.task_waker)
    }

    fn wake(&mut self, id: usize) -> bool {
        let Some(place) = self.places.get_mut(id) else {
            return false;
        };
        if let Some(waker) = &place.waker {
            waker.wake();
            return true;
        }
        if let Some(waker) = place.task_waker.take() {
            waker.wake();
        }
        place.keeps_task
    }

    fn has_dropped(&self, ids: &[usize]) -> bool {
        for id in ids {
            if !self.dropped.as_slice().contains(&(*id as u64)) {
                return false;
            }
        }
        self.dropped.len() == ids.len()
    }
}

/// A handle on the world, one for each value and one for the session. No call of one runs inside a call of another, so
/// the cell is never found borrowed.
#[derive(Drop)]
pub struct SharedWorld {
    pub alloc: Global,
    // None of a handle that could not be made, with which each reply is wrong.
    world: Option<Rc<RefCell<World>>>,
}

impl SharedWorld {
    pub fn new(alloc: Global) -> SharedWorld {
        let world = World {
            places: Vec::new(alloc),
            events: memory::list(alloc),
            dropped: memory::list(alloc),
            dropped_outputs: memory::list(alloc),
            living: 0,
            has_made_ends: false,
            fault: None,
        };
        SharedWorld {
            alloc,
            world: memory::share(alloc, RefCell::new(world)),
        }
    }

    /// The world itself.
    pub fn open(&self) -> Option<RefMut<'_, World>> {
        self.world.as_ref()?.try_borrow_mut().ok()
    }

    /// Another handle. Takes no memory.
    pub fn share(&self) -> SharedWorld {
        let world = self.world.as_ref().and_then(|world| world.clone().ok());
        if world.is_none() {
            self.fail(Fault::Misuse);
        }
        SharedWorld {
            alloc: self.alloc,
            world,
        }
    }

    /// All is as at the start. No value is left.
    pub fn reset(&self) {
        self.forget_effects();
        if let Some(mut world) = self.open() {
            world.places.clear();
            world.living = 0;
            world.fault = None;
        }
    }

    /// This went wrong, which the replies of the test say from now on.
    pub fn fail(&self, fault: Fault) {
        if let Some(mut world) = self.open() {
            world.fault = Some(fault);
        }
    }

    /// What went wrong last in this test.
    pub fn fault(&self) -> Option<Fault> {
        self.open().map_or(Some(Fault::Misuse), |world| world.fault)
    }

    /// Memory was refused twice, unless there was some.
    pub fn need(&self, had_memory: bool) {
        if !had_memory {
            self.fail(Fault::Memory);
        }
    }

    /// Whether both ends of a one-shot were made since effects were forgotten last.
    pub fn has_made_ends(&self) -> bool {
        self.open().is_some_and(|world| world.has_made_ends)
    }

    /// Whether no value is held.
    pub fn is_empty(&self) -> bool {
        self.open().is_some_and(|world| world.living == 0)
    }

    /// A value with this number is made: its steps.
    pub fn make(&self, id: usize) -> Option<Rc<Vec<Step>>> {
        let steps = self.open().and_then(|mut world| world.make(id));
        if steps.is_none() {
            self.fail(Fault::Misuse);
        }
        steps
    }

    pub fn see(&self, event: Event) {
        if let Some(mut world) = self.open() {
            let had_memory = memory::push(&mut world.events, event);
            world.need(had_memory);
        }
    }

    pub fn see_drop(&self, id: usize) {
        if let Some(mut world) = self.open() {
            world.living = world.living.saturating_sub(1);
            let had_memory = memory::push(&mut world.dropped, id as u64);
            world.need(had_memory);
        }
    }

    pub fn see_output_drop(&self, number: u64) {
        if let Some(mut world) = self.open() {
            let had_memory = memory::push(&mut world.dropped_outputs, number);
            world.need(had_memory);
        }
    }

    /// A receiver for this value, whose sender stays here.
    pub fn new_receiver(&self, id: usize) -> Option<Receiver<u64>> {
        let made = memory::twice(|| channel(self.alloc));
        self.need(made.is_ok());
        let (sender, receiver) = made.ok()?;
        let mut world = self.open()?;
        world.has_made_ends = true;
        if let Some(place) = world.places.get_mut(id) {
            place.sender = Some(sender);
        }
        Some(receiver)
    }

    /// The sender to the value with this number, unless it was taken before.
    pub fn take_sender(&self, id: usize) -> Option<Sender<u64>> {
        self.open()?.places.get_mut(id)?.sender.take()
    }

    /// Keeps the waker of a slot for this value.
    pub fn keep(&self, id: usize, waker: &SharedWaker) {
        let kept = waker.try_clone().ok();
        if kept.is_none() {
            self.fail(Fault::Misuse);
        }
        self.put_waker(id, kept);
    }

    /// The value has this waker of a slot, or none.
    pub fn put_waker(&self, id: usize, waker: Option<SharedWaker>) {
        if let Some(mut world) = self.open() {
            if let Some(place) = world.places.get_mut(id) {
                place.waker = waker;
            }
        }
    }

    /// Wakes the waker that the value kept last. Whether it ever kept one.
    pub fn wake(&self, id: usize) -> bool {
        self.open().is_some_and(|mut world| world.wake(id))
    }

    /// Forgets what was done up to here.
    pub fn forget_effects(&self) {
        if let Some(mut world) = self.open() {
            world.events.clear();
            world.dropped.clear();
            world.dropped_outputs.clear();
            world.has_made_ends = false;
        }
    }

    /// Whether the values with these numbers were dropped since effects were forgotten last, and no other.
    pub fn has_dropped(&self, ids: &[usize]) -> bool {
        self.open().is_some_and(|world| world.has_dropped(ids))
    }

    pub fn append_events(&self, text: &mut Text) {
        if let Some(world) = self.open() {
            append_events(text, world.events.as_slice());
        }
    }

    /// Appends what was dropped since effects were forgotten last.
    pub fn append_dropped(&self, text: &mut Text) {
        if let Some(mut world) = self.open() {
            world.dropped.sort_unstable();
            world.dropped_outputs.sort_unstable();
            append_dropped(
                text,
                world.dropped.as_slice(),
                world.dropped_outputs.as_slice(),
            );
        }
    }

    /// Has the values with these numbers act by these steps. `None` if a word is no step.
    pub fn define(&self, ids: Range<usize>, words: &str) -> Option<()> {
        let mut steps = Vec::new(self.alloc);
        let parsed = push_words(&mut steps, words, " ");
        let steps = memory::share(self.alloc, steps);
        if let Some(mut world) = self.open() {
            world.define(ids, &steps);
        }
        parsed
    }
}
