//! The futures and streams that objects hold, each after its script, and the streams that adaptors draw from.
ghost use Rattle.futures.specs.Task.{IsArmed, Keeps};
ghost use Rattle.futures.specs.Poll.{OnPending};

use crate::memory;
use crate::script::Script;
use crate::session::first_of;
use crate::step::Action;
use crate::world::{Event, Fault, SOURCE, SharedWorld};
use futures::task::{Context, Poll};
use futures::{Future, Stream};
use futures_buffered_core::ready_shared::SharedWaker;
use futures_buffered_unordered::fused::SizeHint;
use futures_buffered_unordered::slot_future::SlotFuture;
use futures_buffered_unordered::slot_stream::SlotStream;
use std::marker::PhantomData;

/// What a future or a stream gives. Its drop is seen if it has a handle on the world.
pub struct Output {
    number: u64,
    world: Option<SharedWorld>,
}

impl Drop for Output {
    fn drop(self) {
        let Output { number, world } = self;
        if let Some(world) = world {
            world.see_output_drop(number);
        }
    }
}

impl Output {
    /// The number. Its drop is not seen any more, since the object has handed it out.
    pub fn into_number(self) -> u64 {
        let mut output = self;
        output.world = None;
        output.number
    }
}

/// What a value gives as a poll of it ends.
pub trait Given: Drop {
    /// What it gives by this action. `None` if its kind of value has no such action.
    fn given_by(action: Action, world: &SharedWorld) -> Option<Self>;

    /// Whether no poll may follow.
    fn is_last(&self) -> bool {
        true
    }
}

impl Given for () {
    fn given_by(action: Action, _world: &SharedWorld) -> Option<()> {
        match action {
            Action::Value(_) | Action::Cancel => Some(()),
            _ => None,
        }
    }
}

impl Given for Output {
    fn given_by(action: Action, world: &SharedWorld) -> Option<Output> {
        let (number, world) = match action {
            Action::Value(number) => (number, None),
            Action::Output(number) => (number, Some(world.share())),
            Action::Cancel => (0, None),
            _ => return None,
        };
        Some(Output { number, world })
    }
}

impl<T: Given> Given for Result<T, u64> {
    fn given_by(action: Action, world: &SharedWorld) -> Option<Result<T, u64>> {
        match action {
            Action::Error(error) => Some(Err(error)),
            Action::Cancel => Some(Err(0)),
            action => T::given_by(action, world).map(Ok),
        }
    }
}

impl<T: Given> Given for Option<T> {
    fn given_by(action: Action, world: &SharedWorld) -> Option<Option<T>> {
        match action {
            Action::End => Some(None),
            action => T::given_by(action, world).map(Some),
        }
    }

    fn is_last(&self) -> bool {
        self.is_none()
    }
}

/// A future or a stream that acts after a script, and gives `T` as a poll of it ends.
#[derive(Drop)]
pub struct Scripted<T> {
    script: Script,
    given: PhantomData<T>,
}

/// A future that gives a number.
pub type NumberFuture = Scripted<Output>;

/// A future that gives a number or fails with one.
pub type TryFuture = Scripted<Result<Output, u64>>;

/// A future that gives nothing: an item of a for-each, and what its closure makes of it.
pub type UnitFuture = Scripted<()>;

/// A future that gives nothing or fails with a number: an item of a try-for-each, and what its closure makes of it.
pub type TryUnitFuture = Scripted<Result<(), u64>>;

/// A stream of numbers, for a merge.
pub type NumberStream = Scripted<Option<Output>>;

// A source gives the values with the numbers of its items.
impl<T: Given> Given for Scripted<T> {
    fn given_by(action: Action, world: &SharedWorld) -> Option<Scripted<T>> {
        match action {
            Action::Value(id) => Some(Scripted::new(world, id as usize)),
            _ => None,
        }
    }
}

/// What is made after the script of its number.
pub trait Made: Drop {
    /// The value with this number.
    fn new(world: &SharedWorld, id: usize) -> Self;
}

impl<T: Given> Made for Scripted<T> {
    fn new(world: &SharedWorld, id: usize) -> Scripted<T> {
        Scripted {
            script: Script::new(world, id),
            given: PhantomData,
        }
    }
}

/// A value for the first of these numbers.
pub fn new_value<V: Made>(world: &SharedWorld, ids: &[usize]) -> V {
    V::new(world, first_of(ids))
}

/// A value for each of these numbers.
pub fn new_values<V: Made>(world: &SharedWorld, ids: &[usize]) -> Vec<V> {
    let mut values = Vec::new(world.alloc);
    for id in ids {
        let had_memory = memory::push(&mut values, V::new(world, *id));
        world.need(had_memory);
    }
    values
}

impl<T: Given> Scripted<T> {
    /// What the closure of a for-each does with its item: the call is seen.
    pub fn called(self, world: &SharedWorld) -> Scripted<T> {
        world.see(Event::Called(self.script.id));
        self
    }

    // What it gives by this action, which its kind of value must have.
    fn give(&mut self, action: Action) -> Option<T> {
        let given = T::given_by(action, &self.script.world);
        match &given {
            Some(value) => self.script.is_over = value.is_last(),
            None => self.script.world.fail(Fault::Misuse),
        }
        given
    }

    /// One poll in a slot.
    pub fn poll_in_slot(&mut self, waker: &SharedWaker) -> Poll<T> {
        let given = match self.script.poll_in_slot(waker) {
            Action::Pending => None,
            action => self.give(action),
        };
        given.map_or(Poll::Pending, Poll::Ready)
    }

    /// One poll in a task.
    pub fn poll_in_task(&mut self, cx: &mut Context<'_>) -> Poll<T>
        ensures armed { OnPending result (IsArmed cx.new) }
        ensures kept { Keeps cx.old cx.new }
    {
        match self.script.poll_in_task(cx) {
            Poll::Pending => Poll::Pending,
            Poll::Ready(action) => match self.give(action) {
                Some(given) => Poll::Ready(given),
                None => cx.yield_now(),
            },
        }
    }
}

impl<T: Given> SlotFuture<SharedWaker> for Scripted<T> {
    type Output = T;

    fn poll(&mut self, waker: &SharedWaker) -> Poll<T> {
        self.poll_in_slot(waker)
    }
}

impl<T: Given> Future for Scripted<T> {
    type Output = T;

    fn poll(&mut self, cx: &mut Context<'_>) -> Poll<T> {
        self.poll_in_task(cx)
    }
}

impl<T: Given> SlotStream<SharedWaker> for Scripted<Option<T>> {
    type Item = T;

    fn poll_next(&mut self, waker: &SharedWaker) -> Poll<Option<T>> {
        self.poll_in_slot(waker)
    }
}

impl<T: Given> Stream for Scripted<Option<T>> {
    type Item = T;

    fn poll_next(&mut self, cx: &mut Context<'_>) -> Poll<Option<T>> {
        self.poll_in_task(cx)
    }
}

/// What an adaptor draws from. It is polled with the task's context.
#[derive(Drop)]
pub struct ItemSource<T> {
    items: Scripted<Option<T>>,
    is_hint_fixed: bool,
    hint: (usize, Option<usize>),
}

/// A stream of futures.
pub type Source = ItemSource<NumberFuture>;

/// A stream of futures and errors.
pub type TrySource = ItemSource<Result<TryFuture, u64>>;

/// A stream of what a for-each runs.
pub type UnitSource = ItemSource<UnitFuture>;

/// A stream of what a try-for-each runs, and of errors.
pub type TryUnitSource = ItemSource<Result<TryUnitFuture, u64>>;

impl<T: Given> ItemSource<T> {
    /// Without a fixed hint it says how many items and errors are left.
    pub fn new(world: &SharedWorld, fixed: Option<(usize, Option<usize>)>) -> ItemSource<T> {
        let items: Scripted<Option<T>> = Scripted::new(world, SOURCE);
        let count = items.script.items();
        ItemSource {
            items,
            is_hint_fixed: fixed.is_some(),
            hint: fixed.unwrap_or((count, Some(count))),
        }
    }

    // One item or error fewer is left.
    fn count_item(&mut self) {
        if !self.is_hint_fixed {
            let left = self.hint.0.saturating_sub(1);
            self.hint = (left, Some(left));
        }
    }
}

impl<T: Given> Stream for ItemSource<T> {
    type Item = T;

    fn poll_next(&mut self, cx: &mut Context<'_>) -> Poll<Option<T>> {
        let polled = self.items.poll_in_task(cx);
        if let Poll::Ready(Some(_)) = &polled {
            self.count_item();
        }
        polled
    }
}

impl<T: Given> SizeHint for ItemSource<T> {
    ghost items_left = { λ s. s.hint };

    fn size_hint(&self) -> (usize, Option<usize>) {
        self.hint
    }
}
