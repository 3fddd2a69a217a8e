//! What a seat of a place knows.
ghost use Rattle.std.specs.Prelude.{ℕ};

use std::collections::LinkedList;
use std::marker::Brand;

/// What a seat may do if the place keeps nothing.
#[derive(Clone, Copy, Debug, PartialEq, Eq)]
pub enum Right {
    /// It alone publishes: it may write the slot as soon as it has read that no value is kept.
    Alone,
    /// Others publish too: it has to claim the slot first.
    Beside,
    /// It only takes.
    Wakes,
}

/// Whether a seat has the slot.
#[derive(Clone, Copy, Debug, PartialEq, Eq)]
pub enum Hand {
    Nothing,
    /// It has the slot, and the word says that no value is kept.
    Filling,
    /// It has the slot, and the word says that a seat has it.
    Taken,
}

/// An atomic step at the word of a place, with what it found. The word is 0 if no value is kept, 1 if one is, and more
/// if a seat has claimed the slot. No code makes a value of this type.
pub enum Deed<O> {
    /// Reads the word: what it holds.
    Look(u64),
    /// Claims the slot while a value is kept: this value.
    Win(O),
    /// Claims the slot while no value is kept.
    WinFree,
    /// Fails to claim the slot: what the word holds.
    Lose(u64),
    /// Releases the slot with this value.
    Put(O),
    /// Releases the slot empty.
    Leave,
}

/// A step at a place, and how many steps at the list the owner of the seat showed with it. No code makes a value of
/// this type.
pub struct PlaceStep<O> {
    pub after: usize,
    pub deed: Deed<O>,
}

/// What a seat may do, what it has in hand, and the steps that it made. No code makes a value of this type.
pub struct View<O> {
    pub right: Right,
    pub hand: Hand,
    pub steps: LinkedList<PlaceStep<O>>,
}

/// How many steps the caller has made elsewhere by now, as it shows. A call at `Brand` takes the number from
/// what it is shown.
pub trait Shown {
    ghost made: { ℕ };
}

impl Shown for Brand {
    ghost made = { 0 };
}
