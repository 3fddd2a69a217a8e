//! The rule of the table that has the words of the list, and what a step, a split and a join make of
//! the views of their seats.
use crate::view::View;
use atomic_table::{Join, Play, Split, TableRule};

/// How many slots a list has, and whether it begins with each of them marked.
#[derive(Clone, Copy)]
pub struct ListKey {
    pub capacity: usize,
    pub full: bool,
}

/// The words and all views have a row from the poller's head to the tail.
pub struct RowRule;

impl TableRule<u8, View, ListKey> for RowRule {
    ghost use Rattle.futures_buffered_table.specs.Rule.{HoldsRow};
    ghost use Rattle.futures_buffered_table.specs.Beginning.{first_view};

    ghost holds = { λ key. HoldsRow key.capacity };

    ghost first = { first_view };
}

/// The step of a seat, by its role.
pub struct SeatStep;

impl Play<u8, View> for SeatStep {
    ghost use Rattle.futures_buffered_table.specs.Rule.{PlaysRole};

    ghost then = { PlaysRole };
}

/// The first step of a wake seat that is made with it.
pub struct NewWakerStep;

impl Play<u8, View> for NewWakerStep {
    ghost use Rattle.futures_buffered_table.specs.Rule.{PlaysNewWaker};

    ghost then = { PlaysNewWaker };
}

/// A new wake seat, split from another seat.
pub struct NewWaker;

impl Split<View> for NewWaker {
    ghost use Rattle.futures_buffered_table.specs.View.{new_waker_beside};

    ghost left = { λ v. v };

    ghost right = { new_waker_beside };
}

/// The first wake seat of a new list. It takes the steps with which the list begins from the poll seat.
pub struct FirstWaker;

impl Split<View> for FirstWaker {
    ghost use Rattle.futures_buffered_table.specs.View.{waker_with_steps_of, without_steps};

    ghost left = { without_steps };

    ghost right = { waker_with_steps_of };
}

/// A wake seat goes into the poll seat, with its steps.
pub struct IntoPoller;

impl Join<View> for IntoPoller {
    ghost use Rattle.futures_buffered_table.specs.View.{with_steps_of, spent_view};

    ghost both = { with_steps_of };

    ghost spent = { spent_view };
}
