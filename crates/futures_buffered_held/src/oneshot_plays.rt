//! The rule of a one-shot, and what each step says.
use crate::oneshot_place::{Left, View};
use atomic_table::{Join, Play, Split, TableRule};

pub struct OneValue;

impl<T, W> TableRule<Left<T, W>, View<T>, ()> for OneValue {
    ghost use Rattle.futures_buffered_held.specs.declared.oneshot_place.View.TheVariants.{Both};
    ghost use Rattle.futures_buffered_held.specs.OneshotPlace.{HoldsOne};

    ghost holds = { λ _. HoldsOne };

    ghost first = { λ _. Both };
}

// A load.
pub(crate) struct Look;

impl<T, W> Play<Left<T, W>, View<T>> for Look {
    ghost use Rattle.futures_buffered_held.specs.OneshotPlace.{looked};

    ghost then = { λ _. looked };
}

// A compare-exchange. By it the receiver takes the place of the waker, gives that place back, or goes.
pub(crate) struct Turn;

impl<T, W> Play<Left<T, W>, View<T>> for Turn {
    ghost use Rattle.futures_buffered_held.specs.OneshotPlace.{turned};

    ghost then = { λ step. turned step.first step.second };
}

// The swap by which the sender is done.
pub(crate) struct Finish;

impl<T, W> Play<Left<T, W>, View<T>> for Finish {
    ghost use Rattle.futures_buffered_held.specs.OneshotPlace.{finished};

    ghost then = { λ _. finished };
}

// The split into the two ends.
pub(crate) struct Ends;

impl<T> Split<View<T>> for Ends {
    ghost use Rattle.futures_buffered_held.specs.declared.oneshot_place.View.TheVariants.{Sender, Waiting};

    ghost left = { λ _. Sender };

    ghost right = { λ _. Waiting };
}

// A second seat that knows what was sent.
pub(crate) struct Receipted;

impl<T> Split<View<T>> for Receipted {
    ghost use Rattle.futures_buffered_held.specs.OneshotPlace.{sent_by, sent_view};

    ghost left = { λ v. v };

    ghost right = { λ v. sent_view (sent_by v) };
}

// A receiver joins a receipt.
pub(crate) struct Match;

impl<T> Join<View<T>> for Match {
    ghost use Rattle.futures_buffered_held.specs.declared.oneshot_place.View.TheVariants.{Spent};
    ghost use Rattle.futures_buffered_held.specs.OneshotPlace.{matched};

    ghost both = { matched };

    ghost spent = { Spent };
}
