//! The rule of a place, and what each step says.
use crate::view::{Shown, View};
use atomic_table::{Play, Split, TableRule};
use std::marker::PhantomData;

/// The values that were published are the values that were taken and the value that is kept. At most one seat has the
/// slot.
pub struct PlaceRule;

impl<O> TableRule<Option<O>, View<O>, ()> for PlaceRule {
    ghost use Rattle.futures_buffered_place.specs.Place.{HoldsPlace, first_poller};

    ghost holds = { λ _. HoldsPlace };

    ghost first = { λ _. first_poller };
}

/// The only poller reads the word, to publish a value.
pub struct LooksAlone<J>(PhantomData<J>);

impl<J: Shown, O> Play<Option<O>, View<O>> for LooksAlone<J> {
    ghost use Rattle.std.specs.Prelude.{◌≡◌};
    ghost use Rattle.futures_buffered_place.specs.Place.{alone_looks};

    ghost then = { λ _ me found after. after ≡ alone_looks J.made me.0 found };
}

/// Another seat reads the word.
pub struct Looks<J>(PhantomData<J>);

impl<J: Shown, O> Play<Option<O>, View<O>> for Looks<J> {
    ghost use Rattle.std.specs.Prelude.{◌≡◌, []};
    ghost use Rattle.futures_buffered_place.specs.Place.{looks};

    ghost then = { λ _ me found after. after ≡ (looks J.made me.0 found, []) };
}

/// A seat tries to claim the slot while a value is kept.
pub struct Takes<J>(PhantomData<J>);

impl<J: Shown, O> Play<Option<O>, View<O>> for Takes<J> {
    ghost use Rattle.futures_buffered_place.specs.Place.{TellsTaking};

    ghost then = { λ _ me found after. TellsTaking J.made me.0 found after };
}

/// A seat releases the slot with a value.
pub struct Puts<J>(PhantomData<J>);

impl<J: Shown, O> Play<Option<O>, View<O>> for Puts<J> {
    ghost use Rattle.std.specs.Prelude.{◌≡◌};
    ghost use Rattle.futures_buffered_place.specs.Place.{after_put};

    ghost then = { λ _ me _ after. after ≡ after_put J.made me };
}

/// A seat releases the slot empty.
pub struct Leaves<J>(PhantomData<J>);

impl<J: Shown, O> Play<Option<O>, View<O>> for Leaves<J> {
    ghost use Rattle.std.specs.Prelude.{◌≡◌, []};
    ghost use Rattle.futures_buffered_place.specs.Place.{leaves_next};

    ghost then = { λ _ me _ after. after ≡ (leaves_next J.made me.0, []) };
}

/// One of several pollers tries to claim the slot while no value is kept.
pub struct TakesFree<J>(PhantomData<J>);

impl<J: Shown, O> Play<Option<O>, View<O>> for TakesFree<J> {
    ghost use Rattle.std.specs.Prelude.{◌≡◌};
    ghost use Rattle.futures_buffered_place.specs.Place.{free_taken};

    ghost then = { λ _ me found after. after ≡ free_taken J.made me.0 found };
}

/// A seat that is made with this step reads the word, to take the value.
pub struct LooksAnew<J>(PhantomData<J>);

impl<J: Shown, O> Play<Option<O>, View<O>> for LooksAnew<J> {
    ghost use Rattle.std.specs.Prelude.{◌≡◌, []};
    ghost use Rattle.futures_buffered_place.specs.Place.{new_taker, looks};

    ghost then = { λ _ _ found after. after ≡ (looks J.made new_taker found, []) };
}

/// A poller gets another next to it. From then on neither is alone.
pub struct ToTwo;

impl<O> Split<View<O>> for ToTwo {
    ghost use Rattle.futures_buffered_place.specs.Place.{beside_of, new_beside};

    ghost left = { beside_of };

    ghost right = { λ _. new_beside };
}
