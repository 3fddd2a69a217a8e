//! A waker that was taken from the place of the task's waker, and has to be woken.
//!
//! A [`MustWake`] is a waker that a wake took, or a waker whose publication met another call at the place. Its type is
//! not `Drop`, and its only call wakes: a body that keeps such a waker from waking does not compile.
ghost use Rattle.std.specs.Prelude.{◌≡◌, ℕ, true, false, Option, IfOk, length};
ghost use Rattle.futures_buffered_core.specs.WakerPlace.{answer_of};
ghost use Rattle.futures_buffered_place.specs.History.{PutsIn, TakesOut, no_history, putter};

use futures_buffered_place::place::{Place, Put, PutSeat, TakeSeat};
use futures_buffered_table::ready_table::{PollSeat, StepsMade, WakeSeat};
use std::alloc::{AllocError, Global};
use std::marker::{Brand, Model};

/// What a wake of a slot wakes if its mark is newly set.
pub trait OuterWaker: Drop {
    /// Wakes it, once. The caller has left the place of the waker by then.
    fn wake_outer(self);
}

/// A seat of the list, which shows how many steps it has made there. A call at the place that is shown one records that
/// number with each of its steps.
pub trait ListSeat {
    ghost made: { Self → ℕ };
}

impl ListSeat for PollSeat {
    ghost made = { λ seat. length seat.steps };
}

impl ListSeat for WakeSeat {
    ghost made = { λ seat. length seat.steps };
}

impl<'s> ListSeat for StepsMade<'s> {
    ghost made = { λ seat. length seat.steps };
}

/// A waker that has to be woken.
pub struct MustWake<O> {
    outer: O,
}

impl<O> Model for MustWake<O> {
    ghost Value = { O };

    ghost coded = { O.code };

    ghost view = { λ waker. waker.outer };
}

impl<O: OuterWaker> MustWake<O> {
    /// Wakes it.
    pub fn wake(self) {
        let MustWake { outer } = self;
        outer.wake_outer();
    }
}

/// A place from which a waker is taken to be woken, or is returned to the poller.
#[derive(Drop)]
pub struct WakingPlace<O> {
    place: Place<O>,
}

impl<O> Model for WakingPlace<O> {
    ghost use Rattle.futures_buffered_place.specs.History.{PlaceId, place_id_code};

    ghost Value = { PlaceId };

    ghost coded = { place_id_code };

    ghost view = { λ p. p.place };
}

impl<O: Drop> WakingPlace<O> {
    /// Makes a place that keeps no waker. Returns it with the seat that publishes. Allocates.
    pub fn new(alloc: Global) -> Result<(WakingPlace<O>, PutSeat<O>), AllocError>
        ensures { IfOk result (λ r. r.1 ≡ putter r.0 true no_history) }
    {
        let (place, seat) = Place::new(alloc)?;
        Ok((WakingPlace { place }, seat))
    }

    /// Takes the waker that is kept, for a wake.
    pub fn take<T: ListSeat>(&self, shown: &T) -> (Option<MustWake<O>>, TakeSeat<O>)
        ensures place { result.1.place ≡ self.now }
        ensures taken { TakesOut (T.made shown.now) no_history result.0 result.1.did }
    {
        let (taken, seat) = self.place.take_anew::<Brand, T>(shown);
        match taken {
            Some(outer) => (Some(MustWake { outer }), seat),
            None => (None, seat),
        }
    }

    /// Takes the waker that is kept, for the poller.
    pub fn take_back<T: ListSeat>(&self, seat: &mut PutSeat<O>, shown: &T) -> Option<O>
        requires { seat.old.place ≡ self.now }
        ensures place { seat.new.place ≡ seat.old.place }
        ensures alone { seat.new.alone ≡ seat.old.alone }
        ensures taken { TakesOut (T.made shown.now) seat.old.did result seat.new.did }
    {
        self.place.take_out::<Brand, T>(seat, shown)
    }

    /// Publishes a waker. Drops the waker that it replaces after this call has left the place. If another call is at
    /// the place, publishes nothing and returns `outer`.
    pub fn put_in<T: ListSeat>(
        &self,
        seat: &mut PutSeat<O>,
        outer: O,
        shown: &T,
    ) -> Option<MustWake<O>>
        requires { seat.old.place ≡ self.now }
        ensures place { seat.new.place ≡ seat.old.place }
        ensures alone { seat.new.alone ≡ seat.old.alone }
        ensures put { (before : Option O) × PutsIn (T.made shown.now) seat.old.alone outer seat.old.did (answer_of before result) seat.new.did }
    {
        match self.place.put_in::<Brand, T>(seat, outer, shown) {
            Put::Kept(_before) => None,
            Put::Busy(outer) => Some(MustWake { outer }),
        }
    }

    /// Returns a second seat that publishes, next to this one.
    pub fn seat_beside(&self, seat: &mut PutSeat<O>) -> PutSeat<O>
        requires { seat.old.place ≡ self.now }
        ensures same { seat.new ≡ record seat.old { alone = false } }
        ensures new { result ≡ putter self.now false no_history }
    {
        seat.beside(&self.place)
    }
}
