//! The place, and its seats.
ghost use Rattle.std.specs.Prelude.{◌≡◌, true, false, [], ◌∷◌, IfOk};
ghost use Rattle.futures_buffered_place.specs.Place.{Rests, RestsAs, HasSlot, Goes, new_taker};
ghost use Rattle.futures_buffered_place.specs.Place.{alone_looks, looks};
ghost use Rattle.futures_buffered_place.specs.Place.{free_taken, TellsTaking, puts_next, leaves_next};
ghost use Rattle.futures_buffered_place.specs.Place.{PutsBy, TakesBy};
ghost use Rattle.futures_buffered_place.specs.declared.view.Right.TheVariants.{Alone, Beside};
ghost use Rattle.futures_buffered_place.specs.History.{PutsIn, TakesOut, no_history, putter, seated};

use crate::rule::{Leaves, Looks, LooksAlone, LooksAnew, PlaceRule, Puts, Takes, TakesFree, ToTwo};
pub use crate::view::Shown;
use crate::view::View;
use atomic_table::{Seat, Table};
use std::alloc::{AllocError, Global};
use std::marker::Model;

// No value is kept.
const FREE: u64 = 0;

// A value is kept.
const PRESENT: u64 = 1;

// A seat has claimed the slot.
const TAKEN: u64 = 3;

/// A place for one value, which any number of threads may share by a `&`. No call waits.
#[derive(Drop)]
pub struct Place<O> {
    table: Table<Option<O>, View<O>, (), PlaceRule, Global>,
}

impl<O> Model for Place<O> {
    ghost use Rattle.futures_buffered_place.specs.History.{PlaceId, place_id_code};
    ghost use Rattle.futures_buffered_place.specs.Place.{IsSized};

    ghost Value = { PlaceId };

    ghost coded = { place_id_code };

    ghost view = { λ p. p.table.shared.table_id };

    ghost invariant = { λ p. IsSized p.table.shared.table_id };
}

/// A seat that publishes and takes values. A contract sees the values that it published and took.
#[derive(Drop)]
pub struct PutSeat<O> {
    seat: Seat<Option<O>, View<O>>,
    alone: bool,
}

impl<O> Model for PutSeat<O> {
    ghost use Rattle.futures_buffered_place.specs.History.{Putter, putter, putter_code};
    ghost use Rattle.futures_buffered_place.specs.PlaceInvariant.{KeepsPutter};

    ghost Value = { Putter O };

    ghost coded = { putter_code O.code };

    ghost view = { λ s. putter s.seat.table_id s.alone s.seat.me.0.steps };

    ghost invariant = { λ s. KeepsPutter s.seat.me s.alone };
}

/// A seat that only takes values.
#[derive(Drop)]
pub struct TakeSeat<O> {
    seat: Seat<Option<O>, View<O>>,
}

impl<O> Model for TakeSeat<O> {
    ghost use Rattle.futures_buffered_place.specs.History.{Seated, seated, seated_code};

    ghost Value = { Seated O };

    ghost coded = { seated_code O.code };

    ghost view = { λ s. seated s.seat.table_id s.seat.me.0.steps };
}

/// What a call that publishes a value returns.
#[derive(Drop)]
pub enum Put<O> {
    /// The value is kept, in place of this one, if any.
    Kept(Option<O>),
    /// Another seat was at the place, and this value was not published.
    Busy(O),
}

impl<O> Place<O> {
    // Reads the word as the only poller. If no value is kept, the slot is the poller's from here on.
    fn look_alone<J: Shown>(&self, seat: &mut Seat<Option<O>, View<O>>) -> u64
        requires { RestsAs Alone self.now seat.old }
        ensures { Goes seat.old (alone_looks J.made seat.old.me.0 result) seat.new }
    {
        self.table.shared.load::<LooksAlone<J>>(seat, 0)
    }

    // Reads the word as another seat.
    fn look<J: Shown>(&self, seat: &mut Seat<Option<O>, View<O>>) -> u64
        requires { Rests self.now seat.old }
        ensures { Goes seat.old (looks J.made seat.old.me.0 result, []) seat.new }
    {
        self.table.shared.load::<Looks<J>>(seat, 0)
    }

    // Claims the slot if no value is kept, and returns what the word was.
    fn win_free<J: Shown>(&self, seat: &mut Seat<Option<O>, View<O>>) -> u64
        requires { RestsAs Beside self.now seat.old }
        ensures { Goes seat.old (free_taken J.made seat.old.me.0 result) seat.new }
    {
        self.table
            .shared
            .compare_exchange::<TakesFree<J>>(seat, 0, FREE, TAKEN)
    }

    // Claims the slot if a value is kept, and returns what the word was.
    fn win<J: Shown>(&self, seat: &mut Seat<Option<O>, View<O>>) -> u64
        requires { Rests self.now seat.old }
        ensures { (seat.new.table_id ≡ seat.old.table_id) × TellsTaking J.made seat.old.me.0 result seat.new.me }
    {
        self.table
            .shared
            .compare_exchange::<Takes<J>>(seat, 0, PRESENT, TAKEN)
    }

    // Writes the value into the slot and releases the slot. Returns what was in the slot.
    fn fill<J: Shown>(&self, seat: &mut Seat<Option<O>, View<O>>, outer: O) -> Option<O>
        requires { HasSlot self.now seat.old }
        ensures { (seat.old.me.1 ≡ (0, result) ∷ []) × Goes seat.old (puts_next J.made seat.old.me.0 outer, []) seat.new }
    {
        let before = self.table.shared.exchange(seat, 0, Some(outer));
        self.table.shared.store::<Puts<J>>(seat, 0, PRESENT);
        before
    }

    // Takes what is in the slot, and releases the slot empty.
    fn empty<J: Shown>(&self, seat: &mut Seat<Option<O>, View<O>>) -> Option<O>
        requires { HasSlot self.now seat.old }
        ensures { (seat.old.me.1 ≡ (0, result) ∷ []) × Goes seat.old (leaves_next J.made seat.old.me.0, []) seat.new }
    {
        let before = self.table.shared.exchange(seat, 0, None);
        self.table.shared.store::<Leaves<J>>(seat, 0, FREE);
        before
    }
}

impl<O> Place<O> {
    // Publishes the value, as the only poller.
    fn put_alone<J: Shown>(&self, seat: &mut Seat<Option<O>, View<O>>, outer: O) -> Put<O>
        requires { RestsAs Alone self.now seat.old }
        ensures seat { (seat.new.table_id ≡ seat.old.table_id) × (seat.new.me.1 ≡ []) }
        ensures put { PutsBy true J.made outer seat.old.me.0 result seat.new.me.0 }
    {
        let found = self.look_alone::<J>(seat);
        if found == FREE {
            return Put::Kept(self.fill::<J>(seat, outer));
        }
        if found != PRESENT || self.win::<J>(seat) != PRESENT {
            return Put::Busy(outer);
        }
        Put::Kept(self.fill::<J>(seat, outer))
    }

    // Puts the value in, by a poller beside others.
    fn put_beside<J: Shown>(&self, seat: &mut Seat<Option<O>, View<O>>, outer: O) -> Put<O>
        requires { RestsAs Beside self.now seat.old }
        ensures seat { (seat.new.table_id ≡ seat.old.table_id) × (seat.new.me.1 ≡ []) }
        ensures put { PutsBy false J.made outer seat.old.me.0 result seat.new.me.0 }
    {
        let found = self.look::<J>(seat);
        if found == FREE {
            if self.win_free::<J>(seat) != FREE {
                return Put::Busy(outer);
            }
            return Put::Kept(self.fill::<J>(seat, outer));
        }
        if found != PRESENT || self.win::<J>(seat) != PRESENT {
            return Put::Busy(outer);
        }
        Put::Kept(self.fill::<J>(seat, outer))
    }

    // Takes the value that is kept, if any.
    fn take<J: Shown>(&self, seat: &mut Seat<Option<O>, View<O>>) -> Option<O>
        requires { Rests self.now seat.old }
        ensures seat { (seat.new.table_id ≡ seat.old.table_id) × (seat.new.me.1 ≡ []) }
        ensures taken { TakesBy J.made seat.old.me.0 result seat.new.me.0 }
    {
        if self.look::<J>(seat) != PRESENT || self.win::<J>(seat) != PRESENT {
            return None;
        }
        self.empty::<J>(seat)
    }

    // Reads the word by a seat that is made with this step.
    fn look_anew<J: Shown>(&self) -> (u64, Seat<Option<O>, View<O>>)
        ensures { (result.1.table_id ≡ self.now) × (result.1.me ≡ (looks J.made new_taker result.0, [])) }
    {
        self.table.shared.load_new_seat::<LooksAnew<J>>(0)
    }

    /// Publishes the value in place of the one before, and returns the one before. If another seat is at the place,
    /// publishes nothing and returns the value.
    ///
    /// A seat that is alone makes one load and one store if no value is kept. Otherwise the call makes at most a load,
    /// a compare-exchange and a store. Does not allocate. Records each of these steps with the number of steps that the
    /// caller shows.
    pub fn put_in<J: Shown, T>(&self, seat: &mut PutSeat<O>, outer: O, _shown: &T) -> Put<O>
        requires { seat.old.place ≡ self.now }
        ensures place { seat.new.place ≡ seat.old.place }
        ensures alone { seat.new.alone ≡ seat.old.alone }
        ensures put { PutsIn J.made seat.old.alone outer seat.old.did result seat.new.did }
    {
        if seat.alone {
            self.put_alone::<J>(&mut seat.seat, outer)
        } else {
            self.put_beside::<J>(&mut seat.seat, outer)
        }
    }

    /// Takes the value that is kept. Returns `None` if no value is kept, or if another seat is at the place.
    ///
    /// Makes one load and, if a value is kept, at most a compare-exchange and a store. Does not allocate.
    pub fn take_out<J: Shown, T>(&self, seat: &mut PutSeat<O>, _shown: &T) -> Option<O>
        requires { seat.old.place ≡ self.now }
        ensures place { seat.new.place ≡ seat.old.place }
        ensures alone { seat.new.alone ≡ seat.old.alone }
        ensures taken { TakesOut J.made seat.old.did result seat.new.did }
    {
        self.take::<J>(&mut seat.seat)
    }

    /// Takes the value that is kept, as [`take_out`](Place::take_out) does, by a seat that is made with the load.
    pub fn take_anew<J: Shown, T>(&self, _shown: &T) -> (Option<O>, TakeSeat<O>)
        ensures place { result.1.place ≡ self.now }
        ensures taken { TakesOut J.made no_history result.0 result.1.did }
    {
        let (found, mut seat) = self.look_anew::<J>();
        if found != PRESENT || self.win::<J>(&mut seat) != PRESENT {
            return (None, TakeSeat { seat });
        }
        let outer = self.empty::<J>(&mut seat);
        (outer, TakeSeat { seat })
    }

    /// Makes a place that keeps no value. Returns it with a seat that publishes. Allocates; no later call allocates.
    pub fn new(alloc: Global) -> Result<(Place<O>, PutSeat<O>), AllocError>
        ensures { IfOk result (λ r. r.1 ≡ putter r.0 true no_history) }
    {
        let (table, seat) = Table::vacant(alloc, &[FREE], 1, &())?;
        Ok((Place { table }, PutSeat { seat, alone: true }))
    }
}

impl<O> PutSeat<O> {
    /// Returns a second seat of its place that publishes, by one load. From then on neither seat is alone.
    pub fn beside(&mut self, place: &Place<O>) -> PutSeat<O>
        requires { self.old.place ≡ place.now }
        ensures same { self.new ≡ record self.old { alone = false } }
        ensures new { result ≡ putter place.now false no_history }
    {
        let other = place.table.shared.split_seat::<ToTwo>(&mut self.seat);
        self.alone = false;
        PutSeat {
            seat: other,
            alone: false,
        }
    }
}
