//! The table of a one-shot: one word, a place for the value, and one for the waker of the receiver.
ghost use Rattle.std.specs.Prelude.{◌≡◌, ℕ, List, [], ◌∷◌, Option, Some, IfOk, MatchOption, MatchResult};
ghost use Rattle.futures_buffered_held.specs.declared.oneshot_place.Left.{Left};
ghost use Rattle.futures_buffered_held.specs.declared.oneshot_place.Left.TheVariants.{Value};
ghost use Rattle.futures_buffered_held.specs.declared.oneshot_place.View.TheVariants.{Sender, Sent, Waiting, Got};
ghost use Rattle.futures_buffered_held.specs.OneshotPlace.{PlaceAnswers, IsIdle, HasOpened, finished};

use crate::oneshot_plays::{Ends, Finish, Look, Match, OneValue, Receipted, Turn};
use atomic_table::{Refused, Table};
use std::alloc::{AllocError, Global};
use std::marker::Model;

// The receiver has the place of the waker.
const IDLE: u64 = 0;

// The receiver waits.
const WAITING: u64 = 1;

// The sender is done.
const DONE: u64 = 2;

// The receiver is gone.
const GONE: u64 = 3;

// The numbers of the two places.
const VALUE: usize = 0;

const WAKER: usize = 1;

/// What one of the two places holds.
#[derive(Drop)]
pub enum Left<T, W> {
    Nothing,
    Value(T),
    Waker(W),
}

/// What a seat knows. No code makes a value of this type.
pub enum View<T> {
    /// The seat knows nothing.
    Spent,
    /// The seat is of both ends, which are not split yet.
    Both,
    /// The seat may send, and has not begun to.
    Sender,
    /// The seat has the place of the value, and has not sent yet.
    Writing,
    /// The seat sent this value.
    Sent(T),
    /// The seat may receive, and has left the place of the waker.
    Waiting,
    /// The seat may receive, and has the place of the waker.
    Idle,
    /// The seat received this value, or that none was sent.
    Got(Option<T>),
    /// The seat received the first, and the second was sent.
    Compared(Option<T>, T),
}

/// One end of a one-shot, or what is left of that end. It has no bytes.
pub type Seat<T, W> = atomic_table::Seat<Left<T, W>, View<T>>;

/// What both ends share. No call waits, and only `new` allocates.
///
/// A contract sees the name of its table, which its seats have too.
#[derive(Drop)]
pub struct Place<T, W> {
    table: Table<Left<T, W>, View<T>, (), OneValue, Global>,
}

impl<T, W> Model for Place<T, W> {
    ghost use Rattle.std.specs.Prelude.{◌≡◌};
    ghost use Rattle.atomic_table.specs.Seated.{TableId, table_id_coded};

    ghost Value = { TableId };

    ghost coded = { table_id_coded };

    ghost view = { λ place. place.table.shared.table_id };

    ghost invariant = { λ place. (place.table.shared.table_id.words ≡ 1)
        × (place.table.shared.table_id.slots ≡ 2) };
}

impl<T: Drop, W: Drop> Place<T, W> {
    /// Makes a one-shot, with the seats of its sender and its receiver.
    pub fn new(alloc: Global) -> Result<(Place<T, W>, Seat<T, W>, Seat<T, W>), AllocError>
        ensures sender { IfOk result (λ made. (made.1.table_id ≡ made.0)
            × (made.1.me ≡ (Sender, []))) }
        ensures receiver { IfOk result (λ made. (made.2.table_id ≡ made.0)
            × (made.2.me ≡ (Waiting, []))) }
    {
        let mut places = Vec::with_capacity(alloc, 2)?;
        places.push_reserved(Left::Nothing);
        places.push_reserved(Left::Nothing);
        match Table::new(alloc, &[WAITING], places, &()) {
            Ok((table, mut sender)) => {
                let receiver = table.shared.split_seat::<Ends>(&mut sender);
                Ok((Place { table }, sender, receiver))
            }
            Err(Refused { slots: _ }) => Err(AllocError),
        }
    }

    pub fn is_gone(&self) -> bool {
        self.table.shared.peek(0) == GONE
    }

    // Publishes what is sent, and returns the word before.
    fn finish(&self, seat: &mut Seat<T, W>, sent: Left<T, W>) -> u64
        requires { (seat.old.table_id ≡ self.now) × (seat.old.me ≡ (Sender, [])) }
        ensures same { seat.new.table_id ≡ seat.old.table_id }
        ensures told { finished (Sender, (0, sent) ∷ []) result seat.new.me }
    {
        let shared = &self.table.shared;
        shared.load::<Look>(seat, 0);
        drop(shared.exchange(seat, VALUE, sent));
        shared.swap::<Finish>(seat, 0, DONE)
    }

    /// Sends the value. Returns the value if the receiver is gone. If the receiver waits, returns its waker, which the
    /// caller must wake.
    pub fn send(&self, seat: &mut Seat<T, W>, value: T) -> Result<Option<W>, T>
        requires { (seat.old.table_id ≡ self.now) × (seat.old.me ≡ (Sender, [])) }
        ensures same { seat.new.table_id ≡ seat.old.table_id }
        ensures sent { MatchResult result (λ _. seat.new.me.0 ≡ Sent value) (λ back. back ≡ value) }
    {
        match self.finish(seat, Left::Value(value)) {
            GONE => Err(self.take_back(seat)),
            WAITING => Ok(self.take_waker(seat)),
            _ => Ok(None),
        }
    }

    // Takes back the value that the seat was to send.
    fn take_back(&self, seat: &mut Seat<T, W>) -> T
        requires { (seat.old.table_id ≡ self.now) × ((value : T)
            × (seat.old.me.1 ≡ (0, Value value) ∷ [])) }
        ensures { (seat.new.table_id ≡ seat.old.table_id)
            × (seat.old.me.1 ≡ (0, Value result) ∷ []) }
    {
        match self.table.shared.exchange(seat, VALUE, Left::Nothing) {
            Left::Value(value) => value,
            _ => unreachable!(),
        }
    }

    // Takes the waker whose place the seat has.
    fn take_waker(&self, seat: &mut Seat<T, W>) -> Option<W>
        requires { (seat.old.table_id ≡ self.now)
            × ((y : Left T W) × (more : List (ℕ × Left T W)) × (seat.old.me.1 ≡ (1, y) ∷ more)) }
        ensures { (seat.new.table_id ≡ seat.old.table_id) × (seat.new.me.0 ≡ seat.old.me.0) }
    {
        match self.table.shared.exchange(seat, WAKER, Left::Nothing) {
            Left::Waker(waker) => Some(waker),
            _ => None,
        }
    }

    /// Sends nothing, and returns the waker that the caller must wake.
    pub fn cancel(&self, seat: &mut Seat<T, W>) -> Option<W>
        requires { (seat.old.table_id ≡ self.now) × (seat.old.me ≡ (Sender, [])) }
    {
        if self.finish(seat, Left::Nothing) == WAITING {
            return self.take_waker(seat);
        }
        None
    }

    // Takes what was sent, once the seat has the place of the value.
    fn open(&self, seat: &mut Seat<T, W>) -> Option<T>
        requires { (seat.old.table_id ≡ self.now) × HasOpened seat.old.me }
        ensures { (seat.new.table_id ≡ seat.old.table_id) × (seat.new.me.0 ≡ Got result) }
    {
        match self.table.shared.exchange(seat, VALUE, Left::Nothing) {
            Left::Value(value) => Some(value),
            _ => None,
        }
    }

    /// Returns the answer if the sender is done: what was sent, or that nothing was.
    pub fn look(&self, seat: &mut Seat<T, W>) -> Option<Option<T>>
        requires { (seat.old.table_id ≡ self.now) × (seat.old.me ≡ (Waiting, [])) }
        ensures same { seat.new.table_id ≡ seat.old.table_id }
        ensures answer { PlaceAnswers result seat.new.me }
    {
        if self.table.shared.load::<Look>(seat, 0) == DONE {
            return Some(self.open(seat));
        }
        None
    }

    // Takes the place of the waker. Returns the answer instead if there is one.
    fn withdraw(&self, seat: &mut Seat<T, W>) -> Option<Option<T>>
        requires { (seat.old.table_id ≡ self.now) × (seat.old.me ≡ (Waiting, [])) }
        ensures same { seat.new.table_id ≡ seat.old.table_id }
        ensures answer { MatchOption result (IsIdle seat.new.me) (λ got. seat.new.me.0 ≡ Got got) }
    {
        let shared = &self.table.shared;
        if shared.compare_exchange::<Turn>(seat, 0, WAITING, IDLE) == WAITING {
            return None;
        }
        Some(self.open(seat))
    }

    /// Publishes the waker and drops the previous one, unless there is an answer. Returns the answer if there is one.
    pub fn register(&self, seat: &mut Seat<T, W>, waker: W) -> Option<Option<T>>
        requires { (seat.old.table_id ≡ self.now) × (seat.old.me ≡ (Waiting, [])) }
        ensures same { seat.new.table_id ≡ seat.old.table_id }
        ensures answer { PlaceAnswers result seat.new.me }
    {
        if let Some(answer) = self.withdraw(seat) {
            return Some(answer);
        }
        let shared = &self.table.shared;
        drop(shared.exchange(seat, WAKER, Left::Waker(waker)));
        if shared.compare_exchange::<Turn>(seat, 0, IDLE, WAITING) == IDLE {
            return None;
        }
        Some(self.open(seat))
    }

    /// The receiver goes. Drops what is left for it: the value, or its own waker.
    pub fn leave(&self, seat: &mut Seat<T, W>)
        requires { (seat.old.table_id ≡ self.now) × (seat.old.me ≡ (Waiting, [])) }
    {
        let shared = &self.table.shared;
        if shared.compare_exchange::<Turn>(seat, 0, WAITING, GONE) == WAITING {
            drop(shared.exchange(seat, WAKER, Left::Nothing));
        } else {
            drop(self.open(seat));
        }
    }

    /// Returns a second seat that knows what this one sent.
    #[tactic(auto, using(crate::proofs::OneshotPlaceLemmas::receipts))]
    pub fn receipt(&self, seat: &mut Seat<T, W>) -> Seat<T, W>
        requires { seat.old.table_id ≡ self.now }
        ensures place { result.table_id ≡ self.now }
        ensures sent { (result.me.1 ≡ [])
            × ((x : T) → seat.old.me.0 ≡ Sent x → result.me.0 ≡ Sent x) }
    {
        self.table.shared.split_seat::<Receipted>(seat)
    }

    /// Shows that the receiver's answer is what was sent. Spends the receipt.
    pub fn compare(&self, seat: &mut Seat<T, W>, receipt: Seat<T, W>)
        requires { (seat.old.table_id ≡ self.now) × (receipt.table_id ≡ self.now)
            × (receipt.me.1 ≡ []) }
        ensures same { seat.new.table_id ≡ seat.old.table_id }
        ensures equal { (answer : Option T) (sent : T) → seat.old.me.0 ≡ Got answer
            → receipt.me.0 ≡ Sent sent
            → (answer ≡ Some sent) × (seat.new.me.0 ≡ Got answer) }
    {
        let shared = &self.table.shared;
        shared.join_seat::<Match>(seat, receipt);
        shared.load::<Look>(seat, 0);
    }
}
