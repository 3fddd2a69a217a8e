//! The ledger of a set in flight: which of its futures have not ended, and which pushes were cancelled.
//!
//! The set gives a ticket with each future that is pushed. The ticket is kept next to the future, and is returned when
//! the future ends. So a future that ends was pushed, and ends once. The set writes into the ledger which pushes were
//! cancelled. A run that was cancelled returns a notice, which it gets only if it read that in the ledger. Tickets and
//! notices have no bytes apart from a key.
ghost use Rattle.std.specs.Prelude.{false, ◌≡◌, ◌+◌, ◌<◌, ◌≤◌, ◌⊎◌, ℕ, IfOk, IfSome, MatchOption, None, true, [], ◌∷◌};
ghost use Rattle.std.specs.Prelude.{count_by, slice_index_or};
ghost use Rattle.std.specs.Arc.{arc_value};
ghost use Rattle.futures_buffered_in_flight.specs.declared.ledger.View.TheVariants as views;
ghost use Rattle.futures_buffered_in_flight.specs.Ledger.{same_key, told_to, without};
ghost use Rattle.futures_buffered_in_flight.specs.LedgerRule.{IsOwner, IsTold, MayLeave, book_of, items_of, key_of};
ghost use Rattle.futures_buffered_in_flight.specs.LedgerRule.{read_by, with_cleared, with_given, with_returned, with_told};

use crate::ledger_rule::{
    Arrives, Claims, Clears, Gives, Leaves, LedgerRule, Looks, OfKey, Shows, Takes, Writes,
};
use crate::run::Key;
use atomic_table::{Badge, Table};
use std::alloc::{AllocError, Global};
use std::collections::LinkedList;
use std::marker::{Brand, Model};
use std::mem;
use std::sync::Arc;

// The numbers are at home.
const FREE: u64 = 0;

// A seat has the numbers.
const TAKEN: u64 = 1;

// The number of the slot of the table that holds the numbers.
const NUMBERS: usize = 0;

/// What the set knows of its ledger. No code makes a value of this type.
pub struct Book {
    /// How often the set gave up all tickets.
    pub clears: u64,
    /// The keys of the tickets that were given since then, and were not returned.
    pub tickets: LinkedList<Key>,
    /// The numbers that were written, the last first.
    pub told: LinkedList<LinkedList<u64>>,
}

/// What a seat knows. No code makes a value of this type.
pub enum View {
    /// The seat knows nothing.
    Spent,
    /// The seat is the set's.
    Owner(Book),
    /// The seat is the set's, and has taken a ticket: what the set knew before, and the key of the ticket.
    Returned(Book, Key),
    /// The seat is the set's, and has taken a notice: what the set knows, and the numbers of the notice.
    Shown(Book, LinkedList<u64>),
    /// The seat is of a ticket that was given after so many clears, with this key.
    Ticket(u64, Key),
    /// The seat has read these numbers.
    Notice(LinkedList<u64>),
}

/// A seat of a ledger. It has no bytes.
pub type Seat = atomic_table::Seat<Option<Vec<u64>>, View>;

/// What runs share of a ledger: for each slot a number, which is 0, or one more than that of a push into the slot that
/// was cancelled.
#[derive(Drop)]
pub struct Notes {
    table: Table<Option<Vec<u64>>, View, (), LedgerRule, Global>,
}

impl Model for Notes {
    ghost use Rattle.std.specs.Prelude.{◌≡◌};
    ghost use Rattle.atomic_table.specs.Seated.{TableId, table_id_coded};

    ghost Value = { TableId };

    ghost coded = { table_id_coded };

    ghost view = { λ notes. notes.table.shared.table_id };

    ghost invariant = { λ notes. (notes.table.shared.table_id.words ≡ 1)
        × (notes.table.shared.table_id.slots ≡ 1) };
}

/// The set's side of its ledger.
#[derive(Drop)]
pub struct Ledger {
    notes: Arc<Notes>,
    seat: Seat,
}

impl Model for Ledger {
    ghost use Rattle.std.specs.Prelude.{◌≡◌, []};
    ghost use Rattle.std.specs.Arc.{arc_value};
    ghost use Rattle.futures_buffered_in_flight.specs.Ledger.{Account};
    ghost use Rattle.futures_buffered_in_flight.specs.LedgerRule.{IsOwner, account, book_of};

    ghost Value = { Account };

    ghost view = { λ l. account l.seat.table_id (book_of l.seat.me.0) };

    ghost invariant = { λ l. (l.seat.table_id ≡ arc_value l.notes) × IsOwner l.seat.me };
}

/// What is kept next to a future from its push to its end.
#[derive(Drop)]
pub struct Ticket {
    key: Key,
    badge: Badge<View>,
}

impl Model for Ticket {
    ghost use Rattle.futures_buffered_in_flight.specs.Ledger.{Stub};
    ghost use Rattle.futures_buffered_in_flight.specs.LedgerRule.{IsTicket, clears_in, is_live};

    ghost Value = { Stub };

    ghost view = { λ t. record {
      id = t.badge.table_id;
      clears = clears_in t.badge.views;
      key = t.key;
      live = is_live t.badge.views;
    } };

    ghost invariant = { λ t. IsTicket t.key t.badge.views };
}

/// What a run returns that was cancelled.
#[derive(Drop)]
pub struct Notice {
    seat: Seat,
}

impl Model for Notice {
    ghost use Rattle.std.specs.Prelude.{◌≡◌, []};
    ghost use Rattle.futures_buffered_in_flight.specs.declared.ledger.View.TheVariants as views;
    ghost use Rattle.futures_buffered_in_flight.specs.Ledger.{Reading};
    ghost use Rattle.futures_buffered_in_flight.specs.LedgerRule.{read_by};

    ghost Value = { Reading };

    ghost view = { λ n. record { id = n.seat.table_id; told = read_by n.seat.me.0 } };

    ghost invariant = { λ n. n.seat.me ≡ (views.Notice (read_by n.seat.me.0), []) };
}

impl Ticket {
    /// Returns the key of the future.
    pub fn key(&self) -> Key
        ensures { result ≡ self.now.key }
    {
        self.key
    }

    /// Takes the ticket out of its place, and leaves a ticket that is not live.
    pub fn take(&mut self) -> Ticket
        ensures ticket { result ≡ self.old }
        ensures gone { self.new.live ≡ false }
    {
        let badge = mem::replace(&mut self.badge, Badge::blank());
        Ticket {
            key: self.key,
            badge,
        }
    }
}

// Returns the number of a slot.
fn number_at(numbers: &Option<Vec<u64>>, slot: usize) -> u64
    ensures { result ≡ slice_index_or (items_of numbers.now) slot 0 }
{
    match numbers {
        Some(numbers) => match numbers.get(slot) {
            Some(number) => *number,
            None => 0,
        },
        None => 0,
    }
}

// Writes the number of a slot, if there is one.
fn with_number(numbers: Option<Vec<u64>>, slot: usize, number: u64) -> Option<Vec<u64>>
    ensures { (at : ℕ) → (slice_index_or (items_of result) at 0 ≤ slice_index_or (items_of numbers) at 0)
        ⊎ ((at ≡ slot) × (slice_index_or (items_of result) at 0 ≤ number)) }
{
    let mut numbers = numbers?;
    if slot < numbers.len() {
        numbers[slot] = number;
    }
    Some(numbers)
}

// Makes room for the numbers of this many slots. Returns whether there is memory. No number increases.
fn with_room(alloc: Global, numbers: Option<Vec<u64>>, slots: usize) -> (Option<Vec<u64>>, bool)
    ensures { (at : ℕ) → slice_index_or (items_of result.0) at 0 ≤ slice_index_or (items_of numbers) at 0 }
{
    let mut numbers = match numbers {
        Some(numbers) => numbers,
        None => Vec::new(alloc),
    };
    if slots <= numbers.len() {
        return (Some(numbers), true);
    }
    let ok = numbers.resize(slots, 0).is_ok();
    (Some(numbers), ok)
}

impl Notes {
    // Returns the seat of a ticket with this key.
    fn give_to<K: OfKey>(&self, seat: &mut Seat, key: Key) -> Seat
        requires { (seat.old.table_id ≡ self.now) × IsOwner seat.old.me × (key ≡ K.key) }
        ensures set { (seat.new.table_id ≡ seat.old.table_id)
            × (seat.new.me ≡ (views.Owner (with_given key (book_of seat.old.me.0)), [])) }
        ensures ticket { (result.table_id ≡ self.now)
            × (result.me ≡ (views.Ticket (book_of seat.old.me.0).clears key, [])) }
    {
        self.table.shared.split_seat::<Gives<K>>(seat)
    }

    // Takes the seat of a ticket, whose key the book has.
    fn take(&self, seat: &mut Seat, ticket: Seat)
        requires { (seat.old.table_id ≡ self.now) × IsOwner seat.old.me × (ticket.table_id ≡ self.now)
            × (ticket.me ≡ (views.Ticket (book_of seat.old.me.0).clears (key_of ticket.me.0), [])) }
        ensures set { (seat.new.table_id ≡ seat.old.table_id)
            × (seat.new.me ≡ (views.Owner (with_returned (key_of ticket.me.0) (book_of seat.old.me.0)), [])) }
        ensures given { 0 < count_by (same_key (key_of ticket.me.0)) (book_of seat.old.me.0).tickets }
    {
        let shared = &self.table.shared;
        shared.join_seat::<Takes>(seat, ticket);
        shared.load::<Looks>(seat, 0);
    }

    // Takes the seat of a notice, whose numbers were written.
    fn compare(&self, seat: &mut Seat, notice: Seat)
        requires { (seat.old.table_id ≡ self.now) × IsOwner seat.old.me × (notice.table_id ≡ self.now)
            × (notice.me ≡ (views.Notice (read_by notice.me.0), [])) }
        ensures set { (seat.new.table_id ≡ seat.old.table_id) × (seat.new.me ≡ seat.old.me) }
        ensures read { IsTold (read_by notice.me.0) (book_of seat.old.me.0).told }
    {
        let shared = &self.table.shared;
        shared.join_seat::<Shows>(seat, notice);
        shared.load::<Looks>(seat, 0);
    }

    // Gives up all tickets.
    fn forget(&self, seat: &mut Seat)
        requires { (seat.old.table_id ≡ self.now) × IsOwner seat.old.me }
        ensures { (seat.new.table_id ≡ seat.old.table_id)
            × (seat.new.me ≡ (views.Owner (with_cleared (book_of seat.old.me.0)), [])) }
    {
        self.table.shared.load::<Clears>(seat, 0);
    }

    // Takes the numbers for the set. Returns `None` if another seat has them.
    fn claim(&self, seat: &mut Seat) -> Option<Option<Vec<u64>>>
        requires { (seat.old.table_id ≡ self.now) × IsOwner seat.old.me }
        ensures same { seat.new.table_id ≡ seat.old.table_id }
        ensures claimed { MatchOption result (seat.new.me ≡ seat.old.me)
            (λ numbers. (seat.new.me ≡ (seat.old.me.0, (0, None) ∷ []))
            × IsTold (items_of numbers) (book_of seat.old.me.0).told) }
    {
        let shared = &self.table.shared;
        if shared.compare_exchange::<Claims>(seat, 0, FREE, TAKEN) != FREE {
            return None;
        }
        Some(shared.exchange(seat, NUMBERS, None))
    }

    // Gives back numbers that the view of the seat allows.
    fn leave(&self, seat: &mut Seat, numbers: Option<Vec<u64>>)
        requires { (seat.old.table_id ≡ self.now) × (seat.old.me.1 ≡ (0, None) ∷ [])
            × MayLeave seat.old.me.0 (items_of numbers) }
        ensures { (seat.new.table_id ≡ seat.old.table_id) × (seat.new.me ≡ (seat.old.me.0, [])) }
    {
        let shared = &self.table.shared;
        drop(shared.exchange(seat, NUMBERS, numbers));
        shared.store::<Leaves>(seat, 0, FREE);
    }

    // Gives back numbers that the set wrote.
    fn write(&self, seat: &mut Seat, numbers: Option<Vec<u64>>)
        requires { (seat.old.table_id ≡ self.now)
            × (seat.old.me ≡ (views.Owner (book_of seat.old.me.0), (0, None) ∷ [])) }
        ensures { (seat.new.table_id ≡ seat.old.table_id)
            × (seat.new.me ≡ (views.Owner (with_told (items_of numbers) (book_of seat.old.me.0)), [])) }
    {
        let shared = &self.table.shared;
        drop(shared.exchange(seat, NUMBERS, numbers));
        shared.store::<Writes>(seat, 0, FREE);
    }

    // Reads the numbers by a new seat. Returns the number of the slot. Returns `None` if another seat has the numbers.
    fn read(&self, slot: usize) -> Option<(u64, Seat)>
        ensures { IfSome result (λ r. (r.1.table_id ≡ self.now)
            × (r.1.me ≡ (views.Notice (read_by r.1.me.0), [])) × (r.0 ≡ slice_index_or (read_by r.1.me.0) slot 0)) }
    {
        let shared = &self.table.shared;
        let (found, mut seat) = shared.swap_new_seat::<Arrives>(0, TAKEN);
        if found != FREE {
            return None;
        }
        let numbers = shared.exchange(&mut seat, NUMBERS, None);
        let number = number_at(&numbers, slot);
        self.leave(&mut seat, numbers);
        Some((number, seat))
    }

    /// Returns a notice if the push of this key, or a later push into its slot, was cancelled. Returns `None` also if
    /// another thread has the numbers. Makes one swap and one store.
    pub fn look(&self, key: Key) -> Option<Notice>
        ensures { IfSome result (λ notice. (notice.id ≡ self.now)
            × (key.push < slice_index_or notice.told key.slot 0)) }
    {
        let (number, seat) = self.read(key.slot)?;
        if key.push < number {
            return Some(Notice { seat });
        }
        None
    }
}

impl Ledger {
    /// Makes a ledger with a number for this many slots, which has given no ticket. Allocates; takes time in proportion
    /// to the number of slots.
    pub fn new(alloc: Global, slots: usize) -> Result<Ledger, AllocError>
        ensures none { IfOk result (λ ledger. ledger.tickets ≡ []) }
        ensures untold { IfOk result (λ ledger. (slot : ℕ) → told_to ledger.told slot ≡ 0) }
    {
        let (table, seat) = Table::vacant(alloc, &[FREE], 1, &())?;
        let mut ledger = Ledger {
            notes: Arc::new(alloc, Notes { table })?,
            seat,
        };
        ledger.reserve(alloc, slots)?;
        Ok(ledger)
    }

    /// Returns what the runs share. Returns `None` if there are too many owners already.
    pub fn notes(&self) -> Option<Arc<Notes>>
        ensures { IfSome result (λ notes. arc_value notes ≡ self.now.id) }
    {
        Arc::try_clone(&self.notes).ok()
    }

    /// Returns a ticket for the future of this key. Makes one load.
    pub fn give(&mut self, key: Key) -> Ticket
        ensures ticket { result ≡ record { id = self.old.id; clears = self.old.clears; key = key; live = true } }
        ensures book { self.new ≡ record self.old { tickets = key ∷ self.old.tickets } }
    {
        let seat = self.notes.give_to::<Brand>(&mut self.seat, key);
        Ticket {
            key,
            badge: seat.into_badge(),
        }
    }

    /// Takes the ticket of a future that ended. Shows that the ticket was given since the last clear, and was not
    /// returned before. Makes two loads.
    pub fn take_back(&mut self, ticket: Ticket)
        requires { (ticket.id ≡ self.old.id) × (ticket.clears ≡ self.old.clears) × (ticket.live ≡ true) }
        ensures given { 0 < count_by (same_key ticket.key) self.old.tickets }
        ensures book { self.new ≡ record self.old { tickets = without ticket.key self.old.tickets } }
    {
        let Ticket { key: _, badge } = ticket;
        self.notes.take(&mut self.seat, badge.into_seat());
    }

    /// Gives up all tickets, whose futures were dropped. Makes one load.
    pub fn clear(&mut self)
        ensures { self.new ≡ record self.old { clears = self.old.clears + 1; tickets = [] } }
    {
        self.notes.forget(&mut self.seat);
    }

    /// Writes that the push of this key was cancelled. If a run reads the numbers, or there is no number for the slot,
    /// changes nothing. Makes one compare-exchange and one store.
    pub fn tell(&mut self, key: Key)
        ensures rest { (self.new.id ≡ self.old.id) × (self.new.clears ≡ self.old.clears)
            × (self.new.tickets ≡ self.old.tickets) }
        ensures told { (slot : ℕ) → (told_to self.new.told slot ≤ told_to self.old.told slot)
            ⊎ ((slot ≡ key.slot) × (told_to self.new.told slot ≤ key.push + 1)) }
    {
        if let Some(numbers) = self.notes.claim(&mut self.seat) {
            let numbers = with_number(numbers, key.slot, key.push.saturating_add(1));
            self.notes.write(&mut self.seat, numbers);
        }
    }

    /// Makes room for the numbers of this many slots. If a run reads the numbers, changes nothing. Takes time in
    /// proportion to the number of slots if it allocates.
    pub fn reserve(&mut self, alloc: Global, slots: usize) -> Result<(), AllocError>
        ensures { self.new ≡ self.old }
    {
        let Some(numbers) = self.notes.claim(&mut self.seat) else {
            return Ok(());
        };
        let (numbers, ok) = with_room(alloc, numbers, slots);
        self.notes.leave(&mut self.seat, numbers);
        if ok { Ok(()) } else { Err(AllocError) }
    }

    /// Takes the notice of a run that was cancelled. Shows that the set wrote what the notice says. Makes two loads.
    pub fn check(&mut self, notice: Notice)
        requires { notice.id ≡ self.old.id }
        ensures same { self.new ≡ self.old }
        ensures read { (slot : ℕ) → slice_index_or notice.told slot 0 ≤ told_to self.old.told slot }
    {
        let Notice { seat } = notice;
        self.notes.compare(&mut self.seat, seat);
    }
}
