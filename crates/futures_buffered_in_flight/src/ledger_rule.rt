//! The rule of a ledger, and what each step says.
use crate::ledger::View;
use crate::run::Key;
use atomic_table::{Join, Play, Split, TableRule};
use std::alloc::Global;
use std::marker::{Brand, PhantomData};

/// No more tickets of a key are out than were given, and the numbers are numbers that the set wrote.
pub struct LedgerRule;

impl TableRule<Option<Vec<u64>>, View, ()> for LedgerRule {
    ghost use Rattle.futures_buffered_in_flight.specs.declared.ledger.View.TheVariants.{Owner};
    ghost use Rattle.futures_buffered_in_flight.specs.LedgerRule.{HoldsLedger, new_book};

    ghost holds = { λ _. HoldsLedger };

    ghost first = { λ _. Owner new_book };
}

/// The key of a ticket that is given. A call at `Brand` takes it from the key that it is given.
pub trait OfKey {
    ghost use Rattle.futures_buffered_in_flight.specs.declared.run.Key.{Key};

    ghost key: { Key };
}

impl OfKey for Brand {
    ghost key = { record { push = 0; slot = 0 } };
}

/// The set gives a ticket.
pub(crate) struct Gives<K>(PhantomData<K>);

impl<K: OfKey> Split<View> for Gives<K> {
    ghost use Rattle.futures_buffered_in_flight.specs.declared.ledger.View.TheVariants.{Owner, Ticket};
    ghost use Rattle.futures_buffered_in_flight.specs.LedgerRule.{book_of, with_given};

    ghost left = { λ v. Owner (with_given K.key (book_of v)) };

    ghost right = { λ v. Ticket (book_of v).clears K.key };
}

/// The set takes a ticket back.
pub(crate) struct Takes;

impl Join<View> for Takes {
    ghost use Rattle.futures_buffered_in_flight.specs.declared.ledger.View.TheVariants.{Returned, Spent};
    ghost use Rattle.futures_buffered_in_flight.specs.LedgerRule.{book_of, key_of};

    ghost both = { λ v w. Returned (book_of v) (key_of w) };

    ghost spent = { Spent };
}

/// The set takes a notice.
pub(crate) struct Shows;

impl Join<View> for Shows {
    ghost use Rattle.futures_buffered_in_flight.specs.declared.ledger.View.TheVariants.{Shown, Spent};
    ghost use Rattle.futures_buffered_in_flight.specs.LedgerRule.{book_of, read_by};

    ghost both = { λ v w. Shown (book_of v) (read_by w) };

    ghost spent = { Spent };
}

/// A load.
pub(crate) struct Looks;

impl Play<Option<Vec<u64>>, View> for Looks {
    ghost use Rattle.futures_buffered_in_flight.specs.LedgerRule.{looked};

    ghost then = { λ _. looked };
}

/// A load by which the set gives up all tickets.
pub(crate) struct Clears;

impl Play<Option<Vec<u64>>, View> for Clears {
    ghost use Rattle.futures_buffered_in_flight.specs.LedgerRule.{cleared};

    ghost then = { λ _ m _ n. cleared m n };
}

/// The compare-exchange by which the set claims the numbers.
pub(crate) struct Claims;

impl Play<Option<Vec<u64>>, View> for Claims {
    ghost use Rattle.futures_buffered_in_flight.specs.LedgerRule.{claimed};

    ghost then = { λ _. claimed };
}

/// The swap by which a run claims the numbers.
pub(crate) struct Arrives;

impl Play<Option<Vec<u64>>, View> for Arrives {
    ghost use Rattle.futures_buffered_in_flight.specs.LedgerRule.{arrived};

    ghost then = { λ _ _. arrived };
}

/// The store by which a seat gives the numbers back.
pub(crate) struct Leaves;

impl Play<Option<Vec<u64>>, View> for Leaves {
    ghost use Rattle.futures_buffered_in_flight.specs.LedgerRule.{left};

    ghost then = { λ _ m _ n. left m n };
}

/// The store by which the set gives back numbers that it wrote.
pub(crate) struct Writes;

impl Play<Option<Vec<u64>>, View> for Writes {
    ghost use Rattle.futures_buffered_in_flight.specs.LedgerRule.{wrote};

    ghost then = { λ _ m _ n. wrote m n };
}
