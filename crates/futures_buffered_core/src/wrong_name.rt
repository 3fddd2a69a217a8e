//! The search of a list of entries for the first whose slot is out of range.
ghost use Rattle.std.specs.Prelude.{◌≡◌, ◌↔◌, ℕ, Some, IfNone, IfSome, length};
ghost use Rattle.futures_buffered_core.specs.WrongName.{AllNamesBelow, IsFirstWrong};

use crate::ready_core::{Event, Taken};

/// An entry that may have a slot.
pub trait NamesSlot {
    // The entry that has this slot.
    ghost naming: { ℕ → Self };

    /// Returns the slot that it has.
    fn named(&self) -> Option<usize>
        ensures { (i : ℕ) → (result ≡ Some i) ↔ (self.now ≡ naming i) };
}

impl NamesSlot for Event {
    ghost use Rattle.futures_buffered_core.specs.declared.ready_core.Event.TheVariants.{Mark};

    ghost naming = { Mark };

    fn named(&self) -> Option<usize> {
        match self {
            Event::Mark(i) => Some(*i),
            Event::Take => None,
        }
    }
}

impl NamesSlot for Taken {
    ghost use Rattle.futures_buffered_table.specs.declared.answer.Taken.TheVariants.{Slot};

    ghost naming = { Slot };

    fn named(&self) -> Option<usize> {
        match self {
            Taken::Slot(i) => Some(*i),
            Taken::Empty | Taken::Pause => None,
        }
    }
}

/// Returns the position of the first entry whose slot is not below `cap`.
pub fn first_wrong<X: NamesSlot>(entries: &[X], cap: usize) -> Option<usize>
    ensures none { IfNone result (AllNamesBelow X.naming cap entries.now) }
    ensures wrong { IfSome result (IsFirstWrong X.naming cap entries.now) }
{
    for (p, entry) in entries.iter().enumerate() {
        if let Some(i) = entry.named() {
            if i >= cap {
                return Some(p);
            }
        }
    }
    None
}
