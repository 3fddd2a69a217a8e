//! The laws of the rule. Each is the contract of a function that does nothing.
ghost use Rattle.futures_buffered_table.specs.Laws.{RulePlacesSlots, RuleEmptiesRow, RuleLosesNoMark};

/// In every state that [`RowRule`](super::RowRule) allows, each slot is in its one place.
///
/// The table keeps its rule between any two steps of any threads, so this holds at each of these
/// moments.
pub fn rule_places_slots()
    ensures { RulePlacesSlots }
{}

/// Holds in every state that [`RowRule`](super::RowRule) allows. If the poller found no link at the
/// stub and the tail is the stub, the row has no slot.
///
/// `take` returns Empty only if its own tail read was such a moment.
pub fn rule_empties_row()
    ensures { RuleEmptiesRow }
{}

/// In every state that [`RowRule`](super::RowRule) allows, a slot was won as often as it was
/// unmarked, and once more if it is marked.
pub fn rule_loses_no_mark()
    ensures { RuleLosesNoMark }
{}
