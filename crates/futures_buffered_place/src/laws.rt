//! What the rule of a place says of every moment.
ghost use Rattle.futures_buffered_place.specs.Place.{RuleLosesNone};

/// In every state that the rule allows, the values that all seats published are the values that they took and the value
/// that is kept.
///
/// So each value that was taken was published before, and each published value is taken at most once.
pub fn rule_loses_none<O>()
    ensures { RuleLosesNone O }
{}
