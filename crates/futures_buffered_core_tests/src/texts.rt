// The texts of faults, and how faults, events and replies are shown.
use crate::script::same;
use futures_buffered_core::ready_core::{Event, NewFault, Reply, RunFault, Taken, Woke};
use futures_buffered_table::ready_table::StepFault;
use std::alloc::Global;
use std::fmt::{Debug, Display};
use std::test::Fail;

// Writes each fault, and wants these texts.
fn says<F: Display>(alloc: Global, faults: &[F], wanted: &str) -> Result<(), Fail> {
    let mut texts = String::new(alloc);
    for fault in faults {
        write!(texts, "{fault}; ")?;
    }
    same(texts.as_str(), wanted)
}

#[test]
fn texts_of_faults(rt: HostRuntime) -> Result<(), Fail> {
    let alloc = rt.alloc();
    let faults = [RunFault::Memory, RunFault::Event(0), RunFault::Event(70000)];
    let wanted = "out of memory; the entry at 0 names a slot that is not there; \
        the entry at 70000 names a slot that is not there; ";
    says(alloc, &faults, wanted)?;
    let wanted = "out of memory; the capacity is too large: at most 4611686018427387903 slots; ";
    says(alloc, &[NewFault::Memory, NewFault::TooLarge], wanted)?;
    says(alloc, &[StepFault::Memory, StepFault::TooLarge], wanted)?;
    says(alloc, &[StepFault::Step(7)], "step 7 cannot be made; ")
}

// Shows values, and wants this text.
fn shows<T: Debug + Drop>(alloc: Global, values: T, wanted: &str) -> Result<(), Fail> {
    let text = format!(in alloc; "{values:?}")?;
    same(text.as_str(), wanted)
}

#[test]
fn events_and_replies_are_shown(rt: HostRuntime) -> Result<(), Fail> {
    shows(
        rt.alloc(),
        [Event::Mark(12), Event::Take],
        "[Mark(12), Take]",
    )?;
    let woken = [Woke::Fresh, Woke::Already].map(Reply::Woke);
    let taken = [Taken::Slot(3), Taken::Empty, Taken::Pause].map(Reply::Taken);
    let wanted = "([Woke(Fresh), Woke(Already)], [Taken(Slot(3)), Taken(Empty), Taken(Pause)])";
    shows(rt.alloc(), (woken, taken), wanted)
}

#[test]
fn faults_are_shown(rt: HostRuntime) -> Result<(), Fail> {
    let events = [RunFault::Memory, RunFault::Event(9)];
    let sizes = [NewFault::Memory, NewFault::TooLarge];
    shows(
        rt.alloc(),
        (events, sizes),
        "([Memory, Event(9)], [Memory, TooLarge])",
    )
}
