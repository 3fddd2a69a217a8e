//! What one step does, by the role of the seat that makes it.
ghost use Rattle.std.specs.Prelude.{◌≡◌, ◌<◌, ◌≤◌, ◌^◌};
ghost use Rattle.futures_buffered_table.specs.Effect.{InRange, after_slot_read, word_of_role, put_by_role, next_role};
ghost use Rattle.futures_buffered_table.specs.Effect.{reply_of_role};

use crate::answer::{Taken, Woke};
use crate::step::StepReply;
use crate::view::{Phase, Role};

// The word that the step changes.
pub fn touches(n: usize, slot: usize, role: Role) -> usize
    requires { (n < 2 ^ 62) × (slot ≤ n) × InRange n role }
    ensures { result ≡ word_of_role n slot role }
{
    match role {
        Role::Idle => slot,
        Role::Won(entry) => n + entry,
        Role::Cleared(_) => n + n + 1,
        Role::Swapped(_, before) => n + before,
        Role::Polls(head, phase) => match phase {
            Phase::Start | Phase::Moved | Phase::StubLinked => n + head,
            Phase::AtStub | Phase::NoNext | Phase::StubCleared => n + n + 1,
            Phase::Last => n + n,
            Phase::StubPut(before) => n + before,
            Phase::InHand(slot) => slot,
        },
    }
}

// What the word becomes.
pub fn puts(n: usize, role: Role, found: u64) -> u64
    requires { (n < 2 ^ 62) × InRange n role }
    ensures { result ≡ put_by_role n role found }
{
    match role {
        Role::Idle => 1,
        Role::Won(_) => 0,
        Role::Cleared(entry) => entry as u64,
        Role::Swapped(entry, _) => entry as u64 + 1,
        Role::Polls(_, phase) => match phase {
            Phase::Start | Phase::Moved | Phase::StubLinked => found,
            Phase::AtStub | Phase::NoNext => found,
            Phase::Last => 0,
            Phase::StubCleared => n as u64,
            Phase::StubPut(_) => n as u64 + 1,
            Phase::InHand(_) => 0,
        },
    }
}

// The poller's role after a read of its head's link, which found `found`. The phase is `none` if
// the link points to no entry.
fn after_link(head: usize, none: Phase, found: u64) -> Role
    ensures { result ≡ after_slot_read head none found }
{
    if found == 0 {
        Role::Polls(head, none)
    } else {
        Role::Polls(found as usize - 1, Phase::InHand(head))
    }
}

// The role of the seat after the step.
pub fn role_after(n: usize, slot: usize, role: Role, found: u64) -> Role
    ensures { result ≡ next_role n slot role found }
{
    match role {
        Role::Idle if found == 0 => Role::Won(slot),
        Role::Idle => Role::Idle,
        Role::Won(entry) => Role::Cleared(entry),
        Role::Cleared(entry) => Role::Swapped(entry, found as usize),
        Role::Swapped(_, _) => Role::Idle,
        Role::Polls(head, phase) => match phase {
            Phase::Start if head != n => after_link(head, Phase::NoNext, found),
            Phase::Start if found == 0 => Role::Polls(head, Phase::AtStub),
            Phase::Start => Role::Polls(found as usize - 1, Phase::Moved),
            Phase::Moved => after_link(head, Phase::NoNext, found),
            Phase::NoNext if found as usize == head => Role::Polls(head, Phase::Last),
            Phase::Last => Role::Polls(head, Phase::StubCleared),
            Phase::StubCleared => Role::Polls(head, Phase::StubPut(found as usize)),
            Phase::StubPut(_) => Role::Polls(head, Phase::StubLinked),
            Phase::StubLinked => after_link(head, Phase::Start, found),
            Phase::AtStub | Phase::NoNext | Phase::InHand(_) => Role::Polls(head, Phase::Start),
        },
    }
}

// What the step returns.
pub fn reply(n: usize, role: Role, found: u64) -> StepReply
    ensures { result ≡ reply_of_role n role found }
{
    match role {
        Role::Idle if found != 0 => StepReply::Woke(Woke::Already),
        Role::Swapped(_, _) => StepReply::Woke(Woke::Fresh),
        Role::Polls(head, phase) => match phase {
            Phase::AtStub if found as usize == n => StepReply::Taken(Taken::Empty),
            Phase::AtStub => StepReply::Taken(Taken::Pause),
            Phase::NoNext if found as usize != head => StepReply::Taken(Taken::Pause),
            Phase::StubLinked if found == 0 => StepReply::Taken(Taken::Pause),
            Phase::InHand(slot) => StepReply::Taken(Taken::Slot(slot)),
            _ => StepReply::More,
        },
        _ => StepReply::More,
    }
}
