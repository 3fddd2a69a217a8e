//! The machine of single steps: the list's words and the roles of the wake seats and of one poll
//! seat, as plain data.
ghost use Rattle.std.specs.Prelude.{◌≡◌, ◌<◌, ◌++◌, ◌∷◌, [], ◌+◌, length, replicate, MatchOption, IfOk, IfNone, IfSome};
ghost use Rattle.futures_buffered_table.specs.Step.{CanStep, seat_of, slot_of};
ghost use Rattle.futures_buffered_table.specs.Types.{Start, Idle, Polls};

use crate::answer::{MAX_CAPACITY, NewFault};
use crate::effect::{puts, reply, role_after, touches};
use crate::step::{Step, StepReply, WAKE_SEATS};
use crate::view::{Phase, Role};
use crate::words::first_words;
use std::alloc::{AllocError, Global};
use std::marker::Model;

/// All words and roles between two steps. Only [`StepMachine::new`] allocates.
#[derive(Drop)]
pub struct StepMachine {
    capacity: usize,
    words: Vec<u64>,
    roles: Vec<Role>,
}

impl Model for StepMachine {
    ghost use Rattle.futures_buffered_table.specs.StepMachine.{Machine};
    ghost use Rattle.futures_buffered_table.specs.StepMachineInvariant.{KeepsMachine};

    ghost Value = { Machine };

    ghost view = { λ m.
        record { capacity = m.capacity; words = m.words.items; roles = m.roles.items } };

    ghost invariant = { λ m. KeepsMachine
        (record { capacity = m.capacity; words = m.words.items; roles = m.roles.items }) };
}

// The roles of idle wake seats, and of a poll seat whose head is the stub.
fn first_roles(alloc: Global, capacity: usize) -> Result<Vec<Role>, AllocError>
    ensures { IfOk result (λ v. v.items ≡ replicate WAKE_SEATS Idle ++ Polls capacity Start ∷ []) }
{
    let mut roles = Vec::new(alloc);
    roles.resize(WAKE_SEATS, Role::Idle)?;
    roles.push(Role::Polls(capacity, Phase::Start))?;
    Ok(roles)
}

// The seat and the slot of a step, if the step can be made.
fn seat_and_slot(capacity: usize, roles: &[Role], step: Step) -> Option<(usize, usize)>
    requires { length roles.now ≡ WAKE_SEATS + 1 }
    ensures { MatchOption result (CanStep capacity roles.now step → ⊥)
        (λ s. CanStep capacity roles.now step × (s.0 ≡ seat_of step) × (s.1 ≡ slot_of step)) }
{
    match step {
        Step::Mark { seat, slot } => {
            if seat < WAKE_SEATS && slot < capacity && matches!(roles[seat], Role::Idle) {
                Some((seat, slot))
            } else {
                None
            }
        }
        Step::Go { seat } => {
            if seat < WAKE_SEATS && !matches!(roles[seat], Role::Idle) {
                Some((seat, 0))
            } else {
                None
            }
        }
        Step::Poll => Some((WAKE_SEATS, 0)),
    }
}

impl StepMachine {
    ghost use Rattle.futures_buffered_table.specs.StepMachine.{CanMake, IsLedTo, IsNew, LeadsOn, MakesStep};
    ghost use Rattle.futures_buffered_table.specs.StepMachine.{PlacesSlots};
    ghost use Rattle.futures_buffered_table.specs.Answer.{RefusesTooLarge};

    /// Makes a machine for an empty list of `capacity` slots.
    ///
    /// Fails with `TooLarge` before any allocation, and with `Memory` if an allocation fails; then
    /// nothing is kept. Takes time and allocates in proportion to the capacity.
    pub fn new(alloc: Global, capacity: usize) -> Result<StepMachine, NewFault>
        ensures ok { IfOk result (IsNew capacity) }
        ensures refuses { RefusesTooLarge capacity result }
    {
        if capacity > MAX_CAPACITY {
            return Err(NewFault::TooLarge);
        }
        let words = first_words(alloc, capacity)?;
        let roles = first_roles(alloc, capacity)?;
        Ok(StepMachine {
            capacity,
            words,
            roles,
        })
    }

    /// Makes a step.
    ///
    /// Returns `None` if the step cannot be made; then the machine does not change. Takes no lock
    /// and does not allocate. Constant time.
    pub fn step(&mut self, step: Step) -> Option<StepReply>
        ensures refused { IfNone result ((CanMake self.old step → ⊥) × (self.new ≡ self.old)) }
        ensures made { IfSome result (λ reply. CanMake self.old step
            × MakesStep self.old step self.new reply) }
        ensures leads { IfSome result (LeadsOn self.old step self.new) }
        ensures reached { ∥ IsLedTo self.new ∥₁ }
        ensures placed { PlacesSlots self.new }
    {
        let (seat, slot) = seat_and_slot(self.capacity, self.roles.as_slice(), step)?;
        let role = self.roles[seat];
        let word = touches(self.capacity, slot, role);
        let found = self.words[word];
        self.words[word] = puts(self.capacity, role, found);
        self.roles[seat] = role_after(self.capacity, slot, role, found);
        Some(reply(self.capacity, role, found))
    }
}
