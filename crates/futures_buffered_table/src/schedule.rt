//! A whole schedule on a new machine.
ghost use Rattle.std.specs.Prelude.{◌≡◌, ℕ, ◌<◌, [], ◌↔◌, IfOk, Err};
ghost use Rattle.futures_buffered_table.specs.ScheduleLaw.{AfterEach, AnswersInOrder, EmptyIsTrue, PauseHasCause};
ghost use Rattle.futures_buffered_table.specs.Schedule.{at_start, Legal, replies_of, IsStuckAt};
ghost use Rattle.futures_buffered_table.specs.declared.step.StepFault.TheVariants.{TooLarge, Step as StuckAt};

use crate::answer::{MAX_CAPACITY, NewFault};
use crate::step::{Step, StepFault, StepReply};
use crate::step_machine::StepMachine;
use std::alloc::Global;

/// Makes the steps in order on a new machine, and returns their replies.
///
/// Tests the capacity first (`TooLarge`), and then allocates all that it needs (`Memory`). Then it
/// makes the steps, up to the first that cannot be made (`Step`). Takes time and allocates in
/// proportion to the capacity and the number of steps.
pub fn steps(alloc: Global, capacity: usize, steps: &[Step]) -> Result<Vec<StepReply>, StepFault>
    ensures replies { IfOk result (λ v. Legal capacity (at_start capacity) steps.now
        × (v.items ≡ replies_of capacity (at_start capacity) steps.now)) }

    // The slots are dequeued in the order in which the wakers' tail swaps enqueued them.
    ensures order { IfOk result (λ v. AfterEach AnswersInOrder [] steps.now v.items) }
    ensures empty { IfOk result (λ v. AfterEach EmptyIsTrue [] steps.now v.items) }
    ensures pause { IfOk result (λ v. AfterEach PauseHasCause [] steps.now v.items) }

    ensures stuck { (k : ℕ) → result ≡ Err (StuckAt k) → IsStuckAt capacity steps.now k }
    ensures too_large { (result ≡ Err TooLarge) ↔ (MAX_CAPACITY < capacity) }
{
    let mut machine = match StepMachine::new(alloc, capacity) {
        Ok(machine) => machine,
        Err(NewFault::TooLarge) => return Err(StepFault::TooLarge),
        Err(NewFault::Memory) => return Err(StepFault::Memory),
    };
    let mut replies = Vec::new(alloc);
    let Ok(()) = replies.reserve(steps.len()) else {
        return Err(StepFault::Memory);
    };
    for k in 0..steps.len() {
        let Some(reply) = machine.step(steps[k]) else {
            return Err(StepFault::Step(k));
        };
        replies.push_reserved(reply);
    }
    Ok(replies)
}
