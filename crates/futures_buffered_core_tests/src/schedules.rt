// Long schedules on a machine, made by one call too. What each step answers is compared with a slow model by
// `scripts/compare_with_model`, over scripts of `fbuf`; what is refused is in lines of `calls`.
use crate::sizes::next_number;
use futures_buffered_table::ready_table::{Step, StepFault, StepMachine, StepReply, steps};
use std::alloc::{AllocError, Global};
use std::process::Abort;
use std::test::Fail;

// A step of 4 seats and 3 slots, by a number: wakers and poller have about as many.
fn step_by(number: u64) -> Step {
    let seat = ((number >> 33) % 4) as usize;
    let slot = ((number >> 50) % 3) as usize;
    match (number >> 40) % 8 {
        0 | 1 => Step::Mark { seat, slot },
        2 | 3 | 4 => Step::Go { seat },
        _ => Step::Poll,
    }
}

// A machine of 3 slots, with the steps that were made and their replies.
#[derive(Drop)]
struct Schedule {
    machine: StepMachine,
    made: Vec<Step>,
    replies: Vec<StepReply>,
}

impl Schedule {
    fn new(alloc: Global) -> Result<Schedule, Fail> {
        Ok(Schedule {
            machine: StepMachine::new(alloc, 3)?,
            made: Vec::new(alloc),
            replies: Vec::new(alloc),
        })
    }

    // Makes so many steps by the numbers that follow, except those that are refused, and returns the last number.
    fn steps_by(&mut self, count: u64, mut number: u64) -> Result<u64, AllocError> {
        for _ in 0..count {
            number = next_number(number);
            let step = step_by(number);
            if let Some(reply) = self.machine.step(step) {
                self.made.push(step)?;
                self.replies.push(reply)?;
            }
        }
        Ok(number)
    }

    // Returns whether one call that makes these steps returns the same replies, and refuses one more, of a seat that is
    // idle.
    fn repeats(&mut self, alloc: Global) -> Result<bool, AllocError> {
        let same = match steps(alloc, 3, self.made.as_slice()) {
            Ok(all) => all == self.replies,
            Err(_) => false,
        };
        let count = self.made.len();
        self.made.push(Step::Go { seat: 4 })?;
        Ok(same && steps(alloc, 3, self.made.as_slice()) == Err(StepFault::Step(count)))
    }
}

fn long_schedule<R: Abort>(rt: &R, alloc: Global, count: u64, number: u64) -> Result<u64, Fail> {
    let mut schedule = Schedule::new(alloc)?;
    let number = schedule.steps_by(count, number)?;
    assert!(rt; schedule.repeats(alloc)?);
    Ok(number)
}

// 1,000 schedules of up to 400 steps.
#[test]
fn many_long_schedules(rt: HostRuntime) -> Result<(), Fail> {
    let mut number = 1u64;
    for _ in 0..1000u64 {
        let count = (number >> 33) % 400 + 1;
        number = long_schedule(&rt, rt.alloc(), count, number)?;
    }
    Ok(())
}
