//! Commands to a machine of single steps.
ghost use Rattle.fbuf_lines.specs.MachineLines.{MachineGives, StepGives};

use crate::command::Command;
use crate::reply::Reply;
use futures_buffered_core::ready_table::{Step, StepMachine};

// Carries out a command on a machine of single steps.
pub(crate) fn machine_reply(machine: &mut StepMachine, command: Command) -> Reply
    ensures { MachineGives machine.old command result machine.new }
{
    match command {
        Command::Mark { seat, slot } => step_reply(machine, Step::Mark { seat, slot }),
        Command::Go { seat } => step_reply(machine, Step::Go { seat }),
        Command::Step => step_reply(machine, Step::Poll),
        _ => Reply::Bad,
    }
}

fn step_reply(machine: &mut StepMachine, step: Step) -> Reply
    ensures { StepGives machine.old step result machine.new }
{
    match machine.step(step) {
        Some(reply) => Reply::of_step(reply),
        None => Reply::Stuck,
    }
}
