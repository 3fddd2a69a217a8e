//! What a script has begun, and what each line does to it.
ghost use Rattle.std.specs.Prelude.{◌≡◌, ◌≤◌, IfOk, OnErr};
ghost use Rattle.futures.specs.Task.{Keeps};
ghost use Rattle.fbuf_lines.specs.Session.{LineGives, TargetGives, Begins, IsNewSet, IsNewQueue};
ghost use Rattle.fbuf_lines.specs.Session.{IsNewGrowingSet, IsNewMachine, SetsLimit, first_session};
ghost use Rattle.fbuf_lines.specs.Session.{MayLackMemory, LineMayLackMemory};

use crate::bounded_lines::{ScriptSet, new_set, set_reply};
use crate::command::{Command, parse};
use crate::growing_lines::{ScriptGrowing, growing_reply};
use crate::machine_lines::machine_reply;
use crate::ordered_lines::{ScriptQueue, queue_reply};
use crate::reply::Reply;
use futures::task::Context;
use futures_buffered_core::ready_core::{MAX_CAPACITY, NewFault};
use futures_buffered_core::ready_table::StepMachine;
use futures_buffered_sets::futures_ordered_bounded::FuturesOrderedBounded;
use futures_buffered_sets::futures_unordered_bounded::POLL_LIMIT;
use futures_buffered_unordered::futures_unordered::FuturesUnordered;
use std::alloc::{AllocError, Global};
use std::marker::Model;

/// The target that was begun last.
#[derive(Drop)]
pub enum Target {
    /// No line has begun a target yet.
    Nothing,
    /// `unordered C` began this set.
    Unordered(ScriptSet),
    /// `ordered C` began this queue.
    Ordered(ScriptQueue),
    /// `growing C` began this set.
    Growing(ScriptGrowing),
    /// `steps C` began this machine.
    Steps(StepMachine),
}

/// How far a script has come: the target that it began last, and how many ready slots one poll takes
/// at most, in sets that it begins later.
#[derive(Drop)]
pub struct Session {
    target: Target,
    limit: usize,
}

impl Model for Session {
    ghost use Rattle.std.specs.Prelude.{◌≤◌};
    ghost use Rattle.fbuf_lines.specs.Session.{ScriptSession};

    ghost Value = { ScriptSession };

    ghost view = { λ session. record { target = session.target; limit = session.limit } };

    ghost invariant = { λ session. 1 ≤ session.limit };
}

impl Session {
    /// Makes a session without a target, with the usual limit. Does not allocate.
    pub fn new() -> Session
        ensures { result ≡ first_session }
    {
        Session {
            target: Target::Nothing,
            limit: POLL_LIMIT,
        }
    }

    /// Carries out one line, and returns the reply to it.
    ///
    /// Returns `Err`, and changes nothing, if an allocation fails: for a new target, or for a push
    /// into a growing set or into a queue that is not full.
    ///
    /// A line that begins a target allocates in proportion to its capacity, a push that makes a group
    /// in proportion to that group's, and a push that makes a queue longer than its capacity, and than
    /// ever before, in proportion to its length. No other line allocates. Takes the time of the line's
    /// bytes, of these allocations, of the call that the line asks for, and of the drop of a replaced
    /// target.
    pub fn answer(
        &mut self,
        alloc: Global,
        line: &[u8],
        cx: &mut Context<'_>,
    ) -> Result<Reply, AllocError>
        ensures reply { IfOk result (λ reply. LineGives self.old line.now reply self.new) }
        ensures memory { OnErr result (self.new ≡ self.old) }
        ensures refused { OnErr result (LineMayLackMemory self.old line.now) }
        ensures kept { Keeps cx.old cx.new }
    {
        match parse(line) {
            Some(Command::Unordered(capacity)) => self.begin_unordered(alloc, capacity),
            Some(Command::Ordered(capacity)) => self.begin_ordered(alloc, capacity),
            Some(Command::Growing(capacity)) => self.begin_growing(alloc, capacity),
            Some(Command::Steps(capacity)) => self.begin_steps(alloc, capacity),
            Some(Command::Limit(limit)) => Ok(self.set_limit(limit)),
            Some(command) => self.carry_out(command, cx),
            None => Ok(Reply::Bad),
        }
    }

    // Replaces the target by a new set. If that is refused, the target before stays.
    fn begin_unordered(&mut self, alloc: Global, capacity: usize) -> Result<Reply, AllocError>
        ensures reply { IfOk result (λ reply. Begins IsNewSet self.old capacity reply self.new) }
        ensures memory { OnErr result (self.new ≡ self.old) }
        ensures refused { OnErr result (capacity ≤ MAX_CAPACITY) }
    {
        match new_set(alloc, capacity, self.limit) {
            Ok(set) => {
                self.target = Target::Unordered(set);
                Ok(Reply::Done)
            }
            Err(NewFault::TooLarge) => Ok(Reply::TooLarge),
            Err(NewFault::Memory) => Err(AllocError),
        }
    }

    // Begins an ordered queue, as `begin_unordered` begins a set.
    fn begin_ordered(&mut self, alloc: Global, capacity: usize) -> Result<Reply, AllocError>
        ensures reply { IfOk result (λ reply. Begins IsNewQueue self.old capacity reply self.new) }
        ensures memory { OnErr result (self.new ≡ self.old) }
        ensures refused { OnErr result (capacity ≤ MAX_CAPACITY) }
    {
        match FuturesOrderedBounded::over_limit(&(), alloc, capacity, self.limit) {
            Ok(queue) => {
                self.target = Target::Ordered(queue);
                Ok(Reply::Done)
            }
            Err(NewFault::TooLarge) => Ok(Reply::TooLarge),
            Err(NewFault::Memory) => Err(AllocError),
        }
    }

    // Begins a growing set, as `begin_unordered` begins a set.
    fn begin_growing(&mut self, alloc: Global, capacity: usize) -> Result<Reply, AllocError>
        ensures reply { IfOk result (λ reply. Begins IsNewGrowingSet self.old capacity reply self.new) }
        ensures memory { OnErr result (self.new ≡ self.old) }
        ensures refused { OnErr result (capacity ≤ MAX_CAPACITY) }
    {
        match FuturesUnordered::over_limit((), alloc, capacity, self.limit) {
            Ok(set) => {
                self.target = Target::Growing(set);
                Ok(Reply::Done)
            }
            Err(NewFault::TooLarge) => Ok(Reply::TooLarge),
            Err(NewFault::Memory) => Err(AllocError),
        }
    }

    // Begins a machine, as `begin_unordered` begins a set.
    fn begin_steps(&mut self, alloc: Global, capacity: usize) -> Result<Reply, AllocError>
        ensures reply { IfOk result (λ reply. Begins IsNewMachine self.old capacity reply self.new) }
        ensures memory { OnErr result (self.new ≡ self.old) }
        ensures refused { OnErr result (capacity ≤ MAX_CAPACITY) }
    {
        match StepMachine::new(alloc, capacity) {
            Ok(machine) => {
                self.target = Target::Steps(machine);
                Ok(Reply::Done)
            }
            Err(NewFault::TooLarge) => Ok(Reply::TooLarge),
            Err(NewFault::Memory) => Err(AllocError),
        }
    }

    // Sets the limit of sets that are begun later. The target keeps its own.
    fn set_limit(&mut self, limit: usize) -> Reply
        ensures { SetsLimit self.old limit result self.new }
    {
        if limit == 0 {
            return Reply::Bad;
        }
        self.limit = limit;
        Reply::Done
    }

    fn carry_out(&mut self, command: Command, cx: &mut Context<'_>) -> Result<Reply, AllocError>
        ensures reply { IfOk result (λ reply.
            TargetGives self.old.target command reply self.new.target) }
        ensures memory { OnErr result (self.new ≡ self.old) }
        ensures refused { OnErr result (MayLackMemory self.old.target command) }
        ensures limit { self.new.limit ≡ self.old.limit }
        ensures kept { Keeps cx.old cx.new }
    {
        match &mut self.target {
            Target::Nothing => Ok(Reply::Bad),
            Target::Unordered(set) => Ok(set_reply(set, command, cx)),
            Target::Ordered(queue) => queue_reply(queue, command, cx),
            Target::Growing(set) => growing_reply(set, command, cx),
            Target::Steps(machine) => Ok(machine_reply(machine, command)),
        }
    }
}
