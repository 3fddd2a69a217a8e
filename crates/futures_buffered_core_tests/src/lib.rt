//! Tests of the ready list, the ready core, the sources and the slot map, by public calls alone. Lists of events on a
//! ready core are lines of `calls`.
//!
//! - `script`: scripts, which say what a test does and what comes of it, a word for each step; an assertion as a call.
//! - `list`, `schedules`: the list, on one thread and on five, and long schedules of the machine of its steps.
//! - `tasks`, `who_is_woken`: scripts on two tasks and sources; which task a wake finds; the two sources for one caller.
//! - `ready_shared`: the source whose slots are woken from any thread, with outer wakers that are no task's.
//! - `sizes`: slot maps, many slots, and many calls against a plain list.
//! - `texts`: the texts of faults.
#![tactic(auto)]

#[cfg(test)]
mod list;
#[cfg(test)]
mod ready_shared;
#[cfg(test)]
mod schedules;
#[cfg(test)]
mod script;
#[cfg(test)]
mod sizes;
#[cfg(test)]
mod tasks;
#[cfg(test)]
mod texts;
#[cfg(test)]
mod who_is_woken;
