//! The examples of docs/GUIDE.md, a function each. It prints what the page says that they print.
#![tactic(auto)]

mod adaptors;
mod in_flight;
mod loops;
mod own;
mod proved;
mod senders;
mod sets;
mod show;
mod sources;

fn main(rt: HostRuntime) -> anyhow::Result<()> {
    sets::bounded_set(&rt)?;
    loops::at_most_128(&rt)?;
    loops::pushed_into_while_drained(&rt)?;
    adaptors::in_order(&rt)?;
    adaptors::for_each(&rt)?;
    sets::one_shot(&rt)?;
    senders::three_senders(&rt)?;
    senders::refusals(&rt)?;
    senders::senders_on_threads(&rt)?;
    in_flight::joined(&rt)?;
    in_flight::summed(&rt)?;
    in_flight::at_both_ends(&rt)?;
    in_flight::digits(&rt)?;
    in_flight::feeds(&rt)?;
    sources::one_caller(&rt)?;
    sources::listed_names(&rt)?;
    sources::marks_and_takings(&rt)?;
    sources::slots(&rt)?;
    proved::set(&rt)?;
    proved::queue(&rt)?;
    proved::join_and_adaptor(&rt)?;
    proved::merge(&rt)?;
    proved::channel(&rt)?;
    Ok(())
}
