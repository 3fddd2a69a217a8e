//! Sources, and the parts that sets stand on.
use crate::own::Half;
use crate::show::{Host, print_all};
use futures::StreamExt;
use futures::executor::block_on;
use futures_buffered::{
    CoreSource, Event, FuturesUnorderedBounded, PinSlotMap, ReadyCore, ScriptSource, Taken, run,
};

pub fn one_caller(rt: &impl Host) -> anyhow::Result<()> {
    let jobs = vec![in rt.alloc(); Half(2), Half(3)]?;
    let set = FuturesUnorderedBounded::<Half, CoreSource>::over(&(), rt.alloc(), jobs)?;
    print_all(rt, set)
}

pub fn listed_names(rt: &impl Host) -> anyhow::Result<()> {
    let names = vec![in rt.alloc(); Taken::Slot(1), Taken::Slot(0)]?;
    let source = ScriptSource::new(rt.alloc(), 2, names)?;
    let mut set = FuturesUnorderedBounded::with_source(rt.alloc(), source)?;
    set.push(Half(10));
    set.push(Half(20));
    let first = block_on(rt, set.next())?;
    let second = block_on(rt, set.next())?;
    println!(rt; "{first:?}, {second:?}")?;
    Ok(())
}

pub fn marks_and_takings(rt: &impl Host) -> anyhow::Result<()> {
    let mut core = ReadyCore::new(rt.alloc(), 4)?;
    let events = [
        Event::Mark(2),
        Event::Mark(0),
        Event::Mark(2),
        Event::Take,
        Event::Take,
        Event::Take,
    ];
    let mut replies = Vec::new(rt.alloc());
    run(&mut core, &events, &mut replies)?;
    println!(rt; "{replies:?}")?;
    Ok(())
}

pub fn slots(rt: &impl Host) -> anyhow::Result<()> {
    let mut map = PinSlotMap::new(rt.alloc(), 2)?;
    let first = map.insert_with(11_u64, |value| value);
    let second = map.insert_with(12, |value| value);
    let third = map.insert_with(13, |value| value);
    println!(rt; "{first:?}, {second:?}, {third:?}")?;
    map.remove(0);
    let again = map.insert_with(13, |value| value);
    println!(rt; "{again:?}, {} held", map.len())?;
    Ok(())
}
