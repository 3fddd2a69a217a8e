//! Sets, also of futures that come with the library.
use crate::own::after;
use crate::show::{Host, print_all};
use futures_buffered::future::{map, ready};
use futures_buffered::oneshot::Canceled;
use futures_buffered::{Either, FuturesUnorderedBounded, oneshot};

pub fn bounded_set(rt: &impl Host) -> anyhow::Result<()> {
    let mut set = FuturesUnorderedBounded::new(rt.alloc(), 2)?;
    set.push(after(2, 1));
    set.push(after(0, 2));
    if let Err(back) = set.try_push(after(0, 3)) {
        println!(rt; "full: {} is back", back.value)?;
    }
    print_all(rt, set)
}

pub fn one_shot(rt: &impl Host) -> anyhow::Result<()> {
    let (sender, receiver) = oneshot::channel::<u64>(rt.alloc())?;
    let mut set = FuturesUnorderedBounded::new(rt.alloc(), 2)?;
    set.push(Either::Left(map(receiver, |sent: Result<u64, Canceled>| sent.unwrap_or(0))));
    set.push(Either::Right(ready(1)));
    let _ = sender.send(7);
    print_all(rt, set)
}
