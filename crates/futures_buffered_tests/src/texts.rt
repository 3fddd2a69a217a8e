// What Debug prints of a source and of its wakers.
use crate::same::assert_same;
use futures_buffered::SharedReady;
use std::alloc::AllocGlobal;
use std::fmt::Debug;
use std::process::Abort;
use std::test::Fail;

fn assert_text<T: Debug, R: Abort + AllocGlobal>(
    rt: &R,
    value: &T,
    text: &str,
) -> Result<(), Fail> {
    let printed = format!(in rt.alloc(); "{value:?}")?;
    assert_same(rt, printed.as_str(), text);
    Ok(())
}

#[test]
fn a_source_prints_its_slots_and_a_waker_its_own(rt: HostRuntime) -> Result<(), Fail> {
    let source: SharedReady = SharedReady::new(rt.alloc(), 5)?;
    assert_text(&rt, &source, "SharedReady { capacity: 5, .. }")?;
    if source.capacity() > 3 {
        let waker = source.try_waker(3)?;
        assert_text(&rt, &waker, "SharedWaker { slot: 3, .. }")?;
    }
    Ok(())
}

#[test]
fn a_source_of_many_slots_prints_them(rt: HostRuntime) -> Result<(), Fail> {
    let source: SharedReady = SharedReady::new(rt.alloc(), 300)?;
    assert_text(&rt, &source, "SharedReady { capacity: 300, .. }")?;
    if source.capacity() > 299 {
        let waker = source.try_waker(299)?;
        assert_text(&rt, &waker, "SharedWaker { slot: 299, .. }")?;
    }
    Ok(())
}
