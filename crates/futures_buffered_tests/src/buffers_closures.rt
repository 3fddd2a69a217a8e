// Streams that contain a closure, under each buffer.
use crate::same::assert_same;
use futures::{StreamExt, stream};
use futures_buffered::future::{Ready, ready};
use futures_buffered::{BufferedStreamExt, BufferedTryStreamExt};
use std::test::Fail;
use test_support::ends::collected;

// The error of two, and a future of the double of each other number.
fn fails_at_two(number: u64) -> Result<Ready<Result<u64, u64>>, u64> {
    if number == 2 {
        return Err(number);
    }
    Ok(ready(Ok(number.wrapping_mul(2))))
}

#[test]
fn a_map_under_buffered_ordered(rt: HostRuntime) -> Result<(), Fail> {
    let futures = stream::iter(1..4u64).map(|number| ready(number.wrapping_mul(2)));
    let outputs = collected(&rt, futures.buffered_ordered(rt.alloc(), 2)?)??;
    assert_same(&rt, outputs.as_slice(), [2, 4, 6].as_slice());
    Ok(())
}

#[test]
fn a_map_under_buffered_unordered(rt: HostRuntime) -> Result<(), Fail> {
    let futures = stream::iter(1..4u64).map(|number| ready(number.wrapping_mul(2)));
    let outputs = collected(&rt, futures.buffered_unordered(rt.alloc(), 2)?)??;
    assert_same(&rt, outputs.as_slice(), [2, 4, 6].as_slice());
    Ok(())
}

#[test]
fn a_map_under_try_buffered_ordered(rt: HostRuntime) -> Result<(), Fail> {
    let futures = stream::iter(1..4u64).map(|number| fails_at_two(number));
    let outputs = collected(&rt, futures.try_buffered_ordered(rt.alloc(), 2)?)??;
    assert_same(&rt, outputs.as_slice(), [Err(2), Ok(2), Ok(6)].as_slice());
    Ok(())
}

#[test]
fn a_map_under_try_buffered_unordered(rt: HostRuntime) -> Result<(), Fail> {
    let futures = stream::iter(1..4u64).map(|number| fails_at_two(number));
    let outputs = collected(&rt, futures.try_buffered_unordered(rt.alloc(), 2)?)??;
    assert_same(&rt, outputs.as_slice(), [Err(2), Ok(2), Ok(6)].as_slice());
    Ok(())
}
