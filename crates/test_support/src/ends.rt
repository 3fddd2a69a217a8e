//! Streams and futures that are run to their end.
use futures::executor::block_on;
use futures::{Future, Stream, StreamExt};
use std::alloc::{AllocError, AllocGlobal};
use std::io;
use std::random::RandomSource;
use std::sync::Wait;
use std::test::Fail;
use std::thread::{self, Threads};

/// What the items of a stream come to, if there is memory for them.
pub fn collected<R, S: Stream>(rt: &R, stream: S) -> io::Result<Result<Vec<S::Item>, AllocError>>
where
    R: Wait + RandomSource + AllocGlobal,
    S::Item: Drop,
    requires { S.can_poll stream }
{
    block_on(rt, stream.collect(rt.alloc()))
}

/// How many items a stream gives.
pub fn counted<R, S: Stream>(rt: &R, stream: S) -> io::Result<usize>
where
    R: Wait + RandomSource + AllocGlobal,
    S::Item: Drop,
    requires { S.can_poll stream }
{
    block_on(rt, stream.count())
}

/// What a future gives while another thread makes this call.
pub fn ended_beside<R, F: Future, C>(rt: &R, future: F, call: C) -> Result<F::Output, Fail>
where
    R: Threads + Wait + RandomSource + AllocGlobal,
    F::Output: Drop,
    C: FnOnce() + Send + Drop + 'static,
    requires polls { F.can_poll future }
    requires runs { C.pre call }
{
    let child = thread::spawn(rt, call)?;
    let output = block_on(rt, future);
    child.join(rt);
    Ok(output?)
}
