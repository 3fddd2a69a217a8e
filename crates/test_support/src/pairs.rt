//! Rows of pairs: of senders, and of their receivers.
use crate::keep::keep;
use std::alloc::{AllocError, Global};

/// Adds so many pairs, each of which a call makes.
pub fn add_pairs<S, R, M>(
    senders: &mut Vec<S>,
    receivers: &mut Vec<R>,
    count: u64,
    mut make: M,
) -> Result<(), AllocError>
where
    S: Drop,
    R: Drop,
    M: FnMut() -> Option<(S, R)>,
    requires { M.IsAlwaysCallable make }
{
    for _ in 0..count {
        let (sender, receiver) = make().ok_or(AllocError)?;
        keep(senders, sender)?;
        keep(receivers, receiver)?;
    }
    Ok(())
}

/// So many pairs, each of which a call makes.
pub fn pairs<S, R, M>(alloc: Global, count: u64, make: M) -> Result<(Vec<S>, Vec<R>), AllocError>
where
    S: Drop,
    R: Drop,
    M: FnMut() -> Option<(S, R)>,
    requires { M.IsAlwaysCallable make }
{
    let (mut senders, mut receivers) = (Vec::new(alloc), Vec::new(alloc));
    add_pairs(&mut senders, &mut receivers, count, make)?;
    Ok((senders, receivers))
}
