// A contract and a loop of a user's own, in words that `futures_buffered` gives out.
ghost use Rattle.std.specs.Prelude.{◌≡◌, ◌+◌, ◌≤◌};
ghost use Rattle.futures_buffered.specs.FuturesUnorderedBounded.{held_in, slots_in};

use crate::same::assert_same;
use futures_buffered::future::{Ready, ready};
use futures_buffered::{FuturesUnorderedBounded, SharedReady};
use std::test::Fail;

fn push_four(set: &mut FuturesUnorderedBounded<Ready<()>, SharedReady>)
    requires { held_in set.old + 4 ≤ slots_in set.old }
    ensures { held_in set.new ≡ held_in set.old + 4 }
{
    for _number in 0..4usize {
        set.push(ready(()));
    }
}

#[test]
fn a_loop_of_pushes(rt: HostRuntime) -> Result<(), Fail> {
    let mut set = FuturesUnorderedBounded::new(rt.alloc(), 4)?;
    push_four(&mut set);
    assert_same(&rt, set.len(), 4);
    Ok(())
}
