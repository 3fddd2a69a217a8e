//! Memory that the program itself asks for: a request that is refused is made once more.
use std::alloc::Global;
use std::rc::Rc;

// So many of what one call does have room from the start.
const ROOM: usize = 1024;

/// Makes the call, and makes it once more if it fails.
pub fn twice<T, E: Drop, F: Fn() -> Result<T, E>>(call: F) -> Result<T, E>
    requires { F.IsAlwaysCallable call }
{
    match call() {
        Ok(made) => Ok(made),
        Err(_) => call(),
    }
}

/// An empty list of what a call does, which asks for no more memory if that is no more than usual.
pub fn list<T: Drop>(alloc: Global) -> Vec<T> {
    twice(|| Vec::with_capacity(alloc, ROOM)).unwrap_or(Vec::new(alloc))
}

/// Adds the value at the end. Whether there was memory for it.
pub fn push<T: Drop>(list: &mut Vec<T>, value: T) -> bool {
    match list.push(value) {
        Ok(()) => true,
        Err(refused) => list.push(refused.value).is_ok(),
    }
}

/// A place in memory for the value, which several can share.
pub fn share<T: Drop>(alloc: Global, value: T) -> Option<Rc<T>> {
    match Rc::new(alloc, value) {
        Ok(shared) => Some(shared),
        Err(refused) => Rc::new(alloc, refused.value).ok(),
    }
}
