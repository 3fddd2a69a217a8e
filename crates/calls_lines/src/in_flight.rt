//! Sets of the kit's futures.
use crate::ask::{Call, ask};
use crate::kinds::AllTypes;
use calls_world::memory;
use calls_world::reply::{Item, Reply, of_next, of_push};
use calls_world::session::{Session, first_of};
use calls_world::subject::{NewResult, Subject};
use calls_world::text::Text;
use calls_world::values::{NumberFuture, Output, new_value, new_values};
use calls_world::world::SharedWorld;
use futures::Stream;
use futures::task::{Context, Poll};
use futures_buffered::in_flight::{
    Came, FuturesUnordered, FuturesUnorderedBounded, FuturesUnorderedBy, IterExt, Kept, Key,
};
use futures_buffered_in_flight::in_flight::{Bounded, Growing, Kind};
use futures_buffered_sets::{FusedStream, SizeHint};

type Set<T, K> = FuturesUnorderedBy<NumberFuture, T, K>;

type Tagged<K> = Kept<Set<usize, K>>;

type Untagged<K> = Kept<Set<(), K>>;

type Pushed = Result<Key, (NumberFuture, usize)>;

/// The key of the last push of each number.
pub type Keys = Vec<Option<Key>>;

/// Makes the place of a key, before its push. Whether there was memory for it.
pub fn make_place(keys: &mut Keys, id: usize) -> bool {
    for _ in keys.len()..id.saturating_add(1) {
        if !memory::push(keys, None) {
            return false;
        }
    }
    true
}

/// Keeps the key of a push: the reply to it.
pub fn keep_key(keys: &mut Keys, id: usize, key: Key) -> Reply {
    if let Some(place) = keys.get_mut(id) {
        *place = Some(key);
    }
    Reply::Done(())
}

/// The key of the last push of this number, if it was pushed.
pub fn key_of(keys: &[Option<Key>], id: usize) -> Option<Key> {
    match keys.get(id) {
        Some(key) => *key,
        None => None,
    }
}

/// A set whose tags are the numbers of its futures.
#[derive(Drop)]
pub struct KitSet<K> {
    set: Tagged<K>,
    keys: Keys,
}

/// What a bounded set and a set that grows do each in its own way.
pub trait Pushing: Kind {
    fn push(set: &mut Untagged<Self>, value: NumberFuture) -> Result<Key, NumberFuture>;

    /// A push under the number of the future as its tag.
    fn push_by_number(set: &mut Tagged<Self>, value: NumberFuture, id: usize) -> Pushed;
}

impl Pushing for Bounded {
    fn push(set: &mut Untagged<Bounded>, value: NumberFuture) -> Result<Key, NumberFuture> {
        set.try_push(value)
    }

    fn push_by_number(set: &mut Tagged<Bounded>, value: NumberFuture, id: usize) -> Pushed {
        set.try_push_tagged(value, id)
    }
}

impl Pushing for Growing {
    fn push(set: &mut Untagged<Growing>, value: NumberFuture) -> Result<Key, NumberFuture> {
        set.push(value)
    }

    fn push_by_number(set: &mut Tagged<Growing>, value: NumberFuture, id: usize) -> Pushed {
        set.push_tagged(value, id)
    }
}

// The reply to a refused push. A set that has a free slot takes each future.
fn refusal<K: Kind>(was_full: bool) -> Reply {
    match (was_full, K::GROWS) {
        (false, _) => Reply::Nothing,
        (true, true) => Reply::Refused,
        (true, false) => Reply::Full,
    }
}

fn ask_set<T: Drop, K: Kind>(set: &Set<T, K>, call: Call, text: &mut Text) -> Reply {
    ask!(set, call, text; Len IsEmpty Capacity IsFull SizeHint IsTerminated)
}

impl<K: Pushing> KitSet<K> {
    fn push(&mut self, value: NumberFuture, id: usize) -> Reply {
        if !make_place(&mut self.keys, id) {
            return Reply::Refused;
        }
        let was_full = self.set.get().is_full();
        match K::push_by_number(&mut self.set, value, id) {
            Ok(key) => keep_key(&mut self.keys, id, key),
            Err((_value, tag)) if tag == id => refusal::<K>(was_full),
            Err(_) => Reply::Nothing,
        }
    }

    // The reply with an output, whose key and tag are of one push.
    fn given(&self, came: Came<Output, usize>) -> Reply {
        let Came { key, tag, output } = came;
        if key_of(self.keys.as_slice(), tag) == Some(key) {
            output.reply()
        } else {
            Reply::Nothing
        }
    }

    fn cancel(&mut self, id: usize) -> Reply {
        let Some(key) = key_of(self.keys.as_slice(), id) else {
            return Reply::Nothing;
        };
        match self.set.cancel(key) {
            Some(tag) if tag == id => Reply::Done(()),
            Some(_) => Reply::Nothing,
            None => Reply::None,
        }
    }

    fn contains(&self, id: usize) -> Reply {
        match key_of(self.keys.as_slice(), id) {
            Some(key) => Reply::Is(self.set.get().contains(key)),
            None => Reply::Nothing,
        }
    }
}

impl<K: Pushing> Subject<AllTypes> for KitSet<K> {
    fn poll(&mut self, cx: &mut Context<'_>, _outputs: &mut Vec<u64>) -> Reply {
        match self.set.poll_next_keyed(cx) {
            Poll::Pending => Reply::Pending,
            Poll::Ready(None) => Reply::None,
            Poll::Ready(Some(came)) => self.given(came),
        }
    }

    fn call(&mut self, word: &str, ids: &[usize], world: &SharedWorld, text: &mut Text) -> Reply {
        match Call::of(word) {
            Call::Push => self.push(new_value(world, ids), first_of(ids)),
            Call::Cancel => self.cancel(first_of(ids)),
            Call::Contains => self.contains(first_of(ids)),
            Call::Clear => Reply::Done(self.set.clear()),
            call => ask_set(self.set.get(), call, text),
        }
    }
}

// A set without tags.
impl<K: Pushing> Subject<AllTypes> for Untagged<K> {
    fn poll(&mut self, cx: &mut Context<'_>, _outputs: &mut Vec<u64>) -> Reply {
        of_next(self.poll_next(cx))
    }

    fn call(&mut self, word: &str, ids: &[usize], world: &SharedWorld, text: &mut Text) -> Reply {
        match Call::of(word) {
            Call::Push => {
                let was_full = self.get().is_full();
                let pushed = K::push(self, new_value(world, ids)).map(|_key| ());
                of_push(pushed, refusal::<K>(was_full))
            }
            Call::Clear => Reply::Done(self.clear()),
            call => ask_set(self.get(), call, text),
        }
    }
}

/// A set of as many slots as the line says.
pub fn bounded(session: &Session, numbers: &[usize]) -> NewResult<KitSet<Bounded>> {
    let alloc = session.alloc;
    let set: Set<usize, Bounded> = FuturesUnorderedBounded::new(alloc, first_of(numbers))?;
    let set = Kept::new(set);
    let keys = Vec::new(alloc);
    Ok(KitSet { set, keys })
}

/// A set that grows, of as many slots as the line says, or of none.
pub fn growing(session: &Session, numbers: &[usize]) -> NewResult<KitSet<Growing>> {
    let alloc = session.alloc;
    let set: Set<usize, Growing> = if numbers.is_empty() {
        FuturesUnordered::new(alloc)?
    } else {
        FuturesUnordered::with_capacity(alloc, first_of(numbers))?
    };
    let set = Kept::new(set);
    let keys = Vec::new(alloc);
    Ok(KitSet { set, keys })
}

/// A set of the futures of the line.
pub fn bounded_of(session: &Session, ids: &[usize]) -> NewResult<Untagged<Bounded>> {
    let futures: Vec<NumberFuture> = new_values(&session.world, ids);
    Ok(Kept::new(futures.into_unordered_stream(session.alloc)?))
}

/// A set that grows of the futures of the line.
pub fn growing_of(session: &Session, ids: &[usize]) -> NewResult<Untagged<Growing>> {
    let futures: Vec<NumberFuture> = new_values(&session.world, ids);
    Ok(Kept::new(futures.into_unordered_stream_unbounded(session.alloc)?))
}
