//! Slots that hold values.
//!
//! A value is put into the first free slot and stays there until it is removed. The free slots of a new map are 0, 1, 2
//! and so on. A slot that a removal frees is the first to be used again. Only the constructors and `grow_by_one`
//! allocate.
ghost use Rattle.std.specs.Prelude.{◌≡◌, ◌≢◌, ◌+◌, ◌<◌, ◌≤◌, [], IfOk, IfErr, OnOk, OnErr, MatchOption, IfSome, IfNone, Some, None, ℕ};
ghost use Rattle.std.specs.Prelude.{◌^◌, List, IsTrue, ◌↔◌, ◌==◌, is_some, IsSome};
ghost use Rattle.std.specs.Option.{option_copied_mut};
ghost use Rattle.std.specs.Borrow.{Lends, sem};
ghost use Rattle.futures_buffered_core.specs.Made.{MakesSlots};
ghost use Rattle.futures_buffered_core.specs.Drawn.{Draws, IsFiniteSource, RefusesTooMany, items_of};
ghost use Rattle.futures_buffered_core.specs.SlotMap.{value_in, held_count, slot_count, no_slots, all_slots};
ghost use Rattle.futures_buffered_core.specs.SlotMap.{with_slot_freed, IsFull, GrowsByOne, Inserts, IsFirstHeld, NoneHeldFrom};
ghost use Rattle.futures_buffered_core.specs.SlotMapInvariant.{value_of, next_free, new_places};

use crate::ready_core::{MAX_CAPACITY, NewFault};
use std::alloc::{AllocError, Global};
use std::marker::Model;

/// Slots, each of which holds a value or is free. Only `grow_by_one` changes their number.
///
/// A contract sees what each slot holds, and the list of free slots in the order in which they will be used. A call on
/// one slot, or a call that returns how much is held, takes the same time at any capacity, apart from what it calls and
/// drops.
#[derive(Drop)]
pub struct PinSlotMap<F> {
    places: Vec<Place<F>>,
    // The free place that is used next. Says nothing if no place is free.
    first_free: usize,
    // How many places hold a value.
    len: usize,
}

#[derive(Drop)]
enum Place<F> {
    // The free place that is used after this one. Says nothing in the last of them.
    Free(usize),
    Held(F),
}

impl<F> Model for PinSlotMap<F> {
    ghost use Rattle.futures_buffered_core.specs.SlotMap.{Slots, slots_code};

    ghost Value = { Slots F };

    ghost coded = { slots_code F.code };

    ghost use Rattle.futures_buffered_core.specs.SlotMapInvariant.{slots_of, KeepsPlaces};

    ghost view = { λ m. slots_of m.places.items m.first_free m.len };

    ghost invariant = { λ m. KeepsPlaces m.places.items m.first_free m.len };
}

impl<F> Place<F> {
    ghost use Rattle.futures_buffered_core.specs.contracts.slot_map.Place.{the_row};

    fn holds(&self) -> bool
        ensures { result ≡ is_some (value_of self.now) }
    {
        matches!(self, Place::Held(_))
    }

    fn value(&self) -> Option<&F>
        ensures some { IfSome result (λ value. value_of self.now ≡ Some value.now) }
        ensures none { IfNone result (value_of self.now ≡ None) }
    {
        match self {
            Place::Held(value) => Some(value),
            Place::Free(_) => None,
        }
    }

    fn into_value(self) -> Option<F>
        ensures { result ≡ value_of self }
    {
        match self {
            Place::Held(value) => Some(value),
            Place::Free(_) => None,
        }
    }

    // The place that is used after this free one.
    fn next(&self) -> usize
        requires { value_of self.now ≡ None }
        ensures { result ≡ next_free self.now }
    {
        match self {
            Place::Free(next) => *next,
            Place::Held(_) => unreachable!(),
        }
    }

    fn value_mut(&mut self) -> &mut F
        requires { IsSome (value_of self.old) }
        ensures* lends { sem 𝓛 (Lends (the_row F.row) F.row self.entry result Place.Held) }
        ensures value { value_of self.old ≡ Some result.now }
    {
        match self {
            Place::Held(value) => value,
            Place::Free(_) => unreachable!(),
        }
    }
}

// Each place has the number of the one after it.
#[tactic(auto, using(crate::proofs::SlotMapLemmas::new_places_push))]
fn free_places<F>(alloc: Global, n: usize) -> Result<Vec<Place<F>>, AllocError>
    ensures { IfOk result (λ places. places.items ≡ new_places n) }
{
    let mut places = Vec::with_capacity(alloc, n)?;
    for i in 0..n {
        places.push_reserved(Place::Free(i + 1));
    }
    Ok(places)
}

impl<F: Drop> PinSlotMap<F> {
    ghost use Rattle.futures_buffered_core.specs.SlotMapLends.{lends_slot, lends_value};
    ghost use Rattle.futures_buffered_core.specs.SlotMapIterMut.{iter_name, iter_slots, iter_from};

    /// Makes a map of `capacity` free slots.
    ///
    /// Takes time and allocates in proportion to `capacity`.
    pub fn new(alloc: Global, capacity: usize) -> Result<Self, NewFault>
        ensures { MakesSlots capacity (λ m. m ≡ no_slots capacity) result }
    {
        if capacity > MAX_CAPACITY {
            return Err(NewFault::TooLarge);
        }
        let places = free_places(alloc, capacity)?;
        Ok(PinSlotMap {
            places,
            first_free: 0,
            len: 0,
        })
    }

    /// Makes a map without a free slot, which has item k in slot k, and as many slots as there are items.
    ///
    /// If it fails, the items that came are dropped. Takes time and allocates in proportion to the number of items. It
    /// first tries to allocate for as many items as the iterator says come at least.
    pub fn from_iter<I: IntoIterator<Item = F>>(alloc: Global, iter: I) -> Result<Self, NewFault>
        requires { IsFiniteSource (items_of I.IntoIterator I.IntoIter.Iterator iter) }
        ensures full { IfOk result (λ m. (items : List F)
            × Draws (items_of I.IntoIterator I.IntoIter.Iterator iter) items × (m ≡ all_slots items)) }
        ensures fits { IfOk result (λ m. slot_count m ≤ MAX_CAPACITY) }
        ensures large { RefusesTooMany (items_of I.IntoIterator I.IntoIter.Iterator iter) result }
    {
        let iter = iter.into_iter();
        let (least, _most) = iter.size_hint();
        let mut places = Vec::new(alloc);
        // If this allocation fails, the pushes allocate.
        let _reserved = places.reserve_exact(least.min(MAX_CAPACITY));
        for item in iter {
            if places.len() == MAX_CAPACITY {
                return Err(NewFault::TooLarge);
            }
            let Ok(()) = places.push(Place::Held(item)) else {
                return Err(NewFault::Memory);
            };
        }
        let len = places.len();
        Ok(PinSlotMap {
            places,
            first_free: len,
            len,
        })
    }

    /// The number of slots, free or not.
    pub fn capacity(&self) -> usize
        ensures { result ≡ slot_count self.now }
    {
        self.places.len()
    }

    /// The number of values held.
    pub fn len(&self) -> usize
        ensures { result ≡ held_count self.now }
    {
        self.len
    }

    /// Whether no value is held.
    pub fn is_empty(&self) -> bool
        ensures { IsTrue result ↔ (held_count self.now ≡ 0) }
    {
        self.len() == 0
    }

    /// Puts what `f` returns for `arg` into the first free slot, and returns the slot's number.
    ///
    /// If the map is full, returns `arg` and does not call `f`.
    pub fn insert_with<Arg, G: FnOnce(Arg) -> F>(&mut self, arg: Arg, f: G) -> Result<usize, Arg>
    where
        G: Drop,
        requires { self.old.free ≢ [] → G.pre f arg }
        ensures ok { IfOk result (λ i. (value : _)
            × G.post f arg value × Inserts self.old i value self.new) }
        ensures count { OnOk result (held_count self.new ≡ held_count self.old + 1) }
        ensures full { IfErr result (λ back.
            (back ≡ arg) × (self.new ≡ self.old) × IsFull self.old) }
    {
        if self.len == self.places.len() {
            return Err(arg);
        }
        let i = self.first_free;
        self.first_free = self.places[i].next();
        self.places[i] = Place::Held(f(arg));
        self.len += 1;
        Ok(i)
    }

    /// Adds one free slot after the others, which is the next to be used. If an allocation fails, nothing changes.
    ///
    /// Many such calls together take time and allocate in proportion to their number.
    pub fn grow_by_one(&mut self) -> Result<(), AllocError>
        ensures grown { OnOk result (GrowsByOne self.old self.new) }
        ensures same { OnErr result (self.new ≡ self.old) }
    {
        let end = self.places.len();
        self.places.push(Place::Free(self.first_free))?;
        self.first_free = end;
        Ok(())
    }

    /// Drops the value of a slot, which is then the first free one. Changes nothing if the slot is free or out of
    /// range.
    pub fn remove(&mut self, key: usize)
        ensures slots { MatchOption (value_in self.old key) (self.new ≡ self.old)
            (λ _. self.new ≡ with_slot_freed self.old key) }
        ensures count { IsSome (value_in self.old key)
            → held_count self.new + 1 ≡ held_count self.old }
    {
        if self.holds(key) {
            self.places[key] = Place::Free(self.first_free);
            self.first_free = key;
            self.len -= 1;
        }
    }

    /// Takes the value of a slot, which is then the first free one. Returns `None` if the slot is free or out of range.
    pub fn take(&mut self, key: usize) -> Option<F>
        ensures value { result ≡ value_in self.old key }
        ensures slots { MatchOption (value_in self.old key) (self.new ≡ self.old)
            (λ _. self.new ≡ with_slot_freed self.old key) }
        ensures count { IsSome (value_in self.old key)
            → held_count self.new + 1 ≡ held_count self.old }
    {
        if !self.holds(key) {
            return None;
        }
        let place = std::mem::replace(&mut self.places[key], Place::Free(self.first_free));
        self.first_free = key;
        self.len -= 1;
        place.into_value()
    }

    /// Returns a reference to the value of a slot. Returns `None` if the slot is free or out of range.
    pub fn value(&self, key: usize) -> Option<&F>
        ensures some { IfSome result (λ value. value_in self.now key ≡ Some value.now) }
        ensures none { IfNone result (value_in self.now key ≡ None) }
    {
        if key < self.places.len() {
            self.places[key].value()
        } else {
            None
        }
    }

    /// Drops each value. The map is then as a new one.
    ///
    /// Does not allocate. Takes time in proportion to `capacity`, apart from the drops.
    pub fn clear(&mut self)
        ensures { self.new ≡ no_slots (slot_count self.old) }
    {
        for i in 0..self.places.len() {
            self.places[i] = Place::Free(i + 1);
        }
        self.first_free = 0;
        self.len = 0;
    }

    /// Returns a mutable reference to the value of a slot. Returns `None` if the slot is free or out of range.
    pub fn get(&mut self, key: usize) -> Option<&mut F>
        ensures* writes_back { sem 𝓛 (lends_slot F.row self.entry key result) }
        ensures value { option_copied_mut result ≡ value_in self.old key }
    {
        if self.holds(key) {
            Some(self.value_mut(key))
        } else {
            None
        }
    }

    /// Returns an iterator over mutable references to the held values, by rising slot.
    ///
    /// Does not allocate. A whole iteration takes time in proportion to `capacity`.
    pub fn iter_mut(&mut self) -> SlotMapIterMut<'_, F>
        ensures same_map { iter_name result ≡ self.entry.ghost_name }
        ensures slots { iter_slots result ≡ self.old }
        ensures from_the_first { iter_from result ≡ 0 }
    {
        SlotMapIterMut { map: self, from: 0 }
    }

    // The first slot from `from` on that holds a value.
    fn first_held(&self, from: usize) -> Option<usize>
        ensures found { IfSome result (IsFirstHeld self.now from) }
        ensures none { IfNone result (NoneHeldFrom self.now from) }
        ensures fits { IfSome result (λ i. i + 1 < 2 ^ 64) }
    {
        for i in from..self.places.len() {
            if self.holds(i) {
                return Some(i);
            }
        }
        None
    }

    fn holds(&self, key: usize) -> bool
        ensures { result ≡ is_some (value_in self.now key) }
    {
        key < self.places.len() && self.places[key].holds()
    }

    fn value_mut(&mut self, key: usize) -> &mut F
        requires { IsSome (value_in self.old key) }
        ensures* writes_back { sem 𝓛 (lends_value F.row self.entry key result) }
        ensures value { value_in self.old key ≡ Some result.now }
    {
        self.places[key].value_mut()
    }
}

/// An iterator over mutable references to the held values of a map, by rising slot. Each reference lasts until the next
/// call of `next`.
///
/// It is no `Iterator` of std, since an item borrows from the iterator and not from the map. So the map stays whole
/// between two items. After as many items as the map holds it returns `None`.
#[derive(Drop)]
pub struct SlotMapIterMut<'a, F> {
    map: &'a mut PinSlotMap<F>,
    // The first slot that the iterator has not yet looked at.
    from: usize,
}

impl<'a, F: Drop> SlotMapIterMut<'a, F> {
    ghost use Rattle.futures_buffered_core.specs.SlotMapIterMut.{iter_slots, iter_from, lends_next};

    /// Returns a mutable reference to the next held value. Returns `None` once no further slot holds a value, and from
    /// then on.
    ///
    /// Does not allocate. Takes time in proportion to the slots that it passes.
    pub fn next(&mut self) -> Option<&mut F>
        ensures* writes_back { sem 𝓛 (lends_next F.row self.entry result) }
        ensures value { IfSome result (λ f. (i : ℕ)
            × IsFirstHeld (iter_slots self.old) (iter_from self.old) i
            × (value_in (iter_slots self.old) i ≡ Some f.now)) }
        ensures end { IfNone result (NoneHeldFrom (iter_slots self.old) (iter_from self.old)) }
    {
        let i = self.map.first_held(self.from)?;
        self.from = i + 1;
        Some(self.map.value_mut(i))
    }
}
