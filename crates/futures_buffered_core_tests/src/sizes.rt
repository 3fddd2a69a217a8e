// Sources, lists and slot maps of no slot, of few, of a thousand and of many, and what a plain list answers.
ghost use Rattle.std.specs.Iterator.{at_most};

use crate::list::{Alone, plays};
use crate::script::{Scene, play, play_on, run_on, same};
use crate::tasks::{Kind, Tasks};
use futures_buffered_core::ready_core::{MAX_CAPACITY, NewFault};
use futures_buffered_core::ready_shared::SharedReady;
use futures_buffered_core::ready_source::{CoreSource, NewSource};
use futures_buffered_core::slot_map::PinSlotMap;
use std::alloc::AllocError;
use std::test::Fail;

// Numbers of slots, among them those that stand just above a power of two.
const SIZES: [usize; 9] = [0, 1, 2, 33, 65, 129, 300, 1_000, 70_000];

// Plays the script on what is made of each number of slots.
fn at_each_size<S: Scene + Drop, M>(make: M, script: &str) -> Result<(), Fail>
where
    M: Fn(usize) -> Result<S, Fail> + Drop,
    requires { M.IsAlwaysCallable make }
{
    for slots in SIZES {
        play_on(make(slots), [slots, 0], script)?;
    }
    Ok(())
}

// Each slot of a source comes once after marks, and so does each of a sibling of another source. No wake marks one.
#[test]
fn a_core_source_names_each_slot_once(rt: HostRuntime) -> Result<(), Fail> {
    let script = "slots a, empty, mark each a, marked each a, slot each a, empty, wake each a, \
        empty, sibling 1, sibling a, at 2, slots a, empty, mark each a, marked each a, slot each a, \
        empty, wake each a, empty, at 1, empty, at 0, empty";
    let make = |slots| Tasks::new(&rt, CoreSource::make(&(), rt.alloc(), slots));
    at_each_size(make, script)
}

// The same, and each slot comes once after wakes.
#[test]
fn a_shared_source_names_each_slot_once(rt: HostRuntime) -> Result<(), Fail> {
    let script = "slots a, empty, mark each a, marked each a, slot each a, empty, wake each a, \
        marked each a, wake each a, slot each a, empty, sibling 1, sibling a, at 2, slots a, empty, \
        mark each a, marked each a, slot each a, empty, wake each a, marked each a, wake each a, \
        slot each a, empty, at 1, empty, at 0, empty";
    let make = |slots| Tasks::new(&rt, SharedReady::make(&(), rt.alloc(), slots));
    at_each_size(make, script)
}

// Each slot of a source that is made with its marks is marked, and comes in order. Later marks have each slot come once.
// It fails if a slot begins without its mark, in another place of the row, or with a link that names a wrong slot.
#[test]
fn a_source_made_marked_names_each_slot_in_order(rt: HostRuntime) -> Result<(), Fail> {
    let script = "marked each a, slot row a, empty, slots a, mark each a, marked each a, \
        slot each a, empty";
    let core = |slots| Tasks::new(&rt, CoreSource::make_marked(&(), rt.alloc(), slots));
    at_each_size(core, script)?;
    let shared = |slots| Tasks::new(&rt, SharedReady::make_marked(&(), rt.alloc(), slots));
    at_each_size(shared, script)
}

#[test]
fn a_list_names_each_slot_once(rt: HostRuntime) -> Result<(), Fail> {
    let script = "slots a, empty, mark each a, marked each a, slot each a, empty";
    for slots in SIZES {
        plays(rt.alloc(), slots, script, &[])?;
    }
    Ok(())
}

/// Returns the next number of a fixed row.
pub fn next_number(number: u64) -> u64 {
    number
        .wrapping_mul(6364136223846793005)
        .wrapping_add(1442695040888963407)
}

// Dequeues, and returns whether the slot is that of the plain list.
fn takes_plain<S: Scene>(scene: &mut S, plain: &mut Vec<usize>) -> bool {
    if plain.is_empty() {
        scene.does("empty", 0)
    } else {
        scene.does("slot", plain.remove(0))
    }
}

// Marks, and returns whether that says if the plain list had the slot.
fn marks_plain<S: Scene>(
    scene: &mut S,
    plain: &mut Vec<usize>,
    slot: usize,
) -> Result<bool, AllocError> {
    if plain.contains(&slot) {
        return Ok(scene.does("marked", slot));
    }
    plain.push(slot)?;
    Ok(scene.does("mark", slot))
}

// Makes 20,000 marks and dequeues, now more of the one and now of the other, and wants what a list of the marked slots
// answers, oldest mark first.
fn is_as_plain<S: Scene>(scene: &mut S, plain: &mut Vec<usize>, slots: usize) -> Result<(), Fail> {
    let mut number = 1u64;
    for turn in 0..20_000u64 {
        number = next_number(number);
        let takings_of_ten = if turn / 500 % 2 == 0 { 3 } else { 7 };
        let slot = ((number >> 40) as usize).checked_rem(slots).unwrap_or(0);
        let is_same = if (number >> 33) % 10 < takings_of_ten {
            takes_plain(scene, plain)
        } else {
            marks_plain(scene, plain, slot)?
        };
        same((turn, is_same), (turn, true))?;
    }
    Ok(())
}

fn source_is_as_plain<S>(rt: &HostRuntime, slots: usize) -> Result<(), Fail>
where
    S: Kind + NewSource<Env = ()>,
{
    run_on(Tasks::new(rt, S::make(&(), rt.alloc(), slots)), |tasks| {
        is_as_plain(tasks, &mut Vec::new(rt.alloc()), slots)
    })
}

#[test]
fn names_what_a_plain_list_names(rt: HostRuntime) -> Result<(), Fail> {
    for slots in [1, 2, 6, 11] {
        source_is_as_plain::<CoreSource>(&rt, slots)?;
        source_is_as_plain::<SharedReady>(&rt, slots)?;
    }
    Ok(())
}

#[test]
fn many_calls(rt: HostRuntime) -> Result<(), Fail> {
    let mut list = Alone::new(rt.alloc(), 100)?;
    let mut plain = Vec::new(rt.alloc());
    is_as_plain(&mut list, &mut plain, 100)?;
    list.closes_with(rt.alloc(), plain.as_slice())
}

/// Each slot holds its own number.
impl Scene for PinSlotMap<usize> {
    fn does(&mut self, word: &str, n: usize) -> bool {
        let holds = self.get(n).copied() == Some(n);
        match word {
            "fill" => self.insert_with(n, |n| n) == Ok(n),
            "full" => self.insert_with(n, |n| n) == Err(n),
            "holds" => holds,
            "lacks" => self.get(n).is_none(),
            "empty" => {
                self.remove(n);
                holds
            }
            "remain_empty" => {
                self.remove(n);
                !holds
            }
            "count" => (self.len(), self.is_empty()) == (n, n == 0),
            "slots" => self.capacity() == n,
            _ => false,
        }
    }
}

// Slots that are emptied are used again, the slot that was emptied last first.
#[test]
fn a_slot_map_fills_each_slot(rt: HostRuntime) -> Result<(), Fail> {
    let script = "fill row a, full a, count a, slots a, empty each a, count 0, fill back a, \
        empty each a, count 0";
    at_each_size(|slots| Ok(PinSlotMap::new(rt.alloc(), slots)?), script)
}

#[test]
fn a_slot_map_of_items_holds_each(rt: HostRuntime) -> Result<(), Fail> {
    let script = "count a, slots a, empty each a, count 0, fill back a, empty each a, count 0";
    at_each_size(
        |slots| Ok(PinSlotMap::from_iter(rt.alloc(), 0..slots)?),
        script,
    )
}

// Walks over what is held, in the order of the slots, and sets each value.
fn gives_and_sets_each(map: &mut PinSlotMap<usize>) -> Result<(), Fail> {
    let mut held = map.iter_mut();
    for want in [Some(0), Some(16), Some(2), None, None] {
        let next = held.next();
        same(next.as_deref().copied(), want)?;
        if let Some(value) = next {
            *value = 17;
        }
    }
    Ok(())
}

#[test]
fn uses_the_freed_slot_first(rt: HostRuntime) -> Result<(), Fail> {
    let script = "count 0, slots 3, fill row 3, full 3, empty 0, empty 2, remain_empty 2, \
        remain_empty 3, count 1, lacks 0, lacks 3, fill 2, fill 0";
    let mut map = PinSlotMap::new(rt.alloc(), 3)?;
    play(&mut map, [0, 0], script)?;
    if let Some(value) = map.get(1) {
        *value = 16;
    }
    gives_and_sets_each(&mut map)?;
    same(map.get(1).copied(), Some(17))
}

#[test]
fn refuses_a_capacity(rt: HostRuntime) -> Result<(), Fail> {
    let large = PinSlotMap::<u64>::new(rt.alloc(), MAX_CAPACITY + 1);
    same(large.err(), Some(NewFault::TooLarge))
}

#[test]
fn holds_each_item(rt: HostRuntime) -> Result<(), Fail> {
    let mut map = PinSlotMap::from_iter(rt.alloc(), 0..3_usize)?;
    play(
        &mut map,
        [0, 0],
        "count 3, slots 3, holds 0, holds 2, full 3, empty 1, fill 1",
    )
}

// Promises as many items as slots can be, and gives three.
#[derive(Drop)]
struct Promises {
    left: usize,
}

impl Iterator for Promises {
    type Item = usize;

    ghost remaining = { λ s. at_most s.left };

    fn next(&mut self) -> Option<usize> {
        if self.left <= MAX_CAPACITY - 3 {
            return None;
        }
        self.left -= 1;
        Some(self.left)
    }

    fn size_hint(&self) -> (usize, Option<usize>) {
        (self.left, None)
    }
}

// No memory is there for what is promised, and enough for what comes.
#[test]
fn holds_fewer_items_than_are_promised(rt: HostRuntime) -> Result<(), Fail> {
    let promises = Promises { left: MAX_CAPACITY };
    let map = PinSlotMap::from_iter(rt.alloc(), promises)?;
    same((map.len(), map.capacity()), (3, 3))
}
