//! Scripts: what a test does and what comes of it, a word for each step, with a number if it needs one.
use futures_buffered_core::ready_core::{Taken, Woke};
use std::fmt::Debug;
use std::test::Fail;

/// Fails if these two differ, and says both.
pub fn same<T: PartialEq + Debug + Drop>(left: T, right: T) -> Result<(), Fail> {
    if left == right {
        return Ok(());
    }
    Err(Fail::new(format_args!("{left:?} is not {right:?}")))
}

/// Runs the test on what was made for it, and drops that. The test itself owns nothing, so its proof has no drop in it.
pub fn run_on<T: Drop, B>(made: Result<T, Fail>, test: B) -> Result<(), Fail>
where
    B: FnOnce(&mut T) -> Result<(), Fail> + Drop,
    requires { B.IsAlwaysCallable test }
{
    let mut made = made?;
    test(&mut made)
}

/// The place of a script.
pub trait Scene {
    /// Makes a step, and returns whether the step does what the word says.
    fn does(&mut self, word: &str, n: usize) -> bool;

    /// Returns whether the step before this one did no more than it says.
    fn is_quiet(&mut self, _word: &str, _n: usize) -> bool {
        true
    }
}

// Returns the slot at this place. In the order `row` it is the place, in the order `each` no slot is next to its
// neighbour, and `back` is the reverse of `each`.
fn slot_at(order: &str, place: usize, slots: usize) -> usize {
    let place = match order {
        "row" => return place,
        "back" => slots.wrapping_sub(1).wrapping_sub(place),
        _ => place,
    };
    place.wrapping_mul(37).checked_rem(slots).unwrap_or(0)
}

fn does_all<S: Scene>(scene: &mut S, word: &str, order: &str, slots: usize) -> bool {
    for place in 0..slots {
        if !scene.does(word, slot_at(order, place, slots)) {
            return false;
        }
    }
    true
}

fn number_of(text: &str, [a, b]: [usize; 2]) -> usize {
    match text {
        "a" => a,
        "b" => b,
        _ => text.parse().unwrap_or(usize::MAX),
    }
}

fn does_step<S: Scene>(scene: &mut S, numbers: [usize; 2], step: &str) -> bool {
    let (word, number) = step.split_once(' ').unwrap_or((step, "0"));
    let (order, number) = number.split_once(' ').unwrap_or(("", number));
    let n = number_of(number, numbers);
    if !scene.is_quiet(word, n) {
        return false;
    }
    match order {
        "" => scene.does(word, n),
        _ => does_all(scene, word, order, n),
    }
}

/// Makes each step of the script, as `mark 0, slot 0, empty`. The step `mark each 3` is `mark 0`, `mark 1` and `mark 2`.
/// The numbers are `a` and `b`. Fails at the first step that does not do what it says.
pub fn play<S: Scene>(scene: &mut S, numbers: [usize; 2], script: &str) -> Result<(), Fail> {
    for (place, step) in script.split(", ").enumerate() {
        if !does_step(scene, numbers, step) {
            return Err(Fail::new(format_args!("step {place} does not do what it says: {step}")));
        }
    }
    same(scene.is_quiet("", 0), true)
}

/// Plays the script on a scene that was made for it.
pub fn play_on<S: Scene + Drop>(
    made: Result<S, Fail>,
    numbers: [usize; 2],
    script: &str,
) -> Result<(), Fail> {
    let mut scene = made?;
    play(&mut scene, numbers, script)
}

/// Returns whether the word says what this mark returned.
pub fn says_mark(word: &str, woke: Woke) -> bool {
    match woke {
        Woke::Fresh => word == "mark",
        Woke::Already => word == "marked",
    }
}

/// Returns whether the word says what this dequeue returned.
pub fn says_take(word: &str, n: usize, taken: Taken) -> bool {
    match taken {
        Taken::Slot(slot) => word == "slot" && slot == n,
        Taken::Empty => word == "empty",
        Taken::Pause => word == "pause",
    }
}
