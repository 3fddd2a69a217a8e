// Which task a wake finds, and where its waker is kept, on one thread; a sibling is the next source. Then what the two
// sources for one caller keep.
use crate::script::{play, play_on, run_on, same};
use crate::tasks::{Kind, Tasks};
use futures_buffered_core::ready_core::{RunFault, Taken};
use futures_buffered_core::ready_shared::SharedReady;
use futures_buffered_core::ready_source::{CoreSource, NewSource, ScriptSource};
use std::fmt::Debug;
use std::test::Fail;

// Makes a source of so many slots, and its tasks.
fn shared(rt: &HostRuntime, slots: usize) -> Result<Tasks<SharedReady>, Fail> {
    Tasks::new(rt, SharedReady::new(rt.alloc(), slots))
}

// Plays a script on a source of so many slots. The number `a` is its last slot, and `b` the slot in its middle.
fn plays(rt: &HostRuntime, slots: usize, script: &str) -> Result<(), Fail> {
    let numbers = [slots.saturating_sub(1), slots / 2];
    play_on(shared(rt, slots), numbers, script)
}

// A poll that ends with a name leaves the task's waker with the poller, where no wake finds it: that task polls again
// by itself. A wake that finds it takes the waker out, so it is with the poller again.
#[test]
fn a_wake_after_a_name_wakes_nobody(rt: HostRuntime) -> Result<(), Fail> {
    let script = "mark 0, poll 1, slot 0, wake 1, poll 1, slot 1, wake 0, poll 1, slot 0, poll 1, \
        empty, wake 1, woken 1, poll 1, slot 1, wake 0, poll 1, slot 0, poll 1, empty, wake 1, woken 1";
    plays(&rt, 2, script)
}

// A second task that is given a name takes the place of the first, which is woken by that. Wakes find the second once
// its poll finds nothing.
#[test]
fn a_second_task_that_is_given_a_name_takes_the_place(rt: HostRuntime) -> Result<(), Fail> {
    let script = "poll 1, empty, mark 0, poll 2, woken 1, slot 0, rest 1, wake 1, poll 2, slot 1, \
        poll 2, empty, wake 0, woken 2";
    plays(&rt, 2, script)
}

#[test]
fn a_second_task_that_finds_nothing_takes_the_place(rt: HostRuntime) -> Result<(), Fail> {
    let script = "poll 1, empty, poll 2, woken 1, empty, rest 1, wake 0, woken 2";
    plays(&rt, 2, script)
}

// A second task finds the first's waker with the poller, lets it go there, and is found in its stead.
#[test]
fn a_second_task_takes_the_place_with_the_poller(rt: HostRuntime) -> Result<(), Fail> {
    let script = "mark 0, poll 1, slot 0, poll 2, woken 1, empty, rest 1, wake 0, woken 2";
    plays(&rt, 2, script)
}

// A source is made beside one at which a task waits, and a wake of the new one finds the task. The making wakes nobody.
#[test]
fn a_source_made_beside_finds_the_task_that_waits(rt: HostRuntime) -> Result<(), Fail> {
    let script = "mark 0, poll 1, slot 0, empty, sibling 2, at 1, wake 1, woken 1, slot 1, empty, \
        at 0, empty";
    plays(&rt, 1, script)
}

// The task's waker is with the poller of the first source as the second is made. It stays there, so a wake of the second
// leaves its slot to the next poll.
#[test]
fn a_source_made_beside_leaves_the_waker_with_the_poller(rt: HostRuntime) -> Result<(), Fail> {
    let script = "mark 0, poll 1, slot 0, sibling 2, at 1, wake 1, at 0, poll 1, empty, at 1, \
        slot 1, empty, wake 0, woken 1";
    plays(&rt, 1, script)
}

// The task's waker is with the poller of a source that leaves its siblings. The drop wakes nobody, and a wake of a
// sibling finds the task.
#[test]
fn a_source_that_leaves_its_siblings_wakes_nobody(rt: HostRuntime) -> Result<(), Fail> {
    let script = "mark 0, poll 1, slot 0, sibling 1, leave, wake 0, woken 1, slot 0, empty";
    plays(&rt, 1, script)
}

// Registers at one source and dequeues from it, and then from the other, which have nothing. A wake of either then finds
// the task, and the next one does not.
fn play_pairs(tasks: &mut Tasks<SharedReady>) -> Result<(), Fail> {
    play(tasks, [0, 0], "sibling 1, sibling 1")?;
    for pair in [[0, 1], [1, 0], [0, 2], [2, 1]] {
        let script =
            "at a, poll 1, empty, at b, empty, wake 0, woken 1, rest 1, at a, wake 0, at b, \
            slot 0, at a, slot 0, poll 1, empty, at b, empty, at a, wake 0, woken 1, slot 0, empty";
        play(tasks, pair, script)?;
    }
    Ok(())
}

// One registration covers all sources that stand beside one another.
#[test]
fn sources_beside_one_another_wake_one_task(rt: HostRuntime) -> Result<(), Fail> {
    run_on(shared(&rt, 1), |tasks| play_pairs(tasks))
}

// Of sources beside one another too, wakes find the task only once its poll found nothing.
#[test]
fn a_wake_beside_finds_the_task_once_its_poll_found_nothing(rt: HostRuntime) -> Result<(), Fail> {
    let script = "sibling 1, mark 0, poll 1, slot 0, at 1, wake 0, at 0, poll 1, empty, at 1, \
        slot 0, wake 0, woken 1, poll 1, slot 0, at 0, wake 0";
    plays(&rt, 1, script)
}

// The waker of an earlier poll lies with one source as the other's is put in. Where it is put in too, the one that it
// replaces wakes the task, once.
#[test]
fn an_earlier_waker_that_comes_later_wakes_the_task(rt: HostRuntime) -> Result<(), Fail> {
    let script = "sibling 1, at 1, mark 0, poll 1, slot 0, at 0, poll 1, empty, at 1, empty, \
        woken 1, at 0, poll 1, empty, at 1, empty";
    plays(&rt, 1, script)
}

// Numbers of slots about those at which a word, a byte or two bytes are full.
const FULL: [usize; 16] = [
    1, 2, 31, 32, 33, 63, 64, 65, 127, 128, 129, 256, 257, 65_536, 131_072, 200_000,
];

// A wake of the last slot, of the one in the middle or of the first wakes the task that waits, and marks the slot.
#[test]
fn a_wake_of_the_last_slot_wakes_the_task(rt: HostRuntime) -> Result<(), Fail> {
    let script = "poll 1, empty, wake a, woken 1, slot a, poll 1, empty, wake b, woken 1, slot b, \
        poll 1, empty, wake 0, woken 1, slot 0";
    for slots in FULL {
        plays(&rt, slots, script)?;
    }
    Ok(())
}

// Each slot of so many, of a source and of one made beside it.
fn play_slots(tasks: &mut Tasks<SharedReady>, slots: usize) -> Result<(), Fail> {
    play(tasks, [slots, 0], "sibling a")?;
    for slot in 0..slots {
        let script = "at 0, poll 1, empty, wake a, woken 1, slot a, at 1, poll 1, empty, wake a, \
            woken 1, slot a";
        play(tasks, [slot, 0], script)?;
    }
    Ok(())
}

#[test]
fn a_wake_of_each_slot_of_nine_sizes_wakes_the_task(rt: HostRuntime) -> Result<(), Fail> {
    for slots in [1, 8, 9, 63, 64, 65, 100, 128, 256] {
        run_on(shared(&rt, slots), |tasks| play_slots(tasks, slots))?;
    }
    Ok(())
}

// The task's waker is with the poller when a sibling is refused, as too large and because an allocation fails.
#[test]
fn a_refused_sibling_does_not_wake_the_task(rt: HostRuntime) -> Result<(), Fail> {
    let script = "mark 0, poll 1, slot 0, large_sibling 4611686018427387904, \
        lacking_sibling 4611686018427387903";
    plays(&rt, 1, script)
}

// The waker of a task that is registered is where wakes find it before its poll finds nothing, in place of one that was
// handed in.
#[test]
fn a_task_that_waits_takes_the_place_of_what_was_handed_in(rt: HostRuntime) -> Result<(), Fail> {
    let script = "poll 1, hand_in 2, empty, woken 2, rest 2, wake 0, woken 1";
    plays(&rt, 1, script)
}

// Plays a script on this source.
fn plays_source<S: Kind, E>(rt: &HostRuntime, made: Result<S, E>, script: &str) -> Result<(), Fail>
where
    E: Debug + Drop,
{
    play_on(Tasks::new(rt, made), [0, 0], script)
}

#[test]
fn gives_the_answers_and_then_empty(rt: HostRuntime) -> Result<(), Fail> {
    let answers = vec![in rt.alloc(); Taken::Slot(1), Taken::Pause]?;
    let script = "slots 2, mark 0, mark 0, slot 1, pause, empty, empty";
    plays_source(&rt, ScriptSource::new(rt.alloc(), 2, answers), script)
}

#[test]
fn refuses_an_answer_that_names_no_slot(rt: HostRuntime) -> Result<(), Fail> {
    let answers = vec![in rt.alloc(); Taken::Slot(1), Taken::Slot(2), Taken::Slot(3)]?;
    let refused = ScriptSource::new(rt.alloc(), 2, answers);
    same(refused.err(), Some(RunFault::Event(1)))
}

#[test]
fn makes_a_core(rt: HostRuntime) -> Result<(), Fail> {
    let source = CoreSource::make(&(), rt.alloc(), 2);
    plays_source(&rt, source, "mark 1, wake 1, slot 1, empty")
}

// A waker of a task wakes it when it is dropped. So one that was kept in no source, or by a plain yield, would show at
// once, and one that is kept in place of the waker of another task drops that. No dequeue drops it.
#[test]
fn a_core_source_keeps_the_tasks_waker(rt: HostRuntime) -> Result<(), Fail> {
    let script = "mark 0, poll 1, poll 2, woken 1, slot 0, empty, drop, woken 2";
    plays_source(&rt, CoreSource::make(&(), rt.alloc(), 1), script)
}

#[test]
fn a_script_source_keeps_the_tasks_waker(rt: HostRuntime) -> Result<(), Fail> {
    let answers = vec![in rt.alloc(); Taken::Slot(0), Taken::Pause]?;
    let script = "poll 1, poll 2, woken 1, slot 0, pause, empty, drop, woken 2";
    plays_source(&rt, ScriptSource::new(rt.alloc(), 1, answers), script)
}

// A registration of the task that is kept, a mark and the making of a sibling wake nobody.
#[test]
fn a_core_source_lets_its_task_wait(rt: HostRuntime) -> Result<(), Fail> {
    let script = "poll 1, poll 1, mark 1, sibling 1";
    plays_source(&rt, CoreSource::make(&(), rt.alloc(), 2), script)
}

#[test]
fn a_script_source_lets_its_task_wait(rt: HostRuntime) -> Result<(), Fail> {
    let source = ScriptSource::new(rt.alloc(), 2, Vec::new(rt.alloc()));
    plays_source(&rt, source, "poll 1, poll 1, mark 1")
}
