//! What a join keeps until it ends: the set of its futures, and the outputs that have come, each at its place.
ghost use Rattle.std.specs.Prelude.{◌≡◌, ◌<◌, Some, None, IsSome, IfOk, length, map, replicate, slice_index_or};
ghost use Rattle.std.specs.Prelude.{slice_set};
ghost use Rattle.futures_buffered_joins.specs.Outputs.{output_in};

use std::alloc::{AllocError, Global};
use std::marker::Model;

/// At each place the output that has come, or nothing. The vector that the join returns when it ends was allocated when
/// the join was made. An output that comes next in the order of the places goes straight there.
#[derive(Drop)]
pub struct Outputs<A> {
    // The outputs of the first places. Its capacity is the number of places.
    gathered: Vec<A>,
    // The outputs that came before an earlier one, from place 1 on.
    later: Vec<Option<A>>,
}

impl<A> Model for Outputs<A> {
    ghost use Rattle.std.specs.Prelude.{◌≡◌, List, Option, length, vec_capacity};
    ghost use Rattle.std.specs.Coded.{coded_list, coded_option};
    ghost use Rattle.futures_buffered_joins.specs.Outputs.{came_by_place, from_the_first};

    ghost Value = { List (Option A) };

    ghost coded = { coded_list (coded_option A.code) };

    ghost view = { λ s. came_by_place s.gathered.items
        (from_the_first (vec_capacity s.gathered) s.later.items) };

    ghost invariant = { λ s. length (from_the_first (vec_capacity s.gathered) s.later.items)
        ≡ vec_capacity s.gathered };
}

/// The futures that a join waits for, each at its place, and the outputs that have come.
#[derive(Drop)]
pub struct Places<Q, A> {
    pub(crate) set: Q,
    pub(crate) outputs: Outputs<A>,
}

// Makes `n` places at which nothing has come. Allocates and takes time in proportion to `n`.
fn empty_places<A>(alloc: Global, n: usize) -> Result<Vec<Option<A>>, AllocError>
    ensures { IfOk result (λ v. v.items ≡ replicate n None) }
{
    let mut places = Vec::with_capacity(alloc, n)?;
    for _ in 0..n {
        places.push_reserved(None);
    }
    Ok(places)
}

impl<A: Drop> Outputs<A> {
    // Makes `n` places at which nothing has come.
    pub(crate) fn new(alloc: Global, n: usize) -> Result<Self, AllocError>
        ensures { IfOk result (λ outputs. outputs ≡ replicate n None) }
    {
        let later = empty_places(alloc, n.saturating_sub(1))?;
        let gathered = Vec::with_capacity(alloc, n)?;
        Ok(Outputs { gathered, later })
    }

    // Puts the output that has come at this place, where none was.
    pub(crate) fn put(&mut self, place: usize, output: A)
        requires { (place < length self.old) × (output_in self.old place ≡ None) }
        ensures { self.new ≡ slice_set self.old place (Some output) }
    {
        if place == self.gathered.len() {
            self.gathered.push_reserved(output);
        } else {
            self.later[place - 1] = Some(output);
        }
    }

    // Returns all outputs, in the order of the places.
    pub(crate) fn gather(self) -> Vec<A>
        requires { (k : _) → k < length self → IsSome (slice_index_or self k None) }
        ensures { self ≡ map Some result.items }
    {
        let Outputs {
            mut gathered,
            mut later,
        } = self;
        'places: for place in gathered.len()..gathered.capacity() {
            match later[place - 1].take() {
                Some(output) => gathered.push_reserved(output),
                None => unreachable!(),
            }
        }
        gathered
    }
}
