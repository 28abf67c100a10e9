//! The values at one place of a tuple that go with a value at another place.

ghost use Rattle.std.specs.Prelude.{◌≡◌, ◌<◌, ◌∷◌, ◌++◌, ◌&&◌, ℕ, [], IfOk, List, get_or, length, map, vec_items};
ghost use Rattle.wf_model.specs.Lists.{has};
ghost use Rattle.wf_model.specs.Task.{Tuple};
ghost use Rattle.wf_base.specs.Set.Sets.{value_limit, values_in};
ghost use Rattle.wf_sat_cnf.specs.Groups.{AreAllowed, AreFollowers};

use crate::groups::VALUES;
use crate::tuples::with_value;
use std::alloc::{AllocError, Global};
use std::marker::Model;
use wf_base::set::{Mask, empty, intersection};
use wf_task::Row;

/// A set of values at one place of a tuple for each value at another place.
///
/// Contracts see the list of these sets, by value.
#[derive(Drop)]
pub(crate) struct Followers {
    sets: Vec<Mask>,
}

impl Model for Followers {
    ghost use Rattle.std.specs.Prelude.{◌≡◌, ℕ, List, length, map};
    ghost use Rattle.wf_base.specs.Set.Sets.{value_limit, values_in};

    ghost Value = { List (List ℕ) };

    ghost view = { λ f. map values_in f.sets.items };

    ghost invariant = { λ f. length f.sets.items ≡ value_limit };
}

impl Followers {
    /// Returns for each value `v` the set of the values at the place `next` in those of `tuples`
    /// that have `v` at `place`.
    pub(crate) fn of(
        alloc: Global,
        tuples: &[Row],
        place: u8,
        next: u8,
    ) -> Result<Followers, AllocError>
        ensures { IfOk result (λ followers. AreFollowers place next tuples.now followers) }
    {
        let mut sets = vec![in alloc; empty(); VALUES]?;
        for tuple in tuples {
            put(&mut sets, tuple, place, next);
        }
        Ok(Followers { sets })
    }

    /// Returns for each value `v` the set of those values in `set` that occur in each of `lists` at
    /// the place `next` of a tuple with `v` at `place`. If `lists` is empty, that is `set` for each
    /// `v`.
    pub(crate) fn common(
        alloc: Global,
        set: Mask,
        lists: &[Vec<Row>],
        place: u8,
        next: u8,
    ) -> Result<Followers, AllocError>
        ensures { IfOk result (λ followers. AreAllowed place next (values_in set)
            (map vec_items lists.now) followers) }
    {
        let mut sets = vec![in alloc; set; VALUES]?;
        for tuples in lists {
            let others = Followers::of(alloc, tuples, place, next)?;
            narrow(&mut sets, &others);
        }
        Ok(Followers { sets })
    }

    /// Replaces the set of each value by its intersection with the value's set in `others`.
    pub(crate) fn narrow(&mut self, others: &Followers)
        ensures { (v a : ℕ) → v < value_limit → has (get_or self.new v []) a
            ≡ (has (get_or self.old v []) a && has (get_or others.now v []) a) }
    {
        narrow(&mut self.sets, others);
    }

    /// Returns the set of `value`.
    pub(crate) fn set(&self, value: u8) -> Mask
        ensures { values_in result ≡ get_or self.now value [] }
    {
        self.sets[value as usize]
    }
}

/// Adds to the set of the value that `tuple` has at `place` the value that it has at `next`. Does
/// nothing if it lacks one of the two places.
fn put(sets: &mut [Mask], tuple: &Row, place: u8, next: u8)
    requires { length sets.old ≡ value_limit }
    ensures long { length sets.new ≡ value_limit }
    ensures more { (tuples : List Tuple) → AreFollowers place next tuples (map values_in sets.old)
        → AreFollowers place next (tuples ++ tuple.now ∷ []) (map values_in sets.new) }
{
    if place >= tuple.size() {
        return;
    }
    let value = tuple.value(place) as usize;
    let more = with_value(sets[value], tuple, next);
    sets[value] = more;
}

/// Replaces the set of each value by its intersection with the value's set in `others`.
fn narrow(sets: &mut [Mask], others: &Followers)
    requires { length sets.old ≡ value_limit }
    ensures long { length sets.new ≡ value_limit }
    ensures kept { (v a : ℕ) → v < value_limit → has (get_or (map values_in sets.new) v []) a
        ≡ (has (get_or (map values_in sets.old) v []) a && has (get_or others.now v []) a) }
{
    for value in 0..VALUES {
        let fewer = intersection(sets[value], others.set(value as u8));
        sets[value] = fewer;
    }
}
