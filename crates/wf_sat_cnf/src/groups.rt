//! Tuples grouped by their value at a place.

ghost use Rattle.std.specs.Prelude.{◌≡◌, ◌∷◌, ◌++◌, [], All, IfOk, List, OnOk, length, map, vec_items};
ghost use Rattle.wf_model.specs.Task.{Tuple};
ghost use Rattle.wf_base.specs.Set.Sets.{value_limit};
ghost use Rattle.wf_sat_cnf.specs.Groups.{AreGroups, group_of};

use std::alloc::{AllocError, Global};
use std::marker::Model;
use wf_task::Row;

/// The number of possible values, from 0 to 255.
pub(crate) const VALUES: usize = 256;

/// For each value a list of the tuples that have it at a certain place, in their original order.
///
/// Contracts see the lists, by value.
#[derive(Drop)]
pub(crate) struct Groups {
    lists: Vec<Vec<Row>>,
}

impl Model for Groups {
    ghost use Rattle.std.specs.Prelude.{◌≡◌, List, length, map, vec_items};
    ghost use Rattle.wf_model.specs.Task.{Tuple};
    ghost use Rattle.wf_base.specs.Set.Sets.{value_limit};

    ghost Value = { List (List Tuple) };

    ghost view = { λ g. map vec_items g.lists.items };

    ghost invariant = { λ g. length g.lists.items ≡ value_limit };
}

impl Groups {
    /// Groups `tuples` by their values at `place`, in a single pass. A tuple without that place is
    /// left out.
    pub(crate) fn of(alloc: Global, tuples: &[Row], place: u8) -> Result<Groups, AllocError>
        ensures { IfOk result (λ groups. AreGroups place tuples.now groups) }
    {
        let mut lists = no_lists(alloc)?;
        for tuple in tuples {
            put(&mut lists, tuple, place)?;
        }
        Ok(Groups { lists })
    }

    /// Returns the tuples that have `value` at the place, in their original order.
    pub(crate) fn list(&self, value: u8) -> &[Row]
        ensures { result.now ≡ group_of value self.now }
    {
        &self.lists[value as usize]
    }
}

/// Creates an empty list for each value.
fn no_lists(alloc: Global) -> Result<Vec<Vec<Row>>, AllocError>
    ensures long { IfOk result (λ lists. length lists.items ≡ value_limit) }
    ensures none { IfOk result (λ lists. All (λ list. list ≡ []) (map vec_items lists.items)) }
{
    let mut lists = Vec::with_capacity(alloc, VALUES)?;
    for _value in 0..VALUES {
        lists.push(Vec::new(alloc))?;
    }
    Ok(lists)
}

/// Appends `tuple` to the list of the value that it has at `place`. Does nothing if it has no such
/// place.
fn put(lists: &mut [Vec<Row>], tuple: &Row, place: u8) -> Result<(), AllocError>
    requires { length lists.old ≡ value_limit }
    ensures long { length lists.new ≡ value_limit }
    ensures more { OnOk result ((tuples : List Tuple)
        → AreGroups place tuples (map vec_items lists.old)
        → AreGroups place (tuples ++ tuple.now ∷ []) (map vec_items lists.new)) }
{
    if place >= tuple.size() {
        return Ok(());
    }
    let value = tuple.value(place);
    lists[value as usize].push(*tuple)?;
    Ok(())
}
