//! The tuples of one rule, arranged for finding support.

ghost use Rattle.std.specs.Prelude.{◌≡◌, ◌++◌, ◌∷◌, [], IfOk, OnOk, cond, filter, map};
ghost use Rattle.wf_model.specs.Box.{has_at, is_supported};
ghost use Rattle.wf_base.specs.Set.Sets.{values_in};
ghost use Rattle.wf_report_check.specs.Groups.{AreGrouped};

use crate::group::Group;
use crate::row_block::PLACES;
use crate::rows::{has_at, have_support};
use std::alloc::{AllocError, Global};
use std::marker::Model;
use wf_base::set::Mask;
use wf_task::Row;

/// The least number of tuples for which a rule has groups.
const GROUPS_FROM: usize = 256;

/// The number of values that have groups: 0 to 63.
const COLUMN_VALUES: usize = 64;

/// The tuples of one rule, arranged so that support is found fast.
///
/// Clauses see the list of the tuples.
#[derive(Drop)]
pub(crate) struct TupleSupport {
    tuples: Vec<Row>,
    // group 4 * v + p has the tuples with value v at place p; empty if the tuples are few
    groups: Vec<Group>,
}

impl Model for TupleSupport {
    ghost use Rattle.std.specs.Prelude.{List};
    ghost use Rattle.wf_model.specs.Task.{Tuple};
    ghost use Rattle.wf_report_check.specs.Groups.{AreGrouped};

    ghost Value = { List Tuple };

    ghost view = { λ s. s.tuples.items };

    ghost invariant = { λ s. AreGrouped s.tuples.items s.groups.items };
}

impl TupleSupport {
    /// Copies `tuples`, and arranges them in groups if there are many.
    pub(crate) fn of(alloc: Global, tuples: &[Row]) -> Result<TupleSupport, AllocError>
        ensures { IfOk result (λ support. support ≡ tuples.now) }
    {
        let groups = group_all(alloc, tuples)?;
        let tuples = tuples.to_vec(alloc)?;
        Ok(TupleSupport { tuples, groups })
    }

    /// Returns whether one of the tuples has `value` at `place`, and each of its values in the set
    /// of its place.
    pub(crate) fn supports(&self, sets: &[Mask], place: usize, value: u8) -> bool
        ensures { result ≡ is_supported self.now (map values_in sets.now) place value }
    {
        let at = PLACES * value as usize + place % PLACES;
        if place < PLACES && at < self.groups.len() {
            self.groups[at].supports(sets, place, value)
        } else {
            have_support(&self.tuples, sets, place, value)
        }
    }
}

/// Returns the groups of `tuples` by value and place, or no groups if the tuples are few.
fn group_all(alloc: Global, tuples: &[Row]) -> Result<Vec<Group>, AllocError>
    ensures { IfOk result (λ groups. AreGrouped tuples.now groups.items) }
{
    let mut groups = Vec::new(alloc);
    let count = if tuples.len() < GROUPS_FROM {
        0
    } else {
        PLACES * COLUMN_VALUES
    };
    for i in 0..count {
        let rows = rows_with(alloc, tuples, i % PLACES, (i / PLACES) as u8)?;
        groups.push(Group::of(alloc, rows)?)?;
    }
    Ok(groups)
}

/// Returns the tuples that have `value` at `place`.
fn rows_with(alloc: Global, tuples: &[Row], place: usize, value: u8) -> Result<Vec<Row>, AllocError>
    ensures { IfOk result (λ rows. rows.items ≡ filter (λ t. has_at t place value) tuples.now) }
{
    let mut rows = Vec::new(alloc);
    for tuple in tuples {
        let values = tuple.as_slice();
        push_if(has_at(values, place, value), *tuple, &mut rows)?;
    }
    Ok(rows)
}

/// Appends `tuple` to `rows` if `test` is true.
fn push_if(test: bool, tuple: Row, rows: &mut Vec<Row>) -> Result<(), AllocError>
    ensures { OnOk result (rows.new.items ≡ rows.old.items ++ cond test (tuple ∷ []) []) }
{
    if test {
        rows.push(tuple)?;
    }
    Ok(())
}
