//! Searching tuples by their value at a place.

ghost use Rattle.std.specs.Prelude.{◌≡◌, ◌<◌, ◌||◌, ℕ, IfOk, map, vec_items};
ghost use Rattle.wf_model.specs.Lists.{has};
ghost use Rattle.wf_model.specs.Box.{has_at};
ghost use Rattle.wf_base.specs.Set.Sets.{value_limit, values_in};
ghost use Rattle.wf_sat_cnf.specs.Found.{having, occurs};
ghost use Rattle.wf_sat_cnf.specs.Groups.{group_of};

use crate::groups::Groups;
use std::alloc::{AllocError, Global};
use wf_base::set::{Mask, empty, with};
use wf_task::Row;

/// Returns the set of the values that `tuples` have at `place`.
pub(crate) fn values_at(tuples: &[Row], place: u8) -> Mask
    ensures { (v : ℕ) → has (values_in result) v ≡ occurs tuples.now place v }
{
    let mut set = empty();
    for tuple in tuples {
        let more = with_value(set, tuple, place);
        set = more;
    }
    set
}

/// Returns `set` with the value that `tuple` has at `place` added, or unchanged if `tuple` has no
/// such place.
pub(crate) fn with_value(set: Mask, tuple: &Row, place: u8) -> Mask
    ensures { (v : ℕ) → has (values_in result) v
        ≡ (has (values_in set) v || has_at tuple.now place v) }
{
    if place < tuple.size() {
        with(set, tuple.value(place))
    } else {
        set
    }
}

/// Returns whether `tuple` has `value` at `place`.
fn has_value(tuple: &Row, place: u8, value: u8) -> bool
    ensures { result ≡ has_at tuple.now place value }
{
    place < tuple.size() && tuple.value(place) == value
}

/// Returns those of `tuples` that have `value` at `place`, in their order.
pub(crate) fn having(
    alloc: Global,
    tuples: &[Row],
    place: u8,
    value: u8,
) -> Result<Vec<Row>, AllocError>
    ensures { IfOk result (λ found. found.items ≡ having place value tuples.now) }
{
    let mut found = Vec::new(alloc);
    for tuple in tuples {
        if has_value(tuple, place, value) {
            found.push(*tuple)?;
        }
    }
    Ok(found)
}

/// Groups the tuples of each of `lists` by their values at `place`.
pub(crate) fn group_each(
    alloc: Global,
    lists: &[Vec<Row>],
    place: u8,
) -> Result<Vec<Groups>, AllocError>
    ensures { IfOk result (λ groups. (v : ℕ) → v < value_limit
        → map (group_of v) groups.items ≡ map (having place v) (map vec_items lists.now)) }
{
    let mut groups = Vec::new(alloc);
    for tuples in lists {
        groups.push(Groups::of(alloc, tuples, place)?)?;
    }
    Ok(groups)
}

/// Returns for each of `groups` a copy of the list of the tuples that have `value`.
pub(crate) fn having_each(
    alloc: Global,
    groups: &[Groups],
    value: u8,
) -> Result<Vec<Vec<Row>>, AllocError>
    ensures { IfOk result (λ found. map vec_items found.items ≡ map (group_of value) groups.now) }
{
    let mut found = Vec::new(alloc);
    for group in groups {
        found.push(group.list(value).to_vec(alloc)?)?;
    }
    Ok(found)
}
