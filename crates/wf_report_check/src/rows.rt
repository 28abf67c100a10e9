//! Searching rows one after the other.

ghost use Rattle.std.specs.Prelude.{◌≡◌, ◌&&◌, map};
ghost use Rattle.wf_model.specs.Box.{has_at, is_alive, is_supported};
ghost use Rattle.wf_base.specs.Set.Sets.{values_in};

use wf_base::set::{Mask, contains};
use wf_task::Row;

/// Returns whether one of `rows` has `value` at `place`, and each of its values in the set of its
/// place.
pub(crate) fn have_support(rows: &[Row], sets: &[Mask], place: usize, value: u8) -> bool
    ensures { result ≡ is_supported rows.now (map values_in sets.now) place value }
{
    for row in rows {
        if supports(row, sets, place, value) {
            return true;
        }
    }
    false
}

/// Returns whether `row` has `value` at `place`, and each of its values in the set of its place.
fn supports(row: &Row, sets: &[Mask], place: usize, value: u8) -> bool
    ensures { let sets = map values_in sets.now in
        result ≡ (has_at row.now place value && is_alive sets row.now) }
{
    let values = row.as_slice();
    has_at(values, place, value) && is_alive(sets, values)
}

/// Returns whether `values` has `value` at index `place`.
pub(crate) fn has_at(values: &[u8], place: usize, value: u8) -> bool
    ensures { result ≡ has_at values.now place value }
{
    place < values.len() && values[place] == value
}

/// Returns whether `values` has a value for each of `sets`, and each is in the set of its place.
fn is_alive(sets: &[Mask], values: &[u8]) -> bool
    ensures { result ≡ is_alive (map values_in sets.now) values.now }
{
    if sets.len() != values.len() {
        return false;
    }
    for (place, value) in values.iter().enumerate() {
        if !contains(sets[place], *value) {
            return false;
        }
    }
    true
}
