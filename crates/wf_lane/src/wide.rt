//! The kernel for tables with some value of 64 or more: it takes the rows one by one.

ghost use Rattle.std.specs.Prelude.{◌≡◌, ℕ, ◌<◌, ◌≤◌, ◌^◌, ◌&&◌, ◌||◌, All, length, count_by};
ghost use Rattle.std.specs.List.{list_all};
ghost use Rattle.wf_model.specs.Lists.{has};
ghost use Rattle.wf_model.specs.Box.{has_at, is_alive};
ghost use Rattle.wf_base.specs.Set.Sets.{values_in};
ghost use Rattle.wf_lane.specs.Table.{sets_of};
ghost use Rattle.wf_lane.specs.Wide.{AreSupported, HaveMore, is_below, is_met_at, lives};

use crate::table::Support;
use wf_base::set::{Mask, contains, empty, with};
use wf_task::Row;

/// Exclusive upper bound of the values in a set of one word.
const PART_LIMIT: u8 = 64;

/// Returns whether each value of the row is below 64.
fn is_row_narrow(row: &Row) -> bool
    ensures { result ≡ list_all is_below row.now }
{
    if let [a, b, c, d] = row.as_slice() {
        // all four are compared, which is faster than stopping early
        return (*a < PART_LIMIT) & ((*b < PART_LIMIT) & ((*c < PART_LIMIT) & (*d < PART_LIMIT)));
    }
    for value in row.as_slice() {
        if *value >= PART_LIMIT {
            return false;
        }
    }
    true
}

/// Returns whether each value of each row is below 64.
pub(crate) fn is_narrow(rows: &[Row]) -> bool
    ensures { result ≡ list_all (list_all is_below) rows.now }
{
    for row in rows {
        if !is_row_narrow(row) {
            return false;
        }
    }
    true
}

/// Returns whether the value of the row at `place` is in `set`. True past the end of the row.
fn is_met_at(row: &Row, place: u8, set: Mask) -> bool
    ensures { result ≡ is_met_at row.now place (values_in set) }
{
    place >= row.size() || contains(set, row.value(place))
}

/// Returns whether the row is live: its value at each place is in `sets` there.
fn is_row_alive(row: &Row, sets: [Mask; 4]) -> bool
    requires { length row.now ≤ 4 }
    ensures { result ≡ is_alive (sets_of (length row.now) sets) row.now }
{
    is_met_at(row, 0, sets[0])
        && is_met_at(row, 1, sets[1])
        && is_met_at(row, 2, sets[2])
        && is_met_at(row, 3, sets[3])
}

/// Adds to `set` the value of the row at `place`, if the row is live and has that place.
fn with_value(set: Mask, row: &Row, place: u8, is_alive: bool) -> Mask
    ensures { (v : ℕ) → has (values_in result) v
        ≡ (has (values_in set) v || has_at row.now place v && is_alive) }
{
    if is_alive && place < row.size() {
        return with(set, row.value(place));
    }
    set
}

/// Adds to each of `sets` the value of the row at its place, if the row is live.
fn with_row(sets: [Mask; 4], row: &Row, is_alive: bool) -> [Mask; 4]
    requires { length row.now ≤ 4 }
    ensures { HaveMore sets row.now is_alive result }
{
    [
        with_value(sets[0], row, 0, is_alive),
        with_value(sets[1], row, 1, is_alive),
        with_value(sets[2], row, 2, is_alive),
        with_value(sets[3], row, 3, is_alive),
    ]
}

/// Revises the rows one by one: returns the values that some live row has at each place, and the
/// number of live rows.
pub(crate) fn revise_rows(rows: &[Row], sets: [Mask; 4]) -> Support
    requires long { All (λ row. length row ≤ 4) rows.now }
    requires few { length rows.now < 2 ^ 32 }
    ensures supported { AreSupported result.masks rows.now sets }
    ensures alive { result.alive ≡ count_by (lives sets) rows.now }
{
    let mut masks = [empty(), empty(), empty(), empty()];
    let mut alive: u32 = 0;
    for row in rows {
        let lives = is_row_alive(row, sets);
        let more = with_row(masks, row, lives);
        masks = more;
        alive += u32::from(lives);
    }
    Support { masks, alive }
}
