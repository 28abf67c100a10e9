//! Blocks of at most 64 rows, which are searched by bit operations. A block has a word for each
//! value and place: the set of the rows that have the value there.

ghost use Rattle.std.specs.Prelude.{◌≡◌, ◌==◌, ◌<◌, ◌≤◌, ◌+◌, ◌*◌, ◌/◌, ◌%◌, ◌&&◌, ◌||◌, ℕ, List, All, IfOk, filter, get_or, length, map, nat_lt};
ghost use Rattle.wf_model.specs.Lists.{has};
ghost use Rattle.wf_model.specs.Task.{Tuple};
ghost use Rattle.wf_model.specs.Box.{has_at, is_supported};
ghost use Rattle.wf_base.specs.Set.Parts.{part_limit, part_values};
ghost use Rattle.wf_base.specs.Set.Sets.{values_in};
ghost use Rattle.wf_report_check.specs.RowBlocks.{AreNarrow, IsBlock, IsPlain, is_one_of};

use std::alloc::{AllocError, Global};
use wf_base::set::set64::{Set64, intersection, is_empty, singleton, split_first};
use wf_base::set::{Mask, low_set64};
use wf_task::Row;

/// The most places of a row, and the number of words in a block for each value.
pub(crate) const PLACES: usize = 4;

/// Returns the block of `rows`, at most 64, whose values are below `width`, at most 64.
///
/// The word at index `4 * value + place` is the set of the rows that have `value` at `place`.
pub(crate) fn block_of(alloc: Global, rows: &[Row], width: usize) -> Result<Vec<Set64>, AllocError>
    requires few { length rows.now ≤ part_limit }
    requires narrow { AreNarrow width rows.now }
    requires small { width ≤ part_limit }
    ensures { IfOk result (λ words. IsBlock rows.now words.items) }
{
    let mut words = vec![in alloc; 0; PLACES * width]?;
    for (number, row) in rows.iter().enumerate() {
        add_row(row, number as u8, &mut words);
    }
    Ok(words)
}

/// Adds the row with index `number` to the words of its values.
fn add_row(row: &Row, number: u8, words: &mut [Set64])
    requires within { All (λ v. 4 * v + 3 < length words.old) row.now }
    requires small { number < part_limit }
    ensures long { length words.new ≡ length words.old }
    ensures added { (i r : ℕ) → has (part_values (get_or words.new i 0)) r
        ≡ (has (part_values (get_or words.old i 0)) r
        || (number == r && has_at row.now (i % 4) (i / 4))) }
{
    for place in 0..row.size() {
        let at = PLACES * row.value(place) as usize + place as usize;
        words[at] = join(words[at], singleton(number));
    }
}

/// Returns the union of two sets of rows.
fn join(rows: Set64, others: Set64) -> Set64
    ensures { (r : ℕ) → has (part_values result) r
        ≡ (has (part_values rows) r || has (part_values others) r) }
{
    rows | others
}

/// Returns whether a row of the block has `value` at `place`, and each of its values in the set of
/// its place.
pub(crate) fn has_support(words: &[Set64], sets: &[Mask], place: usize, value: u8) -> bool
    requires place { place < 4 }
    requires few { length sets.now ≤ 4 }
    ensures { (rows : List Tuple) → IsBlock rows words.now → All (IsPlain (length sets.now)) rows
        → result ≡ is_supported rows (map values_in sets.now) place value }
{
    let mut alive = rows_with(words, place, value);
    for (at, set) in sets.iter().enumerate() {
        alive = narrowed(words, alive, at, *set);
    }
    !is_empty(alive)
}

/// Returns those of the rows in `alive` that have an element of `set` at `place`.
fn narrowed(words: &[Set64], alive: Set64, place: usize, set: Mask) -> Set64
    requires { place < 4 }
    ensures { let values = filter (λ v. nat_lt v part_limit) (values_in set) in
        (r : ℕ) → has (part_values result) r
        ≡ (has (part_values alive) r && is_one_of words.now place values r) }
{
    if is_empty(alive) {
        return alive;
    }
    intersection(alive, rows_among(words, place, low_set64(set)))
}

/// Returns the rows that have one of `values` at `place`.
fn rows_among(words: &[Set64], place: usize, values: Set64) -> Set64
    requires { place < 4 }
    ensures { (r : ℕ) → has (part_values result) r
        ≡ is_one_of words.now place (part_values values) r }
{
    let mut rows = 0;
    let mut left = values;
    'values: while let Some((value, others)) = split_first(left) {
        left = others;
        rows = join(rows, rows_with(words, place, value));
    }
    rows
}

/// Returns the rows that have `value` at `place`.
fn rows_with(words: &[Set64], place: usize, value: u8) -> Set64
    requires { place < 4 }
    ensures { result ≡ get_or words.now (4 * value + place) 0 }
{
    let at = PLACES * value as usize + place;
    if at < words.len() { words[at] } else { 0 }
}
