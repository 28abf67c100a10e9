//! Groups of rows that are searched together, 64 at a time if there are many.

ghost use Rattle.std.specs.Prelude.{◌≡◌, ◌<◌, ◌≤◌, ◌*◌, true, List, All, IfOk, length, map};
ghost use Rattle.wf_model.specs.Task.{Tuple};
ghost use Rattle.wf_model.specs.Box.{is_supported};
ghost use Rattle.wf_base.specs.Set.Parts.{part_limit};
ghost use Rattle.wf_base.specs.Set.Sets.{values_in};
ghost use Rattle.wf_report_check.specs.RowBlocks.{AreBlocks, AreNarrow, AreOfSize, IsCut, block_rows};

use crate::row_block::{PLACES, block_of, has_support};
use crate::rows::have_support;
use std::alloc::{AllocError, Global};
use std::marker::Model;
use wf_base::set::Mask;
use wf_base::set::set64::Set64;
use wf_task::Row;

/// The number of rows in each block but the last.
const BLOCK_ROWS: usize = 64;

/// The least number of rows for which a group is cut into blocks.
const BLOCKS_FROM: usize = 32;

/// Rows, and the blocks into which they are cut. There are no blocks if the rows are few, differ in
/// size, or have a value above 63.
#[derive(Drop)]
pub(crate) struct Group {
    size: usize,
    rows: Vec<Row>,
    blocks: Vec<Vec<Set64>>,
}

impl Model for Group {
    ghost use Rattle.std.specs.Prelude.{◌<◌, List, length};
    ghost use Rattle.wf_model.specs.Task.{Tuple};
    ghost use Rattle.wf_report_check.specs.RowBlocks.{IsCut};

    ghost Value = { List Tuple };

    ghost view = { λ g. g.rows.items };

    ghost invariant = { λ g. 0 < length g.blocks.items → IsCut g.size g.rows.items g.blocks.items };
}

impl Group {
    /// Creates the group of `rows`.
    pub(crate) fn of(alloc: Global, rows: Vec<Row>) -> Result<Group, AllocError>
        ensures { IfOk result (λ group. group ≡ rows.items) }
    {
        let size = size_of(&rows);
        let width = width_of(&rows);
        let blocks = if rows.len() < BLOCKS_FROM || width > 64 || !are_of_size(&rows, size) {
            Vec::new(alloc)
        } else {
            cut(alloc, &rows, width)?
        };
        Ok(Group { size, rows, blocks })
    }

    /// Returns whether a row has `value` at `place`, and each of its values in the set of its
    /// place.
    pub(crate) fn supports(&self, sets: &[Mask], place: usize, value: u8) -> bool
        ensures { result ≡ is_supported self.now (map values_in sets.now) place value }
    {
        let is_cut = !self.blocks.is_empty() && sets.len() == self.size && place < PLACES;
        if is_cut {
            any_supports(&self.blocks, sets, place, value)
        } else {
            have_support(&self.rows, sets, place, value)
        }
    }
}

/// Returns whether a row of `blocks` has `value` at `place`, and each of its values in the set of
/// its place.
fn any_supports(blocks: &[Vec<Set64>], sets: &[Mask], place: usize, value: u8) -> bool
    requires place { place < 4 }
    requires few { length sets.now ≤ 4 }
    ensures { (rows : List Tuple) → IsCut (length sets.now) rows blocks.now
        → result ≡ is_supported rows (map values_in sets.now) place value }
{
    for block in blocks {
        if has_support(block, sets, place, value) {
            return true;
        }
    }
    false
}

/// Cuts `rows` into blocks. Their values are below `width`, which is at most 64.
fn cut(alloc: Global, rows: &[Row], width: usize) -> Result<Vec<Vec<Set64>>, AllocError>
    requires narrow { AreNarrow width rows.now }
    requires small { width ≤ part_limit }
    ensures blocks { IfOk result (λ blocks. AreBlocks rows.now blocks.items) }
    ensures all { IfOk result (λ blocks. length rows.now ≤ block_rows * length blocks.items) }
{
    let count = rows.len().div_ceil(BLOCK_ROWS);
    let mut blocks = Vec::with_capacity(alloc, count)?;
    for number in 0..count {
        let start = BLOCK_ROWS * number;
        let end = rows.len().min(start + BLOCK_ROWS);
        blocks.push(block_of(alloc, &rows[start..end], width)?)?;
    }
    Ok(blocks)
}

/// Returns the size of the first row, or 0 if there is none.
fn size_of(rows: &[Row]) -> usize
    ensures { result ≤ 4 }
{
    match rows.first() {
        Some(row) => row.size() as usize,
        None => 0,
    }
}

/// Returns whether all rows have `size` values.
fn are_of_size(rows: &[Row], size: usize) -> bool
    ensures { result ≡ true → AreOfSize size rows.now }
{
    for row in rows {
        if row.size() as usize != size {
            return false;
        }
    }
    true
}

/// Returns one more than the largest value of `rows`, or 0 if there are none.
fn width_of(rows: &[Row]) -> usize
    ensures { AreNarrow result rows.now }
{
    let mut width = 0;
    for row in rows {
        width = row_width(row.as_slice(), width);
    }
    width
}

/// Returns the larger of `width` and one more than the largest of `values`.
fn row_width(values: &[u8], width: usize) -> usize
    ensures more { width ≤ result }
    ensures narrow { All (λ v. v < result) values.now }
{
    let mut wider = width;
    for value in values {
        wider = wider.max(*value as usize + 1);
    }
    wider
}
