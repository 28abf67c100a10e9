//! Lists of rows: order, membership, and the rows of a task that was read.

ghost use Rattle.std.specs.Prelude.{◌≡◌, ◌≤◌, ◌+◌, ◌++◌, ◌∷◌, [], IfErr, IfOk, OnOk, filter, length, map, vec_items};
ghost use Rattle.std.specs.Cmp.Lexicographic.{slice_cmp};
ghost use Rattle.std.specs.Ordering.{nat_cmp};
ghost use Rattle.wf_model.specs.Lists.{in_order};
ghost use Rattle.wf_tree_model.specs.Tuples.{has_tuple};
ghost use Rattle.wf_tree_refine.specs.AtHand.{IsAtHand, at_hand};
ghost use Rattle.wf_tree_refine.specs.Limits.{IsTooMany};

use crate::fault::RefineFault;
use std::alloc::{AllocError, Global};
use wf_task::{Row, Task};

/// Copies the tuples of each input simplex of `task`. This is the task at hand to which refining
/// steps are first applied.
///
/// # Errors
///
/// Returns `AllocError` if memory runs out.
pub fn first_rows(alloc: Global, task: &Task) -> Result<Vec<Vec<Row>>, AllocError>
    ensures same { IfOk result (λ rows. at_hand task.now (map vec_items rows.items) ≡ task.now) }
    ensures at_hand { IfOk result (λ rows. IsAtHand task.now (map vec_items rows.items)) }
{
    let count = task.inputs().simplices().len();
    let mut rows = Vec::with_capacity(alloc, count)?;
    'simplices: for simplex in 0..count {
        rows.push_reserved(copied(alloc, task.tuples(simplex as u32))?);
    }
    Ok(rows)
}

/// Returns whether `row` is among `rows`, which are in ascending order. Uses a binary search.
pub fn has_row(rows: &[Row], row: &Row) -> bool
    requires { in_order (slice_cmp nat_cmp) rows.now ≡ rows.now }
    ensures { result ≡ has_tuple rows.now row.now }
{
    rows.binary_search(row).is_ok()
}

/// Returns the rows that are also among `others`. Both lists are in ascending order.
pub(crate) fn rows_among(
    alloc: Global,
    rows: &[Row],
    others: &[Row],
) -> Result<Vec<Row>, AllocError>
    requires { in_order (slice_cmp nat_cmp) others.now ≡ others.now }
    ensures { IfOk result (λ kept. kept.items ≡ filter (has_tuple others.now) rows.now) }
{
    let mut kept = Vec::new(alloc);
    'rows: for row in rows {
        if has_row(others, row) {
            kept.push(*row)?;
        }
    }
    Ok(kept)
}

/// Copies `rows`.
pub(crate) fn copied(alloc: Global, rows: &[Row]) -> Result<Vec<Row>, AllocError>
    ensures { IfOk result (λ copy. copy.items ≡ rows.now) }
{
    rows.iter().copied().collect(alloc)
}

/// Sorts `rows` in ascending order and removes duplicates.
pub fn sorted_unique(rows: Vec<Row>) -> Vec<Row>
    ensures { result.items ≡ in_order (slice_cmp nat_cmp) rows.items }
{
    let mut once = rows;
    once.sort_unstable();
    once.dedup();
    once
}

/// Appends `row` to `found`, which may have at most `most` rows.
///
/// # Errors
///
/// Returns [`RefineFault::TooManyTuples`] if `found` has `most` rows already; it is then unchanged.
/// Returns [`RefineFault::OutOfMemory`] if memory runs out.
pub fn push_limited(found: &mut Vec<Row>, most: usize, row: Row) -> Result<(), RefineFault>
    requires { length found.old.items ≤ most }
    ensures pushed { OnOk result (found.new.items ≡ found.old.items ++ row ∷ []) }
    ensures within { OnOk result (length found.new.items ≤ most) }
    ensures refused { IfErr result (λ fault. IsTooMany fault most (length found.old.items + 1)) }
{
    if found.len() >= most {
        return Err(RefineFault::TooManyTuples);
    }
    match found.push(row) {
        Ok(()) => Ok(()),
        Err(_) => Err(RefineFault::OutOfMemory),
    }
}
