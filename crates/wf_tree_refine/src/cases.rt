//! Cases: restrict an input simplex of a task to one connected component of its tuples.

ghost use Rattle.std.specs.Prelude.{◌≡◌, ◌<◌, ◌==◌, ◌≤◌, [], All, IfOk, filter, length, map, slice_index, slice_index_or, vec_items, if◌then◌else◌};
ghost use Rattle.std.specs.Cmp.Lexicographic.{pointwise, slice_cmp};
ghost use Rattle.std.specs.Ordering.{nat_cmp};
ghost use Rattle.wf_model.specs.Lists.{in_order};
ghost use Rattle.wf_model.specs.Simplex.{same_vertex, values_of};
ghost use Rattle.wf_tree_model.specs.Counting.Rules.{rule_at};
ghost use Rattle.wf_tree_model.specs.Cases.{components, in_case, is_step};
ghost use Rattle.wf_tree_model.specs.Parts.{parts};
ghost use Rattle.wf_tree_refine.specs.AtHand.{IsAtHand, at_hand};
ghost use Rattle.wf_tree_refine.specs.Near.{most_at_hand, part_of};

use crate::parts::component_indices;
use crate::rows::{copied, rows_among};
use crate::ways::Adjacency;
use std::alloc::{AllocError, Global};
use wf_simplex::Simplex;
use wf_task::{Row, Task};

/// Returns the tuples of the task in which `simplex` keeps only the tuples of its connected
/// component `number`. `rows` holds the tuples of each input simplex before the case.
///
/// Input simplices that are alike (in a symmetric task: those with the same inputs in rank order)
/// are restricted to the same component. Components are numbered in the order of their first rows;
/// if there is no component `number`, no tuple is left on these simplices.
///
/// # Errors
///
/// Returns `AllocError` if memory runs out.
pub fn in_case(
    alloc: Global,
    task: &Task,
    rows: &[Vec<Row>],
    simplex: usize,
    number: u32,
) -> Result<Vec<Vec<Row>>, AllocError>
    requires at_hand { IsAtHand task.now (map vec_items rows.now) }
    requires simplex { simplex < length rows.now }
    ensures case { IfOk result (λ found.
        let t = at_hand task.now (map vec_items rows.now) in
        let rule = rule_at t simplex in
        at_hand task.now (map vec_items found.items)
        ≡ in_case rule (slice_index_or (components rule) number []) t) }
    ensures at_hand { IfOk result (λ found. IsAtHand task.now (map vec_items found.items)) }
{
    let simplices = task.inputs().simplices();
    let of = simplices[simplex];
    let part = component_rows(alloc, &rows[simplex], of.colours(), number)?;
    let mut found = Vec::with_capacity(alloc, rows.len())?;
    'simplices: for (place, tuples) in rows.iter().enumerate() {
        let kept = if are_alike(task.symmetric(), &of, &simplices[place]) {
            rows_among(alloc, tuples, &part)?
        } else {
            copied(alloc, tuples)?
        };
        found.push_reserved(kept);
    }
    Ok(found)
}

/// Returns the rows of the connected component `number`, where two rows are adjacent if they differ
/// at one place. `size` is the length of each row.
fn component_rows(
    alloc: Global,
    rows: &[Row],
    size: u8,
    number: u32,
) -> Result<Vec<Row>, AllocError>
    requires few { length rows.now ≤ most_at_hand }
    requires ascending { in_order (slice_cmp nat_cmp) rows.now ≡ rows.now }
    requires long { All (λ row. length row ≡ size) rows.now }
    ensures { IfOk result (λ part. part.items
        ≡ filter (λ tuple. part_of (parts (is_step size) rows.now) tuple == number) rows.now) }
{
    let numbers = component_indices(alloc, rows, size, Adjacency::Steps)?;
    let mut part = Vec::new(alloc);
    'rows: for (place, row) in rows.iter().enumerate() {
        if numbers[place] == number {
            part.push(*row)?;
        }
    }
    Ok(part)
}

/// Returns whether the simplices `one` and `other` are alike, so that executions on them decide the
/// same tuples: in a symmetric task, whether they have the same inputs in rank order; otherwise,
/// whether they are equal.
fn are_alike(symmetric: bool, one: &Simplex, other: &Simplex) -> bool
    ensures { result ≡ (if symmetric then pointwise (λ v w. v.1 == w.1) one.now other.now
        else pointwise same_vertex one.now other.now) }
{
    if !symmetric {
        return one == other;
    }
    if one.colours() != other.colours() {
        return false;
    }
    'places: for place in 0..one.colours() {
        if value_at(one, place) != value_at(other, place) {
            return false;
        }
    }
    true
}

/// Returns the input of the vertex at `place` of `simplex`.
pub(crate) fn value_at(simplex: &Simplex, place: u8) -> u8
    requires { place < length simplex.now }
    ensures { result ≡ slice_index (values_of simplex.now) place }
{
    // for the proof only: the clauses of this call state what holds for every simplex
    let _ = simplex.colours();
    let Some(value) = simplex.value(simplex.colour(place)) else {
        unreachable!()
    };
    value
}
