//! The connected components of the tuples of an input simplex, counted.

ghost use Rattle.std.specs.Prelude.{◌≡◌, ◌<◌, ◌+◌, ℕ, All, IfOk, length, map, slice_index, vec_items};
ghost use Rattle.wf_tree_model.specs.Counting.Rules.{rule_at};
ghost use Rattle.wf_tree_model.specs.Cases.{components};
ghost use Rattle.wf_tree_refine.specs.AtHand.{IsAtHand, at_hand};
ghost use Rattle.wf_tree_refine.specs.Near.{most_at_hand};

use crate::parts::component_indices;
use crate::ways::Adjacency;
use std::alloc::{AllocError, Global};
use wf_task::{Row, Task};

/// Returns the number of connected components of the tuples that the task allows on `simplex`.
/// `rows` holds the tuples of each input simplex; two tuples are adjacent if they differ at one
/// place. On a vertex each tuple is a component of its own.
///
/// # Errors
///
/// Returns `AllocError` if memory runs out.
pub fn count_components(
    alloc: Global,
    task: &Task,
    rows: &[Vec<Row>],
    simplex: usize,
) -> Result<u32, AllocError>
    requires at_hand { IsAtHand task.now (map vec_items rows.now) }
    requires simplex { simplex < length rows.now }
    ensures { IfOk result (λ count. let t = at_hand task.now (map vec_items rows.now) in
        count ≡ length (components (rule_at t simplex))) }
{
    let simplices = task.inputs().simplices();
    let of = simplices[simplex];
    let numbers = component_indices(alloc, &rows[simplex], of.colours(), Adjacency::Steps)?;
    Ok(one_above_largest(&numbers))
}

/// Returns one more than the largest of `numbers`, or 0 if there are none.
fn one_above_largest(numbers: &[u32]) -> u32
    requires { All (λ number. number < most_at_hand) numbers.now }
    ensures above { (i : ℕ) → i < length numbers.now → slice_index numbers.now i < result }
    ensures first { 0 < result
        → (i : ℕ) × (i < length numbers.now) × (slice_index numbers.now i + 1 ≡ result) }
{
    let mut above = 0;
    'numbers: for number in numbers {
        if *number >= above {
            above = *number + 1;
        }
    }
    above
}
