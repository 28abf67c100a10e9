//! The values in the tuples of a task.

ghost use Rattle.std.specs.Prelude.{◌≡◌, ◌≤◌, flat_map, length, map, vec_items};
ghost use Rattle.wf_model.specs.Task.{inputs};
ghost use Rattle.wf_tree_model.specs.Trees.{largest, new_name};
ghost use Rattle.wf_tree_refine.specs.AtHand.{at_hand};
ghost use Rattle.wf_tree_refine.specs.Names.{first_new};

use wf_task::{Row, Task};

/// Returns the first name that is larger than all values in `rows`, the tuples of each input
/// simplex of `task`. It is 1 if there are no tuples.
pub fn new_name(task: &Task, rows: &[Vec<Row>]) -> u32
    requires { length rows.now ≡ length (inputs task.now) }
    ensures name { result ≡ new_name (at_hand task.now (map vec_items rows.now)) }
    ensures few { result ≤ first_new }
{
    // for the proof only: a clause of this call states that the rows fit the inputs of the task
    let _ = task.processes();
    let mut most = 0;
    'simplices: for tuples in rows {
        most = largest_of(tuples).max(most);
    }
    u32::from(most) + 1
}

/// Returns the largest value in `rows`, or 0 if there are none.
fn largest_of(rows: &[Row]) -> u8
    ensures { result ≡ largest (flat_map (λ tuple. tuple) rows.now) }
{
    let mut most = 0;
    'rows: for row in rows {
        most = largest_in(row.as_slice()).max(most);
    }
    most
}

/// Returns the largest of `values`, or 0 if there are none.
fn largest_in(values: &[u8]) -> u8
    ensures { result ≡ largest values.now }
{
    let mut most = 0;
    'values: for value in values {
        most = (*value).max(most);
    }
    most
}
