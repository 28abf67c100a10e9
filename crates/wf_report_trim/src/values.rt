//! The values of a lifted map.

ghost use Rattle.std.specs.Prelude.{◌≡◌, ◌≤◌, Ok, IfOk, length, slice_index};
ghost use Rattle.wf_complex.specs.Protocol.{Builds};
ghost use Rattle.wf_report_trim.specs.Lift.{AreLifted};
ghost use Rattle.wf_report_trim.specs.Stretches.{GoesOn};

use crate::stretch::{Stretch, stretches_of};
use std::alloc::{AllocError, Global};
use wf_complex::Protocol;
use wf_task::Task;

/// Returns the values of the lifted map at the points of the complex `after`, in their order.
///
/// `values` are those of the map at the points of the complex `before`, which has at most as many
/// rounds. A point of `after` appears first in some execution, which continues an execution of
/// `before`. The value is the one that the map has there at the process's own point.
///
/// # Errors
///
/// Returns `AllocError` if memory runs out.
pub fn lift_values(
    alloc: Global,
    task: &Task,
    before: &Protocol,
    after: &Protocol,
    values: &[u8],
) -> Result<Vec<u8>, AllocError>
    requires before { Builds task.now before.now.rounds (Ok before.now) }
    requires after { Builds task.now after.now.rounds (Ok after.now) }
    requires rounds { before.now.rounds ≤ after.now.rounds }
    requires values { length values.now ≡ length before.now.points }
    ensures { IfOk result (λ lifted. AreLifted
        task.now before.now.rounds after.now.rounds values.now lifted.items) }
{
    let more = after.rounds() - before.rounds();
    let inputs = task.inputs().simplices();
    let stretches = stretches_of(alloc, inputs, task.first_block(), before.rounds(), more)?;
    let mut lifted = Vec::new(alloc);
    for point in 0..after.points() {
        lifted.push(value_at(&stretches, before, after, values, point))?;
    }
    Ok(lifted)
}

/// Returns the value of the lifted map at `point` of the complex `after`: the map's value at the
/// earlier point that it continues.
fn value_at(
    stretches: &[Stretch],
    before: &Protocol,
    after: &Protocol,
    values: &[u8],
    point: u32,
) -> u8
    requires values { length values.now ≡ length before.now.points }
    requires point { GoesOn before.now after.now stretches.now point }
    ensures { (from : GoesOn before.now after.now stretches.now point)
        → result ≡ slice_index values.now from.earlier_point }
{
    let (execution, process) = after.first_of(point);
    let stretch = stretches[after.simplex_of(execution) as usize];
    match before.point_at(stretch.earlier(execution), process) {
        Some(earlier) => values[earlier as usize],
        None => unreachable!(),
    }
}
