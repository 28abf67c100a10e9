//! Finding whether a value is supported in an execution.

ghost use Rattle.std.specs.Prelude.{◌≡◌, ◌<◌, ◌≤◌, [], All, IfOk, get_or, length, map, take};
ghost use Rattle.wf_model.specs.Box.{candidates, is_supported};
ghost use Rattle.wf_model.specs.Lists.{has};
ghost use Rattle.wf_base.specs.Set.Sets.{box_of, values_in};
ghost use Rattle.wf_report_check.specs.Places.{tuples_of};

use crate::tuples::TupleSupport;
use std::alloc::{AllocError, Global};
use wf_base::set::{Mask, contains, empty};
use wf_task::Task;

/// Returns the tuples of each rule of `task`, by the index of the input simplex.
pub(crate) fn support_all(alloc: Global, task: &Task) -> Result<Vec<TupleSupport>, AllocError>
    ensures { IfOk result (λ supports. supports.items ≡ tuples_of task.now.delta) }
{
    let count = task.inputs().simplices().len();
    let mut supports = Vec::with_capacity(alloc, count)?;
    for number in 0..count {
        supports.push(TupleSupport::of(alloc, task.tuples(number as u32))?)?;
    }
    Ok(supports)
}

/// Returns whether `value` is supported at `place` of the execution with these `points`: one of the
/// tuples has it there, and all values of the tuple are candidates of their points. `sets` has the
/// candidates of all points.
pub(crate) fn is_supported(
    support: &TupleSupport,
    points: &[u32],
    sets: &[Mask],
    place: usize,
    value: u8,
) -> bool
    requires few { length points.now ≤ 4 }
    requires inside { All (λ v. v < length sets.now) points.now }
    ensures { let sets = map (candidates (box_of sets.now)) points.now in
        result ≡ is_supported support.now sets place value }
{
    let four = sets_at(points, sets);
    let there = &four[..points.len()];
    is_candidate(there, place, value) && support.supports(there, place, value)
}

/// Returns the candidates of each of `points`, at most four. The rest of the array is empty sets.
fn sets_at(points: &[u32], sets: &[Mask]) -> [Mask; 4]
    requires few { length points.now ≤ 4 }
    requires inside { All (λ v. v < length sets.now) points.now }
    ensures sets { take (length points.now) result ≡ map (λ v. get_or sets.now v []) points.now }
    ensures long { length result ≡ 4 }
{
    let mut there = [empty(); 4];
    for (place, point) in points.iter().enumerate() {
        there[place] = sets[*point as usize];
    }
    there
}

/// Returns whether `value` is in the set of `place`. If it isn't, no tuple supports it, and the
/// search for one is saved.
fn is_candidate(sets: &[Mask], place: usize, value: u8) -> bool
    ensures { result ≡ has (candidates (map values_in sets.now) place) value }
{
    place < sets.len() && contains(sets[place], value)
}
