//! Finding the first execution in which a map is wrong.

ghost use Rattle.std.specs.Prelude.{◌≡◌, ◌<◌, ◌≤◌, ◌==◌, not, All, length, map, slice_index};
ghost use Rattle.std.specs.List.{list_any};
ghost use Rattle.std.specs.Option.{IfSome};
ghost use Rattle.std.specs.Cmp.Lexicographic.{pointwise};
ghost use Rattle.wf_model.specs.Problem.{problem_of, constraint_at};
ghost use Rattle.wf_model.specs.Check.{first_violated, satisfies};
ghost use Rattle.wf_complex.specs.Protocol.{IsProtocol};

use rayon::prelude::*;
use std::thread::Threads;
use wf_complex::Protocol;
use wf_task::{Row, Task};

/// Returns the index of the first execution in which the values at its points are no tuple that the
/// task allows.
///
/// The executions are checked in several threads.
pub(crate) fn first_violated<R: Threads + Sync>(
    rt: &R,
    task: &Task,
    protocol: &Protocol,
    values: &[u8],
) -> Option<usize>
    requires built { IsProtocol task.now protocol.now.rounds protocol.now }
    requires long { length values.now ≡ length protocol.now.points }
    ensures first { result ≡ first_violated (problem_of task.now protocol.now.rounds) values.now }
    ensures few { IfSome result (λ execution. execution ≤ u32.MAX) }
{
    let count = protocol.executions();
    (0..count).into_par_iter().position_first(
        rt,
        |execution: u32| -> bool
            requires { (execution < length protocol.now.scopes)
                × IsProtocol task.now protocol.now.rounds protocol.now
                × (length values.now ≡ length protocol.now.points) }
            ensures { let p = problem_of task.entry.now protocol.entry.now.rounds in
                result ≡ not (satisfies values.entry.now (constraint_at p execution)) }
        { !satisfies(task, protocol, execution, values) },
    )
}

/// Returns whether the values at the points of `execution` are a tuple that the task allows there.
fn satisfies(task: &Task, protocol: &Protocol, execution: u32, values: &[u8]) -> bool
    requires built { IsProtocol task.now protocol.now.rounds protocol.now }
    requires execution { execution < length protocol.now.scopes }
    requires long { length values.now ≡ length protocol.now.points }
    ensures { let p = problem_of task.now protocol.now.rounds in
        result ≡ satisfies values.now (constraint_at p execution) }
{
    let tuples = task.tuples(protocol.simplex_of(execution));
    has_tuple(tuples, values, protocol.points_of(execution))
}

/// Returns whether one of `tuples` has the values at `points`.
fn has_tuple(tuples: &[Row], values: &[u8], points: &[u32]) -> bool
    requires { All (λ v. v < length values.now) points.now }
    ensures { let decided = map (λ v. slice_index values.now v) points.now in
        result ≡ list_any (pointwise (λ x y. x == y) decided) tuples.now }
{
    for tuple in tuples {
        if matches_decisions(tuple, values, points) {
            return true;
        }
    }
    false
}

/// Returns whether the values at `points` are those of `tuple`.
fn matches_decisions(tuple: &Row, values: &[u8], points: &[u32]) -> bool
    requires { All (λ v. v < length values.now) points.now }
    ensures { let decided = map (λ v. slice_index values.now v) points.now in
        result ≡ pointwise (λ x y. x == y) decided tuple.now }
{
    let wanted = tuple.as_slice();
    if points.len() != wanted.len() {
        return false;
    }
    for (place, point) in points.iter().enumerate() {
        if values[*point as usize] != wanted[place] {
            return false;
        }
    }
    true
}
