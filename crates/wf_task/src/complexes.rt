//! The complexes of a draft, and the checks of its sizes.

ghost use Rattle.std.specs.Prelude.{◌≡◌, ◌==◌, ◌<◌, ◌≤◌, All, map, count_by, nat_lt, length, IfOk};
ghost use Rattle.wf_model.specs.Limits.{most_bytes};
ghost use Rattle.wf_model.specs.Simplex.{complex_of};
ghost use Rattle.wf_model.specs.Task.{IsTaskSimplex};
ghost use Rattle.wf_task_parse.specs.RawTask.{Gives};
ghost use Rattle.wf_task_parse.specs.DraftSeen.{draft_seen, pairs_seen, entry_seen};
ghost use Rattle.wf_task.specs.Judge.{sizes_judged, tuple_total};

use crate::limits::{MAX_INPUTS, MAX_OUTPUTS, MAX_TUPLES, MAX_VERTICES};
use std::alloc::{AllocError, Global};
use wf_simplex::{Complex, Simplex};
use wf_task_parse::{DeltaEntry, ListedSimplex, RawTask, TaskFault, TaskLimit};

/// Returns the complex of the simplices in `listed`, whose processes and values must have been
/// checked.
pub(crate) fn complex(alloc: Global, listed: &[ListedSimplex]) -> Result<Complex, AllocError>
    requires within { All IsTaskSimplex (map pairs_seen listed.now) }
    requires few { length listed.now ≤ most_bytes }
    ensures { IfOk result (λ c. c ≡ complex_of (map pairs_seen listed.now)) }
{
    let mut facets = Vec::with_capacity(alloc, listed.len())?;
    for simplex in listed {
        facets.push_reserved(Simplex::of_pairs(&simplex.pairs));
    }
    Complex::from_facets(alloc, &facets)
}

/// Returns the number of vertices among `simplices`.
fn count_vertices(simplices: &[Simplex]) -> usize
    ensures { result ≡ count_by (λ s. length s == 1) simplices.now }
{
    simplices
        .iter()
        .filter(|simplex| simplex.colours() == 1)
        .count()
}

/// Returns `true` if all entries of `delta` together have more than `most` value lists.
fn has_more_tuples(delta: &[DeltaEntry], most: usize) -> bool
    ensures { result ≡ nat_lt most (tuple_total (map entry_seen delta.now)) }
{
    let mut left = most;
    for entry in delta {
        let tuples = entry.tuples.as_slice().len();
        if tuples > left {
            return true;
        }
        left -= tuples;
    }
    false
}

/// Checks that the draft is within the size limits. `inputs` are the simplices of its input
/// complex.
///
/// # Errors
///
/// Returns `TooMany` (number 8) with the first limit that the draft exceeds.
#[tactic(auto, unfolding(crate::specs::Judge::sizes_judged))]
pub(crate) fn judge_sizes(draft: &RawTask, inputs: &[Simplex]) -> Result<(), TaskFault>
    ensures { Gives (λ u. u) result (sizes_judged (draft_seen draft.now) inputs.now) }
{
    if count_vertices(inputs) > MAX_VERTICES {
        return Err(TaskFault::TooMany(TaskLimit::Vertices));
    }
    if inputs.len() > MAX_INPUTS {
        return Err(TaskFault::TooMany(TaskLimit::Simplices));
    }
    if draft.outputs.len() > MAX_OUTPUTS {
        return Err(TaskFault::TooMany(TaskLimit::Outputs));
    }
    if has_more_tuples(&draft.delta, MAX_TUPLES) {
        return Err(TaskFault::TooMany(TaskLimit::Tuples));
    }
    Ok(())
}
