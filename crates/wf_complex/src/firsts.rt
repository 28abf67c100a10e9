//! The first appearances of points.

ghost use Rattle.std.specs.Prelude.{ℕ, ◌≡◌, ◌<◌, ◌≤◌, length, take, All, AllPairs, IfOk};
ghost use Rattle.wf_model.specs.Limits.{most_executions};
ghost use Rattle.wf_complex.specs.Places.{BelongsTo, EndsBy, IsOn, LieFrom, firsts_at, firsts_in};

use crate::layout::ExecutionSlot;
use std::alloc::{AllocError, Global};
use wf_simplex::Simplex;

/// The first appearance of a point: an execution, and the process in it whose last view is the
/// point.
#[derive(Clone, Copy, Debug)]
pub(crate) struct First {
    pub execution: u32,
    pub process: u8,
}

/// Returns the execution and the process at each of `places`. These are positions in the list of
/// the last views of all `executions`, in ascending order.
pub(crate) fn firsts_of(
    alloc: Global,
    inputs: &[Simplex],
    executions: &[ExecutionSlot],
    places: &[u32],
) -> Result<Vec<First>, AllocError>
    requires lying { (end : ℕ) × LieFrom 0 end executions.now × All (λ j. j < end) places.now }
    requires on { All (IsOn inputs.now) executions.now }
    requires few { length executions.now ≤ most_executions }
    requires ascending { AllPairs (λ i j. i < j) places.now }
    ensures { IfOk result
        (λ firsts. firsts_in firsts.items ≡ firsts_at inputs.now executions.now places.now) }
{
    let mut firsts = Vec::with_capacity(alloc, places.len())?;
    let mut execution = 0;
    for place in places {
        execution = execution_from(executions, execution, *place);
        let at = executions[execution as usize];
        let simplex = &inputs[at.simplex as usize];
        firsts.push_reserved(First {
            execution,
            process: simplex.colour((place - at.place) as u8),
        });
    }
    Ok(firsts)
}

/// Returns the index of the execution to which the position `place` in the list of last views
/// belongs. The search begins at the execution with index `first`; all earlier ones must lie before
/// `place`.
fn execution_from(executions: &[ExecutionSlot], first: u32, place: u32) -> u32
    requires lying { (end : ℕ) × (place < end) × LieFrom 0 end executions.now }
    requires few { length executions.now ≤ most_executions }
    requires later { All (EndsBy place) (take first executions.now) }
    ensures { BelongsTo place executions.now result }
{
    for number in first..executions.len() as u32 {
        let execution = executions[number as usize];
        if place - execution.place < u32::from(execution.size) {
            return number;
        }
    }
    unreachable!()
}
