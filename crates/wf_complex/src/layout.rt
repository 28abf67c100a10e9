//! The layout of a task's executions in the list of their last views.

ghost use Rattle.std.specs.Prelude.{◌≡◌, ◌≤◌, ◌+◌, ◌*◌, ◌++◌, min, length, All, IfOk, OnOk};
ghost use Rattle.wf_model.specs.Limits.{most_executions, most_inputs, most_number, most_processes};
ghost use Rattle.wf_complex.specs.Layout.{turns, execution_total, laid_on, laid_out, place_total};

use std::alloc::{AllocError, Global};
use wf_simplex::{Simplex, allowed_count};

/// The largest number of executions in a protocol complex.
pub const MAX_EXECUTIONS: u32 = 500_000;

/// An execution, in eight bytes: the position of its first process in the list of last views, the
/// index of its input simplex, and the number of its processes.
#[derive(Clone, Copy, Debug)]
pub(crate) struct ExecutionSlot {
    pub place: u32,
    pub simplex: u16,
    pub size: u8,
}

/// Returns the number of executions of `rounds` rounds on a simplex of `size` processes, but at
/// most one more than [`MAX_EXECUTIONS`]. In each round, the first block has at least
/// `first_block` participants, or all if there are fewer.
pub(crate) fn executions_on(size: u8, first_block: u8, rounds: u32) -> u32
    requires some { 1 ≤ size }
    requires few { size ≤ most_processes }
    requires one { 1 ≤ first_block }
    requires most { first_block ≤ most_processes }
    ensures count { result ≡ min (turns first_block size rounds) (most_executions + 1) }
{
    let words = allowed_count(size, first_block);
    let mut count = 1;
    for _round in 0..rounds {
        count = (count * words).min(MAX_EXECUTIONS + 1);
    }
    count
}

/// Returns the number of executions on a simplex of `size` processes: the lists of `rounds` words
/// whose first blocks have at least `first_block` participants, or all if there are fewer.
///
/// The number must be at most 500,000.
pub fn execution_count_of_size(size: u8, first_block: u8, rounds: u32) -> u32
    requires some { 1 ≤ size }
    requires few { size ≤ most_processes }
    requires one { 1 ≤ first_block }
    requires most { first_block ≤ most_processes }
    requires fits { turns first_block size rounds ≤ most_executions }
    ensures { result ≡ turns first_block size rounds }
{
    executions_on(size, first_block, rounds)
}

/// Returns the number of executions of `rounds` rounds on all simplices of `inputs`, but at most
/// one more than [`MAX_EXECUTIONS`]. In each round, the first block has at least `first_block`
/// participants, or all if there are fewer.
pub(crate) fn execution_count(inputs: &[Simplex], first_block: u8, rounds: u32) -> u32
    requires one { 1 ≤ first_block }
    requires most { first_block ≤ most_processes }
    ensures count { result
        ≡ min (execution_total first_block rounds inputs.now) (most_executions + 1) }
{
    let mut total = 0;
    for simplex in inputs {
        total = (total + executions_on(simplex.colours(), first_block, rounds)).min(
            MAX_EXECUTIONS + 1,
        );
    }
    total
}

/// Returns the length of the list of last views of all executions on `inputs`: each execution
/// counts as often as it has processes.
pub(crate) fn place_count(inputs: &[Simplex], first_block: u8, rounds: u32) -> usize
    requires one { 1 ≤ first_block }
    requires most { first_block ≤ most_processes }
    requires few { execution_total first_block rounds inputs.now ≤ most_executions }
    requires sizes { All (λ s. length s ≤ most_processes) inputs.now }
    ensures { result ≡ place_total first_block rounds inputs.now }
{
    let mut places = 0;
    for simplex in inputs {
        let size = simplex.colours();
        places += executions_on(size, first_block, rounds) as usize * size as usize;
    }
    places
}

/// Returns the executions on `inputs`: simplex by simplex, and on each simplex one after another in
/// the list of last views. In each round, the first block has at least `first_block` participants,
/// or all if there are fewer.
pub(crate) fn lay_out(
    alloc: Global,
    inputs: &[Simplex],
    first_block: u8,
    rounds: u32,
) -> Result<Vec<ExecutionSlot>, AllocError>
    requires one { 1 ≤ first_block }
    requires most { first_block ≤ most_processes }
    requires few { execution_total first_block rounds inputs.now ≤ most_executions }
    requires inputs { length inputs.now ≤ most_inputs }
    requires sizes { All (λ s. length s ≤ most_processes) inputs.now }
    ensures { IfOk result (λ es. es.items ≡ laid_out first_block rounds 0 0 inputs.now) }
{
    let count = execution_count(inputs, first_block, rounds);
    let mut executions = Vec::with_capacity(alloc, count as usize)?;
    let mut place = 0;
    for (number, simplex) in inputs.iter().enumerate() {
        let size = simplex.colours();
        let count = executions_on(size, first_block, rounds);
        lay_on(&mut executions, number as u16, size, place, count)?;
        place += count * u32::from(size);
    }
    Ok(executions)
}

/// Appends to `executions` the `count` executions on one simplex. `simplex` is its index, `size`
/// its number of processes, and `first` the position at which the executions' last views begin.
fn lay_on(
    executions: &mut Vec<ExecutionSlot>,
    simplex: u16,
    size: u8,
    first: u32,
    count: u32,
) -> Result<(), AllocError>
    requires size { size ≤ most_processes }
    requires room { first + count * size ≤ most_number }
    ensures { OnOk result (executions.new.items
        ≡ executions.old.items ++ laid_on simplex size first count) }
{
    let mut place = first;
    for _turn in 0..count {
        executions.push(ExecutionSlot {
            place,
            simplex,
            size,
        })?;
        place += u32::from(size);
    }
    Ok(())
}
