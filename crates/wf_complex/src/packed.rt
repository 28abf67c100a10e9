//! Executions with their points.

ghost use Rattle.std.specs.Prelude.{◌≡◌, ◌<◌, ◌≤◌, ◌+◌, ◌*◌, ◌++◌, length, map, IfOk, OnOk};
ghost use Rattle.wf_model.specs.Limits.{most_executions, most_inputs, most_processes};
ghost use Rattle.wf_complex.specs.Layout.{execution_total, laid_on, laid_out, place_total};
ghost use Rattle.wf_complex.specs.Packed.{four_of, packed_on};

use crate::layout::{execution_count, executions_on};
use std::alloc::{AllocError, Global};
use wf_simplex::Simplex;

/// An execution, as the index of its input simplex and the points of its processes.
///
/// `points` has the points by ascending process. If there are fewer than four processes, the rest
/// of it repeats the first point and has no meaning.
#[derive(Clone, Copy, Debug)]
pub struct PackedExecution {
    /// The index of its input simplex.
    pub simplex: u32,
    /// The points of its processes, by ascending process, padded with the first.
    pub points: [u32; 4],
}

/// Returns the executions on `inputs`, simplex by simplex. In each round, the first block has at
/// least `first_block` participants, or all if there are fewer. `numbers` has the points of their
/// processes, one execution after another.
pub(crate) fn pack(
    alloc: Global,
    inputs: &[Simplex],
    first_block: u8,
    rounds: u32,
    numbers: Vec<u32>,
) -> Result<Vec<PackedExecution>, AllocError>
    requires one { 1 ≤ first_block }
    requires most { first_block ≤ most_processes }
    requires few { execution_total first_block rounds inputs.now ≤ most_executions }
    requires inputs { length inputs.now ≤ most_inputs }
    requires places { length numbers.items ≡ place_total first_block rounds inputs.now }
    ensures { IfOk result (λ executions. executions.items
        ≡ map (packed_on numbers.items) (laid_out first_block rounds 0 0 inputs.now)) }
{
    let count = execution_count(inputs, first_block, rounds);
    let mut executions = Vec::with_capacity(alloc, count as usize)?;
    let mut place = 0;
    for (number, simplex) in inputs.iter().enumerate() {
        let size = simplex.colours();
        let count = executions_on(size, first_block, rounds);
        let run = SimplexExecutions {
            simplex: number as u32,
            size,
            first: place,
            count,
        };
        pack_simplex(&mut executions, &numbers, run)?;
        place += count as usize * size as usize;
    }
    Ok(executions)
}

/// The executions on one simplex, which follow one another.
#[derive(Clone, Copy)]
struct SimplexExecutions {
    // the index of the simplex
    simplex: u32,
    // the number of processes in each of the executions
    size: u8,
    // the position at which their points begin in the list of points
    first: usize,
    // the number of executions
    count: u32,
}

/// Appends the executions of `run` to `executions`, with their points from `numbers`.
fn pack_simplex(
    executions: &mut Vec<PackedExecution>,
    numbers: &[u32],
    run: SimplexExecutions,
) -> Result<(), AllocError>
    requires some { 0 < run.size }
    requires few { run.size ≤ 4 }
    requires room { run.first + run.count * run.size ≤ length numbers.now }
    ensures { OnOk result (executions.new.items ≡ executions.old.items
        ++ map (packed_on numbers.now) (laid_on run.simplex run.size run.first run.count)) }
{
    let size = run.size;
    let mut place = run.first;
    for _turn in 0..run.count {
        executions.push(PackedExecution {
            simplex: run.simplex,
            points: padded_points(&numbers[place..place + size as usize]),
        })?;
        place += size as usize;
    }
    Ok(())
}

/// Returns `points`, padded with the first of them to four.
fn padded_points(points: &[u32]) -> [u32; 4]
    requires some { 0 < length points.now }
    requires few { length points.now ≤ 4 }
    ensures points { result ≡ four_of points.now }
{
    let first = points[0];
    match points {
        [_, second] => [first, *second, first, first],
        [_, second, third] => [first, *second, *third, first],
        [_, second, third, fourth] => [first, *second, *third, *fourth],
        _ => [first; 4],
    }
}
