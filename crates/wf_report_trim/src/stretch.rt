//! The correspondence between the executions of two protocol complexes of a task.

ghost use Rattle.std.specs.Prelude.{◌≡◌, ◌≤◌, ◌+◌, ◌-◌, ◌/◌, IfOk};
ghost use Rattle.wf_model.specs.Limits.{most_executions, most_processes};
ghost use Rattle.wf_complex.specs.Layout.{execution_total};
ghost use Rattle.wf_report_trim.specs.Stretches.{earlier, stretches};

use std::alloc::{AllocError, Global};
use wf_complex::execution_count_of_size;
use wf_simplex::Simplex;

/// The executions of one input simplex, in a protocol complex and in one after more rounds.
///
/// They have consecutive indices, from `before` in the smaller complex and from `after` in the
/// larger one. Each execution of the smaller complex is continued by `each` consecutive executions
/// of the larger one.
#[derive(Clone, Copy, Debug)]
pub(crate) struct Stretch {
    before: u32,
    after: u32,
    each: u32,
}

impl Stretch {
    /// Returns the execution of the smaller complex that `execution` of the larger one continues.
    /// It must be on this simplex.
    pub(crate) fn earlier(self, execution: u32) -> u32
        requires begun { self.after ≤ execution }
        requires some { 1 ≤ self.each }
        requires few { earlier self execution ≤ most_executions }
        ensures { result ≡ earlier self execution }
    {
        self.before + (execution - self.after) / self.each
    }
}

/// Returns the stretch of each simplex of `inputs`, for the complexes after `rounds` and after
/// `rounds + more` rounds.
///
/// `first_block` is the least size of a first block.
pub(crate) fn stretches_of(
    alloc: Global,
    inputs: &[Simplex],
    first_block: u8,
    rounds: u32,
    more: u32,
) -> Result<Vec<Stretch>, AllocError>
    requires one { 1 ≤ first_block }
    requires most { first_block ≤ most_processes }
    requires before { execution_total first_block rounds inputs.now ≤ most_executions }
    requires after { execution_total first_block (rounds + more) inputs.now ≤ most_executions }
    ensures { IfOk result
        (λ list. list.items ≡ stretches first_block rounds more 0 0 inputs.now) }
{
    let mut list = Vec::new(alloc);
    let mut before = 0;
    let mut after = 0;
    for simplex in inputs {
        let size = simplex.colours();
        let each = execution_count_of_size(size, first_block, more);
        list.push(Stretch {
            before,
            after,
            each,
        })?;
        let count = execution_count_of_size(size, first_block, rounds);
        before += count;
        after += count * each;
    }
    Ok(list)
}
