//! Describes the points of a protocol complex in words.

ghost use Rattle.wf_run.specs.Texts.{IsTextOf};
ghost use Rattle.wf_cli_program.specs.Texts.{undecided_points};

use std::alloc::Global;
use wf_complex::Protocol;
use wf_run::{Answered, TaskAnswer, write_points};
use wf_task::Task;

/// The points of a task's protocol complex in words. Each line says who saw what, down to the
/// inputs.
#[derive(Clone, Copy)]
pub struct DescribePoints;

impl TaskAnswer for DescribePoints {
    type Answer = ();

    ghost is_text = { λ words. IsTextOf undecided_points };

    fn of_task(&self, alloc: Global, task: &Task, rounds: u32) -> Answered<()> {
        let protocol = Protocol::build(alloc, task, rounds)?;
        Ok(((), write_points(alloc, task, &protocol, &[])?))
    }
}
