//! Builds the problems of tasks, for tests.

use std::alloc::Global;
use std::test::Fail;
use wf_box::Problem;
use wf_complex::Protocol;
use wf_task::Task;

/// Returns the problem of `task` after `rounds` rounds.
fn problem_on(alloc: Global, task: &Task, rounds: u32) -> Result<Problem, Fail> {
    let protocol = Protocol::build(alloc, task, rounds)?;
    Ok(Problem::join(alloc, task, &protocol)?)
}

/// Returns the problem of the task of `text` after `rounds` rounds.
pub(crate) fn problem_of(alloc: Global, text: &str, rounds: u32) -> Result<Problem, Fail> {
    let task = Task::read_text(alloc, text.as_bytes())?;
    problem_on(alloc, &task, rounds)
}
