//! The subject of an argument.

use crate::words::executions::Executions;
use wf_complex::Protocol;
use wf_task::Task;

/// The subject of an argument: a task, its protocol complex, and the table of its executions.
#[derive(Drop)]
pub struct Subject<'a> {
    /// The task.
    pub task: &'a Task,
    /// The protocol complex of the task.
    pub protocol: &'a Protocol,
    /// The table of the executions of the protocol complex.
    pub executions: &'a Executions,
}
