//! The place of a process in an execution.

use wf_task::Row;

/// A process that takes part in an execution.
#[derive(Clone, Copy, Debug)]
pub(crate) struct Participant<'a> {
    /// The index of the execution.
    pub(crate) execution: u32,
    /// The place of the process among the participants.
    pub(crate) place: u8,
    /// The points of the execution.
    pub(crate) points: &'a [u32],
    /// The tuples that the execution allows.
    pub(crate) tuples: &'a [Row],
}
