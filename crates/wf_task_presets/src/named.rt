//! A named task, given by its numbers.

ghost use Rattle.wf_task_parse.specs.RawTask.{Gives};
ghost use Rattle.wf_task_presets.specs.Preset.{preset_task};

use crate::preset::{Inputs, renaming, set_agreement};
use std::alloc::Global;
use wf_task::{Task, TaskFault};

/// A named task, given by its numbers. [`Preset::task`] creates it.
#[derive(Clone, Copy, Debug, PartialEq, Eq)]
pub enum Preset {
    /// Set agreement (Chaudhuri 1993): each process decides the input of some participant, and at
    /// most `k` different values are decided.
    SetAgreement {
        /// The number of processes, from 1 to 4.
        processes: u32,
        /// The largest number of different values that may be decided, at least 1.
        k: u32,
        /// The inputs that the processes may have.
        inputs: Inputs,
    },
    /// Renaming (Attiya, Bar-Noy, Dolev, Peleg and Reischuk 1990): the processes decide different
    /// names. The task is symmetric, so a process may depend on ranks, but not on its own name.
    Renaming {
        /// The number of processes, from 1 to 4.
        processes: u32,
        /// The number of names, from 1 to 64.
        names: u32,
    },
}

impl Preset {
    /// Creates the task.
    ///
    /// # Errors
    ///
    /// Returns the same errors as [`set_agreement`] or [`renaming`].
    pub fn task(self, alloc: Global) -> Result<Task, TaskFault>
        ensures { Gives (λ t. t) result (preset_task self) }
    {
        match self {
            Preset::SetAgreement {
                processes,
                k,
                inputs,
            } => set_agreement(alloc, processes, k, inputs),
            Preset::Renaming { processes, names } => renaming(alloc, processes, names),
        }
    }
}
