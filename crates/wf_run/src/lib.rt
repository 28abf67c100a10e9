//! What the runs of all commands share, from the bytes of a reader to the bytes of a writer.
//!
//! - [`RunFault`] is the reason for refusing a run, with a number and a name. It contains those of
//!   its steps, such as [`PartFault`] and [`ObstructionFault`].
//! - [`read_task`] and [`write_answer`] are the first and the last step of a run.
//! - [`run_over_task`] and [`run_in_pieces`] read a task and write a text about it.
//! - [`run_over_pair`] and [`run_over_both`] also read a text about the task, such as a report.
//! - [`write_points`] lists the points of a protocol complex in words.
//!
//! Each run requires that source and sink can count its calls, and ensures one relation of what was
//! read, answered and written (`specs/Texts.antt`, step by step in `specs/Run.antt` and
//! `specs/Sources.antt`).
#![tactic(auto)]

mod fault;
mod frames;
mod obstruction;
mod pairs;
mod points;
mod steps;

pub use fault::{PartFault, RunFault};
pub use frames::{LongText, TaskAnswer, run_in_pieces, run_over_task};
pub use obstruction::{CheckerLimit, ObstructionFault};
pub use pairs::{ComplexAnswer, PairAnswer, TaskWithComplex, run_over_both, run_over_pair};
pub use points::write_points;
pub use steps::{Answered, Written, read_task, write_answer};
