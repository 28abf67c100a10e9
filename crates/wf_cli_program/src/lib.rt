//! The whole program as a function over any reader and any two writers, so that tests can run each
//! of its command lines.
//!
//! [`run_program`] parses the words, does what they ask for, and reports how that ended. Its only
//! condition is that the source, both sinks and the opener can count the calls of a run. Its
//! relation, in `specs/Program.antt`, says that no file is opened but the one that the words name,
//! and that the error stream gets no more than a refusal or a note.
//!
//! The runs that neither search nor check are here too:
//!
//! - [`run_views`] lists the points of a task's protocol complex, and [`DescribePoints`] describes
//!   them in words.
//! - [`FormulaText`] writes the question whether a task has a decision map as a formula.
//! - [`run_preset`] writes the canonical text of a [`Preset`].
#![tactic(auto)]

mod cnf;
mod done;
mod executions;
mod filed;
mod laws;
mod lone;
mod points;
mod preset;
mod program;
mod texts;
mod views;

pub use cnf::FormulaText;
pub use laws::{listing_is_counted, presets_are_counted, serving_is_counted};
pub use points::DescribePoints;
pub use preset::run_preset;
pub use program::run_program;
pub use views::run_views;
pub use wf_task_presets::{Inputs, Preset};
