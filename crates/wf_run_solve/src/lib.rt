//! The engines that search: they read the text of a task and write the report of its least decision
//! map, or that it has none.
//!
//! - [`run_search`]: searches with one worker or up to [`MAX_WORKERS`], as a [`Search`] says. Begin
//!   reading here.
//! - [`run_counted_search`]: the same, and returns an account of the branches.
//! - [`run_solve`]: a search with an account and without a gate.
//! - [`pose_problem`], [`kept_lines`], [`body_of_map`], [`report_text`]: steps for the runs of
//!   other crates.
//!
//! Each engine has one relation that states what it read, answered and wrote (`specs/Texts.antt`).
//! The law [`answers_are_true`] derives that the answer is true (`specs/Headline.antt`).
#![tactic(auto)]

mod find;
mod laws;
mod outcome;
mod search;
mod solve;

pub use find::run_search;
pub use laws::{answers_are_true, finding_is_counted, solving_is_counted, solving_is_finding};
pub use outcome::Outcome;
pub use search::{OptionalGate, ReportSpec, Search};
pub use solve::{
    body_of_map, kept_lines, pose_problem, report_text, run_counted_search, run_solve,
};
pub use wf_base::lines::Form;
pub use wf_pool::MAX_WORKERS;
