//! Requests for another text that follows from a certificate about a task: shorter, in words, or
//! lifted.
//!
//! Each checks the certificate exactly as `verify` does, with the same refusals in the same order,
//! before it makes anything of it. They need nothing of the search.
//!
//! - [`TrimReport`] is the report with only the needed lines, for
//!   [`run_over_report`](wf_run_verify::run_over_report).
//! - [`ExplainCertificate`] is the certificate in words, for
//!   [`run_over_pair`](wf_run::run_over_pair).
//! - [`LiftMap`] is the report of the map for more rounds, also for `run_over_pair`.
#![tactic(auto)]

mod explain;
mod explain_laws;
mod lift;
mod lift_laws;
mod trim;
mod trim_laws;

pub use explain::ExplainCertificate;
pub use explain_laws::{explaining_is_counted, explanations_are_true};
pub use lift::LiftMap;
pub use lift_laws::{lifting_is_counted, lifts_are_accepted, lifts_are_true};
pub use trim::TrimReport;
pub use trim_laws::{trimmed_reports_are_accepted, trimming_is_counted};
