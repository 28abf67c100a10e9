//! The engines that check what others say about a task: reports, obstructions, and the models and
//! proofs of SAT solvers. They do not depend on the search.
//!
//! - [`run_verify`]: checks a report about a task, both given as texts. Begin reading here.
//! - [`VerifyCertificate`]: checks a certificate, which is a report or an obstruction, for
//!   [`run_over_pair`](wf_run::run_over_pair).
//! - [`DescribeMap`]: lists what a report's map decides at each point, for [`run_over_report`].
//! - [`ReadModel`]: reports the map that a SAT solver's model gives, for
//!   [`run_over_both`](wf_run::run_over_both).
//! - [`CheckProof`]: checks a SAT solver's proof that there is no decision map, also for
//!   `run_over_both`, in a [`ProofFormat`]: [`DratFormat`] (DRAT) or [`LratFormat`] (LRAT).
//! - [`run_over_report`]: does what is common to all runs over a task and a report, for any
//!   [`ReportAnswer`].
//! - [`read_report_from`], [`report_of`], [`obstruction_of`], [`check_report`],
//!   [`judge_obstruction`], [`accepted_words`]: steps for the runs of other crates.
//!
//! Each engine has one relation that states what it read, answered and wrote. The laws derive from
//! that relation that what is accepted is true (`specs/Headline.antt`), such as
//! [`acceptances_are_true`] and [`refutations_are_true`].
#![tactic(auto)]

mod as_read;
mod certificate;
mod decisions;
mod format;
mod laws;
mod listener;
mod model;
mod obstruction;
mod outcome;
mod pieces;
mod proof;
mod readers;
mod verify;

pub use certificate::VerifyCertificate;
pub use decisions::DescribeMap;
pub use format::{DratFormat, LratFormat, ProofFormat};
pub use laws::{
    acceptances_are_true, accepted_reports_are_verified, deciding_is_counted, decisions_are_true,
    hinted_proving_is_counted, hinted_refutations_are_true, modelling_is_counted,
    models_are_accepted, models_are_true, obstructions_are_true, proving_is_counted,
    refutations_are_true, verifying_certificates_is_counted, verifying_is_counted,
};
pub use listener::{NoProofProgress, ProofProgress};
pub use model::ReadModel;
pub use obstruction::{judge_obstruction, obstruction_of};
pub use outcome::{Accepted, Verified};
pub use pieces::MAX_PROOF_BYTES;
pub use proof::CheckProof;
pub use verify::{
    ReportAnswer, accepted_words, check_report, read_report_from, report_of, run_over_report,
    run_verify,
};
