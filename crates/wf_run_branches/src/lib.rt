//! Runs over single branches of a task's question. Each branch can be decided by a run of its own,
//! and the answers of all branches together decide the question. The branches are the boxes into
//! which [`wf_search::split`] cuts the root.
//!
//! - [`BranchList`] lists the branches, as an answer for [`run_over_task`](wf_run::run_over_task).
//! - [`BranchFormula`] writes the question of one branch as a formula, for
//!   [`run_in_pieces`](wf_run::run_in_pieces).
//! - [`run_solve_branch`] searches one branch and writes a part: its least decision map or a
//!   refutation.
//! - [`VerifyPart`] checks such a part, [`RefuteBranch`] a SAT solver's proof about one branch in
//!   any [`ProofFormat`](wf_run_verify::ProofFormat), and [`JoinParts`] joins the parts of
//!   all branches, each for [`run_over_both`](wf_run::run_over_both).
//!
//! The laws say what the runs over all branches give: there is no decision map if no branch has one
//! ([`branches_cover_all_maps`]), and parts in the full or the least form are joined to exactly the
//! text that a search of the whole question writes ([`parts_of_searches_join_to_the_whole`]).
#![tactic(auto)]

mod asking;
mod branch;
mod joining;
mod laws;
mod listing;
mod parts;
mod refuting;
mod solving;
mod verifying;

pub use asking::BranchFormula;
pub use joining::JoinParts;
pub use laws::{
    branch_answers_are_true, branch_asking_is_counted, branch_proving_is_counted,
    branch_refutations_are_true, branch_solving_is_counted, branches_cover_all_maps,
    hinted_branch_proving_is_counted, hinted_branch_refutations_are_true, joining_is_counted,
    joins_are_accepted, joins_are_true, joins_of_searches_are_whole, part_acceptances_are_true,
    part_checking_is_counted, parts_of_searches_are_joined, parts_of_searches_join_to_the_whole,
    solved_reports_are_accepted,
};
pub use listing::BranchList;
pub use refuting::RefuteBranch;
pub use solving::{BranchSearch, run_solve_branch};
pub use verifying::VerifyPart;
