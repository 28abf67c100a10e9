//! The checks of single nodes of an obstruction.
//!
//! - [`balance`]: whether multipliers of equations are a balance of the task at hand; a task that
//!   has one has no decision map. Begin reading with its `is_balance`.
//! - [`cover`]: whether moves between sheets are a cover of the task at hand, and the task on the
//!   sheets.
//!
//! Cases and splits need no check of their own: `wf_tree_refine` computes them from the task.
#![tactic(auto)]

pub mod balance;
pub mod cover;
