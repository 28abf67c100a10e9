//! The question of a task and its rounds, whether there is a decision map, as a formula in
//! conjunctive normal form.
//!
//! - [`CnfFormula`]: the formula as text in DIMACS, for SAT solvers. It has a model exactly if the
//!   task has a decision map (a law of `wf_sat_formula`). The formula of a [`Branch`] asks for a
//!   map in it. Begin reading here.
//! - [`pose`] and [`pose_branch`]: give the clauses, in the order in which they are written, to a
//!   proof checker, which is a [`ClauseSink`].
//! - [`Variables`]: numbers the variables of the formula, one for each point and value.
//! - [`Patterns`]: the minimal combinations of values that a rule forbids; [`all_patterns`] finds
//!   those of all rules of a task.
//! - [`missing_in`]: the values that a branch excludes at a point.
//! - [`read_map`]: turns a solver's text, which has a model, into the values of a map.
#![tactic(auto)]

mod checkers;
mod clauses;
mod exclusions;
mod followers;
mod groups;
mod head;
mod models;
mod patterns;
mod posing;
mod question;
mod solver;
mod source;
mod taker;
mod text;
mod tuples;
mod variables;

pub use checkers::ClauseSink;
pub use exclusions::{Branch, missing_in};
pub use patterns::{Pattern, Patterns};
pub use posing::{pose, pose_branch};
pub use question::{CnfFormula, all_patterns};
pub use solver::{ModelFault, read_map};
pub use variables::Variables;
