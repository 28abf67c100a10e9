//! Obstructions of tasks, and the laws that make them sound. An obstruction is a tree of cases,
//! splits and covers whose leaves are balances; a task that has one has no decision map after any
//! number of rounds.
//!
//! Each function of this crate is a law: its body is empty, and its clauses state what is proved.
//! Begin reading with `specs/Balance`, then `specs/Cases`, `specs/Splits`, `specs/Covers`,
//! `specs/Trees` and `specs/Laws`.
#![tactic(auto)]

pub mod counting;
mod known_results;
mod laws;

pub use known_results::{
    consensus_has_no_map, loops_on_a_punctured_torus_have_no_map, majority_consensus_has_no_map,
    one_of_three_has_no_map, renaming_has_no_map, set_agreement_has_no_map,
    symmetry_breaking_has_no_map, the_hourglass_has_no_map,
};
pub use laws::{
    an_obstruction_leaves_no_map, balances_leave_no_map, cases_leave_no_map, covers_leave_no_map,
    splits_leave_no_map, stars_are_connected,
};
