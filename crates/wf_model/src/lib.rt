//! The mathematical model: tasks, executions, points, decision maps and refutations, and the laws
//! that relate them.
//!
//! This crate has no program of its own. Its definitions are in `specs/`, on two levels.
//!
//! - The terms of the field (Herlihy and Shavit 1999, Borowsky and Gafni 1997): `Simplex`, `Task`,
//!   `Word`, `View`, `Execution`, `Points`, and `DecisionMap`, in which a decision map is a
//!   function on the views. Read these first.
//! - The same terms by numbers. In `Problem` points are numbered, and each execution is a
//!   constraint. `Box`, `Refutation`, `Closing` and `Split` define what a refutation is, in which
//!   order the search goes and how it is cut into branches. `Check` defines the result of a
//!   checker. `problem_of` leads from the first level to the second.
//!
//! `Report`, `ViewsText` and `PointsText` define the texts, and `Presets` the named tasks. The
//! files of examples are proved by computation.
//!
//! The public functions below are laws: their bodies are empty, and their clauses are what is
//! proved. Each clause is one name, which `specs/Laws` defines in the file of the same subject. The
//! main law is [`the_canonical_answer`]; users of a checker should read
//! [`accepted_reports_are_true`]. Other crates cite a law's lemma, or call the law, which adds its
//! clauses to the facts known at the call.
#![tactic(auto)]

mod closing;
mod covers;
mod least_trees;
mod maps;
mod outlines;
mod refutations;
mod reports;
mod search;

pub use closing::{
    closed_boxes_of_single_candidates_are_solutions, closed_boxes_support_their_candidates,
    closing_a_closed_box_changes_nothing, closing_keeps_solutions, closing_leaves_a_closed_box,
};
pub use covers::{
    boxes_of_a_cover_are_in_order, split_covers_in_order, the_first_map_of_a_cover_is_the_least,
};
pub use least_trees::{
    a_least_tree_has_the_least_solution, a_least_tree_leads_to_the_least_map,
    accepted_least_lines_lead_to_the_map, lines_of_a_least_tree_are_accepted,
    the_canonical_lines_lead_to_the_map,
};
pub use maps::{
    a_least_solution_is_a_least_map, all_solutions_are_found, faultless_maps_are_solutions,
    first_appearances_are_the_points, maps_are_solutions, maps_lie_in_the_root,
    problems_of_tasks_are_well_formed, solutions_lie_in_the_root, tasks_have_listed_values,
};
pub use outlines::{
    a_filled_outline_is_canonical, a_filled_outline_leads_to_the_map, a_filled_outline_refutes,
    an_outline_leaves_out_the_branches,
};
pub use refutations::{
    a_refutation_leaves_no_map, accepted_lines_refute, no_tree_refutes_a_solution,
    refuting_lines_are_accepted,
};
pub use reports::{accepted_reports_are_true, true_reports_are_accepted};
pub use search::{
    a_box_has_one_least_solution, the_canonical_answer, the_canonical_map_is_the_least_solution,
    the_canonical_search_by_steps, the_canonical_search_refutes,
};
