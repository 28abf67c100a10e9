//! The check of one cover: sheets over the values that processes decide on an input simplex. By a
//! law of `wf_tree_model`, a task has no decision map if the task with values on the sheets of a
//! valid cover has none.
//!
//! - [`Covering`] and [`Move`]: the cover of a simplex.
//! - [`cover_fault`]: the check. [`CoverFault`]: why a cover is not valid; `specs/Cover/Faults`
//!   defines which reason is the first.
//! - [`covered_rows`]: the tuples of the task with values on sheets.
//! - [`no_fault_exactly_if_covering`]: a law; there is nothing to call.

mod cover;
mod flat;
mod laws;
mod rows;
mod turns;

pub use cover::{CoverFault, Covering, Move};
pub use flat::cover_fault;
pub use laws::no_fault_exactly_if_covering;
pub use rows::covered_rows;
