//! Steps that refine a task: they keep the inputs of a task that was read and replace the tuples
//! that it allows. Such a *task at hand* is given by the task and a list of rows for each input
//! simplex, in ascending order and without duplicates.
//!
//! - [`first_rows`]: the rows of the task itself, to begin with.
//! - [`in_case`], [`split_rows`]: the rows after a case and after a split. [`RefineFault`],
//!   [`MAX_TUPLES`] and [`MAX_NAME`]: when a split is refused, and its limits.
//! - [`component_indices`], [`count_components`]: connected components of rows, where [`Adjacency`]
//!   says which rows are adjacent.
//! - [`star_names`], [`named_rows`], [`new_name`]: the names that replace values in a split.
//! - Helpers for splits and covers: choices in place of values ([`choice_rows`], [`SETS`],
//!   [`identity_choices`], [`set_place`]), faces ([`is_part`], [`mask_of`], [`restricted_row`],
//!   [`vertex_at`]) and rows ([`sorted_unique`], [`has_row`], [`push_limited`]).
#![tactic(auto)]

mod cases;
mod choices;
mod components;
mod faces;
mod fault;
mod key;
mod names;
mod parts;
mod roots;
mod rows;
mod splits;
mod values;
mod ways;

pub use cases::in_case;
pub use choices::{SETS, choice_rows, identity_choices, set_place};
pub use components::count_components;
pub use faces::{is_part, mask_of, restricted_row, vertex_at};
pub use fault::{MAX_NAME, RefineFault};
pub use names::{named_rows, star_names};
pub use parts::{MAX_TUPLES, component_indices};
pub use rows::{first_rows, has_row, push_limited, sorted_unique};
pub use splits::split_rows;
pub use values::new_name;
pub use ways::Adjacency;
