//! The words of an argument: numbers, values, points, tuples and executions.
//!
//! - [`Executions`] writes executions in words, and [`write_executions`] lists all of a task, with
//!   their points.
//! - [`put_values`], [`put_remaining`] and [`put_needed`] write what a step says of values and
//!   tuples.
//! - [`put_participants`] writes who takes part in executions, with a [`SizeCount`] for each number
//!   of participants.
//! - [`Subject`] is what an argument is about.
//!
//! The definitions are in `specs/Words`: `Text` has the words, `Summary` those of a summary,
//! `Listing` the list of executions, and `Table` the table behind [`Executions`].

mod executions;
mod listed;
mod subject;
mod summary;
mod values;
mod words;

pub use executions::{Executions, MAX_PROCESSES};
pub use listed::write_executions;
pub use subject::Subject;
pub use summary::{SizeCount, put_participants};
pub use values::{list_values, put_remaining, put_values};
pub use words::{put_count, put_margin, put_needed};
