//! The content of a decision task's text, before anything but its shape is checked.
//!
//! - [`draft_in`]: reads a draft from a text, or reports the text's first fault: it is not JSON, or
//!   a key is missing or has a value of the wrong shape. Begin here.
//! - [`RawTask`]: what a text lists, with its [`ListedSimplex`]es, and the [`DeltaEntry`]s of
//!   `delta`, which consist of [`ValueList`]s.
//! - [`TaskFault`]: why a text is not a task, with the [`Key`] or the [`TaskLimit`] that it is
//!   about.
//! - [`FIRST_VERSION`] and [`SECOND_VERSION`]: the versions that texts may have.
#![tactic(auto)]

mod cursor;
pub mod draft;
pub mod fault;
mod growing;
mod members;
mod plain;
pub mod shape;
pub mod text;

pub use draft::{FIRST_VERSION, RawTask, SECOND_VERSION};
pub use fault::{Key, TaskFault, TaskLimit};
pub use shape::{DeltaEntry, ListedSimplex, ValueList};
pub use text::draft_in;
