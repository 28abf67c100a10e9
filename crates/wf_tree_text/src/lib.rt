//! The text format of obstructions: reading and writing.
//!
//! - [`Obstruction`]: what a text lists, with its [`TreeNode`]s in preorder.
//! - [`write_obstruction`], [`read_obstruction`]: from an obstruction to its text, and back.
//! - [`is_obstruction_text`]: whether a text begins with [`FIRST_LINE`].
//! - [`line_of`]: the line number of a node, or of one of its moves or multipliers.
//!
//! By the laws, each obstruction in the grammar has exactly one text, and is read from it
//! unchanged. Reading checks the form only; `wf_tree_check` decides whether the tree is an
//! obstruction of a task.
#![tactic(auto)]

mod front;
mod laws;
mod line;
mod nodes;
mod numbers;
mod obstruction;
mod place;
mod reading;
mod writing;

pub use front::{FIRST_LINE, is_obstruction_text};
pub use laws::{obstructions_are_read_as_written, obstructions_are_written_as_read};
pub use obstruction::{Obstruction, TreeNode};
pub use place::line_of;
pub use reading::read_obstruction;
pub use writing::write_obstruction;
