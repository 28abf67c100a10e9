//! The finder of obstructions: it looks for balances, and for trees of splits, cases and covers
//! whose leaves are balances.
//!
//! Nothing is proved about what it finds: its callers check that with `wf_tree_check`. If it finds
//! nothing, the task may have an obstruction nevertheless. Searches have limits; a search that
//! gives up says at which one.
//!
//! - [`find_tree`]: looks for a tree, with the options of a [`TreeSearch`]. [`FoundTree`],
//!   [`StoppedAt`]: its results.
//! - [`find_balance`]: looks for a balance modulo a number, in the equations of a
//!   [`TuplesByClass`].
//! - [`has_integer_solution`]: whether an integer solution of the equations excludes balances of
//!   every modulus.
//! - [`FinderProgress`], [`NoFinderProgress`]: progress reports.
//! - [`FinderFault`] and the constants: the limits.
#![tactic(auto)]

mod cases;
mod classes;
mod covers;
mod digits;
mod edges;
mod equations;
mod fault;
mod finder;
mod integers;
mod leaves;
mod listener;
mod placed;
mod problem;
mod search;
mod splits;
mod sums;
mod system;
mod trees;

pub use covers::MAX_COVERS;
pub use fault::{FinderFault, MAX_EQUATIONS};
pub use finder::find_balance;
pub use integers::has_integer_solution;
pub use listener::{FinderProgress, NoFinderProgress};
pub use problem::TuplesByClass;
pub use search::{MAX_COVER_TUPLES, MAX_LEVELS, MAX_NODES, StoppedAt, TreeSearch};
pub use trees::{FoundTree, find_tree};
pub use wf_tree_elimination::{MAX_ENTRIES, MAX_STEPS, MAX_UNKNOWNS};
