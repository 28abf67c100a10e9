//! The canonical search of one box, and the split of a problem's root into branches.
//!
//! For readers who know constraint solving: a point is a variable, a candidate is a value of its
//! domain; closing a box enforces generalised arc consistency; a turn is a search node; the kernel
//! cache holds results of revisions, as residual supports do; the lines are a proof trace.
//!
//! - [`search`]: the least decision map in a box and the lines that lead to it, or the lines of a
//!   refutation; begin reading here. A [`Stop`] can end it. [`search_with`] does the same for
//!   several boxes of one problem in turn. [`search_map`] does the same without lines, in memory
//!   that doesn't grow with the length of the search.
//! - [`split`]: the branches of a problem, in order, as a [`Cover`]. The cover makes one refutation
//!   of the root from those of its branches, or the lines that lead to its least map from those of
//!   the branches up to the one with that map. [`split_with`] also leaves its kernel cache to later
//!   searches.
//!
//! A turn closes a box, and branches at the first point that has two candidates or more. The search
//! works on a single box, which it undoes to its earlier states. It allocates only if it goes
//! deeper than before, for lines, and for the kernel cache.
#![tactic(auto)]

mod cover;
mod maps;
mod outline;
mod pending;
mod searching;
mod stop;
mod turning;

pub use cover::{Cover, split, split_with};
pub use maps::{FoundMap, search_map};
pub use searching::{Found, search, search_with};
pub use stop::{Never, Stop};
