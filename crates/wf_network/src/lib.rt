//! The constraint problem of a task and its protocol complex, the queue of its marked executions,
//! and the values that rules support, with a cache for them.
//!
//! For readers who know constraint solving: a point is a variable, a candidate is a value of its
//! domain, an execution is a table constraint (executions of one input simplex share their table),
//! a mark is an entry of the propagation queue, the kernel revises a table, and [`SupportCache`]
//! caches its results, as residual supports do.
//!
//! - [`Problem`]: the constraint problem; begin reading here.
//! - [`Network`]: its rules, its executions ([`PackedExecution`]), and [`Users`], the executions of
//!   each point.
//! - [`Marks`]: a set of marked executions in which the next one is found fast.
//! - [`supported_nibbles`], [`supported_word`], [`supported_narrow`] and [`supported_sets`] return
//!   the values that a rule supports at each place for candidates below 4, below 16, below 64, and
//!   of any size.
//! - [`SupportCache`]: the kernel cache, in which a rule and its candidates determine a slot.
//! - [`candidates_at`], [`pack_nibbles`], [`pack_word`] and [`narrowed`] return the candidates of
//!   an execution's points, and pack them if each is below 4, 16 or 64.
//!
//! Only [`SupportCache::grow`] and the functions that return an `AllocError` allocate.
#![tactic(auto)]

mod leads;
mod marks;
mod memo;
mod problem;
mod revising;
mod users;

pub use marks::Marks;
pub use memo::{CacheEntry, NibbleEntry, Set64Entry, SupportCache, WordEntry};
pub use problem::{Network, Problem, Rule};
pub use revising::{
    candidates_at, narrowed, pack_nibbles, pack_word, supported_narrow, supported_nibbles,
    supported_sets, supported_word, unpacked, unpacked_nibbles,
};
pub use users::{MarkMask, Users};
pub use wf_complex::PackedExecution;
