//! The check of obstructions: trees of cases, splits and covers whose leaves are balances, given by
//! their nodes in preorder.
//!
//! - [`is_obstruction`]: the check. It accepts nothing but obstructions.
//! - [`TreeFault`]: why nodes are refused; `specs/Judge` defines which fault is the first.
//!   [`Limit`], [`MAX_NODES`], [`MAX_LEVELS`]: the limits of the check.
//! - [`what_is_accepted_is_an_obstruction`], [`what_is_refused_is_none`]: laws; there is nothing to
//!   call.
#![tactic(auto)]

mod enter;
mod fault;
mod judge;
mod laws;

pub use fault::{Limit, TreeFault};
pub use judge::{MAX_LEVELS, MAX_NODES, is_obstruction};
pub use laws::{what_is_accepted_is_an_obstruction, what_is_refused_is_none};
