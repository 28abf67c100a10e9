//! Boxes of candidates and their closing, which removes the candidates that no decision map can
//! use, with a line for each.
//!
//! For readers who know constraint solving: a point is a variable, a candidate is a value of its
//! domain, an execution is a table constraint; closing enforces generalised arc consistency; a mark
//! on an execution is an entry of the propagation queue; the kernel cache holds results of
//! revisions, as residual supports do; the lines are a proof trace.
//!
//! - [`close`]: closes a box; begin reading here.
//! - [`Problem`]: the constraint problem of a task and its protocol complex. Each input simplex has
//!   one table of tuples, which its executions share.
//! - [`Box0`]: the candidates of each point, with a trail for undoing.
//! - [`Snapshot`]: a compact copy of a box that is searched later.
//! - [`BoxCache`]: results of the kernel, which the next box of the same problem can use.
//!
//! Only functions that return an `AllocError` allocate.
#![tactic(auto)]

mod answers;
mod boxed;
mod candidates;
mod closing;
mod kept;
mod packed;
mod revision;
mod snapshot;
mod taking;
mod tracked;
mod workspace;

pub use answers::BoxCache;
pub use boxed::{Box0, Mark};
pub use closing::{Closed, close};
pub use snapshot::Snapshot;
pub use wf_network::Problem;
