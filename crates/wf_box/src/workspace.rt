//! The state that closing works on.

use crate::tracked::Tracked;
use wf_network::{Marks, SupportCache};

/// The candidates of each point with their trail, marks on the executions in which a candidate may
/// have lost its support, and the kernel cache.
#[derive(Drop)]
pub(crate) struct Workspace {
    pub(crate) tracked: Tracked,
    // between two calls no execution is marked, unless `Box0::closed` is `None`: then all are
    // marked first
    pub(crate) marks: Marks,
    pub(crate) memo: SupportCache,
}
