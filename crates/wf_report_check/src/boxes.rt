//! Data types of the box that the checked lines are about, and of its trail.

ghost use Rattle.std.specs.Prelude.{◌≡◌, true, reverse};
ghost use Rattle.wf_report_check.specs.Settled.{are_settled, is_settled};

use wf_base::set::Mask;

/// An entry of the trail, which tells how to go back to earlier boxes.
#[derive(Clone, Copy, Debug, Drop)]
pub(crate) enum TrailEntry {
    /// The candidates that a point had before a change.
    Was {
        /// The point's index.
        point: u32,
        /// The candidates before the change.
        set: Mask,
    },
    /// A branching at a point, and the values whose blocks are still to come.
    Later {
        /// The point's index.
        point: u32,
        /// The lower bound [`Blocks::low`] at the branching: each point below had at most one
        /// candidate.
        low: usize,
        /// The values whose blocks are still to come.
        values: Mask,
    },
}

/// The current box, and the trail back to the boxes that are still to be refuted.
#[derive(Drop)]
pub(crate) struct Blocks {
    // the candidates of each point
    pub(crate) sets: Vec<Mask>,
    // the changes to `sets` and the branchings, oldest first
    pub(crate) trail: Vec<TrailEntry>,
    // each point below this one has at most one candidate
    pub(crate) low: usize,
    ghost settled: { is_settled low sets.items ≡ true },
    ghost way_settled: { are_settled (reverse trail.items) sets.items ≡ true },
}
