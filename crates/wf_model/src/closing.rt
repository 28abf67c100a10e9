//! Laws of closing: it keeps every solution, it leaves a closed box, and closing a closed box
//! changes nothing. A box is closed if a sweep over all executions removes no candidate from it.

ghost use Rattle.wf_model.specs.Laws.Closing.{ClosingKeepsSolutions, ClosingLeavesAClosedBox};
ghost use Rattle.wf_model.specs.Laws.Closing.{ClosedBoxesSupportTheirCandidates};
ghost use Rattle.wf_model.specs.Laws.Closing.{ClosingAClosedBoxChangesNothing};
ghost use Rattle.wf_model.specs.Laws.Closing.{ClosedBoxesOfSingleCandidatesAreSolutions};

/// States that closing keeps solutions: each solution in a box also lies in the box that closing
/// leaves. So closing empties no box that has a solution.
pub fn closing_keeps_solutions()
    ensures { ClosingKeepsSolutions }
{}

/// States that, unless closing empties a point, it leaves a closed box within the given one: a
/// sweep of it removes no candidate, and every point has a candidate.
pub fn closing_leaves_a_closed_box()
    ensures { ClosingLeavesAClosedBox }
{}

/// States that every candidate in a closed box is supported: if a sweep removes nothing, then each
/// candidate of each point is supported in every execution and at every place where the point
/// occurs.
pub fn closed_boxes_support_their_candidates()
    ensures { ClosedBoxesSupportTheirCandidates }
{}

/// States that closing a closed box writes no line and leaves the box unchanged.
pub fn closing_a_closed_box_changes_nothing()
    ensures { ClosingAClosedBoxChangesNothing }
{}

/// States that a closed box with exactly one candidate at each point is a solution.
pub fn closed_boxes_of_single_candidates_are_solutions()
    ensures { ClosedBoxesOfSingleCandidatesAreSolutions }
{}
