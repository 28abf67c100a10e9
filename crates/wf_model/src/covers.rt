//! Laws of ordered covers. An ordered cover of a box is a list of boxes such that each solution in
//! the box lies in one of them, and maps in earlier boxes are smaller than maps in later ones.

ghost use Rattle.wf_model.specs.Laws.Covers.{MapsOfACoverAreInOrder, SolutionLiesInOneBoxOfACover};
ghost use Rattle.wf_model.specs.Laws.Covers.{FirstMapOfACoverIsTheLeast, BranchesCoverTheRoot};
ghost use Rattle.wf_model.specs.Laws.Covers.{BranchesAreClosed};

/// States that a map in an earlier box of an ordered cover is smaller than any map in a later one,
/// and that each solution in the covered box lies in exactly one box of the cover.
pub fn boxes_of_a_cover_are_in_order()
    ensures in_order { MapsOfACoverAreInOrder }
    ensures exactly_one { SolutionLiesInOneBoxOfACover }
{}

/// States that, if a box of an ordered cover is the first that has a solution, then its least
/// solution is the least one of the whole covered box.
pub fn the_first_map_of_a_cover_is_the_least()
    ensures { FirstMapOfACoverIsTheLeast }
{}

/// States that the branches into which a problem is split are an ordered cover of its root box, and
/// that each branch is a closed box within the root box with a candidate at every point.
pub fn split_covers_in_order()
    ensures cover { BranchesCoverTheRoot }
    ensures branches { BranchesAreClosed }
{}
