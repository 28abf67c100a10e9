//! Laws of refutations: they are sound, and a checker accepts exactly the lines of refutations.

ghost use Rattle.wf_model.specs.Laws.Refutations.{NoTreeRefutesASolution, RefutationLeavesNoMap};
ghost use Rattle.wf_model.specs.Laws.Refutations.{AcceptedLinesRefute, RefutingLinesAreAccepted};

/// States that no tree refutes a box that contains a solution.
pub fn no_tree_refutes_a_solution()
    ensures { NoTreeRefutesASolution }
{}

/// States that, if a tree refutes the root box of a task's problem, then no function on the views
/// is a decision map.
pub fn a_refutation_leaves_no_map()
    ensures { RefutationLeavesNoMap }
{}

/// States that the checker of refutations is sound: lines in which it finds no fault are those of a
/// tree that refutes the root box.
pub fn accepted_lines_refute()
    ensures { AcceptedLinesRefute }
{}

/// States that the checker of refutations is complete: it finds no fault in the lines of any tree
/// that refutes the root box.
pub fn refuting_lines_are_accepted()
    ensures { RefutingLinesAreAccepted }
{}
