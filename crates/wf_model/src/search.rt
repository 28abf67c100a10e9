//! Laws of the canonical search: its steps, and what its result means.

ghost use Rattle.wf_model.specs.Laws.Search.{CanonicalSearchGoesBySteps, CanonicalSearchRefutes};
ghost use Rattle.wf_model.specs.Laws.Search.{CanonicalMapIsTheLeastSolution};
ghost use Rattle.wf_model.specs.Laws.Search.{CanonicalMapIsTheLeastMap, CanonicalSearchLeavesNoMap};
ghost use Rattle.wf_model.specs.Laws.Search.{BoxHasOneLeastSolution};

/// States that the canonical search of a box first closes it, and then searches the branches of the
/// closed box.
pub fn the_canonical_search_by_steps()
    ensures { CanonicalSearchGoesBySteps }
{}

/// States that, if the canonical search finds no map in a box, then its lines are those of a tree
/// that refutes the box.
pub fn the_canonical_search_refutes()
    ensures { CanonicalSearchRefutes }
{}

/// States that a map found by the canonical search of a box is the least solution in that box.
pub fn the_canonical_map_is_the_least_solution()
    ensures { CanonicalMapIsTheLeastSolution }
{}

/// States what the canonical search of a task's root box decides: a map that it finds is the least
/// of all decision maps, once it is read as a function on the views; and if it finds none, then no
/// function on the views is a decision map.
pub fn the_canonical_answer()
    ensures map { CanonicalMapIsTheLeastMap }
    ensures none { CanonicalSearchLeavesNoMap }
{}

/// States that a box has at most one least solution. So any search that finds a least solution
/// finds the map of the canonical search.
pub fn a_box_has_one_least_solution()
    ensures { BoxHasOneLeastSolution }
{}
