//! Laws of least trees. A least tree of a box leads to a solution and refutes every smaller value
//! on the way. The canonical search writes the lines of such a tree if it finds a map, and a
//! checker accepts exactly the lines of such trees.

ghost use Rattle.wf_model.specs.Laws.LeastTrees.{LeastTreeHasTheLeastSolution};
ghost use Rattle.wf_model.specs.Laws.LeastTrees.{LeastTreeLeadsToTheLeastMap};
ghost use Rattle.wf_model.specs.Laws.LeastTrees.{CanonicalLinesLeadToTheMap};
ghost use Rattle.wf_model.specs.Laws.LeastTrees.{AcceptedLeastLinesLeadToTheMap};
ghost use Rattle.wf_model.specs.Laws.LeastTrees.{LinesOfALeastTreeAreAccepted};

/// States that the solution to which a least tree leads is the least solution in the tree's box, if
/// the box lists the candidates of each point in ascending order.
pub fn a_least_tree_has_the_least_solution()
    ensures { LeastTreeHasTheLeastSolution }
{}

/// States that, if a least tree leads from the root box of a task's problem to a solution, then
/// this solution is the least of all decision maps, once it is read as a function on the views.
pub fn a_least_tree_leads_to_the_least_map()
    ensures { LeastTreeLeadsToTheLeastMap }
{}

/// States that, if the canonical search finds a map, then its lines are those of a least tree that
/// leads to that map.
pub fn the_canonical_lines_lead_to_the_map()
    ensures { CanonicalLinesLeadToTheMap }
{}

/// States that the checker of least maps is sound: lines in which it finds no fault are those of a
/// least tree that leads to the map.
pub fn accepted_least_lines_lead_to_the_map()
    ensures { AcceptedLeastLinesLeadToTheMap }
{}

/// States that the checker of least maps is complete: it finds no fault in the lines of any least
/// tree that leads to the map.
pub fn lines_of_a_least_tree_are_accepted()
    ensures { LinesOfALeastTreeAreAccepted }
{}
