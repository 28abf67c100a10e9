//! Laws of decision maps: how they correspond to the solutions of a task's problem.

ghost use Rattle.wf_model.specs.Laws.Maps.{TasksHaveListedValues, ProblemsOfTasksAreWellFormed};
ghost use Rattle.wf_model.specs.Laws.Maps.{FirstAppearancesAreThePoints, ListedMapsAreSolutions};
ghost use Rattle.wf_model.specs.Laws.Maps.{SolutionsAreMapsByNumber, MapsLieInTheRoot};
ghost use Rattle.wf_model.specs.Laws.Maps.{SolutionsLieInTheRoot, LeastSolutionIsTheLeastMap};
ghost use Rattle.wf_model.specs.Laws.Maps.{AllSolutionsAreFound, FaultlessMapsAreSolutions};

/// States that every value in a tuple of a task's Δ occurs in the output complex.
pub fn tasks_have_listed_values()
    ensures { TasksHaveListedValues }
{}

/// States that the problem of a task is well-formed for any number of rounds: its executions refer
/// to its own points only and have at least one place, the processes of an execution are in
/// ascending order, and so are the problem's values.
pub fn problems_of_tasks_are_well_formed()
    ensures { ProblemsOfTasksAreWellFormed }
{}

/// States that the list of the points' first appearances has one entry for each point, in the order
/// of the points.
pub fn first_appearances_are_the_points()
    ensures { FirstAppearancesAreThePoints }
{}

/// States that decision maps and solutions correspond: the list of a decision map's values is a
/// solution, and a solution, read as a function on the views by the numbers of their points, is a
/// decision map.
pub fn maps_are_solutions()
    ensures listed { ListedMapsAreSolutions }
    ensures by_number { SolutionsAreMapsByNumber }
{}

/// States that every decision map lies in the root box, which has all output values at every point.
pub fn maps_lie_in_the_root()
    ensures { MapsLieInTheRoot }
{}

/// States that every solution of a task's problem lies in the root box, which has all output values
/// at every point.
pub fn solutions_lie_in_the_root()
    ensures { SolutionsLieInTheRoot }
{}

/// States that the least solution of a task's problem, read as a function on the views by the
/// numbers of their points, is the least decision map.
pub fn a_least_solution_is_a_least_map()
    ensures { LeastSolutionIsTheLeastMap }
{}

/// States that trying all lists of values finds exactly the solutions in the root box.
pub fn all_solutions_are_found()
    ensures { AllSolutionsAreFound }
{}

/// States that a checker finds no fault in a list of values if and only if the list is a solution.
pub fn faultless_maps_are_solutions()
    ensures { FaultlessMapsAreSolutions }
{}
