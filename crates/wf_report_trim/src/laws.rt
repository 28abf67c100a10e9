//! Laws of lifted maps, each proved as the contract of an empty function.

ghost use Rattle.wf_report_trim.specs.Laws.{ARoundMoreKeepsThePointsBefore, DecisionMapsLift, DecisionMapsLiftByRounds, LiftedMapsAreListed, MapsOfClassesLiftAsTheyAre, NoDecisionMapBefore, PointsBeforeArePoints, SolutionsLift};

/// States that lifting keeps points: replace each point of an execution by the point of the
/// process's own view one round earlier, and the result is the points of the execution without its
/// last round.
pub fn a_round_more_keeps_the_points_before()
    ensures { ARoundMoreKeepsThePointsBefore }
{}

/// States that a decision map after r rounds gives one after r + 1, and after any larger number.
///
/// So if there is no decision map after r + 1 rounds, there is none after r. If the map agrees on
/// each view and its class, as every map of a task that is not symmetric does, the lifted map needs
/// no new classes: it is the map at the process's own view one round earlier.
pub fn decision_maps_lift()
    ensures maps { DecisionMapsLift }
    ensures by_rounds { DecisionMapsLiftByRounds }
    ensures as_they_are { MapsOfClassesLiftAsTheyAre }
    ensures none { NoDecisionMapBefore }
{}

/// States that the values of a lifted map are the lifted list of the map's values, and that a
/// lifted solution is a solution.
pub fn lifted_lists()
    ensures listed { LiftedMapsAreListed }
    ensures points { PointsBeforeArePoints }
    ensures solutions { SolutionsLift }
{}
