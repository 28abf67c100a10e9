//! Laws of whole reports: a report without a fault is true, and a checker finds no fault in true
//! reports.

ghost use Rattle.wf_model.specs.Laws.Reports.{AcceptedReportsCountTheProcesses};
ghost use Rattle.wf_model.specs.Laws.Reports.{AcceptedReportsCountTheRounds};
ghost use Rattle.wf_model.specs.Laws.Reports.{AcceptedReportsCountThePoints};
ghost use Rattle.wf_model.specs.Laws.Reports.{AcceptedReportsCountTheExecutions};
ghost use Rattle.wf_model.specs.Laws.Reports.{AcceptedMapsAreDecisionMaps, AcceptedMapsAreListed};
ghost use Rattle.wf_model.specs.Laws.Reports.{AcceptedRefutationsLeaveNoMap};
ghost use Rattle.wf_model.specs.Laws.Reports.{AcceptedLeastMapsAreTheLeast};
ghost use Rattle.wf_model.specs.Laws.Reports.{AcceptedLeastMapsAreListed, DecisionMapsAreAccepted};
ghost use Rattle.wf_model.specs.Laws.Reports.{RefutationsAreAccepted, LeastTreesAreAccepted};
ghost use Rattle.wf_model.specs.Laws.Reports.{CanonicalRefutationsAreAccepted};
ghost use Rattle.wf_model.specs.Laws.Reports.{CanonicalLeastMapsAreAccepted};

/// States that every report in which a checker finds no fault is true.
///
/// Such a report has the task's number of processes, the number of rounds, and the numbers of
/// points and executions. If its body is a map, then that is a decision map, listed over the
/// points. If its body is a map with lines, then that is the least decision map. If its body is
/// lines only, then no function on the views is a decision map.
pub fn accepted_reports_are_true()
    ensures processes { AcceptedReportsCountTheProcesses }
    ensures rounds { AcceptedReportsCountTheRounds }
    ensures point_count { AcceptedReportsCountThePoints }
    ensures execution_count { AcceptedReportsCountTheExecutions }
    ensures map { AcceptedMapsAreDecisionMaps }
    ensures listed_map { AcceptedMapsAreListed }
    ensures no_map { AcceptedRefutationsLeaveNoMap }
    ensures least_map { AcceptedLeastMapsAreTheLeast }
    ensures listed_least_map { AcceptedLeastMapsAreListed }
{}

/// States that a checker finds no fault in a true report. True reports contain one of these:
///
/// - any decision map, listed over the points;
/// - the lines of any tree that refutes the root box;
/// - a decision map with the lines of any least tree that leads to it;
/// - the result of the canonical search, whether it finds a map or not.
pub fn true_reports_are_accepted()
    ensures map { DecisionMapsAreAccepted }
    ensures refutation { RefutationsAreAccepted }
    ensures least_tree { LeastTreesAreAccepted }
    ensures canonical_none { CanonicalRefutationsAreAccepted }
    ensures canonical_least { CanonicalLeastMapsAreAccepted }
{}
