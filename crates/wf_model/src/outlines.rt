//! Laws of outlines. The outline of a problem consists of the lines that splitting its root box
//! into branches writes, with a gap for each branch, which the lines of the branch's search fill.

ghost use Rattle.wf_model.specs.Laws.Outlines.{OutlinesLeaveOutTheBranches, BranchesAreFew};
ghost use Rattle.wf_model.specs.Laws.Outlines.{FilledOutlinesRefute, FilledOutlinesAreCanonical};
ghost use Rattle.wf_model.specs.Laws.Outlines.{FilledOutlinesLeadToTheMap};

/// States that the gaps of a problem's outline belong to exactly the branches of the problem, and
/// that a problem with at most 256 values has at most 63 · 256 branches.
pub fn an_outline_leaves_out_the_branches()
    ensures branches { OutlinesLeaveOutTheBranches }
    ensures few { BranchesAreFew }
{}

/// States that, if each gap of a problem's outline is filled with lines that refute the branch
/// there, then the result refutes the root box.
pub fn a_filled_outline_refutes()
    ensures { FilledOutlinesRefute }
{}

/// States that, if the canonical search finds no map in any branch, and its lines fill the gaps of
/// the problem's outline, then the result is what the canonical search of the root box writes.
pub fn a_filled_outline_is_canonical()
    ensures { FilledOutlinesAreCanonical }
{}

/// States that the outline leads to the map of the first branch that has one. If the lines of the
/// canonical searches of the branches up to that one fill their gaps, and the outline ends there,
/// then the result is what the canonical search of the root box writes, which finds the same map.
pub fn a_filled_outline_leads_to_the_map()
    ensures { FilledOutlinesLeadToTheMap }
{}
