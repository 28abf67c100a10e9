//! The law of the check's result.

ghost use Rattle.wf_tree_steps.specs.Cover.Faults.{NoFaultExactlyIfCovering};

/// States that a cover has no fault exactly if it is a covering of the task.
pub fn no_fault_exactly_if_covering()
    ensures { NoFaultExactlyIfCovering }
{}
